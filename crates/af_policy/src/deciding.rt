ghost use Rattle.std.specs.Prelude.{◌≡◌, ◌⊎◌, [], true, None, Some, Ok, Err, IfOk, IfErr};
ghost use Rattle.std.specs.Option.{option_copied};
ghost use Rattle.af_role.specs.Pairs.{PairRow};
ghost use Rattle.af_policy.specs.Grants.{grants, missing};
ghost use Rattle.af_policy.specs.Views.{held};
ghost use Rattle.af_policy.specs.Versions.{Decides, IsDecided, asked_by, asked_wants, decided, decided_wants, permitted, permitted_wants};
ghost use Rattle.af_policy.specs.Changes.{changed, kind_of, needs_of};
ghost use Rattle.af_policy.specs.declared.ask.Ask.TheVariants.{Made};

use crate::{Ask, Bearer, Change, Decision, Policy, Presented, Refusal, View};
use af_names::{DagId, UserName};
use std::alloc::Global;

impl Policy {
    /// What a change that is asked for under this policy comes to: its author, the change and the next policy, or the first fault of
    /// `Refusal`, which is one of a decision. Out of memory is told only where the change is permitted and may want it.
    pub fn decide(
        &self,
        alloc: Global,
        token: Option<&Presented<'_>>,
        ask: &Ask,
    ) -> Result<Decision, Refusal>
        ensures ok { IfOk result (λ d. Decides self.now (option_copied token.entry) ask.now d) }
        ensures wants { IfOk result (λ d. decided_wants self.now (option_copied token.entry) ask.now ≡ true) }
        ensures err { IfErr result (λ fault. (decided self.now (option_copied token.entry) ask.now ≡ Err fault) ⊎ (fault ≡ Refusal.OutOfMemory)) }
        ensures kind { IfErr result (λ fault. IsDecided fault) }
        ensures memory { result ≡ Err Refusal.OutOfMemory → decided_wants self.now (option_copied token.entry) ask.now ≡ true }
    {
        match token {
            Some(token) => match self.bearer_view(token.digest()) {
                Some(Bearer { user, view }) => self.decide_for(alloc, user, &view, ask),
                None => Err(Refusal::Unauthenticated),
            },
            None => Err(Refusal::Unauthenticated),
        }
    }

    /// What a change comes to that a user asks for whom the policy grants this.
    fn decide_for(
        &self,
        alloc: Global,
        user: &UserName,
        view: &View<'_>,
        ask: &Ask,
    ) -> Result<Decision, Refusal>
        requires { (pair : PairRow) → held view.now pair ≡ grants self.now user.now pair }
        ensures author { IfOk result (λ d. d.author ≡ user.now) }
        ensures asked { IfOk result (λ d. ask.now ≡ Made d.change) }
        ensures lacks_nothing { IfOk result (λ d. missing self.now user.now (needs_of (kind_of d.change)) None [] ≡ None) }
        ensures made { IfOk result (λ d. changed self.now d.change ≡ Ok d.policy) }
        ensures ok { IfOk result (λ d. asked_by self.now ask.now (Some user.now) ≡ Ok d.policy) }
        ensures wants { IfOk result (λ d. asked_wants self.now ask.now (Some user.now) ≡ true) }
        ensures err { IfErr result (λ fault. (asked_by self.now ask.now (Some user.now) ≡ Err fault) ⊎ (fault ≡ Refusal.OutOfMemory)) }
        ensures kind { IfErr result (λ fault. IsDecided fault) }
        ensures memory { result ≡ Err Refusal.OutOfMemory → asked_wants self.now ask.now (Some user.now) ≡ true }
    {
        let dags: &[DagId] = &[];
        match view.missing(ask.kind().needs(), None, dags) {
            Some(need) => Err(Refusal::Denied(need)),
            None => {
                let (change, policy) = self.permit(alloc, ask)?;
                let author = user.copied(alloc)?;
                Ok(Decision {
                    author,
                    change,
                    policy,
                })
            }
        }
    }

    /// What a change that is permitted comes to.
    #[tactic(auto, using(crate::proofs::VersionLemmas::refused_memory))]
    fn permit(&self, alloc: Global, ask: &Ask) -> Result<(Change, Policy), Refusal>
        ensures asked { IfOk result (λ made. ask.now ≡ Made made.0) }
        ensures made { IfOk result (λ made. changed self.now made.0 ≡ Ok made.1) }
        ensures ok { IfOk result (λ made. permitted self.now ask.now ≡ Ok made.1) }
        ensures wants { IfOk result (λ made. permitted_wants self.now ask.now ≡ true) }
        ensures err { IfErr result (λ fault. (permitted self.now ask.now ≡ Err fault) ⊎ (fault ≡ Refusal.OutOfMemory)) }
        ensures kind { IfErr result (λ fault. IsDecided fault) }
        ensures memory { result ≡ Err Refusal.OutOfMemory → permitted_wants self.now ask.now ≡ true }
    {
        match ask {
            Ask::Made(change) => {
                let policy = self.changed(alloc, change)?;
                let change = change.copy(alloc)?;
                Ok((change, policy))
            }
            Ask::Bad(_, input) => Err(Refusal::BadBody(*input)),
        }
    }
}

ghost use Rattle.std.specs.Prelude.{◌≡◌, List, ℕ, IfOk, map};
ghost use Rattle.std.specs.Option.{option_copied};
ghost use Rattle.af_role.specs.Pairs.{PairRow};
ghost use Rattle.af_policy.specs.Grants.{grants, missing, reads, reads_dag, reads_runs, reads_runs_of};
ghost use Rattle.af_policy.specs.Views.{held};

use af_names::{DagId, NamesDag, UserName};
use af_policy::{Policy, View};
use af_role::Need;
use std::alloc::AllocError;
use std::marker::Model;

/// A policy as it is published. Contracts see it as the policy that it keeps.
pub struct Compiled {
    policy: Policy,
}

impl Drop for Compiled {
    fn drop(self) {
        let Compiled { policy: _ } = self;
    }
}

impl Model for Compiled {
    ghost use Rattle.af_policy.specs.Rows.{PolicyRows};

    ghost Value = { PolicyRows };

    ghost view = { λ compiled. compiled.policy };
}

impl Compiled {
    /// Compiles a policy. The policy is kept, and shares all rows with this one, and with the rows the masks of the roles.
    /// `AllocError` only where a growth was refused.
    pub fn of(policy: &Policy) -> Result<Compiled, AllocError>
        ensures { IfOk result (λ compiled. compiled ≡ policy.now) }
    {
        let policy = policy.copy()?;
        Ok(Compiled { policy })
    }

    /// The policy.
    pub fn policy(&self) -> &Policy
        ensures { result.now ≡ self.now }
    {
        &self.policy
    }

    /// What the policy grants a user, whose row is looked up once.
    pub fn view(&self, user: &UserName) -> View<'_>
        ensures held { (pair : PairRow) → held result pair ≡ grants self.now user.now pair }
        ensures reads { (dag : List ℕ) → reads_dag (held result) dag ≡ reads self.now user.now dag }
        ensures runs { (dag : List ℕ) → reads_runs_of (held result) dag ≡ reads_runs self.now user.now dag }
    {
        self.policy.view(user)
    }

    /// The first requirement that a user lacks, in the order of `needs`, where the request is about this DAG, or about
    /// none, and these DAGs are there. None where the user lacks nothing.
    pub fn missing<T: NamesDag>(
        &self,
        user: &UserName,
        needs: &[Need],
        dag: Option<&DagId>,
        dags: &[T],
    ) -> Option<Need>
        ensures { result ≡ missing self.now user.now needs.now (option_copied dag.entry) (map T.dag dags.now) }
    {
        self.policy.missing(user, needs, dag, dags)
    }
}

ghost use Rattle.std.specs.Prelude.{◌≡◌, IfSome};
ghost use Rattle.std.specs.Option.{option_copied, option_map};
ghost use Rattle.af_role.specs.Pairs.{PairRow};
ghost use Rattle.af_policy.specs.Grants.{grants};
ghost use Rattle.af_policy.specs.Identity.{bearer_of};
ghost use Rattle.af_policy.specs.Views.{held};

use crate::ledger::Ledger;
use af_policy::{Bearer, Policy, Presented};

/// Who brings a token, and what the policy grants that user.
pub(super) fn bearer<'p>(policy: &'p Policy, token: Option<&Presented<'_>>) -> Option<Bearer<'p>>
    ensures user { option_map (λ bearer. bearer.user.now) result ≡ bearer_of policy.now (option_copied token.entry) }
    ensures held { IfSome result (λ bearer. (pair : PairRow) → held bearer.view pair ≡ grants policy.now bearer.user.now pair) }
{
    match token {
        Some(token) => policy.bearer_view(token.digest()),
        None => None,
    }
}

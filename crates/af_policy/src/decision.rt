use crate::{Change, Policy};
use af_names::UserName;

/// A change that its author may make under a policy, and the policy that it makes of it.
#[derive(Drop)]
pub struct Decision {
    pub author: UserName,
    pub change: Change,
    pub policy: Policy,
}

use crate::{RoleShown, UserShown};

/// What is told of a change that was made.
#[derive(Drop)]
pub enum ChangeReply<'a> {
    /// The role as it then stands.
    Role(RoleShown<'a>),
    /// The user as it then stands.
    User(UserShown<'a>),
    /// The role or the user is gone.
    Gone,
    /// A DAG's access control was taken over.
    Synced,
}

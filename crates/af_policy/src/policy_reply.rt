use crate::{Page, RoleShown, UserShown};

/// What is told of a policy.
#[derive(Drop)]
pub enum PolicyReply<'a> {
    /// Some of its roles.
    Roles(Page<RoleShown<'a>>),
    /// One role.
    Role(RoleShown<'a>),
    /// Some of its users.
    Users(Page<UserShown<'a>>),
    /// One user.
    User(UserShown<'a>),
}

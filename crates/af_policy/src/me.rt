use crate::{Granted, UserShown};

/// Who brings a token: the user, the roles in byte order, and the permissions of all of them, each once, in the order in
/// which permissions are shown.
#[derive(Drop)]
pub struct Me<'a> {
    pub user: UserShown<'a>,
    pub permissions: Granted<'a>,
}

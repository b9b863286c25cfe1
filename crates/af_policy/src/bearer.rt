use crate::View;
use af_names::UserName;

/// Who brings a token, and what the policy grants that user.
#[derive(Drop)]
pub struct Bearer<'a> {
    pub user: &'a UserName,
    pub view: View<'a>,
}

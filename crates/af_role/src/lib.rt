//! Permissions and roles: what may be done, on what, and which permissions each role lists.
#![tactic(auto)]

mod access;
mod action;
mod actions;
mod dag_marks;
mod dag_mask;
mod dag_part;
mod defaults;
mod kind_mask;
mod mask;
mod need;
mod pair;
mod pair_fault;
mod pair_text;
mod pair_texts;
mod permissions;
mod resource;
mod role;
mod sync;
mod sync_fault;
mod text;
pub mod worked;

pub use access::{AccessControl, AccessRow};
pub use action::Action;
pub use actions::Actions;
pub use dag_mask::{DagActions, DagMask};
pub use dag_part::DagPart;
pub use defaults::default_roles;
pub use kind_mask::KindMask;
pub use mask::Mask;
pub use need::Need;
pub use pair::Pair;
pub use pair_fault::PairFault;
pub use pair_text::{PairText, PairTexts};
pub use pair_texts::{check_pairs, read_pairs};
pub use permissions::Permissions;
pub use resource::{Resource, ResourceKind};
pub use role::Role;
pub use sync::sync_access;
pub use sync_fault::SyncFault;
pub use text::{Text, Texts};

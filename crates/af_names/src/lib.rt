//! Names that keep their grammar, instants that keep their range, and the points of the schedules with a name.
#![tactic(auto)]

mod days;
mod instant;
mod instant_error;
mod kinds;
mod name;
mod name_error;
mod names_dag;
mod points;
mod preset;
pub mod worked;

pub use instant::Instant;
pub use instant_error::InstantError;
pub use kinds::{
    AccountSpelling, DagId, DagKind, DagMark, IdSpelling, KindOf, PoolKind, PoolMark, PoolName,
    RoleKind, RoleMark, RoleName, RowSpelling, RunId, RunKind, RunMark, RunSpelling, TaskId,
    TaskKind, TaskMark, UserKind, UserMark, UserName, VarKey, VarKind, VarMark,
};
pub use name::{Name, NameKind};
pub use name_error::NameError;
pub use names_dag::NamesDag;
pub use preset::Preset;

ghost use Rattle.std.specs.Prelude.{◌≡◌, IfOk, string_bytes};
ghost use Rattle.std.specs.Option.{option_copied};
ghost use Rattle.af_role.specs.Needs.{need_text};

use crate::{Action, ResourceKind};
use af_names::DagId;
use std::alloc::{AllocError, Global};

/// What an operation requires of its user: an action on a kind of resource or, with `at_dag`, at the one DAG that the
/// request names.
#[derive(Clone, Copy, Debug, PartialEq, Eq)]
pub struct Need {
    pub action: Action,
    pub kind: ResourceKind,
    pub at_dag: bool,
}

impl Need {
    /// How the requirement is written where a request about this DAG, or about none, lacks it: `DAG:d.can_read`, or
    /// `DAG Runs.can_read`. `AllocError` only where a growth was refused.
    pub fn text(self, alloc: Global, dag: Option<&DagId>) -> Result<String, AllocError>
        ensures { IfOk result (λ text. string_bytes text ≡ need_text self (option_copied dag.entry)) }
    {
        let action = self.action;
        let kind = self.kind;
        match dag {
            Some(dag) if self.at_dag && kind == ResourceKind::Dags => {
                format!(in alloc; "DAG:{dag}.{action}")
            }
            _ => format!(in alloc; "{kind}.{action}"),
        }
    }
}

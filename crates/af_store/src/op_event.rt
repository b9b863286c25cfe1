ghost use Rattle.std.specs.Prelude.{◌≡◌};
ghost use Rattle.af_store.specs.Bodies.{same_text};
ghost use Rattle.af_store.specs.EntryReads.{op_in, op_text};

/// An operation that changes the state.
#[derive(Clone, Copy, Debug, PartialEq, Eq)]
pub enum OpEvent {
    PauseDag,
    TriggerRun,
    MarkRun,
    DeleteRun,
    ClearRun,
    ClearInstances,
    BackfillDag,
    AddPool,
    ChangePool,
    DeletePool,
    AddVariable,
    ChangeVariable,
    DeleteVariable,
}

/// Every operation that changes the state.
const OP_EVENTS: [OpEvent; 13] = [
    OpEvent::PauseDag,
    OpEvent::TriggerRun,
    OpEvent::MarkRun,
    OpEvent::DeleteRun,
    OpEvent::ClearRun,
    OpEvent::ClearInstances,
    OpEvent::BackfillDag,
    OpEvent::AddPool,
    OpEvent::ChangePool,
    OpEvent::DeletePool,
    OpEvent::AddVariable,
    OpEvent::ChangeVariable,
    OpEvent::DeleteVariable,
];

impl OpEvent {
    /// The operation whose event has this text.
    pub(crate) fn read(text: &str) -> Option<OpEvent>
        ensures { result ≡ op_in text.now }
    {
        OP_EVENTS
            .iter()
            .copied()
            .find(|event| is_text(*event, text))
    }

    /// The text of its event, as event logs have it.
    fn text(self) -> &'static str
        ensures { result.now ≡ op_text self }
    {
        match self {
            OpEvent::PauseDag => "patch_dag",
            OpEvent::TriggerRun => "trigger_dag_run",
            OpEvent::MarkRun => "patch_dag_run",
            OpEvent::DeleteRun => "delete_dag_run",
            OpEvent::ClearRun => "clear_dag_run",
            OpEvent::ClearInstances => "clear_task_instances",
            OpEvent::BackfillDag => "backfill",
            OpEvent::AddPool => "post_pool",
            OpEvent::ChangePool => "patch_pool",
            OpEvent::DeletePool => "delete_pool",
            OpEvent::AddVariable => "post_variable",
            OpEvent::ChangeVariable => "patch_variable",
            OpEvent::DeleteVariable => "delete_variable",
        }
    }
}

fn is_text(event: OpEvent, text: &str) -> bool
    ensures { result ≡ same_text (op_text event) text.now }
{
    event.text() == text
}

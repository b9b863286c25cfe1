ghost use Rattle.std.specs.Prelude.{◌≡◌, Some, nat_eq};
ghost use Rattle.std.specs.List.{find};
ghost use Rattle.std.specs.Cmp.Lexicographic.{pointwise};
ghost use Rattle.af_graph.specs.States.{is_finished};
ghost use Rattle.af_graph.specs.Texts.{state_of, state_text};

/// The state of a task instance (Airflow 2, "Tasks": the possible states for a task instance).
#[derive(Clone, Copy, Debug, PartialEq, Eq)]
pub enum TaskState {
    /// The instance waits for its upstream tasks. Airflow calls this state `none`.
    NoStatus,
    /// Its trigger rule is met, and it waits for open slots of its pool.
    Scheduled,
    /// It occupies its slots and waits for the executor.
    Queued,
    /// The executor runs it.
    Running,
    /// It has ended well.
    Success,
    /// It has ended with a fault, and no try is left.
    Failed,
    /// It was left out, by its own report or by its trigger rule.
    Skipped,
    /// It was never run: its trigger rule asks for upstream tasks that didn't fail.
    UpstreamFailed,
    /// It has failed, and is tried again at its retry moment.
    UpForRetry,
}

impl TaskState {
    /// Whether the instance has ended: success, failed, skipped or upstream_failed.
    pub fn is_finished(self) -> bool
        ensures { result ≡ is_finished self }
    {
        match self {
            TaskState::Success
            | TaskState::Failed
            | TaskState::Skipped
            | TaskState::UpstreamFailed => true,
            _ => false,
        }
    }

    /// The state of that text, or none where no state has it.
    pub fn read(text: &str) -> Option<TaskState>
        ensures { result ≡ state_of text.now }
    {
        of_text(
            &[
                TaskState::NoStatus,
                TaskState::Scheduled,
                TaskState::Queued,
                TaskState::Running,
                TaskState::Success,
                TaskState::Failed,
                TaskState::Skipped,
                TaskState::UpstreamFailed,
                TaskState::UpForRetry,
            ],
            text,
        )
    }

    /// The text of the state, as Airflow has it, which `read` reads back.
    pub fn as_str(self) -> &'static str
        ensures text { result.now ≡ state_text self }
        ensures read_back { state_of result.now ≡ Some self }
    {
        match self {
            TaskState::NoStatus => "none",
            TaskState::Scheduled => "scheduled",
            TaskState::Queued => "queued",
            TaskState::Running => "running",
            TaskState::Success => "success",
            TaskState::Failed => "failed",
            TaskState::Skipped => "skipped",
            TaskState::UpstreamFailed => "upstream_failed",
            TaskState::UpForRetry => "up_for_retry",
        }
    }
}

/// The first of these whose text it is.
fn of_text(states: &[TaskState], text: &str) -> Option<TaskState>
    ensures { result ≡ find (λ state. pointwise nat_eq (state_text state) text.now) states.now }
{
    states.iter().copied().find(|state| state.as_str() == text)
}

use af_names::UserName;

/// Who does something.
#[derive(Drop)]
pub enum Actor {
    /// The user of this name.
    User(UserName),
    /// The scheduler, which ticks.
    Scheduler,
    /// An executor, which claims and reports.
    Executor,
}

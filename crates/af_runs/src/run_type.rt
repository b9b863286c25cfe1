ghost use Rattle.std.specs.Prelude.{◌≡◌, Some};
ghost use Rattle.af_runs.specs.Texts.{type_of, type_text};

/// What made a run.
#[derive(Clone, Copy, Debug, PartialEq, Eq)]
pub enum RunType {
    /// A user triggered it.
    Manual,
    /// It fell due by its DAG's schedule.
    Scheduled,
    /// A user backfilled a range of dates.
    Backfill,
}

impl RunType {
    /// The type of that text, or none where no type has it.
    pub fn read(text: &str) -> Option<RunType>
        ensures { result ≡ type_of text.now }
    {
        match text {
            "manual" => Some(RunType::Manual),
            "scheduled" => Some(RunType::Scheduled),
            "backfill" => Some(RunType::Backfill),
            _ => None,
        }
    }

    /// The text of the type, which `read` reads back.
    pub fn as_str(self) -> &'static str
        ensures text { result.now ≡ type_text self }
        ensures read_back { type_of result.now ≡ Some self }
    {
        match self {
            RunType::Manual => "manual",
            RunType::Scheduled => "scheduled",
            RunType::Backfill => "backfill",
        }
    }
}

ghost use Rattle.std.specs.Prelude.{◌≡◌, Some};
ghost use Rattle.af_sched.specs.Outcomes.{outcome_of, outcome_text};

/// How a try ended.
#[derive(Clone, Copy, Debug, PartialEq, Eq)]
pub enum Outcome {
    /// `success`
    Success,
    /// `failed`
    Failed,
    /// `skipped`
    Skipped,
}

impl Outcome {
    /// The outcome of that text, or none where no outcome has it.
    pub fn read(text: &str) -> Option<Outcome>
        ensures { result ≡ outcome_of text.now }
    {
        match text {
            "success" => Some(Outcome::Success),
            "failed" => Some(Outcome::Failed),
            "skipped" => Some(Outcome::Skipped),
            _ => None,
        }
    }

    /// The text of the outcome, which `read` reads back.
    pub fn as_str(self) -> &'static str
        ensures text { result.now ≡ outcome_text self }
        ensures read_back { outcome_of result.now ≡ Some self }
    {
        match self {
            Outcome::Success => "success",
            Outcome::Failed => "failed",
            Outcome::Skipped => "skipped",
        }
    }
}

ghost use Rattle.std.specs.Prelude.{◌≡◌, find};
ghost use Rattle.af_base.specs.JsonValue.{view};
ghost use Rattle.af_trace.specs.Kinds.{has_kind, kind_count, kind_in, kind_text, kinds};

use crate::trace_fault::TraceFault;
use af_base::{Json, member};

/// The kinds of step.
#[derive(Clone, Copy, Debug, PartialEq, Eq)]
pub enum Kind {
    Look,
    Act,
    Me,
    Publish,
    Tick,
    Claim,
    Report,
}

/// All of them.
const KINDS: [Kind; 7] = [
    Kind::Look,
    Kind::Act,
    Kind::Me,
    Kind::Publish,
    Kind::Tick,
    Kind::Claim,
    Kind::Report,
];

impl Kind {
    /// The name of the member that says that a step is of the kind.
    fn text(self) -> &'static str
        ensures { result.now ≡ kind_text self }
    {
        match self {
            Kind::Look => "look",
            Kind::Act => "act",
            Kind::Me => "me",
            Kind::Publish => "publish",
            Kind::Tick => "tick",
            Kind::Claim => "claim",
            Kind::Report => "report",
        }
    }
}

/// The kind of a step: it has a member of just one of their names.
pub fn kind_of(step: &Json<'_>) -> Result<Kind, TraceFault>
    ensures { result ≡ kind_in (view step.now) }
{
    if kind_count(step) != 1 {
        return Err(TraceFault::Form);
    }
    first_kind(step).ok_or(TraceFault::Form)
}

/// How many kinds it could be of.
fn kind_count(step: &Json<'_>) -> usize
    ensures { result ≡ kind_count (view step.now) }
{
    KINDS.iter().filter(|kind| has_kind(step, **kind)).count()
}

/// The first kind that it could be of.
fn first_kind(step: &Json<'_>) -> Option<Kind>
    ensures { result ≡ find (has_kind (view step.now)) kinds }
{
    KINDS.iter().copied().find(|kind| has_kind(step, *kind))
}

/// Whether a step has the member of that kind.
fn has_kind(step: &Json<'_>, kind: Kind) -> bool
    ensures { result ≡ has_kind (view step.now) kind }
{
    member(step, kind.text()).is_some()
}

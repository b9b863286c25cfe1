ghost use Rattle.std.specs.Prelude.{◌≡◌};
ghost use Rattle.std.specs.Bool.{Decides};

use af_ops::{Body, Shown};

/// Whether two steps were answered alike.
pub(crate) fn same_answer(one: &Option<Shown>, other: &Option<Shown>) -> bool
    ensures { Decides result (one.now ≡ other.now) }
{
    match (one, other) {
        (None, None) => true,
        (Some(one), Some(other)) => same_shown(one, other),
        _ => false,
    }
}

/// Whether two answers are the same.
fn same_shown(one: &Shown, other: &Shown) -> bool
    ensures { Decides result (one.now ≡ other.now) }
{
    one.status == other.status
        && one.version == other.version
        && one.seq == other.seq
        && same_body(&one.body, &other.body)
}

/// Whether two bodies are the same.
fn same_body(one: &Option<Body>, other: &Option<Body>) -> bool
    ensures { Decides result (one.now ≡ other.now) }
{
    match (one, other) {
        (None, None) => true,
        (Some(one), Some(other)) => one.as_bytes() == other.as_bytes(),
        _ => false,
    }
}

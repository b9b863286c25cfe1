use crate::tests::asserts::{holds, row_holds};
use af_names::{Instant, Preset};
use std::test::Fail;

/// What a text is read as.
const TEXTS: &[(Option<Preset>, &str)] = &[
    (Some(Preset::Hourly), "@hourly"),
    (Some(Preset::Daily), "@daily"),
    (Some(Preset::Weekly), "@weekly"),
    (Some(Preset::Monthly), "@monthly"),
    (None, "@yearly"),
    (None, "@Daily"),
    (None, "daily"),
    (None, ""),
];

/// Whether this is the text of a preset; of none there is no text.
fn is_text_of(preset: Option<Preset>, text: &str) -> bool {
    match preset {
        Some(preset) => preset.as_str() == text,
        None => true,
    }
}

#[test]
fn texts_of_presets(rt: HostRuntime) {
    for (preset, text) in TEXTS {
        let read = Preset::read(text);
        holds(&rt, read == *preset, text);
        holds(&rt, is_text_of(read, text), text);
    }
}

/// A preset, a moment, the last point that is no later, and the next one that is no earlier; where there is none, no text.
const POINTS: &[(Preset, &str, &str, &str)] = &[
    (
        Preset::Hourly,
        "2024-02-29T23:00:00.000001Z",
        "2024-02-29T23Z",
        "2024-03-01T00Z",
    ),
    (
        Preset::Hourly,
        "2024-02-29T23:00:00Z",
        "2024-02-29T23Z",
        "2024-02-29T23Z",
    ),
    (Preset::Hourly, "9998-12-31T23:00:01Z", "9998-12-31T23Z", ""),
    (
        Preset::Daily,
        "2023-12-31T12:00:00Z",
        "2023-12-31T00Z",
        "2024-01-01T00Z",
    ),
    (
        Preset::Daily,
        "2024-01-01T00:00:00Z",
        "2024-01-01T00Z",
        "2024-01-01T00Z",
    ),
    (
        Preset::Daily,
        "9998-12-31T23:59:59.999999Z",
        "9998-12-31T00Z",
        "",
    ),
    (
        Preset::Weekly,
        "2024-01-01T00:00:00Z",
        "2023-12-31T00Z",
        "2024-01-07T00Z",
    ),
    (
        Preset::Weekly,
        "2024-01-07T00:00:00Z",
        "2024-01-07T00Z",
        "2024-01-07T00Z",
    ),
    (Preset::Weekly, "1970-01-03T23:59:59Z", "", "1970-01-04T00Z"),
    (Preset::Weekly, "9998-12-28T00:00:00Z", "9998-12-27T00Z", ""),
    (
        Preset::Monthly,
        "2024-02-01T00:00:00Z",
        "2024-02-01T00Z",
        "2024-02-01T00Z",
    ),
    (
        Preset::Monthly,
        "2024-02-29T12:00:00Z",
        "2024-02-01T00Z",
        "2024-03-01T00Z",
    ),
    (
        Preset::Monthly,
        "2100-02-28T00:00:00.5Z",
        "2100-02-01T00Z",
        "2100-03-01T00Z",
    ),
    (
        Preset::Monthly,
        "2023-12-31T23:59:59Z",
        "2023-12-01T00Z",
        "2024-01-01T00Z",
    ),
    (
        Preset::Monthly,
        "9998-12-01T00:00:00.000001Z",
        "9998-12-01T00Z",
        "",
    ),
];

/// Whether the points of a preset about a moment are these.
fn are_points(preset: Preset, moment: &str, last: &str, next: &str) -> Result<(bool, bool), Fail> {
    let at = Instant::read(moment)?;
    Ok((
        preset.last_at_or_before(at) == Instant::read(last).ok(),
        preset.next_at_or_after(at) == Instant::read(next).ok(),
    ))
}

#[test]
fn points_of_presets(rt: HostRuntime) -> Result<(), Fail> {
    for (place, (preset, moment, last, next)) in POINTS.iter().enumerate() {
        let (is_last, is_next) = are_points(*preset, moment, last, next)?;
        row_holds(&rt, is_last, place);
        row_holds(&rt, is_next, place);
    }
    Ok(())
}

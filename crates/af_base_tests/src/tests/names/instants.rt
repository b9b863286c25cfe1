use crate::tests::asserts::{holds, row_holds};
use af_names::{Instant, InstantError};
use std::alloc::Global;
use std::test::Fail;

const BAD: Result<u64, InstantError> = Err(InstantError::BadInstant);

const OUT: Result<u64, InstantError> = Err(InstantError::OutOfRange);

/// A text, and its moment in microseconds.
const READ: &[(&str, Result<u64, InstantError>)] = &[
    ("1970-01-01T00:00:00Z", Ok(0)),
    ("2024-01-01T00:00:00.0000019Z", Ok(1_704_067_200_000_001)),
    ("2024-01-01t00:00:00z", Ok(1_704_067_200_000_000)),
    ("20240101 00Z", Ok(1_704_067_200_000_000)),
    ("2024-01-01T00:00:00,5-00:00", Ok(1_704_067_200_500_000)),
    ("2024-01-01T00:00:00+05:30:15", Ok(1_704_047_385_000_000)),
    ("2024-01-01T00:00:00+25:59", Ok(1_703_973_660_000_000)),
    ("2024-12-31T23:59:60Z", Ok(1_735_689_599_000_000)),
    (
        "2024-01-01T00:00:00Z[America/New_York]",
        Ok(1_704_067_200_000_000),
    ),
    ("+002024-02-29T00:00:00Z", Ok(1_709_164_800_000_000)),
    ("9998-12-31T23:59:59.9999999Z", Ok(253_370_764_799_999_999)),
    ("9999-01-01T00:00:00Z", OUT),
    ("1969-12-31T23:59:59.9999999Z", OUT),
    ("1969-12-31T23:59:59Z", OUT),
    ("9999-12-30T22:00:01Z", BAD),
    ("2024-13-01T00:00:00Z", BAD),
    ("2023-02-29T00:00:00Z", BAD),
    ("2024-01-01T00:00:00", BAD),
    ("2024-01-01", BAD),
    ("2024-01-01T24:00:00Z", BAD),
    ("2024-01-01T00:00:00.1234567891Z", BAD),
    ("2024-01-01T00:00:00+26:00", BAD),
    ("2024-01-01T00:00:00Z[!u-ca=hebrew]", BAD),
    ("-000000-01-01T00:00:00Z", BAD),
    ("2024-01-01T00:00:00Z ", BAD),
    ("", BAD),
];

#[test]
fn instants_read(rt: HostRuntime) {
    for (text, micros) in READ {
        holds(&rt, read_micros(text) == *micros, text);
    }
}

/// The moment of a text in microseconds.
fn read_micros(text: &str) -> Result<u64, InstantError> {
    Ok(Instant::read(text)?.micros())
}

/// A text, and how its moment is written.
const WRITTEN: &[(&str, &str)] = &[
    ("1970-01-01T00:00:00Z", "1970-01-01T00:00:00+00:00"),
    (
        "2024-01-01T00:00:00.0000019Z",
        "2024-01-01T00:00:00.000001+00:00",
    ),
    ("2024-02-29T23:59:59.5Z", "2024-02-29T23:59:59.500000+00:00"),
    ("2024-01-01T00:00:00+05:30", "2023-12-31T18:30:00+00:00"),
    (
        "2100-03-01T04:05:06.070809Z",
        "2100-03-01T04:05:06.070809+00:00",
    ),
    (
        "9998-12-31T23:59:59.9999999Z",
        "9998-12-31T23:59:59.999999+00:00",
    ),
];

/// The moment behind a text.
fn run_id(alloc: Global, instant: Instant) -> Result<String, Fail> {
    let mut text = String::from_str(alloc, "manual__")?;
    instant.write_onto(&mut text)?;
    Ok(text)
}

/// The same as a message shows it.
fn shown(alloc: Global, instant: Instant) -> Result<String, Fail> {
    Ok(format!(in alloc; "manual__{instant}")?)
}

/// Whether a moment is written so.
fn is_written(alloc: Global, instant: Instant, written: &str) -> Result<bool, Fail> {
    let text = instant.write(alloc)?;
    Ok(text.as_str() == written)
}

/// Whether a moment is written so behind a text, and is shown as it is written.
fn is_behind(alloc: Global, instant: Instant, written: &str) -> Result<(bool, bool), Fail> {
    let text = run_id(alloc, instant)?;
    let shown = shown(alloc, instant)?;
    Ok((
        text.as_str() == shown.as_str(),
        text.strip_prefix("manual__") == Some(written),
    ))
}

#[test]
fn instants_written(rt: HostRuntime) -> Result<(), Fail> {
    for (read, written) in WRITTEN {
        let instant = Instant::read(read)?;
        let is_written = is_written(rt.alloc(), instant, written)?;
        holds(&rt, is_written, read);
        let (is_shown, is_behind) = is_behind(rt.alloc(), instant, written)?;
        holds(&rt, is_shown, read);
        holds(&rt, is_behind, read);
    }
    Ok(())
}

fn micros_of(instant: Option<Instant>) -> Option<u64> {
    match instant {
        Some(instant) => Some(instant.micros()),
        None => None,
    }
}

/// Microseconds, seconds that are added to their moment, and the moment that comes of it.
const NUMBERS: &[(u64, u32, Option<u64>)] = &[
    (0, 0, Some(0)),
    (1, 300, Some(300_000_001)),
    (1_704_067_200_000_000, u32::MAX, Some(5_999_034_495_000_000)),
    (253_370_764_798_999_999, 1, Some(253_370_764_799_999_999)),
    (253_370_764_799_000_000, 1, None),
    (253_370_764_799_999_999, 1, None),
];

/// The moment of a number, and the one so many seconds later.
fn sum_of(micros: u64, seconds: u32) -> Result<(u64, Option<u64>), Fail> {
    let instant = Instant::of_micros(micros).ok_or(InstantError::OutOfRange)?;
    Ok((instant.micros(), micros_of(instant.plus_seconds(seconds))))
}

/// Microseconds past the last moment.
const PAST: &[u64] = &[253_370_764_800_000_000, u64::MAX];

#[test]
fn instants_by_number(rt: HostRuntime) -> Result<(), Fail> {
    for (place, (micros, seconds, later)) in NUMBERS.iter().enumerate() {
        let (same, sum) = sum_of(*micros, *seconds)?;
        row_holds(&rt, same == *micros, place);
        row_holds(&rt, sum == *later, place);
    }
    for past in PAST {
        holds(&rt, Instant::of_micros(*past).is_none(), "past the end");
    }
    Ok(())
}

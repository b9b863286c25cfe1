use crate::tests::asserts::row_holds;
use af_graph::{Points, Schedule};
use af_names::{Instant, Preset};
use std::process::Abort;

/// 2024-02-01T00:00:00Z, and a month later.
const FEBRUARY: u64 = 1_706_745_600_000_000;

const MARCH: u64 = 1_709_251_200_000_000;

/// 2024-01-01T00:00:30Z, and ninety seconds later.
const FIRST: u64 = 1_704_067_230_000_000;

const SECOND: u64 = 1_704_067_320_000_000;

/// The first moment at or after one, the first after it, or the last at or before it.
#[derive(Clone, Copy)]
enum Call {
    Next,
    After,
    Last,
}

use Call::{After, Last, Next};

/// The moment of this text.
fn at(rt: &impl Abort, text: &str) -> Instant {
    Instant::read(text).expect(rt, "a moment")
}

/// What a schedule of these points from a start date answers, in microseconds.
fn answered(points: Points, start_date: Instant, call: Call, at: Instant) -> Option<u64> {
    let schedule = Schedule { points, start_date };
    let found = match call {
        Next => schedule.next_at_or_after(at),
        After => schedule.next_after(at),
        Last => schedule.last_at_or_before(at),
    };
    match found {
        Some(instant) => Some(instant.micros()),
        None => None,
    }
}

const MONTHS: Points = Points::Preset(Preset::Monthly);

const HOURS: Points = Points::Preset(Preset::Hourly);

const STEPS: Points = Points::Seconds(90);

const JANUARY: &str = "2024-01-31T00:00:00Z";

const THIRTY: &str = "2024-01-01T00:00:30Z";

const END: &str = "9998-12-31T23:59:59Z";

/// Points, a start date, what is asked at which moment, and what is answered, in microseconds.
type Row = (Points, &'static str, Call, &'static str, Option<u64>);

const MOMENTS: &[Row] = &[
    (
        MONTHS,
        JANUARY,
        Next,
        "2020-02-02T00:00:00Z",
        Some(FEBRUARY),
    ),
    (
        MONTHS,
        JANUARY,
        Next,
        "2024-02-01T00:00:00Z",
        Some(FEBRUARY),
    ),
    (MONTHS, JANUARY, After, "2024-02-01T00:00:00Z", Some(MARCH)),
    (MONTHS, JANUARY, Last, "2024-01-31T00:00:00Z", None),
    (MONTHS, JANUARY, Last, "2024-03-01T00:00:00Z", Some(MARCH)),
    (STEPS, THIRTY, Next, "2023-01-01T00:00:00Z", Some(FIRST)),
    (
        STEPS,
        THIRTY,
        Next,
        "2024-01-01T00:01:59.999999Z",
        Some(SECOND),
    ),
    (STEPS, THIRTY, After, "2024-01-01T00:00:30Z", Some(SECOND)),
    (
        STEPS,
        THIRTY,
        Last,
        "2024-01-01T00:01:59.999999Z",
        Some(FIRST),
    ),
    (STEPS, THIRTY, Last, "2024-01-01T00:00:29Z", None),
    (Points::Seconds(1), END, After, END, None),
    (HOURS, END, Next, END, None),
    (HOURS, END, Last, END, None),
];

#[test]
fn moments_from_a_start_date(rt: HostRuntime) {
    for (row, (points, start, call, moment, wanted)) in MOMENTS.iter().enumerate() {
        let told = answered(*points, at(&rt, start), *call, at(&rt, moment));
        row_holds(&rt, told == *wanted, row);
    }
}

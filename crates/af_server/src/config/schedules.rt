// The schedule of a DAG of the configuration, with its start date.
ghost use Rattle.std.specs.Prelude.{◌≡◌};
ghost use Rattle.af_base.specs.JsonValue.{view};
ghost use Rattle.af_server.specs.DagRows.{points_of, schedule_in, start_in};

use crate::members::number_within;
use crate::reason::Reason;
use af_base::{Json, member, required_text};
use af_graph::{Points, Schedule};
use af_names::{Instant, Preset};

/// The most seconds between two points: a year of 365 days.
const LONGEST_STEP: u32 = 31_536_000;

/// Reads the schedule, none where runs come by hand alone. The start date is read only where there is one.
pub fn read_schedule(row: &Json<'_>) -> Result<Option<Schedule>, Reason>
    ensures { result ≡ schedule_in (view row.now) }
{
    let Some(value) = member(row, "schedule") else {
        return Ok(None);
    };
    let points = read_points(value)?;
    let start_date = read_start(row)?;
    Ok(Some(Schedule { points, start_date }))
}

/// The preset of a text, or a number of seconds.
fn read_points(value: &Json<'_>) -> Result<Points, Reason>
    ensures { result ≡ points_of (view value.now) }
{
    match value.as_str() {
        Some(text) => match Preset::read(text) {
            Some(preset) => Ok(Points::Preset(preset)),
            None => Err(Reason::Schedule),
        },
        None => Ok(Points::Seconds(number_within(value, 1, LONGEST_STEP)?)),
    }
}

fn read_start(row: &Json<'_>) -> Result<Instant, Reason>
    ensures { result ≡ start_in (view row.now) }
{
    let text = required_text(row, "start_date", Reason::Schedule)?;
    match Instant::read(text) {
        Ok(start) => Ok(start),
        Err(_) => Err(Reason::Schedule),
    }
}

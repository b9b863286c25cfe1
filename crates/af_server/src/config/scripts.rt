// The script of a task of the configuration: how its tries end.
ghost use Rattle.std.specs.Prelude.{◌≡◌, map, []};
ghost use Rattle.af_base.specs.JsonValue.{view};
ghost use Rattle.af_base.specs.Readings.{OrMemory, Makes, seen, taking};
ghost use Rattle.af_server.specs.declared.reason.Reason.{Reason};
ghost use Rattle.af_server.specs.Tasks.{outcome_of, outcome_taken, script_taken};

use super::upstream::text_of;
use crate::reason::Reason;
use af_base::Json;
use af_names::{DagId, TaskId};
use af_sched::{Outcome, Script};
use std::alloc::Global;

/// Adds the script of a task, where its row has one.
pub fn add_script(
    alloc: Global,
    dag_id: &DagId,
    task_id: &TaskId,
    scripts: &mut Vec<Script>,
    row: &Json<'_>,
) -> Result<(), Reason>
    ensures { Makes Reason.Memory (script_taken dag_id.now task_id.now scripts.old.items (view row.now)) scripts.new.items result }
{
    match af_base::optional_list(row, "script", Reason::Shape)? {
        None => Ok(()),
        Some(values) => {
            let outcomes = read_outcomes(alloc, values)?;
            let script = Script::new(dag_id.copied(alloc)?, task_id.copied(alloc)?, outcomes);
            scripts.push(script)?;
            Ok(())
        }
    }
}

fn read_outcomes(alloc: Global, values: &[Json<'_>]) -> Result<Vec<Outcome>, Reason>
    ensures { OrMemory Reason.Memory (taking outcome_taken [] (map view values.now)) (seen (λ outcomes. outcomes.items) result) }
{
    let mut outcomes = Vec::with_capacity(alloc, values.len())?;
    for value in values {
        add_outcome(&mut outcomes, value)?;
    }
    Ok(outcomes)
}

fn add_outcome(outcomes: &mut Vec<Outcome>, value: &Json<'_>) -> Result<(), Reason>
    ensures { Makes Reason.Memory (outcome_taken outcomes.old.items (view value.now)) outcomes.new.items result }
{
    let outcome = outcome_of(text_of(value)?).ok_or(Reason::Shape)?;
    outcomes.push(outcome)?;
    Ok(())
}

/// The outcome of that text.
fn outcome_of(text: &str) -> Option<Outcome>
    ensures { result ≡ outcome_of text.now }
{
    match text {
        "success" => Some(Outcome::Success),
        "failed" => Some(Outcome::Failed),
        "skipped" => Some(Outcome::Skipped),
        _ => None,
    }
}

// The ids of the tasks upstream of a task of the configuration.
ghost use Rattle.std.specs.Prelude.{◌≡◌, map, []};
ghost use Rattle.af_base.specs.JsonValue.{view};
ghost use Rattle.af_base.specs.Readings.{OrMemory, Makes, first_fault, seen, taking};
ghost use Rattle.af_server.specs.declared.reason.Reason.{Reason};
ghost use Rattle.af_server.specs.Tasks.{id_taken, text_of, upstream_in};

use crate::members::optional_list;
use crate::reason::Reason;
use af_base::Json;
use af_graph::TaskIds;
use af_names::TaskId;
use std::alloc::Global;

/// Reads the ids: that each is a text is tested before one is read.
pub fn read_upstream(alloc: Global, row: &Json<'_>) -> Result<TaskIds, Reason>
    ensures { OrMemory Reason.Memory (upstream_in (view row.now)) result }
{
    let values = optional_list(row, "upstream")?;
    test_texts(values)?;
    let ids = read_ids(alloc, values)?;
    Ok(TaskIds::of(ids))
}

/// Whether each value is a text; the reason of the first that is none.
fn test_texts(values: &[Json<'_>]) -> Result<(), Reason>
    ensures { result ≡ first_fault text_of (map view values.now) }
{
    for value in values {
        text_of(value)?;
    }
    Ok(())
}

/// The text that a value is.
pub fn text_of<'a>(value: &Json<'a>) -> Result<&'a str, Reason>
    ensures { seen (λ text. text.now) result ≡ text_of (view value.now) }
{
    value.as_str().ok_or(Reason::Shape)
}

fn read_ids(alloc: Global, values: &[Json<'_>]) -> Result<Vec<TaskId>, Reason>
    ensures { OrMemory Reason.Memory (taking id_taken [] (map view values.now)) (seen (λ ids. ids.items) result) }
{
    let mut ids = Vec::with_capacity(alloc, values.len())?;
    for value in values {
        add_id(alloc, &mut ids, value)?;
    }
    Ok(ids)
}

fn add_id(alloc: Global, ids: &mut Vec<TaskId>, value: &Json<'_>) -> Result<(), Reason>
    ensures { Makes Reason.Memory (id_taken ids.old.items (view value.now)) ids.new.items result }
{
    let id = TaskId::parse(alloc, text_of(value)?)?;
    ids.push(id)?;
    Ok(())
}

// Values that lines hold in lists: how each is told, and how it is read.
ghost use Rattle.std.specs.Prelude.{◌≡◌, ◌++◌, [], map, OnOk, Result};
ghost use Rattle.json.specs.Tree.{json_tokens};
ghost use Rattle.serde_json.specs.Data.{Data};
ghost use Rattle.serde_json.specs.Written.{outline};
ghost use Rattle.af_base.specs.JsonValue.{view};
ghost use Rattle.af_base.specs.Readings.{Makes, OrMemory, seen, taking};
ghost use Rattle.af_store.specs.Bodies.{list_of};
ghost use Rattle.af_store.specs.Members.{list_value, taken};
ghost use Rattle.af_store.specs.declared.line_fault.LineFault.{LineFault};

use crate::body_text::BodyText;
use crate::line_fault::LineFault;
use af_base::Json;
use std::alloc::{AllocError, Global};

/// A value that lines hold in lists.
pub trait Piece: Sized + Drop {
    /// How it is told.
    ghost told: { Self → Data };

    /// What is read of a value.
    ghost read_as: { Data → Result Self LineFault };

    /// Writes it.
    fn put(&self, out: &mut BodyText) -> Result<(), AllocError>
        ensures { OnOk result (out.new ≡ out.old ++ json_tokens (outline (told self.now))) };

    /// Reads it of a value.
    fn read(alloc: Global, value: &Json<'_>) -> Result<Self, LineFault>
        ensures { OrMemory LineFault.OutOfMemory (read_as (view value.now)) result };
}

/// Writes a list of pieces.
pub(crate) fn put_list<T: Piece>(out: &mut BodyText, items: &[T]) -> Result<(), AllocError>
    ensures { OnOk result (out.new ≡ out.old ++ json_tokens (outline (list_of T.told items.now))) }
{
    out.begin_array()?;
    for item in items {
        item.put(out)?;
    }
    out.end_array()?;
    Ok(())
}

/// Reads a list of pieces.
pub(crate) fn read_list<T: Piece>(alloc: Global, value: &Json<'_>) -> Result<Vec<T>, LineFault>
    ensures { OrMemory LineFault.OutOfMemory (list_value T.read_as (view value.now)) (seen (λ items. items.items) result) }
{
    let Some(values) = value.as_array() else {
        return Err(LineFault::NotALine);
    };
    read_items(alloc, values)
}

fn read_items<T: Piece>(alloc: Global, values: &[Json<'_>]) -> Result<Vec<T>, LineFault>
    ensures { OrMemory LineFault.OutOfMemory (taking (taken T.read_as) [] (map view values.now)) (seen (λ items. items.items) result) }
{
    let mut items = Vec::with_capacity(alloc, values.len())?;
    for value in values {
        add_item(alloc, &mut items, value)?;
    }
    Ok(items)
}

fn add_item<T: Piece>(alloc: Global, items: &mut Vec<T>, value: &Json<'_>) -> Result<(), LineFault>
    ensures { Makes LineFault.OutOfMemory (taken T.read_as items.old.items (view value.now)) items.new.items result }
{
    let item = T::read(alloc, value)?;
    match items.push(item) {
        Ok(()) => Ok(()),
        Err(_) => Err(LineFault::OutOfMemory),
    }
}

ghost use Rattle.std.specs.Prelude.{◌≡◌, IfOk, Ok, string_bytes};
ghost use Rattle.af_base.specs.Readings.{OrMemory};
ghost use Rattle.af_store.specs.Bodies.{same_text};
ghost use Rattle.af_store.specs.ChangeLines.{change_body};
ghost use Rattle.af_store.specs.ChangeReads.{change_of};
ghost use Rattle.af_store.specs.Members.{told_as};

use crate::change_facts::show_change;
use crate::change_reading::read_line;
use crate::change_telling::change_text;
use crate::facts::show_name;
use crate::line_fault::LineFault;
use crate::row::row_of;
use af_names::UserName;
use af_policy::Change;
use json::Scratch;
use std::alloc::{AllocError, Global};

/// A change of the policy, and who made it.
pub struct ChangeLine {
    pub by: UserName,
    pub change: Change,
}

impl Drop for ChangeLine {
    fn drop(self) {
        let ChangeLine { by: _, change: _ } = self;
    }
}

/// The body of the line that tells this change of this author. `AllocError` only where a growth was refused.
pub fn change_body(alloc: Global, by: &UserName, change: &Change) -> Result<String, AllocError>
    ensures text { IfOk result (λ text. string_bytes text ≡ change_body (record { by = by.now; change = change.now })) }
    ensures read_back { IfOk result (λ text. change_of (string_bytes text) ≡ Ok (record { by = by.now; change = change.now })) }
{
    show_name(by);
    show_change(change);
    let text = change_text(alloc, by, change)?;
    Ok(text)
}

impl ChangeLine {
    /// The change and its author of which this is the body. `NotALine` exactly where it is that of none; `OutOfMemory` only where a growth was
    /// refused.
    pub fn read(alloc: Global, body: &str) -> Result<ChangeLine, LineFault>
        ensures { OrMemory LineFault.OutOfMemory (change_of body.now) result }
    {
        let mut scratch = Scratch::new(alloc);
        let row = row_of(alloc, body, &mut scratch)?;
        let line = read_line(alloc, &row)?;
        line.if_told_as(alloc, body)
    }

    /// The line, if this is its body.
    fn if_told_as(self, alloc: Global, body: &str) -> Result<ChangeLine, LineFault>
        ensures { OrMemory LineFault.OutOfMemory (told_as change_body body.now self) result }
    {
        let told = change_body(alloc, &self.by, &self.change)?;
        if told.as_str() == body {
            Ok(self)
        } else {
            Err(LineFault::NotALine)
        }
    }
}

ghost use Rattle.std.specs.Prelude.{◌≡◌};
ghost use Rattle.af_base.specs.Readings.{OrMemory};
ghost use Rattle.af_store.specs.Lines.{line_of};

use crate::change_line::ChangeLine;
use crate::entry_line::read_entry;
use crate::line_fault::LineFault;
use crate::line_kind::LineKind;
use crate::opening::Opening;
use af_audit::Entry;
use std::alloc::Global;

/// What a line says.
pub enum Line {
    /// The store was opened with this configuration.
    Opened(Opening),
    /// This was done to the state.
    Entry(Entry),
    /// The policy was changed.
    Change(ChangeLine),
}

impl Drop for Line {
    fn drop(self) {
        match self {
            Line::Opened(_) => {}
            Line::Entry(_) => {}
            Line::Change(_) => {}
        }
    }
}

impl Line {
    /// What a line of this kind and this body says. `NotALine` exactly where no line of this kind has this body; `OutOfMemory` only where a
    /// growth was refused.
    pub fn read(alloc: Global, kind: LineKind, body: &str) -> Result<Line, LineFault>
        ensures { OrMemory LineFault.OutOfMemory (line_of kind body.now) result }
    {
        match kind {
            LineKind::Opened => Ok(Line::Opened(Opening::read(alloc, body)?)),
            LineKind::Entry => Ok(Line::Entry(read_entry(alloc, body)?)),
            LineKind::Change => Ok(Line::Change(ChangeLine::read(alloc, body)?)),
        }
    }
}

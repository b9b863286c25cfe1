ghost use Rattle.af_store.specs.Laws.{ChainsGrow, ChainsTellLines, ChangesAreReadBack, EntriesAreReadBack, MarksAreTaken, NothingElseIsAChange, NothingElseIsAMark, NothingElseIsAnEntry, NothingElseOpens, OpeningsAreReadBack};

/// Reading back the line of a change gives the change and its author.
pub fn changes_are_read_back()
    ensures { ChangesAreReadBack }
{}

/// A body that is read as a change is just the text by which that change is told.
pub fn nothing_else_is_a_change()
    ensures { NothingElseIsAChange }
{}

/// Reading back the line that opens a store gives its configuration.
pub fn openings_are_read_back()
    ensures { OpeningsAreReadBack }
{}

/// A body that is read as the line that opens a store is just the text of that line.
pub fn nothing_else_opens()
    ensures { NothingElseOpens }
{}

/// Reading back the line of an entry gives the entry.
pub fn entries_are_read_back()
    ensures { EntriesAreReadBack }
{}

/// A body that is read as an entry is just the text by which that entry is told.
pub fn nothing_else_is_an_entry()
    ensures { NothingElseIsAnEntry }
{}

/// The digest of a line covers all lines up to it: two lists of as many lines have one digest only where they are the same lines, unless
/// two messages of one SHA-256 are at hand.
pub fn chains_tell_lines()
    ensures { ChainsTellLines }
{}

/// With one line more, the digest is that of this line after the others.
pub fn chains_grow()
    ensures { ChainsGrow }
{}

/// The mark of a line is taken as that of its kind.
pub fn marks_are_taken()
    ensures { MarksAreTaken }
{}

/// Nothing else is taken as the mark of a line.
pub fn nothing_else_is_a_mark()
    ensures { NothingElseIsAMark }
{}

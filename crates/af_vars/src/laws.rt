ghost use Rattle.af_vars.specs.Laws.{TheAddedIsRead, TheLastTextIsRead, TheRemovedIsGone};

/// A variable that was added holds its text, and each other one what it held.
pub fn the_added_is_read()
    ensures { TheAddedIsRead }
{}

/// A variable that was there holds the text that it got, and each other one what it held.
pub fn the_last_text_is_read()
    ensures { TheLastTextIsRead }
{}

/// A variable that was removed holds nothing, and each other one what it held.
pub fn the_removed_is_gone()
    ensures { TheRemovedIsGone }
{}

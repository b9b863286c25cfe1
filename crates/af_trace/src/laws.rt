ghost use Rattle.af_trace.specs.Laws.{RecordsAreOne};

/// An answer is recorded in one way: a record with another number, another status or another byte is that of another answer, or of one that
/// nothing gives.
pub fn records_are_one()
    ensures { RecordsAreOne }
{}

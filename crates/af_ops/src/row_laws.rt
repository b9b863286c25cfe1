ghost use Rattle.af_ops.specs.RowLaws.{NeededPoolsStay, PoolChangesTouchOnePool, PoolsAreAsWritten, VariableChangesTouchOneVariable, VariablesAreAsWritten, PoolsAreToldByState, PoolsAreToldWhole, RowsGoByName};

/// No operation deletes the default pool, nor one that a task names.
pub fn needed_pools_stay()
    ensures { NeededPoolsStay }
{}

/// A change of a pool leaves each other pool, and all else, as it was.
pub fn pool_changes_touch_one_pool()
    ensures { PoolChangesTouchOnePool }
{}

/// A pool that was added is there, one that was changed has its new slots, and one that was deleted is not there.
pub fn pools_are_as_written()
    ensures { PoolsAreAsWritten }
{}

/// A change of a variable leaves each other variable, and all else, as it was.
pub fn variable_changes_touch_one_variable()
    ensures { VariableChangesTouchOneVariable }
{}

/// A variable that was added is there, one that was changed holds its new text, and one that was deleted is not there.
pub fn variables_are_as_written()
    ensures { VariablesAreAsWritten }
{}

/// The slots that are told occupied of a pool are those that its instances hold; with those told open they are all of the pool's, or
/// those occupied where these are more.
pub fn pools_are_told_whole()
    ensures { PoolsAreToldWhole }
{}

/// The slots that are told queued of a pool are those of its queued instances, and those told running of its running ones; together
/// these hold what is occupied.
pub fn pools_are_told_by_state()
    ensures { PoolsAreToldByState }
{}

/// A listing of pools goes by name and one of variables by key, in byte order, and tells none twice.
pub fn rows_go_by_name()
    ensures { RowsGoByName }
{}

ghost use Rattle.af_graph.specs.Laws.{OneOrder, LeftIsStuck};

/// A graph has an order by the rule of `Dag::order`, and no other list is one.
pub fn the_order_is_one()
    ensures { OneOrder }
{}

/// A task that the order never takes has an upstream task that it never takes either: it stands on
/// a cycle or below one.
pub fn what_is_left_is_stuck()
    ensures { LeftIsStuck }
{}

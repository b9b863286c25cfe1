// The laws of the steps on a version word. Each is the contract of a function that does nothing.
ghost use Rattle.af_word.specs.Laws.{EveryRunKeepsTheRule, NoSeatForgets, NoStepFalls, OthersKeepTheirView, SeatsKnowOnePlace};

/// After any run of the six kinds of step the word names the end of the one list, and what each seat has seen begins that list.
pub fn every_run_keeps_the_rule()
    ensures { EveryRunKeepsTheRule }
{}

/// A step only lengthens the list, and never lowers the word.
pub fn no_step_falls()
    ensures { NoStepFalls }
{}

/// A step changes the view of the seat that takes it alone, and a join that of the seat that it takes in too.
pub fn others_keep_their_view()
    ensures { OthersKeepTheirView }
{}

/// What a seat has seen it has still seen after any step, unless a join has given it up.
pub fn no_seat_forgets()
    ensures { NoSeatForgets }
{}

/// After any run of steps two seats that have seen one version know one place for it.
pub fn seats_know_one_place()
    ensures { SeatsKnowOnePlace }
{}

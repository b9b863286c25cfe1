// The laws of the steps on a tally. Each is the contract of a function that does nothing.
ghost use Rattle.af_tally.specs.Laws.{EveryRunKeepsTheRule, NoSeatForgets, NoStepFalls, OthersKeepTheirView, SeatsAgree};

/// After any run of the five kinds of step the word counts the one list, the keeper has seen it whole, and what each other seat has seen begins it.
pub fn every_run_keeps_the_rule<E>()
    ensures { EveryRunKeepsTheRule E }
{}

/// A step only lengthens the list, by one entry where it is the keeper's record and else by none, and never lowers the word.
pub fn no_step_falls<E>()
    ensures { NoStepFalls E }
{}

/// A step changes the view of the seat that takes it alone, and a join that of the seat that it takes in too.
pub fn others_keep_their_view<E>()
    ensures { OthersKeepTheirView E }
{}

/// What a seat has seen it has still seen after any step, unless a join has given it up.
pub fn no_seat_forgets<E>()
    ensures { NoSeatForgets E }
{}

/// After any run of steps two seats that have both seen an entry of some number know one entry for it.
pub fn seats_agree<E>()
    ensures { SeatsAgree E }
{}

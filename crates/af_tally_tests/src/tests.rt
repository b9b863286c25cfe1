mod named;

use af_tally::Keeper;
use std::test::*;

#[test]
fn a_keeper_counts_what_it_records(rt: HostRuntime) -> Result<(), Fail> {
    let (mut keeper, mut witness) = Keeper::<u8>::open(rt.alloc())?;
    assert!(rt; keeper.count() == 0, "nothing yet");
    keeper.record(&7);
    keeper.meet(&mut witness);
    let mut other = keeper.give();
    keeper.record(&8);
    keeper.meet(&mut other);
    keeper.meet(&mut witness);
    assert!(rt; keeper.count() == 2, "both");
    Ok(())
}

#[test]
fn a_keeper_shows_its_entries_by_a_shared_borrow(rt: HostRuntime) -> Result<(), Fail> {
    let (mut keeper, mut witness) = Keeper::<u8>::open(rt.alloc())?;
    let mut other = keeper.give();
    keeper.record(&7);
    keeper.record(&8);
    let (first, second) = (&keeper, &keeper);
    assert!(rt; first.show(&mut witness), "nobody else has the spare seat");
    assert!(rt; second.show(&mut other), "it rests again");
    assert!(rt;
        witness.count() == 2 && other.count() == 2,
        "both have seen both"
    );
    keeper.record(&9);
    assert!(rt; keeper.show(&mut witness), "the seat of the new list");
    assert!(rt;
        witness.count() == 3 && other.count() == 2,
        "who was shown it"
    );
    Ok(())
}

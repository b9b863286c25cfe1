//! As the layer above will: a locked keeper and the sessions with their witnesses carry which keeper it is, by a ghost member of a trait.
ghost use Rattle.std.specs.Prelude.{◌≡◌, ◌+◌, ◌++◌, ◌∷◌, [], length, IfSome, IfNone};
ghost use mathlib.Core.List.{IsPrefix};

use af_tally::{Keeper, Witness};
use std::marker::{Brand, Model, PhantomData};
use std::process::Abort;
use std::sync::{Mutex, Wait};
use std::test::*;
use std::thread::{Threads, join};

/// Which keeper it is. Each call of a program picks it.
trait Named {
    ghost use Rattle.atomic_table.specs.Seated.{TableId};

    ghost keeper: { TableId };
}

impl Named for Brand {
    ghost use Rattle.std.specs.Prelude.{[]};

    ghost keeper = { record { words = 0; slots = 0; views_name = 0; atom = 0; block = 0; offset = 0; slot_names = [] } };
}

/// What one thread has seen of the entries of the keeper that `N` names.
#[derive(Drop)]
struct Session<N: Named> {
    witness: Witness<u8>,
    of: PhantomData<N>,
}

impl<N: Named> Model for Session<N> {
    ghost use Rattle.std.specs.Prelude.{◌≡◌, ℕ, List};

    ghost Value = { List ℕ };

    ghost view = { λ s. s.witness.entries };

    ghost invariant = { λ s. s.witness.keeper ≡ N.keeper };
}

/// The keeper under the lock.
#[derive(Drop)]
struct Locked<N: Named> {
    keeper: Keeper<u8>,
    of: PhantomData<N>,
}

impl<N: Named> Model for Locked<N> {
    ghost use Rattle.std.specs.Prelude.{◌≡◌, ℕ, List};

    ghost Value = { List ℕ };

    ghost view = { λ l. l.keeper.entries };

    ghost invariant = { λ l. l.keeper.keeper ≡ N.keeper };
}

impl<N: Named> Locked<N> {
    /// A turn of the lock: the entry comes last, behind all that the session had seen, and the session has then seen it. Answers its number from 1 on.
    fn turn(&mut self, session: &mut Session<N>, entry: u8) -> Option<u32>
        ensures begins { IsPrefix session.old self.old }
        ensures recorded { IfSome result (λ n. (n ≡ length self.old + 1) × (self.new ≡ self.old ++ entry ∷ [])) }
        ensures full { IfNone result (self.new ≡ self.old) }
        ensures seen { session.new ≡ self.new }
    {
        self.keeper.meet(&mut session.witness);
        let number = self.keeper.count().checked_add(1)?;
        self.keeper.record(&entry);
        session.witness = self.keeper.give();
        Some(number)
    }
}

/// Takes a turn fifty times, and answers how often an entry was recorded.
fn fifty_turns<N: Named, R: Wait>(
    rt: &R,
    locked: &Mutex<Locked<N>>,
    session: &mut Session<N>,
    entry: u8,
) -> u32 {
    let mut recorded = 0;
    for _ in 0..50 {
        if locked.lock(rt).turn(session, entry).is_some() && recorded < 50 {
            recorded += 1;
        }
    }
    recorded
}

fn two_sessions<N: Named + Send + Sync, R: Threads + Wait + Sync>(
    rt: &R,
    mut keeper: Keeper<u8>,
    witness: Witness<u8>,
) -> (u32, u32, u32)
    requires keeper { keeper.keeper ≡ N.keeper }
    requires witness { witness.keeper ≡ N.keeper }
{
    let mut one: Session<N> = Session {
        witness: keeper.give(),
        of: PhantomData,
    };
    let mut two: Session<N> = Session {
        witness,
        of: PhantomData,
    };
    let locked: Mutex<Locked<N>> = Mutex::new(Locked {
        keeper,
        of: PhantomData,
    });
    let (first, second) = join(
        rt,
        || fifty_turns(rt, &locked, &mut one, 1),
        || fifty_turns(rt, &locked, &mut two, 2),
    );
    let count = locked.lock(rt).keeper.count();
    (first, second, count)
}

#[test]
fn a_keeper_counts_the_entries_of_two_threads(rt: HostRuntime) -> Result<(), Fail> {
    let (keeper, witness) = Keeper::<u8>::open(rt.alloc())?;
    let told = two_sessions::<Brand, _>(&rt, keeper, witness);
    assert!(rt; told == (50, 50, 100), "what each recorded, and all");
    Ok(())
}

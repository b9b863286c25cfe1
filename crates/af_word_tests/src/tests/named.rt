//! As the layer above will: a locked value, the sessions and the word that they share carry which word it is, by a ghost member of a trait.
ghost use Rattle.std.specs.Prelude.{◌≡◌};
ghost use mathlib.Core.List.{IsPrefix};
ghost use Rattle.af_word.specs.Places.{EndsAt};

use af_word::{Pass, Seen, VersionWord};
use std::marker::{Brand, Model, PhantomData};
use std::mem;
use std::process::Abort;
use std::sync::{Mutex, Wait};
use std::test::*;
use std::thread::{Threads, join};

/// Which word it is. Each call of a program picks it.
trait Named {
    ghost use Rattle.af_word.specs.Places.{WordId};

    ghost word: { WordId };
}

impl Named for Brand {
    ghost use Rattle.std.specs.Prelude.{[]};

    ghost word = { record { table = record { words = 0; slots = 0; views_name = 0; atom = 0; block = 0; offset = 0; slot_names = [] }; first = 0; last = 0 } };
}

/// What one thread has seen of the word that `N` names.
#[derive(Drop)]
struct Session<N: Named> {
    pass: Pass,
    of: PhantomData<N>,
}

impl<N: Named> Model for Session<N> {
    ghost use Rattle.std.specs.Prelude.{◌≡◌, ℕ, List};

    ghost Value = { List ℕ };

    ghost view = { λ s. s.pass.places };

    ghost invariant = { λ s. s.pass.word ≡ N.word };
}

/// What was seen under the lock.
#[derive(Drop)]
struct Locked<N: Named> {
    pass: Pass,
    of: PhantomData<N>,
}

impl<N: Named> Model for Locked<N> {
    ghost use Rattle.std.specs.Prelude.{◌≡◌, ℕ, List};

    ghost Value = { List ℕ };

    ghost view = { λ l. l.pass.places };

    ghost invariant = { λ l. l.pass.word ≡ N.word };
}

impl<N: Named> Locked<N> {
    /// A turn of the lock: the session has then seen what it had, what was seen under the lock, and the list as it was looked at.
    fn turn(&mut self, word: &VersionWord, session: &mut Session<N>) -> Seen
        requires { word.now ≡ N.word }
        ensures session { IsPrefix session.old session.new }
        ensures locked { IsPrefix self.old session.new }
        ensures seen { EndsAt session.new result.version result.index }
    {
        let pass = mem::replace(&mut session.pass, word.split(&mut self.pass));
        word.meet(&mut self.pass, pass);
        let seen = word.look(&mut self.pass);
        session.pass = word.split(&mut self.pass);
        seen
    }
}

/// What the threads share.
#[derive(Drop)]
struct Shared<N: Named> {
    word: VersionWord,
    locked: Mutex<Locked<N>>,
    ghost word_is: { word ≡ N.word },
}

impl<N: Named> Shared<N> {
    /// Publishes a place behind what the session has seen, outside the lock, and then takes a turn of it. It may wait for the lock.
    fn visit<R: Wait>(&self, rt: &R, session: &mut Session<N>, index: u32) -> Seen
        ensures longer { IsPrefix session.old session.new }
        ensures seen { EndsAt session.new result.version result.index }
    {
        let at = session.pass.seen().version;
        let _ = self.word.publish(&mut session.pass, at, index);
        self.locked.lock(rt).turn(&self.word, session)
    }
}

fn two_visits<N: Named + Send + Sync, R: Threads + Wait + Sync>(
    rt: &R,
    word: VersionWord,
    mut pass: Pass,
) -> (Seen, Seen)
    requires word { word ≡ N.word }
    requires pass { pass.word ≡ N.word }
{
    let mut one: Session<N> = Session {
        pass: word.split(&mut pass),
        of: PhantomData,
    };
    let mut two: Session<N> = Session {
        pass: word.split(&mut pass),
        of: PhantomData,
    };
    let locked = Mutex::new(Locked {
        pass,
        of: PhantomData,
    });
    let shared: Shared<N> = Shared { word, locked };
    join(
        rt,
        || shared.visit(rt, &mut one, 1),
        || shared.visit(rt, &mut two, 2),
    )
}

#[test]
fn sessions_of_two_threads_see_one_list(rt: HostRuntime) -> Result<(), Fail> {
    let (word, pass) = VersionWord::open(rt.alloc(), 0, 9)?;
    let (one, two) = two_visits::<Brand, _>(&rt, word, pass);
    assert_eq!(rt; one, two);
    assert!(rt; one.version == 1 && (one.index == 1 || one.index == 2));
    Ok(())
}

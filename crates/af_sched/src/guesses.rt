use af_names::DagId;
use std::alloc::{AllocError, Global};
use std::hash::{FoldHasher, Hasher};

/// How many guesses there are: four for each DAG that there may be.
const GUESSES: usize = 4_096;

/// What stands where no row was put.
const NOWHERE: u16 = u16::MAX;

/// Where the row of a DAG may stand, by a code of its id. A guess may be wrong, since two ids may share one: whoever takes a
/// guess compares the id of the row that stands there.
#[derive(Drop)]
pub(crate) struct Guesses {
    /// None at all before the first row is put.
    places: Vec<u16>,
}

impl Guesses {
    /// No guesses. It takes no memory.
    pub(crate) fn new(alloc: Global) -> Guesses {
        Guesses {
            places: Vec::new(alloc),
        }
    }

    /// Makes room for the guesses. `AllocError` only where a growth was refused.
    pub(crate) fn open(&mut self) -> Result<(), AllocError> {
        self.places.resize(GUESSES, NOWHERE)
    }

    /// Notes that the row of the DAG whose id has this code was put at a place, before the rows that stood from there on; where
    /// there were none, the other guesses stay.
    pub(crate) fn put(&mut self, code: usize, place: usize, was_last: bool) {
        let Ok(place) = u16::try_from(place) else {
            return;
        };
        if !was_last {
            self.shift(place);
        }
        let free = match self.at(code) {
            NOWHERE => code,
            _ => beside(code),
        };
        if let Some(guess) = self.places.as_mut_slice().get_mut(free) {
            *guess = place;
        }
    }

    /// Notes that the rows that stood from a place on stand one further.
    fn shift(&mut self, place: u16) {
        for guess in self.places.as_mut_slice() {
            *guess = guess.saturating_add((*guess >= place) as u16);
        }
    }

    /// Where the row of a DAG may stand, by the code of its id.
    pub(crate) fn at(&self, code: usize) -> u16 {
        match self.places.as_slice().get(code) {
            Some(guess) => *guess,
            None => NOWHERE,
        }
    }
}

/// The code of a DAG's id.
pub(crate) fn code_of(dag_id: &DagId) -> usize {
    let mut hasher = FoldHasher::default();
    hasher.write(dag_id.as_str().as_bytes());
    (hasher.finish() % GUESSES as u64) as usize
}

/// The code under which a row is put where another one has the first.
pub(crate) fn beside(code: usize) -> usize {
    code ^ 1
}

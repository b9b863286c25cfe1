ghost use Rattle.std.specs.Prelude.{◌≡◌};
ghost use Rattle.af_pool.specs.Occupants.{occupies, is_there_in, slots_taken, slots_in};

use af_graph::TaskState;
use af_names::PoolName;
use std::marker::Model;

/// A task instance as pools see it: the pool that its task names, the slots that it takes there, and its state.
#[derive(Drop)]
pub struct Occupant<'a> {
    pub pool: &'a PoolName,
    pub slots: u64,
    pub state: TaskState,
}

impl<'a> Model for Occupant<'a> {
    ghost use Rattle.af_pool.specs.Occupants.{OccupantRow};

    ghost Value = { OccupantRow };

    ghost view = { λ occupant. record { pool = occupant.pool.now; slots = occupant.slots; state = occupant.state } };
}

impl<'a> Occupant<'a> {
    /// Whether it holds slots of the pool of this name.
    pub fn occupies(&self, name: &PoolName) -> bool
        ensures { result ≡ occupies name.now self.now }
    {
        *self.pool == *name && matches!(self.state, TaskState::Queued | TaskState::Running)
    }

    /// Whether it is in this state, and its task names the pool of this name.
    pub fn is_there_in(&self, state: TaskState, name: &PoolName) -> bool
        ensures { result ≡ is_there_in state name.now self.now }
    {
        *self.pool == *name && self.state == state
    }
}

/// The slots that the instances hold of the pool of this name.
pub(crate) fn slots_taken(name: &PoolName, occupants: &[Occupant<'_>]) -> u128
    ensures { result ≡ slots_taken name.now occupants.now }
{
    occupants
        .iter()
        .filter(|occupant| occupant.occupies(name))
        .map(|occupant| u128::from(occupant.slots))
        .sum()
}

/// The slots that the instances in this state take of the pool of this name.
pub(crate) fn slots_in(state: TaskState, name: &PoolName, occupants: &[Occupant<'_>]) -> u128
    ensures { result ≡ slots_in state name.now occupants.now }
{
    occupants
        .iter()
        .filter(|occupant| occupant.is_there_in(state, name))
        .map(|occupant| u128::from(occupant.slots))
        .sum()
}

//! Lends new states to tests: a function that owns one is dear to prove, one that borrows it is not. Who owns one hands it to
//! `drop`, which is proved once.
use af_sched::State;
use std::alloc::{AllocGlobal, Global};
use std::test::Fail;

/// Lends a new state to a test.
pub fn with_new_state<R, F>(rt: &R, told: F) -> Result<(), Fail>
where
    R: AllocGlobal,
    F: FnOnce(&R, Global, &mut State) -> Result<(), Fail> + Copy,
    requires { F.IsAlwaysCallable told }
{
    let mut state = State::new(rt.alloc())?;
    let ended = told(rt, rt.alloc(), &mut state);
    drop(state);
    ended
}

/// Lends a new state of its own to each row of a table.
pub fn with_new_states<R, T, F>(rt: &R, rows: &[T], told: F) -> Result<(), Fail>
where
    R: AllocGlobal,
    F: FnOnce(&R, Global, &mut State, &T) -> Result<(), Fail> + Copy,
    requires { F.IsAlwaysCallable told }
{
    for row in rows {
        with_row(rt, row, told)?;
    }
    Ok(())
}

/// Lends a new state to a row.
fn with_row<R, T, F>(rt: &R, row: &T, told: F) -> Result<(), Fail>
where
    R: AllocGlobal,
    F: FnOnce(&R, Global, &mut State, &T) -> Result<(), Fail> + Copy,
    requires { F.IsAlwaysCallable told }
{
    let mut state = State::new(rt.alloc())?;
    let ended = told(rt, rt.alloc(), &mut state, row);
    drop(state);
    ended
}

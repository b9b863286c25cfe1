use af_runs::RunState;

/// What a plain list knows of a run.
#[derive(Clone, Copy)]
pub struct Plain {
    pub number: u64,
    pub dag: usize,
    pub key: u32,
    pub state: RunState,
    pub held: bool,
}

/// What it knows of a new run.
pub fn queued(number: u64, dag: usize, key: u32) -> Plain {
    Plain {
        number,
        dag,
        key,
        state: RunState::Queued,
        held: false,
    }
}

/// Which rows are looked for.
#[derive(Clone, Copy)]
pub enum Which {
    /// That of a number.
    Number(u64),
    /// That of a DAG and a key.
    Key(usize, u32),
    /// Those of a DAG.
    Dag(usize),
    Busy,
}

impl Plain {
    /// Whether it is one of these.
    pub fn is(&self, which: Which) -> bool {
        match which {
            Which::Number(number) => self.number == number,
            Which::Key(dag, key) => self.dag == dag && self.key == key,
            Which::Dag(dag) => self.dag == dag,
            Which::Busy => self.is_busy(),
        }
    }

    pub fn is_busy(&self) -> bool {
        self.held || !self.state.is_finished()
    }
}

/// Of the rows that are looked for the one at a place.
pub fn nth(plain: &[Plain], which: Which, place: usize) -> Option<Plain> {
    let mut before = place;
    for row in plain {
        if row.is(which) {
            if before == 0 {
                return Some(*row);
            }
            before -= 1;
        }
    }
    None
}

/// How many rows are among those that are looked for.
pub fn count(plain: &[Plain], which: Which) -> usize {
    let mut count: usize = 0;
    for row in plain {
        if row.is(which) {
            count = count.saturating_add(1);
        }
    }
    count
}

/// What an act makes of the run of a number: takes it out, ends it, queues or settles its instance, marks it, or clears it.
pub fn act_on_plain(plain: &mut Vec<Plain>, act: u64, number: u64) {
    if act == 0 {
        plain.retain(|row| row.number != number);
    }
    for row in plain.iter_mut() {
        if row.number == number {
            match act {
                1 => row.state = RunState::Success,
                2 => row.held = true,
                3 => row.held = false,
                8 => mark(row, RunState::Success),
                9 => mark(row, RunState::Failed),
                10 => row.state = RunState::Queued,
                11 => clear(row),
                _ => {}
            }
        }
    }
}

fn mark(row: &mut Plain, state: RunState) {
    row.state = state;
    row.held = false;
}

fn clear(row: &mut Plain) {
    row.held = false;
    if row.state.is_finished() {
        row.state = RunState::Queued;
    }
}

/// Clears the rows of a DAG whose keys are from one on until another.
pub fn clear_between(plain: &mut Vec<Plain>, dag: usize, first: u32, last: u32) {
    for row in plain.iter_mut() {
        if row.dag == dag && row.key >= first && row.key <= last {
            clear(row);
        }
    }
}

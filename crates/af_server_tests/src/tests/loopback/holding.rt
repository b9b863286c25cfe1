//! A gate that holds answers until another call is answered.
use af_ops::Endpoint;
use af_server::Gate;
use std::sync::atomic::{AtomicBool, Ordering};
use std::thread;

/// How often a wait yields before it gives up.
const TURNS: u32 = 1_000_000;

/// Holds each answer that lists DAGs until the other call is answered.
#[derive(Drop)]
pub struct Holding {
    /// An answer is at the gate.
    pub held: Flag,
    /// The other call is answered.
    pub answered: Flag,
    /// A wait gave up.
    pub late: Flag,
}

impl Holding {
    pub fn new() -> Holding {
        Holding {
            held: Flag::new(),
            answered: Flag::new(),
            late: Flag::new(),
        }
    }

    /// Yields until the flag is raised, or too often.
    pub fn wait_for(&self, flag: &Flag) {
        for _ in 0..TURNS {
            if flag.is_raised() {
                return;
            }
            thread::yield_now();
        }
        self.late.raise();
    }
}

impl Gate for Holding {
    fn pass(&self, endpoint: Endpoint) {
        if endpoint == Endpoint::ListDags {
            self.held.raise();
            self.wait_for(&self.answered);
        }
    }
}

/// What one thread tells the others.
#[derive(Drop)]
pub struct Flag(AtomicBool);

impl Flag {
    fn new() -> Flag {
        Flag(AtomicBool::new(false))
    }

    pub fn raise(&self) {
        self.0.store(true, Ordering::SeqCst);
    }

    pub fn is_raised(&self) -> bool {
        self.0.load(Ordering::SeqCst)
    }
}

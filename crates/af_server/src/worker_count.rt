ghost use Rattle.std.specs.Prelude.{◌≡◌, ◌≤◌};
ghost use Rattle.af_server.specs.Commands.{IsCountIn};

use crate::number::number_in;
use std::marker::Model;

/// How many workers a server has: 1 to 16.
#[derive(Drop)]
pub struct WorkerCount {
    count: u32,
    ghost some: { 1 ≤ count },
    ghost few: { count ≤ 16 },
}

impl Model for WorkerCount {
    ghost use Rattle.std.specs.Prelude.{ℕ};

    ghost Value = { ℕ };

    ghost view = { λ workers. workers.count };
}

impl WorkerCount {
    /// The number that a text states.
    pub fn read(text: &str) -> Option<WorkerCount>
        ensures { IsCountIn text.now result }
    {
        match number_in(text) {
            Some(count) if 1 <= count && count <= 16 => Some(WorkerCount {
                count: u32::from(count),
            }),
            _ => None,
        }
    }

    /// The number.
    pub fn count(&self) -> u32
        ensures value { result ≡ self.now }
        ensures some { 1 ≤ result }
        ensures few { result ≤ 16 }
    {
        self.count
    }
}

use crate::run::Run;
use std::marker::Model;

/// An instance that a clear touches: its run, and its place there.
#[derive(Drop)]
pub struct ChosenInstance<'a> {
    pub run: &'a Run,
    pub place: usize,
}

impl<'a> Model for ChosenInstance<'a> {
    ghost use Rattle.af_runs.specs.Clears.{ChosenRow};

    ghost Value = { ChosenRow };

    ghost view = { λ chosen. record { run = chosen.run.now; place = chosen.place } };
}

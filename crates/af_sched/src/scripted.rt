ghost use Rattle.std.specs.Prelude.{◌≡◌, find, option_copied};
ghost use Rattle.af_sched.specs.Scripts.{is_script_of, scripted_outcome};

use crate::claim::Claim;
use crate::executor::Executor;
use crate::outcome::Outcome;
use crate::script::Script;
use std::marker::Model;

/// An executor that answers by scripts, and runs nothing. Contracts see it as the list of its scripts.
pub struct Scripted {
    scripts: Vec<Script>,
}

impl Drop for Scripted {
    fn drop(self) {
        let Scripted { scripts: _ } = self;
    }
}

impl Model for Scripted {
    ghost use Rattle.std.specs.Prelude.{List};
    ghost use Rattle.af_sched.specs.Scripts.{ScriptRow};

    ghost Value = { List ScriptRow };

    ghost view = { λ scripted. scripted.scripts.items };
}

impl Scripted {
    /// The executor of these scripts; of two of one task the first counts.
    pub fn new(scripts: Vec<Script>) -> Scripted
        ensures { result ≡ scripts.items }
    {
        Scripted { scripts }
    }
}

impl Executor for Scripted {
    /// Answers by the first script of the claim's task: the outcome of its try; without one, or past its end, success.
    fn run(&mut self, claim: &Claim) -> Outcome
        ensures answer { result ≡ scripted_outcome self.old claim.now }
        ensures kept { self.new ≡ self.old }
    {
        match script_of(self.scripts.as_slice(), claim) {
            Some(script) => script.outcome(claim),
            None => Outcome::Success,
        }
    }
}

/// The first of these scripts that is of the task of a claim.
fn script_of<'a>(scripts: &'a [Script], claim: &Claim) -> Option<&'a Script>
    ensures { option_copied result ≡ find (is_script_of claim.now) scripts.now }
{
    scripts.iter().find(|script| script.is_of(claim))
}

ghost use Rattle.std.specs.Prelude.{◌≡◌, IfOk, OnOk, Option, length};
ghost use Rattle.std.specs.Bool.{Decides};
ghost use Rattle.af_ops.specs.declared.shown_answer.Shown.{Shown};
ghost use Rattle.af_audit.specs.Acts.{IsState};
ghost use Rattle.af_world.specs.Moving.{move_of};
ghost use Rattle.af_world.specs.Runs.{AreAnswers};
ghost use Rattle.af_world.specs.Steps.{Moves};
ghost use Rattle.af_world.specs.Worlds.{opening_world};

use crate::laws::runs_are_one;
use crate::opening::Opening;
use crate::same::same_answer;
use crate::step::Step;
use crate::world::World;
use af_ops::Shown;
use std::alloc::{AllocError, Global};

/// Whether these are the answers of these steps, in order. `AllocError` only where a growth was refused.
pub fn check_trace(
    alloc: Global,
    opening: &Opening,
    steps: &[Step],
    answers: &[Option<Shown>],
) -> Result<bool, AllocError>
    ensures { IfOk result (λ yes. Decides yes (AreAnswers (opening_world opening.now) steps.now answers.now)) }
{
    if steps.len() != answers.len() {
        return Ok(false);
    }
    let mut world = World::open(alloc, opening)?;
    are_answered(alloc, &mut world, steps, answers)
}

/// Takes these steps up to the first that is not answered so, and tells whether all are.
fn are_answered(
    alloc: Global,
    world: &mut World,
    steps: &[Step],
    answers: &[Option<Shown>],
) -> Result<bool, AllocError>
    requires { length steps.now ≡ length answers.now }
    ensures { IfOk result (λ yes. Decides yes (AreAnswers world.old steps.now answers.now)) }
{
    runs_are_one();
    world.conditions();
    for i in 0..steps.len() {
        if !agrees(alloc, world, &steps[i], &answers[i])? {
            return Ok(false);
        }
    }
    Ok(true)
}

/// Takes a step, and tells whether this is its answer.
fn agrees(
    alloc: Global,
    world: &mut World,
    step: &Step,
    answer: &Option<Shown>,
) -> Result<bool, AllocError>
    ensures told { IfOk result (λ yes. (told : Option Shown) × Moves world.old step.now (move_of told world.new) × Decides yes (told ≡ answer.now)) }
    ensures state { OnOk result (IsState world.new.ledger.state) }
{
    let told = world.take(alloc, step)?;
    world.conditions();
    Ok(same_answer(&told, answer))
}

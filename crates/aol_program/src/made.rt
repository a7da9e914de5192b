//! The model that the steps of a document make.

ghost use Rattle.std.specs.Prelude.{◌≡◌, ◌↔◌, IsTrue, [], IfOk};
ghost use Rattle.aol_flat.specs.Accept.{IsAccepted};
ghost use Rattle.aol_flat.specs.InstanceNeed.{AreLevelsOf};
ghost use Rattle.aol_flat.specs.Level.{AreWriters};
ghost use Rattle.aol_program.specs.Made.{IsTransformed, IsMadeOf};

use aol_assign::Writers;
use aol_depend::{DependRefused, Levels, levels};
use aol_flat::Flat;
use aol_lines::Reply;
use aol_model::Step;
use aol_shape::NoMemory;
use aol_step_lines::step_reply;
use aol_transform::{Transformed, transform};
use std::alloc::Global;

/// A model laid out, with the level of each of its instances.
#[derive(Drop)]
pub struct Made {
    pub flat: Flat,
    pub levels: Levels,
}

/// The model that the steps make of an accepted one; or the reply to the first that isn't kept.
pub fn transformed(
    alloc: Global,
    flat: Flat,
    writers: Writers,
    steps: &[Step],
) -> Result<Result<Transformed, Reply>, NoMemory>
    requires accepted { IsAccepted flat.model }
    requires writers { AreWriters flat writers }
    ensures { IfOk result (IsTransformed flat.model steps.now) }
{
    match transform(alloc, Transformed { flat, writers }, steps) {
        Ok(made) => Ok(Ok(made)),
        Err(refused) => {
            let reply = step_reply(alloc, &refused)?;
            Ok(Err(reply))
        }
    }
}

/// The levels of a model that steps have made.
fn levels_of(alloc: Global, made: &Transformed) -> Result<Levels, NoMemory>
    requires accepted { IsAccepted made.now.flat.model }
    requires writers { AreWriters made.now.flat made.now.writers }
    ensures { IfOk result (λ levels. AreLevelsOf made.now.flat.model levels) }
{
    let _model = made.flat.model();
    match levels(alloc, &made.flat, made.writers.list()) {
        Ok(levels) => Ok(levels),
        Err(DependRefused::Cycle { .. }) => unreachable!(),
        Err(DependRefused::NoMemory) => Err(NoMemory),
    }
}

/// Whether there are no steps.
fn are_none(steps: &[Step]) -> bool
    ensures { IsTrue result ↔ (steps.now ≡ []) }
{
    steps.is_empty()
}

/// The model that the steps make of an accepted one, with its levels; or the reply to the first that isn't kept.
pub fn levelled(
    alloc: Global,
    flat: Flat,
    writers: Writers,
    levels: Levels,
    steps: &[Step],
) -> Result<Result<Made, Reply>, NoMemory>
    requires accepted { IsAccepted flat.model }
    requires writers { AreWriters flat writers }
    requires levels { AreLevelsOf flat.model levels }
    ensures { IfOk result (IsMadeOf flat.model steps.now) }
{
    let _model = flat.model();
    if are_none(steps) {
        return Ok(Ok(Made { flat, levels }));
    }
    let outcome = transformed(alloc, flat, writers, steps)?;
    match outcome {
        Ok(made) => {
            let levels = levels_of(alloc, &made)?;
            Ok(Ok(Made {
                flat: made.flat,
                levels,
            }))
        }
        Err(reply) => Ok(Err(reply)),
    }
}

//! A list of steps.

ghost use Rattle.std.specs.Prelude.{◌≡◌, IfOk, IfErr, take};
ghost use Rattle.aol_flat.specs.Accept.{IsAccepted};
ghost use Rattle.aol_flat.specs.Keep.{KeepsOutputs};
ghost use Rattle.aol_flat.specs.Level.{AreWriters};
ghost use Rattle.aol_transform.specs.Steps.{StepsTo, IsFirstCause};

use crate::cause::{StepCause, StepsRefused};
use crate::step::taken;
use aol_assign::Writers;
use aol_flat::Flat;
use aol_model_types::Step;
use std::alloc::Global;

/// A model laid out, with the writer of each of its cells.
#[derive(Drop)]
pub struct Transformed {
    pub flat: Flat,
    pub writers: Writers,
}

/// The model that all steps make of an accepted one, each of what those before it have made.
///
/// A step is refused where its kind isn't built, where it has no result, where its result writes an element twice, or
/// where an element that its result reads doesn't come from where it came before. Nothing is said of steps after it.
pub fn transform(
    alloc: Global,
    first: Transformed,
    steps: &[Step],
) -> Result<Transformed, StepsRefused>
    requires accepted { IsAccepted first.flat.model }
    requires writers { AreWriters first.flat first.writers }
    ensures kept { IfOk result (λ t. StepsTo first.flat.model steps.now t.flat.model) }
    ensures agrees { IfOk result (λ t. KeepsOutputs first.flat.model t.flat.model) }
    ensures writers { IfOk result (λ t. AreWriters t.flat t.writers) }
    ensures refused { IfErr result (λ e. IsFirstCause first.flat.model steps.now e.step e.cause) }
{
    first.flat.model();
    let mut now = first;
    for (number, step) in steps.iter().enumerate() {
        now = match taken(alloc, now.flat, step) {
            Ok(next) => next,
            Err(cause) => {
                return Err(StepsRefused {
                    step: number,
                    cause,
                });
            }
        };
    }
    Ok(now)
}

//! One step.

ghost use Rattle.std.specs.Prelude.{◌≡◌, ◌↔◌, IsTrue, IfOk, IfErr};
ghost use Rattle.aol_flat.specs.Accept.{IsAccepted};
ghost use Rattle.aol_flat.specs.Keep.{KeepsOutputs};
ghost use Rattle.aol_flat.specs.Level.{AreWriters};
ghost use Rattle.aol_flat.specs.Targets.{IsSingleAssignment};
ghost use Rattle.aol_assign.specs.declared.refused.AssignRefused.TheVariants as assigning;
ghost use Rattle.aol_equiv.specs.declared.lost.Lost.TheVariants as losing;
ghost use Rattle.aol_transform.specs.Steps.{IsProposed, IsStepMap, IsKept, IsCause};
ghost use Rattle.aol_transform.specs.Told.{IsToldAs};

use crate::cause::StepCause;
use crate::steps::Transformed;
use aol_assign::{AssignRefused, writers};
use aol_change::{Remap, StepRefused};
use aol_equiv::{Lost, keeps};
use aol_flat::Flat;
use aol_model_types::Step;
use aol_paving::pave;
use aol_tiling::tile;
use std::alloc::Global;

/// The answer of a step's crate, as one of a list of steps.
fn told(answer: Result<(Flat, Remap), StepRefused>) -> Result<(Flat, Remap), StepCause>
    ensures { IsToldAs answer result }
{
    match answer {
        Ok(made) => Ok(made),
        Err(StepRefused::NoMemory) => Err(StepCause::NoMemory),
        Err(why) => Err(StepCause::NoResult(why)),
    }
}

/// The model that a step makes, laid out, with the map of its instances; or why there is none.
fn made(alloc: Global, old: &Flat, step: &Step) -> Result<(Flat, Remap), StepCause>
    ensures made { IfOk result (λ r. IsProposed old.now.model step.now r.0.model) }
    ensures map { IfOk result (λ r. IsStepMap old.now.model step.now r.0.model r.1.old_of) }
    ensures refused { IfErr result (IsCause old.now.model step.now) }
{
    match step {
        Step::Tile { task, outer, block } => told(tile(alloc, old, task, outer, block)),
        Step::Pave { task, args } => told(pave(alloc, old, task, args)),
        Step::Skew { .. } | Step::Fuse { .. } => Err(StepCause::Unbuilt),
    }
}

/// Whether memory was wanting.
fn is_memory(refused: &AssignRefused) -> bool
    ensures { IsTrue result ↔ (refused.now ≡ assigning.NoMemory) }
{
    match refused {
        AssignRefused::NoMemory => true,
        AssignRefused::Twice { .. } | AssignRefused::Unwritten { .. } => false,
    }
}

/// The same for what is lost.
fn is_without_memory(lost: &Lost) -> bool
    ensures { IsTrue result ↔ (lost.now ≡ losing.NoMemory) }
{
    match lost {
        Lost::NoMemory => true,
        Lost::Element { .. } => false,
    }
}

/// The model that a step makes, where it keeps the old one.
fn compared(
    alloc: Global,
    old: Flat,
    step: &Step,
    next: Transformed,
    map: Remap,
) -> Result<Transformed, StepCause>
    requires accepted { IsAccepted old.model }
    requires proposed { IsProposed old.model step.now next.flat.model }
    requires map { IsStepMap old.model step.now next.flat.model map.old_of }
    requires single { IsSingleAssignment next.flat.model }
    requires writers { AreWriters next.flat next.writers }
    ensures kept { IfOk result (λ t. IsKept old.model step.now t.flat.model) }
    ensures agrees { IfOk result (λ t. KeepsOutputs old.model t.flat.model) }
    ensures writers { IfOk result (λ t. AreWriters t.flat t.writers) }
    ensures refused { IfErr result (IsCause old.model step.now) }
{
    match keeps(alloc, &old, &next.flat, map.old_of.as_slice()) {
        Ok(()) => Ok(next),
        Err(lost) if is_without_memory(&lost) => Err(StepCause::NoMemory),
        Err(lost) => Err(StepCause::Lost {
            old,
            next: next.flat,
            lost,
        }),
    }
}

/// The model that a step makes of an accepted one, where nothing is written twice and it keeps the old one.
pub fn taken(alloc: Global, old: Flat, step: &Step) -> Result<Transformed, StepCause>
    requires accepted { IsAccepted old.model }
    ensures kept { IfOk result (λ t. IsKept old.model step.now t.flat.model) }
    ensures agrees { IfOk result (λ t. KeepsOutputs old.model t.flat.model) }
    ensures writers { IfOk result (λ t. AreWriters t.flat t.writers) }
    ensures refused { IfErr result (IsCause old.model step.now) }
{
    let (flat, map) = made(alloc, &old, step)?;
    match writers(alloc, &flat) {
        Ok(writers) => compared(alloc, old, step, Transformed { flat, writers }, map),
        Err(refused) if is_memory(&refused) => Err(StepCause::NoMemory),
        Err(refused) => Err(StepCause::Twice(flat, refused)),
    }
}

//! The tiled model laid out.

ghost use Rattle.std.specs.Prelude.{◌≡◌, ◌⊎◌, Some, IfOk, IfErr};
ghost use Rattle.aol_model_types.specs.Rules.{task_named};
ghost use Rattle.aol_flat.specs.Accept.{IsFlat};
ghost use Rattle.aol_flat.specs.Keep.{AreAlike};
ghost use Rattle.aol_change.specs.Change.{Changed, Refused, KeepsTasks, IsMapOf};
ghost use Rattle.aol_tiling.specs.Tile.{tile, tiled_from};

use crate::model::tiled;
use aol_change::{Remap, StepRefused, laid_out, old_numbers, task_named};
use aol_flat::Flat;
use aol_model_types::Task;
use aol_shape::{Name, Shape};
use std::alloc::Global;

/// The model with the task of this name tiled, laid out.
///
/// `outer` is the space of the blocks, and `block` that of the repetitions of one block. Causes in order:
/// `NotRepeated` where no repeated task has the name, `HasLinks` where it has links between repetitions, `Rank` where
/// one of the spaces has another rank than its space, and `Limit`, those of the hierarchy last.
pub fn tiled_flat(
    alloc: Global,
    old: &Flat,
    task: &Name,
    outer: &Shape,
    block: &Shape,
) -> Result<Flat, StepRefused>
    ensures ok { IfOk result (λ f. tile old.now.model task.now outer.now block.now ≡ Changed f.model) }
    ensures flat { IfOk result (λ f. IsFlat f) }
    ensures keeps { IfOk result (λ f. KeepsTasks old.now.model f.model) }
    ensures refused { IfErr result (λ e. (e ≡ StepRefused.NoMemory) ⊎ (tile old.now.model task.now outer.now block.now ≡ Refused e)) }
{
    let model = old.model();
    match tiled(alloc, model, task, outer, block) {
        Ok(next) => match laid_out(alloc, next) {
            Ok(flat) => Ok(flat),
            Err(error) => Err(error),
        },
        Err(error) => Err(error),
    }
}

/// The model with the task of this name tiled, laid out, and for each of its instances the number of the old one.
///
/// It is refused as by `tiled_flat`. The map is linear in the instances.
pub fn tile(
    alloc: Global,
    old: &Flat,
    task: &Name,
    outer: &Shape,
    block: &Shape,
) -> Result<(Flat, Remap), StepRefused>
    ensures model { IfOk result (λ r. tile old.now.model task.now outer.now block.now ≡ Changed r.0.model) }
    ensures flat { IfOk result (λ r. IsFlat r.0) }
    ensures alike { IfOk result (λ r. AreAlike old.now.model r.0.model r.1.old_of) }
    ensures map { IfOk result (λ r. IsMapOf old.now.model r.0.model (tiled_from (task_named old.now.model.tasks task.now) old.now.model block.now r.0.model) r.1.old_of) }
    ensures refused { IfErr result (λ e. (e ≡ StepRefused.NoMemory) ⊎ (tile old.now.model task.now outer.now block.now ≡ Refused e)) }
{
    let flat = tiled_flat(alloc, old, task, outer, block)?;
    let model = old.model();
    let Some(Task::Repeated(repeated)) = task_named(model.tasks.as_slice(), task) else {
        unreachable!()
    };
    match old_numbers(alloc, old, repeated, outer, block) {
        Ok(map) => Ok((flat, map)),
        Err(_) => Err(StepRefused::NoMemory),
    }
}

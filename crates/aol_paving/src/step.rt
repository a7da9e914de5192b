//! The paved model laid out.

ghost use Rattle.std.specs.Prelude.{◌≡◌, ◌⊎◌, IfOk, IfErr};
ghost use Rattle.aol_model_types.specs.Rules.{task_named};
ghost use Rattle.aol_flat.specs.Accept.{IsFlat};
ghost use Rattle.aol_flat.specs.Keep.{AreAlike};
ghost use Rattle.aol_change.specs.Change.{Changed, Refused, KeepsTasks, IsMapOf};
ghost use Rattle.aol_paving.specs.Pave.{pave, paved_from};

use crate::model::paved;
use aol_change::{Remap, StepRefused, laid_out, old_numbers, task_named};
use aol_flat::Flat;
use aol_model_types::{PaveArgs, Task};
use aol_shape::Name;
use std::alloc::Global;

/// The model with the paving of the task of this name changed, laid out.
///
/// `args` has the space of the blocks, and that of one block. Causes in order: `NotRepeated` where no repeated task has
/// the name, `NotTwoLevels` where its inner task isn't repeated, `HasLinks` where one of both has links between
/// repetitions, `Rank` where one of the spaces has another rank than its space, and `Limit`, those of the hierarchy last.
pub fn paved_flat(
    alloc: Global,
    old: &Flat,
    task: &Name,
    args: &PaveArgs,
) -> Result<Flat, StepRefused>
    ensures ok { IfOk result (λ f. pave old.now.model task.now args.now.outer args.now.block ≡ Changed f.model) }
    ensures flat { IfOk result (λ f. IsFlat f) }
    ensures keeps { IfOk result (λ f. KeepsTasks old.now.model f.model) }
    ensures refused { IfErr result (λ e. (e ≡ StepRefused.NoMemory) ⊎ (pave old.now.model task.now args.now.outer args.now.block ≡ Refused e)) }
{
    let model = old.model();
    match paved(alloc, model, task, args) {
        Ok(next) => match laid_out(alloc, next) {
            Ok(flat) => Ok(flat),
            Err(error) => Err(error),
        },
        Err(error) => Err(error),
    }
}

/// The model with the paving of the task of this name changed, laid out, and for each of its instances the number of the old one.
///
/// It is refused as by `paved_flat`. The map is linear in the instances.
pub fn pave(
    alloc: Global,
    old: &Flat,
    task: &Name,
    args: &PaveArgs,
) -> Result<(Flat, Remap), StepRefused>
    ensures model { IfOk result (λ r. pave old.now.model task.now args.now.outer args.now.block ≡ Changed r.0.model) }
    ensures flat { IfOk result (λ r. IsFlat r.0) }
    ensures alike { IfOk result (λ r. AreAlike old.now.model r.0.model r.1.old_of) }
    ensures map { IfOk result (λ r. IsMapOf old.now.model r.0.model (paved_from (task_named old.now.model.tasks task.now) old.now.model args.now.block r.0.model) r.1.old_of) }
    ensures refused { IfErr result (λ e. (e ≡ StepRefused.NoMemory) ⊎ (pave old.now.model task.now args.now.outer args.now.block ≡ Refused e)) }
{
    let flat = paved_flat(alloc, old, task, args)?;
    let model = old.model();
    let Some(Task::Repeated(repeated)) = task_named(model.tasks.as_slice(), task) else {
        unreachable!()
    };
    match old_numbers(alloc, old, repeated, &args.outer, &args.block) {
        Ok(map) => Ok((flat, map)),
        Err(_) => Err(StepRefused::NoMemory),
    }
}

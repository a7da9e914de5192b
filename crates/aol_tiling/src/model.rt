//! The tiled model.

ghost use Rattle.std.specs.Prelude.{◌≡◌, ◌+◌, ◌<◌, ◌^◌, ◌++◌, [], ◌∷◌, length, map, true, IfOk, OnOk};
ghost use Rattle.std.specs.List.{AllByRecursion};
ghost use Rattle.aol_shape.specs.Lists.{or_else};
ghost use Rattle.aol_tiler.specs.Tiler.{blocked};
ghost use Rattle.aol_model_types.specs.declared.task.Task.TheVariants as tasks;
ghost use Rattle.aol_model_types.specs.Rules.{task_named};
ghost use Rattle.aol_flat.specs.Accept.{IsSound};
ghost use Rattle.aol_change.specs.Change.{tiler_limit, within_limits, has_links, have_rank};
ghost use Rattle.aol_change.specs.Blocks.{block_task, block_limit, IsEmptyBlock};
ghost use Rattle.aol_change.specs.Made.{IsWithin, IsStep};
ghost use Rattle.aol_tiling.specs.Tile.{outer_tiler, outer_limit, blocks_task, filled_blocks, tiled_model, tile_limit, tiled_task};
ghost use Rattle.aol_tiling.specs.Tiling.{CanBlock};

use aol_change::{StepRefused, block_task, changed_model, new_name, push_copies, task_named};
use aol_model_types::{Model, Repeated, Task, TilerOn};
use aol_shape::{Items, LimitName, Name, NoMemory, Shape};
use aol_tiler::{Tiler, TilerRefused};
use std::alloc::Global;

/// A tiler in blocks.
fn blocked(alloc: Global, tiler: &Tiler, block: &Shape) -> Result<Tiler, StepRefused>
    requires { CanBlock block.now tiler.now }
    ensures made { IfOk result (λ t. t ≡ blocked tiler.now block.now) }
    ensures limit { IsWithin result (tiler_limit (blocked tiler.now block.now)) }
{
    match tiler.blocked(alloc, block) {
        Ok(tiler) => Ok(tiler),
        Err(TilerRefused::Entry(_)) => Err(StepRefused::Limit(LimitName::Entry)),
        Err(TilerRefused::NoMemory) => Err(StepRefused::NoMemory),
    }
}

/// A tiler of a repetition in blocks.
fn outer_tiler(alloc: Global, tiler: &TilerOn, block: &Shape) -> Result<TilerOn, StepRefused>
    requires { CanBlock block.now tiler.now.tiler }
    ensures made { IfOk result (λ o. o ≡ outer_tiler block.now tiler.now) }
    ensures limit { IsWithin result (tiler_limit (blocked tiler.now.tiler block.now)) }
{
    let by = blocked(alloc, &tiler.tiler, block)?;
    Ok(TilerOn {
        outer: tiler.outer.copy(alloc)?,
        inner: tiler.inner.copy(alloc)?,
        tiler: by,
    })
}

/// Pushes the tilers in blocks.
fn push_outer(
    alloc: Global,
    tilers: &[TilerOn],
    block: &Shape,
    made: &mut Items<TilerOn>,
) -> Result<(), StepRefused>
    requires { AllByRecursion (λ o. CanBlock block.now o.tiler) tilers.now }
    ensures made { OnOk result (made.new ≡ made.old ++ map (outer_tiler block.now) tilers.now) }
    ensures limit { IsWithin result (outer_limit block.now tilers.now) }
{
    for tiler in tilers {
        let by = outer_tiler(alloc, tiler, block)?;
        made.push(by)?;
    }
    Ok(())
}

/// Whether the spaces of a repetition over blocks and over one block have the rank of the repetition's.
fn have_rank(task: &Repeated, outer: &Shape, block: &Shape) -> bool
    ensures { result ≡ have_rank task.now outer.now block.now }
{
    let rank = task.space.as_slice().len();
    outer.as_slice().len() == rank && block.as_slice().len() == rank
}

/// Gives a repetition over blocks the ports of the old one, and its tilers in blocks.
fn fill_blocks(
    alloc: Global,
    task: &Repeated,
    block: &Shape,
    made: &mut Repeated,
) -> Result<(), StepRefused>
    requires blockable { AllByRecursion (λ o. CanBlock block.now o.tiler) task.now.tilers }
    requires empty { IsEmptyBlock made.old }
    ensures made { OnOk result (made.new ≡ filled_blocks task.now block.now made.old) }
    ensures limit { IsWithin result (outer_limit block.now task.now.tilers) }
{
    push_copies(alloc, task.ins.as_slice(), &mut made.ins)?;
    push_copies(alloc, task.outs.as_slice(), &mut made.outs)?;
    push_outer(alloc, task.tilers.as_slice(), block, &mut made.tilers)?;
    Ok(())
}

/// The repetition over the blocks, each a task of this name.
fn blocks_task(
    alloc: Global,
    task: &Repeated,
    outer: &Shape,
    block: &Shape,
    name: &Name,
) -> Result<Repeated, StepRefused>
    requires { AllByRecursion (λ o. CanBlock block.now o.tiler) task.now.tilers }
    ensures made { IfOk result (λ t. t ≡ blocks_task task.now outer.now block.now name.now) }
    ensures limit { IsWithin result (outer_limit block.now task.now.tilers) }
{
    let mut made = Repeated {
        name: task.name.copy(alloc)?,
        ins: Items::new(alloc),
        outs: Items::new(alloc),
        space: outer.copy(),
        task: name.copy(alloc)?,
        tilers: Items::new(alloc),
        links: Items::new(alloc),
    };
    fill_blocks(alloc, task, block, &mut made)?;
    Ok(made)
}

/// Pushes the repetition over the blocks, and then the one over one block.
fn push_tasks(
    alloc: Global,
    model: &Model,
    task: &Repeated,
    outer: &Shape,
    block: &Shape,
    name: &Name,
    put: &mut Items<Task>,
) -> Result<(), StepRefused>
    requires sound { IsSound model.now }
    requires found { task_named model.now.tasks task.now.name ≡ Some (tasks.Repeated task.now) }
    requires rank { have_rank task.now outer.now block.now ≡ true }
    ensures made { OnOk result (put.new ≡ put.old ++ tasks.Repeated (blocks_task task.now outer.now block.now name.now) ∷ tasks.Repeated (block_task model.now task.now block.now name.now) ∷ []) }
    ensures limit { IsWithin result (or_else (block_limit model.now task.now block.now) (outer_limit block.now task.now.tilers)) }
{
    let _entries = block.as_slice();
    let made = block_task(alloc, model, task, block, name)?;
    let changed = blocks_task(alloc, task, outer, block, name)?;
    put.push(Task::Repeated(changed))?;
    put.push(Task::Repeated(made))?;
    Ok(())
}

/// The model with a repetition tiled.
fn tiled_repeated(
    alloc: Global,
    model: &Model,
    task: &Repeated,
    outer: &Shape,
    block: &Shape,
) -> Result<Model, StepRefused>
    requires sound { IsSound model.now }
    requires found { task_named model.now.tasks task.now.name ≡ Some (tasks.Repeated task.now) }
    requires rank { have_rank task.now outer.now block.now ≡ true }
    ensures step { IsStep result (within_limits (tiled_model model.now task.now outer.now block.now) (tile_limit model.now task.now block.now)) }
    ensures count { OnOk result (length model.now.tasks + 1 < 2 ^ 32) }
{
    let name = new_name(alloc, model, &[], &task.name)?;
    let mut put = Items::new(alloc);
    push_tasks(alloc, model, task, outer, block, &name, &mut put)?;
    let model = changed_model(alloc, model, &task.name, &mut put)?;
    Ok(model)
}

/// The model with the task of this name tiled, as far as no limit of the hierarchy is looked at.
///
/// `outer` is the space of the blocks, and `block` that of the repetitions of one block. Causes in order:
/// `NotRepeated` where no repeated task has the name, `HasLinks` where it has links between repetitions, `Rank` where
/// one of the spaces has another rank than its space, and `Limit`.
pub fn tiled(
    alloc: Global,
    model: &Model,
    name: &Name,
    outer: &Shape,
    block: &Shape,
) -> Result<Model, StepRefused>
    requires sound { IsSound model.now }
    ensures step { IsStep result (tiled_task model.now (task_named model.now.tasks name.now) outer.now block.now) }
    ensures sound { IfOk result (λ m. IsSound m) }
{
    let _outer = outer.as_slice();
    let _block = block.as_slice();
    match task_named(model.tasks.as_slice(), name) {
        Some(Task::Repeated(task)) => {
            if !task.links.is_empty() {
                return Err(StepRefused::HasLinks);
            }
            if !have_rank(task, outer, block) {
                return Err(StepRefused::Rank);
            }
            match tiled_repeated(alloc, model, task, outer, block) {
                Ok(model) => Ok(model),
                Err(error) => Err(error),
            }
        }
        _ => Err(StepRefused::NotRepeated),
    }
}

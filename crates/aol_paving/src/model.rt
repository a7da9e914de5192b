//! The paved model.

ghost use Rattle.std.specs.Prelude.{◌≡◌, ◌+◌, ◌<◌, ◌^◌, ◌++◌, [], ◌∷◌, length, map, true, Some, IfOk, OnOk};
ghost use Rattle.std.specs.List.{AllByRecursion};
ghost use Rattle.aol_shape.specs.Lists.{or_else};
ghost use Rattle.aol_model_types.specs.declared.task.Task.TheVariants as tasks;
ghost use Rattle.aol_model_types.specs.Rules.{task_named};
ghost use Rattle.aol_flat.specs.Accept.{IsSound};
ghost use Rattle.aol_change.specs.Change.{within_limits, joined_limit, have_rank};
ghost use Rattle.aol_change.specs.Blocks.{IsEmptyBlock};
ghost use Rattle.aol_change.specs.Made.{IsWithin, IsStep};
ghost use Rattle.aol_paving.specs.Crossings.{input_crossings, output_crossings};
ghost use Rattle.aol_paving.specs.Pave.{whole_port, whole_tiler, filled_inner, inner_task, outer_tiler, filled_outer, outer_task, whole_limit, inner_limit, crossing_limit, outer_limit, tasks_limit, pave_limit, paved_inner, paved_outer, paved_model, paved_levels, paved_task};
ghost use Rattle.aol_paving.specs.Paving.{HasRoom, Meet, CanCross};

use crate::crossing::{Crossing, push_inputs, push_outputs};
use crate::tilers::crossed_tiler;
use aol_change::{StepRefused, changed_model, new_name, push_copies, task_named};
use aol_expr_tree::Port;
use aol_model_types::limits::MAX_PORTS;
use aol_model_types::{Model, PaveArgs, Repeated, Task, TilerOn};
use aol_shape::{Items, LimitName, Name, NoMemory, Shape, ShapeRefused, joined};
use aol_tiler::Tiler;
use std::alloc::Global;

/// Both shapes as one.
#[tactic(auto, using(aol_change::proofs::Limits::joined_ok, aol_change::proofs::Limits::joined_rank, aol_change::proofs::Limits::joined_points))]
fn joined_shape(first: &Shape, second: &Shape) -> Result<Shape, StepRefused>
    ensures made { IfOk result (λ s. s ≡ first.now ++ second.now) }
    ensures limit { IsWithin result (joined_limit first.now second.now) }
{
    match joined(first, second) {
        Ok(both) => Ok(both),
        Err(ShapeRefused::Rank) => Err(StepRefused::Limit(LimitName::Rank)),
        Err(ShapeRefused::Points) => Err(StepRefused::Limit(LimitName::Points)),
    }
}

/// An innermost port over the whole space of the inner repetition.
fn whole_port(alloc: Global, space: &Shape, crossing: &Crossing) -> Result<Port, StepRefused>
    ensures made { IfOk result (λ p. p ≡ whole_port space.now crossing.now) }
    ensures limit { IsWithin result (joined_limit space.now crossing.now.port.shape) }
{
    let shape = joined_shape(space, &crossing.port.shape)?;
    let name = crossing.port.name.copy(alloc)?;
    Ok(Port { name, shape })
}

/// Pushes the innermost ports over the whole space.
fn push_whole_ports(
    alloc: Global,
    space: &Shape,
    crossings: &[Crossing],
    ports: &mut Items<Port>,
) -> Result<(), StepRefused>
    ensures made { OnOk result (ports.new ≡ ports.old ++ map (whole_port space.now) crossings.now) }
    ensures limit { IsWithin result (whole_limit space.now crossings.now) }
{
    for crossing in crossings {
        let port = whole_port(alloc, space, crossing)?;
        ports.push(port)?;
    }
    Ok(())
}

/// The tiler from a port over the whole space to the innermost port.
fn whole_tiler(alloc: Global, space: &Shape, crossing: &Crossing) -> Result<TilerOn, NoMemory>
    requires { HasRoom space.now crossing.now }
    ensures { IfOk result (λ o. o ≡ whole_tiler space.now crossing.now) }
{
    let Ok(tiler) = Tiler::inner(alloc, space, &crossing.port.shape) else {
        return Err(NoMemory);
    };
    Ok(TilerOn {
        outer: crossing.port.name.copy(alloc)?,
        inner: crossing.port.name.copy(alloc)?,
        tiler,
    })
}

/// Pushes the tilers from the ports over the whole space to the innermost ports.
fn push_whole_tilers(
    alloc: Global,
    space: &Shape,
    crossings: &[Crossing],
    made: &mut Items<TilerOn>,
) -> Result<(), NoMemory>
    requires { AllByRecursion (HasRoom space.now) crossings.now }
    ensures { OnOk result (made.new ≡ made.old ++ map (whole_tiler space.now) crossings.now) }
{
    for crossing in crossings {
        made.push(whole_tiler(alloc, space, crossing)?)?;
    }
    Ok(())
}

/// Gives a repetition the ports and tilers over the whole space.
#[tactic(auto, using(crate::proofs::Rooms::has_room, crate::proofs::Lists::mapped_both))]
fn fill_inner(
    alloc: Global,
    ins: &[Crossing],
    outs: &[Crossing],
    space: &Shape,
    made: &mut Repeated,
) -> Result<(), StepRefused>
    requires { IsEmptyBlock made.old }
    ensures made { OnOk result (made.new ≡ filled_inner space.now ins.now outs.now made.old) }
    ensures limit { IsWithin result (inner_limit space.now ins.now outs.now) }
{
    push_whole_ports(alloc, space, ins, &mut made.ins)?;
    push_whole_ports(alloc, space, outs, &mut made.outs)?;
    if made.ins.len() > MAX_PORTS || made.outs.len() > MAX_PORTS - made.ins.len() {
        return Err(StepRefused::Limit(LimitName::Ports));
    }
    push_whole_tilers(alloc, space, ins, &mut made.tilers)?;
    push_whole_tilers(alloc, space, outs, &mut made.tilers)?;
    Ok(())
}

/// The inner repetition, over this space.
fn inner_task(
    alloc: Global,
    inner: &Repeated,
    ins: &[Crossing],
    outs: &[Crossing],
    space: &Shape,
    name: &Name,
) -> Result<Repeated, StepRefused>
    ensures made { IfOk result (λ t. t ≡ inner_task inner.now ins.now outs.now space.now name.now) }
    ensures limit { IsWithin result (inner_limit space.now ins.now outs.now) }
{
    let mut made = Repeated {
        name: name.copy(alloc)?,
        ins: Items::new(alloc),
        outs: Items::new(alloc),
        space: space.copy(),
        task: inner.task.copy(alloc)?,
        tilers: Items::new(alloc),
        links: Items::new(alloc),
    };
    fill_inner(alloc, ins, outs, space, &mut made)?;
    Ok(made)
}

/// The tiler from an outer port to an innermost port over a block and the inner space.
fn outer_tiler(alloc: Global, crossing: &Crossing, block: &Shape) -> Result<TilerOn, StepRefused>
    requires { CanCross block.now crossing.now }
    ensures made { IfOk result (λ o. o ≡ outer_tiler block.now crossing.now) }
    ensures limit { IsWithin result (crossing_limit block.now crossing.now) }
{
    let by = crossed_tiler(alloc, crossing, block)?;
    Ok(TilerOn {
        outer: crossing.outer.outer.copy(alloc)?,
        inner: crossing.port.name.copy(alloc)?,
        tiler: by,
    })
}

/// Pushes those tilers.
fn push_outer(
    alloc: Global,
    crossings: &[Crossing],
    block: &Shape,
    made: &mut Items<TilerOn>,
) -> Result<(), StepRefused>
    requires { AllByRecursion (CanCross block.now) crossings.now }
    ensures made { OnOk result (made.new ≡ made.old ++ map (outer_tiler block.now) crossings.now) }
    ensures limit { IsWithin result (outer_limit block.now crossings.now) }
{
    for crossing in crossings {
        let by = outer_tiler(alloc, crossing, block)?;
        made.push(by)?;
    }
    Ok(())
}

/// Gives a repetition the ports of the old outer one, and the tilers to the innermost ports.
#[tactic(auto, using(crate::proofs::Lists::mapped_both))]
fn fill_outer(
    alloc: Global,
    task: &Repeated,
    ins: &[Crossing],
    outs: &[Crossing],
    block: &Shape,
    made: &mut Repeated,
) -> Result<(), StepRefused>
    requires inputs { AllByRecursion (CanCross block.now) ins.now }
    requires outputs { AllByRecursion (CanCross block.now) outs.now }
    requires empty { IsEmptyBlock made.old }
    ensures made { OnOk result (made.new ≡ filled_outer task.now block.now (ins.now ++ outs.now) made.old) }
    ensures limit { IsWithin result (or_else (outer_limit block.now ins.now) (outer_limit block.now outs.now)) }
{
    push_copies(alloc, task.ins.as_slice(), &mut made.ins)?;
    push_copies(alloc, task.outs.as_slice(), &mut made.outs)?;
    push_outer(alloc, ins, block, &mut made.tilers)?;
    push_outer(alloc, outs, block, &mut made.tilers)?;
    Ok(())
}

/// The outer repetition, each a task of this name.
fn outer_task(
    alloc: Global,
    task: &Repeated,
    ins: &[Crossing],
    outs: &[Crossing],
    args: &PaveArgs,
    name: &Name,
) -> Result<Repeated, StepRefused>
    requires inputs { AllByRecursion (CanCross args.now.block) ins.now }
    requires outputs { AllByRecursion (CanCross args.now.block) outs.now }
    ensures made { IfOk result (λ t. t ≡ outer_task task.now (ins.now ++ outs.now) args.now.outer args.now.block name.now) }
    ensures limit { IsWithin result (or_else (outer_limit args.now.block ins.now) (outer_limit args.now.block outs.now)) }
{
    let mut made = Repeated {
        name: task.name.copy(alloc)?,
        ins: Items::new(alloc),
        outs: Items::new(alloc),
        space: args.outer.copy(),
        task: name.copy(alloc)?,
        tilers: Items::new(alloc),
        links: Items::new(alloc),
    };
    fill_outer(alloc, task, ins, outs, &args.block, &mut made)?;
    Ok(made)
}

/// Pushes the outer repetition, and then the inner one.
fn push_levels(
    alloc: Global,
    task: &Repeated,
    inner: &Repeated,
    ins: &[Crossing],
    outs: &[Crossing],
    args: &PaveArgs,
    name: &Name,
    put: &mut Items<Task>,
) -> Result<(), StepRefused>
    requires inputs { AllByRecursion (Meet inner.now.space args.now.block) ins.now }
    requires outputs { AllByRecursion (Meet inner.now.space args.now.block) outs.now }
    ensures made { OnOk result (put.new ≡ put.old ++ tasks.Repeated (outer_task task.now (ins.now ++ outs.now) args.now.outer args.now.block name.now) ∷ tasks.Repeated (inner_task inner.now ins.now outs.now (args.now.block ++ inner.now.space) name.now) ∷ []) }
    ensures limit { IsWithin result (tasks_limit args.now.block inner.now.space ins.now outs.now) }
{
    let space = joined_shape(&args.block, &inner.space)?;
    let made = inner_task(alloc, inner, ins, outs, &space, name)?;
    let changed = outer_task(alloc, task, ins, outs, args, name)?;
    put.push(Task::Repeated(changed))?;
    put.push(Task::Repeated(made))?;
    Ok(())
}

/// Pushes the tasks of both levels, with the tilers of all ports that lead through both.
fn push_tasks(
    alloc: Global,
    model: &Model,
    task: &Repeated,
    inner: &Repeated,
    args: &PaveArgs,
    name: &Name,
    put: &mut Items<Task>,
) -> Result<(), StepRefused>
    requires sound { IsSound model.now }
    requires found { task_named model.now.tasks task.now.name ≡ Some (tasks.Repeated task.now) }
    requires below { task_named model.now.tasks task.now.task ≡ Some (tasks.Repeated inner.now) }
    requires plain { task.now.links ≡ [] }
    requires inner_plain { inner.now.links ≡ [] }
    requires rank { have_rank task.now args.now.outer args.now.block ≡ true }
    ensures made { OnOk result (put.new ≡ put.old ++ tasks.Repeated (paved_outer model.now task.now inner.now args.now.outer args.now.block name.now) ∷ tasks.Repeated (paved_inner model.now task.now inner.now args.now.block name.now) ∷ []) }
    ensures limit { IsWithin result (tasks_limit args.now.block inner.now.space (input_crossings model.now task.now inner.now) (output_crossings model.now task.now inner.now)) }
{
    let innermost = task_named(model.tasks.as_slice(), &inner.task);
    let mut ins = Items::new(alloc);
    push_inputs(alloc, task, inner, innermost, &mut ins)?;
    let mut outs = Items::new(alloc);
    push_outputs(alloc, task, inner, innermost, &mut outs)?;
    push_levels(
        alloc,
        task,
        inner,
        ins.as_slice(),
        outs.as_slice(),
        args,
        name,
        put,
    )
}

/// The model with the paving of two levels changed.
fn paved_repeated(
    alloc: Global,
    model: &Model,
    task: &Repeated,
    inner: &Repeated,
    args: &PaveArgs,
) -> Result<Model, StepRefused>
    requires sound { IsSound model.now }
    requires found { task_named model.now.tasks task.now.name ≡ Some (tasks.Repeated task.now) }
    requires below { task_named model.now.tasks task.now.task ≡ Some (tasks.Repeated inner.now) }
    requires plain { task.now.links ≡ [] }
    requires inner_plain { inner.now.links ≡ [] }
    requires rank { have_rank task.now args.now.outer args.now.block ≡ true }
    ensures step { IsStep result (within_limits (paved_model model.now task.now inner.now args.now.outer args.now.block) (pave_limit model.now task.now inner.now args.now.block)) }
    ensures count { OnOk result (length model.now.tasks + 1 < 2 ^ 32) }
{
    let name = new_name(alloc, model, &[], &task.name)?;
    let mut put = Items::new(alloc);
    push_tasks(alloc, model, task, inner, args, &name, &mut put)?;
    let model = changed_model(alloc, model, &task.name, &mut put)?;
    Ok(model)
}

/// Whether the spaces of the blocks and of one block have the rank of the repetition's.
fn have_rank(task: &Repeated, args: &PaveArgs) -> bool
    ensures { result ≡ have_rank task.now args.now.outer args.now.block }
{
    let rank = task.space.as_slice().len();
    args.outer.as_slice().len() == rank && args.block.as_slice().len() == rank
}

/// The model with the paving changed at a repetition of this task.
fn paved_levels(
    alloc: Global,
    model: &Model,
    task: &Repeated,
    args: &PaveArgs,
) -> Result<Model, StepRefused>
    requires sound { IsSound model.now }
    requires found { task_named model.now.tasks task.now.name ≡ Some (tasks.Repeated task.now) }
    ensures step { IsStep result (paved_levels model.now task.now (task_named model.now.tasks task.now.task) args.now.outer args.now.block) }
    ensures sound { IfOk result (λ m. IsSound m) }
{
    let _outer = args.outer.as_slice();
    let _block = args.block.as_slice();
    let Some(Task::Repeated(inner)) = task_named(model.tasks.as_slice(), &task.task) else {
        return Err(StepRefused::NotTwoLevels);
    };
    if !task.links.is_empty() || !inner.links.is_empty() {
        return Err(StepRefused::HasLinks);
    }
    if !have_rank(task, args) {
        return Err(StepRefused::Rank);
    }
    match paved_repeated(alloc, model, task, inner, args) {
        Ok(model) => Ok(model),
        Err(error) => Err(error),
    }
}

/// The model with the paving of the task of this name changed, as far as no limit of the hierarchy is looked at.
///
/// `args` has the space of the blocks, and that of one block. Causes in order: `NotRepeated` where no repeated task has
/// the name, `NotTwoLevels` where its inner task isn't repeated, `HasLinks` where one of both has links between
/// repetitions, `Rank` where one of the spaces has another rank than its space, and `Limit`.
pub fn paved(
    alloc: Global,
    model: &Model,
    name: &Name,
    args: &PaveArgs,
) -> Result<Model, StepRefused>
    requires sound { IsSound model.now }
    ensures step { IsStep result (paved_task model.now (task_named model.now.tasks name.now) args.now.outer args.now.block) }
    ensures sound { IfOk result (λ m. IsSound m) }
{
    match task_named(model.tasks.as_slice(), name) {
        Some(Task::Repeated(task)) => match paved_levels(alloc, model, task, args) {
            Ok(model) => Ok(model),
            Err(error) => Err(error),
        },
        _ => Err(StepRefused::NotRepeated),
    }
}

//! The fused model.

ghost use Rattle.std.specs.Prelude.{◌≡◌, ◌+◌, ◌<◌, ◌≤◌, ◌^◌, ◌++◌, [], ◌∷◌, length, true, Some, IfOk, OnOk, if◌then◌else◌};
ghost use Rattle.std.specs.List.{AllByRecursion};
ghost use Rattle.std.specs.Option.{option_copied};
ghost use Rattle.aol_model_types.specs.declared.task.Task.TheVariants as tasks;
ghost use Rattle.aol_model_types.specs.Rules.{task_named};
ghost use Rattle.aol_flat.specs.Accept.{IsSound};
ghost use Rattle.aol_change.specs.Blocks.{inputs_in};
ghost use Rattle.aol_change.specs.Change.{Refused, within_limits};
ghost use Rattle.aol_change.specs.Made.{IsWithin, IsStep};
ghost use Rattle.aol_fusion_parts.specs.Changed.{fused_compound};
ghost use Rattle.aol_fusion_parts.specs.Fuse.{fusing, fused_ports, block_ins, new_tasks, tasks_limit, fused_with, fused_model, fuse_limit, is_formed, fused, fused_parts, fused_task};
ghost use Rattle.aol_fusion_parts.specs.Made.{fused_names, names_limit, block_of_first, block_limit, once_of_second, once_limit, pair_of_both, pair_limit};
ghost use Rattle.aol_fusion_parts.specs.Whole.{fused_repetition, whole_limit};
ghost use Rattle.aol_fusion_parts.specs.Room.{CanPlace};
ghost use Rattle.aol_fusion_parts.specs.Ready.{HaveNoPorts, CanPlaceAll, IsFew, AreFound, IsReady};

use crate::block::block_of_first;
use crate::compound::fused_compound;
use crate::joined::{are_joined, is_well_formed, task_of_part};
use crate::once::once_of_second;
use crate::pair::pair_of_both;
use crate::ports::{
    FusedNames, FusedPorts, push_outputs, push_picked, push_sources, push_tiled, push_unjoined,
};
use crate::whole::{Inside, fused_repetition};
use aol_change::{
    StepRefused, changed_model, inputs_of, new_name, push_copies, put_back, task_named,
};
use aol_expr_tree::Port;
use aol_model_types::{Compound, FuseArgs, Model, Repeated, Task};
use aol_shape::{Items, Name, NoMemory};
use std::alloc::Global;

/// The names of the four new tasks.
fn fused_names(alloc: Global, model: &Model, name: &Name) -> Result<FusedNames, StepRefused>
    requires { IsSound model.now }
    ensures made { IfOk result (λ n. n ≡ fused_names model.now name.now) }
    ensures limit { IsWithin result (names_limit (fused_names model.now name.now)) }
{
    let mut made = Items::new(alloc);
    let block = new_name(alloc, model, made.as_slice(), name)?;
    made.push(block.copy(alloc)?)?;
    let once = new_name(alloc, model, made.as_slice(), name)?;
    made.push(once.copy(alloc)?)?;
    let pair = new_name(alloc, model, made.as_slice(), name)?;
    made.push(pair.copy(alloc)?)?;
    let whole = new_name(alloc, model, made.as_slice(), name)?;
    Ok(FusedNames {
        block,
        once,
        pair,
        whole,
    })
}

/// Pushes the inputs of a task, where it is there.
fn push_inputs(alloc: Global, task: Option<&Task>, made: &mut Items<Port>) -> Result<(), NoMemory>
    ensures { OnOk result (made.new ≡ made.old ++ inputs_in (option_copied task.entry)) }
{
    match task {
        Some(task) => push_copies(alloc, inputs_of(task), made),
        None => Ok(()),
    }
}

/// Puts the ports by which the new tasks are made into empty lists.
fn fill_ports(
    alloc: Global,
    model: &Model,
    compound: &Compound,
    one: &Repeated,
    two: &Repeated,
    args: &FuseArgs,
    ports: &mut FusedPorts,
) -> Result<(), NoMemory>
    requires { HaveNoPorts ports.old }
    ensures { OnOk result (ports.new ≡ fused_ports (fusing model.now compound.now one.now two.now args.now)) }
{
    let tasks = model.tasks.as_slice();
    let first = task_named(tasks, &one.task);
    push_inputs(alloc, first, &mut ports.first_ins)?;
    push_outputs(alloc, first, &mut ports.first_outs)?;
    let outs = ports.first_outs.as_slice();
    push_sources(alloc, args.picks.as_slice(), outs, &mut ports.used_outs)?;
    let second = task_named(tasks, &two.task);
    push_inputs(alloc, second, &mut ports.second_ins)?;
    let ins = ports.second_ins.as_slice();
    push_picked(
        alloc,
        args,
        compound,
        two,
        ins,
        &mut ports.picked_ins,
        &mut ports.free_ins,
    )?;
    let mut all = Items::new(alloc);
    push_outputs(alloc, second, &mut all)?;
    push_tiled(alloc, two, all.as_slice(), &mut ports.second_outs)?;
    push_unjoined(
        alloc,
        args,
        compound,
        two.ins.as_slice(),
        &mut ports.unjoined,
    )
}

/// Pushes the repetition over one block, and copies of its inputs.
fn push_block(
    alloc: Global,
    args: &FuseArgs,
    one: &Repeated,
    names: &FusedNames,
    ports: &FusedPorts,
    ins: &mut Items<Port>,
    made: &mut Items<Task>,
) -> Result<(), StepRefused>
    ensures ins { OnOk result (ins.new ≡ ins.old ++ block_ins args.now ports.now) }
    ensures made { OnOk result (made.new ≡ made.old ++ tasks.Repeated (block_of_first names.now.block args.now.block one.now.task ports.now.first_ins ports.now.used_outs) ∷ []) }
    ensures limit { IsWithin result (block_limit args.now.block ports.now.first_ins ports.now.used_outs) }
{
    let task = block_of_first(
        alloc,
        &names.block,
        &args.block,
        &one.task,
        ports.first_ins.as_slice(),
        ports.used_outs.as_slice(),
    )?;
    push_copies(alloc, task.ins.as_slice(), ins)?;
    made.push(Task::Repeated(task))?;
    Ok(())
}

/// Pushes one run.
fn push_once(
    alloc: Global,
    args: &FuseArgs,
    two: &Repeated,
    names: &FusedNames,
    ports: &FusedPorts,
    made: &mut Items<Task>,
) -> Result<(), StepRefused>
    ensures made { OnOk result (made.new ≡ made.old ++ tasks.Repeated (once_of_second names.now.once two.now.task args.now.block ports.now.first_outs args.now.picks ports.now.second_ins ports.now.second_outs) ∷ []) }
    ensures limit { IsWithin result (once_limit args.now.block ports.now.first_outs args.now.picks ports.now.second_ins ports.now.second_outs) }
{
    let task = once_of_second(
        alloc,
        &names.once,
        &two.task,
        &args.block,
        ports.first_outs.as_slice(),
        args.picks.as_slice(),
        ports.second_ins.as_slice(),
        ports.second_outs.as_slice(),
    )?;
    made.push(Task::Repeated(task))?;
    Ok(())
}

/// Pushes both side by side, where these are the inputs of the block.
fn push_pair(
    alloc: Global,
    args: &FuseArgs,
    names: &FusedNames,
    ports: &FusedPorts,
    block: &[Port],
    made: &mut Items<Task>,
) -> Result<(), StepRefused>
    ensures made { OnOk result (made.new ≡ made.old ++ tasks.Compound (pair_of_both names.now args.now.picks block.now ports.now.picked_ins ports.now.free_ins ports.now.second_outs) ∷ []) }
    ensures limit { IsWithin result (pair_limit block.now ports.now.free_ins ports.now.second_outs) }
{
    let task = pair_of_both(
        alloc,
        names,
        args.picks.as_slice(),
        block,
        ports.picked_ins.as_slice(),
        ports.free_ins.as_slice(),
        ports.second_outs.as_slice(),
    )?;
    made.push(Task::Compound(task))?;
    Ok(())
}

/// Pushes the fused repetition.
fn push_whole(
    alloc: Global,
    args: &FuseArgs,
    one: &Repeated,
    two: &Repeated,
    names: &FusedNames,
    ports: &FusedPorts,
    made: &mut Items<Task>,
) -> Result<(), StepRefused>
    requires place { AllByRecursion (CanPlace one.now args.now.tiler) ports.now.first_ins }
    requires few { IsFew one.now ports.now }
    ensures made { OnOk result (made.new ≡ made.old ++ tasks.Repeated (fused_repetition names.now.whole names.now.pair one.now two.now args.now.tiler ports.now.unjoined ports.now.first_ins ports.now.free_ins ports.now.second_outs) ∷ []) }
    ensures limit { IsWithin result (whole_limit one.now two.now args.now.tiler ports.now.unjoined ports.now.first_ins) }
{
    let inside = Inside {
        block: ports.first_ins.as_slice(),
        free: ports.free_ins.as_slice(),
        outs: ports.second_outs.as_slice(),
    };
    let task = fused_repetition(
        alloc,
        &names.whole,
        &names.pair,
        one,
        two,
        &args.tiler,
        ports.unjoined.as_slice(),
        inside,
    )?;
    made.push(Task::Repeated(task))?;
    Ok(())
}

/// Pushes the four new tasks.
fn push_new(
    alloc: Global,
    args: &FuseArgs,
    one: &Repeated,
    two: &Repeated,
    names: &FusedNames,
    ports: &FusedPorts,
    made: &mut Items<Task>,
) -> Result<(), StepRefused>
    requires place { CanPlaceAll args.now one.now ports.now }
    requires few { IsFew one.now ports.now }
    ensures made { OnOk result (made.new ≡ made.old ++ new_tasks args.now one.now two.now names.now ports.now) }
    ensures limit { IsWithin result (tasks_limit args.now one.now two.now ports.now) }
{
    let mut ins = Items::new(alloc);
    push_block(alloc, args, one, names, ports, &mut ins, made)?;
    push_once(alloc, args, two, names, ports, made)?;
    push_pair(alloc, args, names, ports, ins.as_slice(), made)?;
    push_whole(alloc, args, one, two, names, ports, made)?;
    Ok(())
}

/// The model with the new tasks and the changed compound.
fn fused_with(
    alloc: Global,
    model: &Model,
    compound: &Compound,
    one: &Repeated,
    two: &Repeated,
    args: &FuseArgs,
    names: &FusedNames,
    ports: &FusedPorts,
) -> Result<Model, StepRefused>
    requires { IsReady (fusing model.now compound.now one.now two.now args.now) ports.now }
    ensures step { IsStep result (within_limits (fused_with (fusing model.now compound.now one.now two.now args.now) names.now ports.now) (tasks_limit args.now one.now two.now ports.now)) }
    ensures count { OnOk result (length model.now.tasks + 4 < 2 ^ 32) }
{
    let mut made = Items::new(alloc);
    push_new(alloc, args, one, two, names, ports, &mut made)?;
    let unjoined = ports.unjoined.as_slice();
    let changed = fused_compound(alloc, args, compound, one, two, unjoined, &names.whole)?;
    made.push(Task::Compound(changed))?;
    let mut put = Items::new(alloc);
    put_back(&mut put, &mut made)?;
    let model = changed_model(alloc, model, &compound.name, &mut put)?;
    Ok(model)
}

/// The model with two repetitions fused, by the ports of the new tasks.
fn fused_by(
    alloc: Global,
    model: &Model,
    compound: &Compound,
    one: &Repeated,
    two: &Repeated,
    args: &FuseArgs,
    ports: &FusedPorts,
) -> Result<Model, StepRefused>
    requires found { AreFound (fusing model.now compound.now one.now two.now args.now) }
    requires ports { ports.now ≡ fused_ports (fusing model.now compound.now one.now two.now args.now) }
    ensures step { let f = fusing model.now compound.now one.now two.now args.now in IsStep result (if is_formed f then within_limits (fused_model f) (fuse_limit f) else Refused StepRefused.NotJoined) }
    ensures count { OnOk result (length model.now.tasks + 4 < 2 ^ 32) }
{
    let (outs, ins) = (ports.first_outs.as_slice(), ports.second_ins.as_slice());
    if !is_well_formed(args, compound, one, two, outs, ins) {
        return Err(StepRefused::NotJoined);
    }
    let names = fused_names(alloc, model, &compound.name)?;
    fused_with(alloc, model, compound, one, two, args, &names, ports)
}

/// The model with two repetitions fused.
fn fused_repeated(
    alloc: Global,
    model: &Model,
    compound: &Compound,
    one: &Repeated,
    two: &Repeated,
    args: &FuseArgs,
) -> Result<Model, StepRefused>
    requires { AreFound (fusing model.now compound.now one.now two.now args.now) }
    ensures step { IsStep result (fused (fusing model.now compound.now one.now two.now args.now)) }
    ensures count { OnOk result (length model.now.tasks + 4 < 2 ^ 32) }
{
    if !one.links.is_empty() || !two.links.is_empty() {
        return Err(StepRefused::HasLinks);
    }
    let mut ports = FusedPorts {
        first_ins: Items::new(alloc),
        first_outs: Items::new(alloc),
        used_outs: Items::new(alloc),
        second_ins: Items::new(alloc),
        picked_ins: Items::new(alloc),
        free_ins: Items::new(alloc),
        second_outs: Items::new(alloc),
        unjoined: Items::new(alloc),
    };
    fill_ports(alloc, model, compound, one, two, args, &mut ports)?;
    fused_by(alloc, model, compound, one, two, args, &ports)
}

/// The model with two parts of a compound fused.
fn fused_parts(
    alloc: Global,
    model: &Model,
    compound: &Compound,
    args: &FuseArgs,
) -> Result<Model, StepRefused>
    requires sound { IsSound model.now }
    requires found { task_named model.now.tasks compound.now.name ≡ Some (tasks.Compound compound.now) }
    ensures step { IsStep result (fused_task model.now (Some (tasks.Compound compound.now)) args.now) }
    ensures count { OnOk result (length model.now.tasks + 4 < 2 ^ 32) }
{
    if !are_joined(compound, args) {
        return Err(StepRefused::NotJoined);
    }
    let tasks = model.tasks.as_slice();
    let Some(Task::Repeated(one)) = task_of_part(tasks, compound, &args.first) else {
        return Err(StepRefused::NotRepeated);
    };
    let Some(Task::Repeated(two)) = task_of_part(tasks, compound, &args.second) else {
        return Err(StepRefused::NotRepeated);
    };
    fused_repeated(alloc, model, compound, one, two, args)
}

/// The model with two joined parts of the compound of this name fused, as far as no limit of the hierarchy is looked at.
///
/// Causes in order: `NotJoined` where no compound has the name, it lacks one of the two parts, they are one, or no plain
/// link goes from the first to the second; `NotRepeated` where one of their tasks isn't repeated; `HasLinks` where one of
/// these has links between repetitions; `NotJoined` where the proposal isn't well formed; and `Limit`.
pub fn fused(
    alloc: Global,
    model: &Model,
    name: &Name,
    args: &FuseArgs,
) -> Result<Model, StepRefused>
    requires { IsSound model.now }
    ensures step { IsStep result (fused_task model.now (task_named model.now.tasks name.now) args.now) }
    ensures count { OnOk result (length model.now.tasks + 4 < 2 ^ 32) }
{
    match task_named(model.tasks.as_slice(), name) {
        Some(Task::Compound(compound)) => fused_parts(alloc, model, compound, args),
        _ => Err(StepRefused::NotJoined),
    }
}

//! The targets of a task, and the first of its points that is written twice.

ghost use Rattle.std.specs.Prelude.{◌≡◌, ◌<◌, ◌^◌, ℕ, List, Option, flat_map, map, true, Some, None, length, slice_get, IfOk};
ghost use Rattle.std.specs.List.{AllByRecursion, enumerate_from};
ghost use Rattle.std.specs.Option.{option_copied};
ghost use Rattle.aol_expr_tree.specs.declared.port.Port.{Port};
ghost use Rattle.aol_model_types.specs.declared.document.Model.{Model};
ghost use Rattle.aol_model_types.specs.declared.task.Part.{Part};
ghost use Rattle.aol_model_types.specs.declared.task.Task.{Task};
ghost use Rattle.aol_model_types.specs.declared.task.Task.TheVariants as tasks;
ghost use Rattle.aol_model_types.specs.Rules.{same_part, task_named, inputs_named};
ghost use Rattle.aol_flat.specs.Accept.{IsSound};
ghost use Rattle.aol_flat.specs.Node.{Node};
ghost use Rattle.aol_flat.specs.Targets.{tiler_writings, reshape_writings, output_target, reshape_target, node_targets};
ghost use Rattle.aol_assign.specs.Pairs.{FitsIn, all_writings};
ghost use Rattle.aol_assign.specs.declared.targets.Numbered.{Numbered};
ghost use Rattle.aol_assign.specs.Found.{found_in, TilersFit, AreInto, ReshapesFit, IntoFits, numbered};

use crate::marks::{Repeat, repeat_among};
use crate::pairs::Member;
use crate::tasks::{Tasks, output_shape};
use aol_expr_tree::Port;
use aol_model_types::{Compound, Copied, Part, Repeated, Task};
use aol_shape::{Name, NoMemory, are_same};
use std::alloc::{AllocError, Global};

/// A point of a target that is written twice: the target's part, where it is one of a part, and its port.
#[derive(Drop)]
pub struct Found {
    pub part: Option<Name>,
    pub port: Name,
    pub repeat: Repeat,
}

/// A reshape with its number in the list of a compound task.
#[derive(Clone, Copy)]
struct Numbered<'a> {
    item: u32,
    reshape: &'a Copied,
}

/// The tilers on an output of a repeated task, whose inner task is this one.
fn tilers_on<'a>(
    alloc: Global,
    task: &'a Repeated,
    inner: &'a Task,
    output: &Port,
) -> Result<Vec<Member<'a>>, AllocError>
    requires few { length task.now.tilers < 2 ^ 32 }
    requires fits { TilersFit task.now inner.now output.now }
    ensures same { IfOk result (λ v. (m : Model) → task_named m.tasks task.now.task ≡ Some inner.now → all_writings output.now.shape v.items ≡ flat_map (tiler_writings m task.now output.now) (enumerate_from 0 task.now.tilers)) }
    ensures fit { IfOk result (λ v. AllByRecursion (FitsIn output.now.shape) v.items) }
{
    let mut members = Vec::new(alloc);
    for (number, on) in task.tilers.as_slice().iter().enumerate() {
        if are_same(&on.outer, &output.name) {
            if let Some(pattern) = output_shape(inner, &on.inner) {
                members.push(Member {
                    item: number as u32,
                    tiler: &on.tiler,
                    space: &task.space,
                    pattern,
                })?;
            }
        }
    }
    Ok(members)
}

/// The first point of the outputs of a repeated task that is written twice; its inner task is this one.
pub fn twice_in_repeated(
    alloc: Global,
    task: &Repeated,
    inner: &Task,
) -> Result<Option<Found>, NoMemory>
    requires few { length task.now.tilers < 2 ^ 32 }
    requires fits { AllByRecursion (TilersFit task.now inner.now) task.now.outs }
    ensures { IfOk result (λ r. (m : Model) (node : Node) → task_named m.tasks task.now.task ≡ Some inner.now → r ≡ found_in (map (output_target m node task.now) task.now.outs)) }
{
    for output in task.outs.as_slice() {
        let members = tilers_on(alloc, task, inner, output)?;
        if let Some(repeat) = repeat_among(alloc, &output.shape, members.as_slice())? {
            let port = output.name.copy(alloc)?;
            return Ok(Some(Found {
                part: None,
                port,
                repeat,
            }));
        }
    }
    Ok(None)
}

/// Whether both are one part, or neither is a part.
fn are_at_same(one: Option<&Name>, other: Option<&Name>) -> bool
    ensures { result ≡ same_part (option_copied one.entry) (option_copied other.entry) }
{
    match one {
        None => other.is_none(),
        Some(one) => match other {
            None => false,
            Some(other) => are_same(one, other),
        },
    }
}

/// The reshapes of a compound task into a part, or into its own outputs.
fn reshapes_into<'a>(
    alloc: Global,
    task: &'a Compound,
    part: Option<&Name>,
) -> Result<Vec<Numbered<'a>>, AllocError>
    requires { length task.now.reshapes < 2 ^ 32 }
    ensures same { IfOk result (λ v. (u : Port) → flat_map (reshape_writings (option_copied part.entry) u) (numbered v.items) ≡ flat_map (reshape_writings (option_copied part.entry) u) (enumerate_from 0 task.now.reshapes)) }
    ensures into { IfOk result (λ v. AreInto task.now (option_copied part.entry) v.items) }
{
    let mut into = Vec::new(alloc);
    for (number, reshape) in task.reshapes.as_slice().iter().enumerate() {
        if are_at_same(reshape.to.part.as_ref(), part) {
            into.push(Numbered {
                item: number as u32,
                reshape,
            })?;
        }
    }
    Ok(into)
}

/// The target tilers of those reshapes that are into a port.
fn targets_on<'a>(
    alloc: Global,
    into: &[Numbered<'a>],
    port: &Port,
) -> Result<Vec<Member<'a>>, AllocError>
    requires { IntoFits port.now into.now }
    ensures same { IfOk result (λ v. (part : Option (List ℕ)) → AllByRecursion (λ (n : Numbered). same_part n.reshape.now.to.part part ≡ true) into.now → all_writings port.now.shape v.items ≡ flat_map (reshape_writings part port.now) (numbered into.now)) }
    ensures fit { IfOk result (λ v. AllByRecursion (FitsIn port.now.shape) v.items) }
{
    let mut members = Vec::new(alloc);
    for numbered in into {
        let reshape = numbered.reshape;
        if are_same(&reshape.to.port, &port.name) {
            members.push(Member {
                item: numbered.item,
                tiler: &reshape.by.target,
                space: &reshape.by.space,
                pattern: &reshape.by.pattern,
            })?;
        }
    }
    Ok(members)
}

/// A copy of a part's name, where there is one.
fn copied(alloc: Global, part: Option<&Name>) -> Result<Option<Name>, NoMemory>
    ensures { IfOk result (λ r. r ≡ option_copied part.entry) }
{
    match part {
        None => Ok(None),
        Some(name) => {
            let name = name.copy(alloc)?;
            Ok(Some(name))
        }
    }
}

/// The first point of these ports, inputs of a part or own outputs of a compound task, that is written twice.
fn twice_in_ports(
    alloc: Global,
    task: &Compound,
    part: Option<&Name>,
    ports: &[Port],
) -> Result<Option<Found>, NoMemory>
    requires few { length task.now.reshapes < 2 ^ 32 }
    requires fits { ReshapesFit task.now (option_copied part) ports.now }
    ensures { IfOk result (λ r. (node : Node) → r ≡ found_in (map (reshape_target node task.now (option_copied part.entry)) ports.now)) }
{
    let into = reshapes_into(alloc, task, part)?;
    for port in ports {
        let members = targets_on(alloc, into.as_slice(), port)?;
        if let Some(repeat) = repeat_among(alloc, &port.shape, members.as_slice())? {
            let part = copied(alloc, part)?;
            let port = port.name.copy(alloc)?;
            return Ok(Some(Found { part, port, repeat }));
        }
    }
    Ok(None)
}

/// The first point of the inputs of a part of a compound task that is written twice.
fn twice_in_part(from: Tasks, task: &Compound, part: &Part) -> Result<Option<Found>, NoMemory>
    requires few { length task.now.reshapes < 2 ^ 32 }
    requires fits { ReshapesFit task.now (Some part.now.name) (inputs_named from.model.now.tasks part.now.task) }
    ensures { IfOk result (λ r. (node : Node) → r ≡ found_in (map (reshape_target node task.now (Some part.now.name)) (inputs_named from.entry.model.now.tasks part.now.task))) }
{
    twice_in_ports(
        from.alloc,
        task,
        Some(&part.name),
        from.inputs_named(&part.task),
    )
}

/// The first point of the part inputs, and then of the own outputs, of a compound task that is written twice.
fn twice_in_compound(from: Tasks, task: &Compound) -> Result<Option<Found>, NoMemory>
    requires few { length task.now.reshapes < 2 ^ 32 }
    requires parts { AllByRecursion (λ (p : Part). ReshapesFit task.now (Some p.name) (inputs_named from.model.now.tasks p.task)) task.now.parts }
    requires own { ReshapesFit task.now None task.now.outs }
    ensures { IfOk result (λ r. (node : Node) → r ≡ found_in (node_targets from.entry.model.now (node, tasks.Compound task.now))) }
{
    for part in task.parts.as_slice() {
        if let Some(found) = twice_in_part(from, task, part)? {
            return Ok(Some(found));
        }
    }
    twice_in_ports(from.alloc, task, None, task.outs.as_slice())
}

/// The first point of the targets of a task that is written twice.
pub fn twice_in(from: Tasks, number: u32) -> Result<Option<Found>, NoMemory>
    requires within { number < length from.model.now.tasks }
    requires sound { IsSound from.model.now }
    ensures { IfOk result (λ r. (node : Node) (t : Task) → slice_get from.entry.model.now.tasks number ≡ Some t → r ≡ found_in (node_targets from.entry.model.now (node, t))) }
{
    match &from.model.tasks.as_slice()[number as usize] {
        Task::Elementary(_) => Ok(None),
        Task::Compound(task) => twice_in_compound(from, task),
        Task::Repeated(task) => match from.named(&task.task) {
            None => Ok(None),
            Some(inner) => twice_in_repeated(from.alloc, task, inner),
        },
    }
}

//! The main outputs, taken out of the memory after a run.

ghost use Rattle.std.specs.Prelude.{◌≡◌, ◌+◌, ◌<◌, ◌≤◌, ◌^◌, ◌++◌, ◌∷◌, [], map, length, IfOk, OnOk, slice_index_or};
ghost use Rattle.std.specs.Option.{option_copied};
ghost use Rattle.aol_shape.specs.Lists.{numbers_from};
ghost use Rattle.aol_shape.specs.Shape.{size};
ghost use Rattle.aol_model_types.specs.Rules.{outputs_of, task_name, task_named};
ghost use Rattle.aol_flat.specs.Place.{elements_of};
ghost use Rattle.aol_flat.specs.Laid.{main_output_elements};
ghost use Rattle.aol_flat.specs.Tasks.{main_outputs};
ghost use Rattle.aol_runner.specs.Outputs.{value_at, taken_output, taken_outputs};

use aol_expr_tree::{Port, Val};
use aol_level::Kept;
use aol_model_types::{Model, Task};
use aol_scatter::Field;
use aol_shape::{Items, Name, NoMemory, Shape, are_same};
use std::alloc::{AllocError, Global};

/// A main output: its name, its shape, and its values in order of rank.
#[derive(Drop)]
pub struct OutputArray {
    pub name: Name,
    pub shape: Shape,
    pub vals: Items<Val>,
}

/// The main outputs, in port order.
#[derive(Drop)]
pub struct Outputs {
    pub ports: Items<OutputArray>,
}

/// Adds a value.
fn push_value(vals: &mut Vec<Val>, val: Val) -> Result<(), AllocError>
    ensures { OnOk result (vals.new.items ≡ vals.old.items ++ val ∷ []) }
{
    vals.push(val)?;
    Ok(())
}

/// The values of so many cells, from one on.
fn values_of(
    alloc: Global,
    memory: &Field<Kept>,
    first: u32,
    count: u32,
) -> Result<Vec<Val>, AllocError>
    requires within { first + count ≤ length memory.now }
    requires few { length memory.now < 2 ^ 32 }
    ensures { IfOk result (λ v. v.items ≡ map (value_at memory.now) (numbers_from first count)) }
{
    let mut vals = Vec::with_capacity(alloc, count as usize)?;
    for x in 0..count {
        push_value(&mut vals, memory.get(first + x).val)?;
    }
    Ok(vals)
}

/// The output at a port, whose values are in the cells from one on.
fn take_output(
    alloc: Global,
    memory: &Field<Kept>,
    first: u32,
    port: &Port,
) -> Result<OutputArray, NoMemory>
    requires within { first + size port.now.shape ≤ length memory.now }
    requires few { length memory.now < 2 ^ 32 }
    ensures { IfOk result (λ o. o ≡ taken_output memory.now first port.now) }
{
    let vals = values_of(alloc, memory, first, port.shape.size())?;
    Ok(OutputArray {
        name: port.name.copy(alloc)?,
        shape: port.shape.copy(),
        vals: Items::from_vec(vals),
    })
}

/// Adds an output.
fn push_output(outputs: &mut Vec<OutputArray>, output: OutputArray) -> Result<(), AllocError>
    ensures { OnOk result (outputs.new.items ≡ outputs.old.items ++ output ∷ []) }
{
    outputs.push(output)?;
    Ok(())
}

/// How many outputs a task has.
fn output_count(task: &Task) -> usize
    ensures { result ≡ length (outputs_of task.now) }
{
    match task {
        Task::Elementary(task) => task.outs.len(),
        Task::Compound(task) => task.outs.len(),
        Task::Repeated(task) => task.outs.len(),
    }
}

/// The output of a task with this number.
fn output(task: &Task, k: usize) -> &Port
    requires { k < length (outputs_of task.now) }
    ensures { result.now ≡ slice_index_or (outputs_of task.now) k result.now }
{
    match task {
        Task::Elementary(task) => &task.outs.as_slice()[k].port,
        Task::Compound(task) => &task.outs.as_slice()[k],
        Task::Repeated(task) => &task.outs.as_slice()[k],
    }
}

/// The outputs of a task, whose values are in the cells from one on, by port and rank.
fn take_ports(
    alloc: Global,
    memory: &Field<Kept>,
    first: u32,
    task: &Task,
) -> Result<Vec<OutputArray>, NoMemory>
    requires within { first + length (elements_of [] (outputs_of task.now)) ≤ length memory.now }
    requires few { length memory.now < 2 ^ 32 }
    ensures { IfOk result (λ v. v.items ≡ taken_outputs memory.now first (outputs_of task.now)) }
{
    let count = output_count(task);
    let mut outputs = Vec::with_capacity(alloc, count)?;
    let mut at = first;
    for k in 0..count {
        let port = output(task, k);
        push_output(&mut outputs, take_output(alloc, memory, at, port)?)?;
        at += port.shape.size();
    }
    Ok(outputs)
}

/// The name of a task.
fn name_of(task: &Task) -> &Name
    ensures { result.now ≡ task_name task.now }
{
    match task {
        Task::Elementary(task) => &task.name,
        Task::Compound(task) => &task.name,
        Task::Repeated(task) => &task.name,
    }
}

/// The first task with this name.
fn task_named<'a>(tasks: &'a [Task], name: &Name) -> Option<&'a Task>
    ensures { option_copied result ≡ task_named tasks.now name.now }
{
    tasks.iter().find(|task| are_same(name_of(task), name))
}

/// The main outputs, whose values are in the cells from one on.
pub fn take_outputs(
    alloc: Global,
    memory: &Field<Kept>,
    first: u32,
    model: &Model,
) -> Result<Outputs, NoMemory>
    requires { first + length (main_output_elements model.now) ≤ length memory.now }
    ensures { IfOk result (λ o. o.ports ≡ taken_outputs memory.now first (main_outputs model.now)) }
{
    let _cells = memory.len();
    let outputs = match task_named(model.tasks.as_slice(), &model.main) {
        Some(task) => take_ports(alloc, memory, first, task)?,
        None => Vec::new(alloc),
    };
    Ok(Outputs {
        ports: Items::from_vec(outputs),
    })
}

//! Ports with the ranks of their elements, in order.

ghost use Rattle.std.specs.Prelude.{◌≡◌, ◌<◌, ◌^◌, ◌++◌, length, map, IfOk, OnOk, OnErr};
ghost use Rattle.aol_flat.specs.Instance.{places_of_sizes, port_sizes};
ghost use Rattle.aol_flat.specs.Tasks.{main_inputs, main_outputs};
ghost use Rattle.aol_model_types.specs.declared.task.OutPort.{OutPort};
ghost use Rattle.aol_model_types.specs.Rules.{inputs_of, outputs_of, task_name, task_named};
ghost use Rattle.aol_shape.specs.Lists.{numbers_below};
ghost use Rattle.std.specs.Option.{option_copied};

use aol_expr_tree::Port;
use aol_model_types::{Model, OutPort, Task};
use aol_shape::{Name, are_same};
use std::alloc::{AllocError, Global};

/// A port's number and a rank.
pub type Spot = (u32, u32);

/// Adds the ranks of a port.
fn push_port(spots: &mut Vec<Spot>, port: u32, size: u32) -> Result<(), AllocError>
    ensures { OnOk result (spots.new.items ≡ spots.old.items ++ map (λ x. (port, x)) (numbers_below size)) }
{
    for rank in 0..size {
        spots.push((port, rank))?;
    }
    Ok(())
}

/// All ranks of some ports.
fn spots_of(alloc: Global, ports: &[Port]) -> Result<Vec<Spot>, AllocError>
    requires { length ports.now < 2 ^ 32 }
    ensures { IfOk result (λ v. v.items ≡ places_of_sizes 0 (port_sizes ports.now)) }
{
    let mut spots = Vec::new(alloc);
    for (number, port) in ports.iter().enumerate() {
        push_port(&mut spots, number as u32, port.shape.size())?;
    }
    Ok(spots)
}

/// All ranks of the outputs of an elementary task.
fn spots_made(alloc: Global, outs: &[OutPort]) -> Result<Vec<Spot>, AllocError>
    requires { length outs.now < 2 ^ 32 }
    ensures { IfOk result (λ v. v.items ≡ places_of_sizes 0 (port_sizes (map (λ (o : OutPort). o.port) outs.now))) }
{
    let mut spots = Vec::new(alloc);
    for (number, out) in outs.iter().enumerate() {
        push_port(&mut spots, number as u32, out.port.shape.size())?;
    }
    Ok(spots)
}

/// The inputs of a task.
fn inputs_of(task: &Task) -> &[Port]
    ensures { result.now ≡ inputs_of task.now }
{
    match task {
        Task::Elementary(task) => task.ins.as_slice(),
        Task::Compound(task) => task.ins.as_slice(),
        Task::Repeated(task) => task.ins.as_slice(),
    }
}

/// All ranks of a task's inputs.
pub fn input_spots(alloc: Global, task: &Task) -> Result<Vec<Spot>, AllocError>
    requires { length (inputs_of task.now) < 2 ^ 32 }
    ensures { IfOk result (λ v. v.items ≡ places_of_sizes 0 (port_sizes (inputs_of task.now))) }
{
    spots_of(alloc, inputs_of(task))
}

/// All ranks of a task's outputs.
pub fn output_spots(alloc: Global, task: &Task) -> Result<Vec<Spot>, AllocError>
    requires { length (outputs_of task.now) < 2 ^ 32 }
    ensures { IfOk result (λ v. v.items ≡ places_of_sizes 0 (port_sizes (outputs_of task.now))) }
{
    match task {
        Task::Elementary(task) => spots_made(alloc, task.outs.as_slice()),
        Task::Compound(task) => spots_of(alloc, task.outs.as_slice()),
        Task::Repeated(task) => spots_of(alloc, task.outs.as_slice()),
    }
}

/// The name of a task.
fn name_of(task: &Task) -> &Name
    ensures { result.now ≡ task_name task.now }
{
    match task {
        Task::Elementary(task) => &task.name,
        Task::Compound(task) => &task.name,
        Task::Repeated(task) => &task.name,
    }
}

/// The task with this name.
fn task_named<'a>(tasks: &'a [Task], name: &Name) -> Option<&'a Task>
    ensures { option_copied result ≡ task_named tasks.now name.now }
{
    tasks.iter().find(|task| are_same(name_of(task), name))
}

/// All ranks of the main inputs.
pub fn main_input_spots(alloc: Global, model: &Model) -> Result<Vec<Spot>, AllocError>
    requires { length (main_inputs model.now) < 2 ^ 32 }
    ensures { IfOk result (λ v. v.items ≡ places_of_sizes 0 (port_sizes (main_inputs model.now))) }
{
    match task_named(model.tasks.as_slice(), &model.main) {
        None => Ok(Vec::new(alloc)),
        Some(task) => input_spots(alloc, task),
    }
}

/// All ranks of the main outputs.
pub fn main_output_spots(alloc: Global, model: &Model) -> Result<Vec<Spot>, AllocError>
    requires { length (main_outputs model.now) < 2 ^ 32 }
    ensures { IfOk result (λ v. v.items ≡ places_of_sizes 0 (port_sizes (main_outputs model.now))) }
{
    match task_named(model.tasks.as_slice(), &model.main) {
        None => Ok(Vec::new(alloc)),
        Some(task) => output_spots(alloc, task),
    }
}

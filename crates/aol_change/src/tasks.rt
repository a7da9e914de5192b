//! Tasks and ports by their names.

ghost use Rattle.std.specs.Prelude.{◌≡◌, ◌++◌, [], map, is_some, OnOk};
ghost use Rattle.std.specs.Option.{option_copied};
ghost use Rattle.std.specs.List.{find};
ghost use Rattle.aol_shape.specs.Lists.{same};
ghost use Rattle.aol_change.specs.Blocks.{inputs_in, outputs_in, ports_on};
ghost use Rattle.aol_model_types.specs.Rules.{task_name, inputs_of, outputs_of, task_named, port_shape};

use aol_expr_tree::Port;
use aol_model_types::{OutPort, Task};
use aol_shape::{Items, Name, NoMemory, Shape, are_same};
use std::alloc::Global;

/// The name of a task.
pub fn name_of(task: &Task) -> &Name
    ensures { result.now ≡ task_name task.now }
{
    match task {
        Task::Elementary(task) => &task.name,
        Task::Compound(task) => &task.name,
        Task::Repeated(task) => &task.name,
    }
}

/// The first task with this name.
pub fn task_named<'a>(tasks: &'a [Task], name: &Name) -> Option<&'a Task>
    ensures { option_copied result ≡ task_named tasks.now name.now }
{
    tasks.iter().find(|task| are_same(name_of(task), name))
}

/// The shape of the first port with this name.
pub fn shape_of<'a>(ports: &'a [Port], name: &Name) -> Option<&'a Shape>
    ensures { option_copied result ≡ port_shape ports.now name.now }
{
    ports
        .iter()
        .find(|port| are_same(&port.name, name))
        .map(|port| &port.shape)
}

/// The first output with this name.
fn out_named<'a>(outs: &'a [OutPort], name: &Name) -> Option<&'a OutPort>
    ensures { option_copied result ≡ find (λ o. same o.port.name name.now) outs.now }
{
    outs.iter().find(|out| are_same(&out.port.name, name))
}

/// The shape of the first output with this name.
#[tactic(auto, using(aol_model_types::proofs::PortNames::out_found, aol_model_types::proofs::PortNames::out_missing))]
fn shape_of_out<'a>(outs: &'a [OutPort], name: &Name) -> Option<&'a Shape>
    ensures { option_copied result ≡ port_shape (map (λ o. o.port) outs.now) name.now }
{
    let out = out_named(outs, name)?;
    Some(&out.port.shape)
}

/// The inputs of a task.
pub fn inputs_of(task: &Task) -> &[Port]
    ensures { result.now ≡ inputs_of task.now }
{
    match task {
        Task::Elementary(task) => task.ins.as_slice(),
        Task::Compound(task) => task.ins.as_slice(),
        Task::Repeated(task) => task.ins.as_slice(),
    }
}

/// The shape of a task's output.
fn output_of<'a>(task: &'a Task, port: &Name) -> Option<&'a Shape>
    ensures { option_copied result ≡ port_shape (outputs_of task.now) port.now }
{
    match task {
        Task::Elementary(task) => shape_of_out(task.outs.as_slice(), port),
        Task::Compound(task) => shape_of(task.outs.as_slice(), port),
        Task::Repeated(task) => shape_of(task.outs.as_slice(), port),
    }
}

/// The shape of an input of a task, where there are both.
pub fn input_shape<'a>(task: Option<&'a Task>, port: &Name) -> Option<&'a Shape>
    ensures { option_copied result ≡ port_shape (inputs_in (option_copied task.entry)) port.now }
{
    shape_of(inputs_of(task?), port)
}

/// The shape of an output of a task, where there are both.
pub fn output_shape<'a>(task: Option<&'a Task>, port: &Name) -> Option<&'a Shape>
    ensures { option_copied result ≡ port_shape (outputs_in (option_copied task.entry)) port.now }
{
    output_of(task?, port)
}

/// The shape of an input of a task, or else of an output, where there is one of this name.
#[tactic(auto, using(aol_model_types::proofs::PortNames::port_behind))]
pub fn port_shape<'a>(task: Option<&'a Task>, port: &Name) -> Option<&'a Shape>
    ensures { option_copied result ≡ port_shape (inputs_in (option_copied task.entry) ++ outputs_in (option_copied task.entry)) port.now }
{
    input_shape(task, port).or(output_shape(task, port))
}

/// The inputs or the outputs of a task.
#[derive(Clone, Copy, Debug, PartialEq, Eq)]
pub enum Side {
    Inputs,
    Outputs,
}

/// Whether a task is there and has a port of this name on this side.
pub fn has_port(task: Option<&Task>, side: Side, port: &Name) -> bool
    ensures { result ≡ is_some (port_shape (ports_on side (option_copied task.entry)) port.now) }
{
    match side {
        Side::Inputs => input_shape(task, port).is_some(),
        Side::Outputs => output_shape(task, port).is_some(),
    }
}

/// Pushes equal ports.
pub fn push_copies(alloc: Global, ports: &[Port], copies: &mut Items<Port>) -> Result<(), NoMemory>
    ensures { OnOk result (copies.new ≡ copies.old ++ ports.now) }
{
    for port in ports {
        let name = port.name.copy(alloc)?;
        let shape = port.shape.copy();
        copies.push(Port { name, shape })?;
    }
    Ok(())
}

//! Tasks by their names, and their ports.

ghost use Rattle.std.specs.Prelude.{◌≡◌, ℕ, List, ◌<◌, ◌^◌, Some, length, map, OnOk, IfOk, if◌then◌else◌};
ghost use Rattle.std.specs.List.{find};
ghost use Rattle.std.specs.Option.{option_copied};
ghost use Rattle.std.specs.Str.{bytes_eq};
ghost use Rattle.std.specs.BTreeMap.{get_by_text};
ghost use Rattle.aol_shape.specs.Lists.{same};
ghost use Rattle.aol_model_types.specs.Rules.{task_name, inputs_of, outputs_of, port_shape, task_named, inputs_named};
ghost use Rattle.aol_flat.specs.Numbered.{FindsNumbers, number_named};

use aol_expr_tree::Port;
use aol_model_types::{Model, OutPort, Task};
use aol_shape::{Name, Shape, are_same};
use std::alloc::{AllocError, Global};
use std::collections::BTreeMap;

/// The name of a task.
fn name_of(task: &Task) -> &Name
    ensures { result.now ≡ task_name task.now }
{
    match task {
        Task::Elementary(task) => &task.name,
        Task::Compound(task) => &task.name,
        Task::Repeated(task) => &task.name,
    }
}

/// The inputs of a task.
pub fn inputs_of(task: &Task) -> &[Port]
    ensures { result.now ≡ inputs_of task.now }
{
    match task {
        Task::Elementary(task) => task.ins.as_slice(),
        Task::Compound(task) => task.ins.as_slice(),
        Task::Repeated(task) => task.ins.as_slice(),
    }
}

/// The shape of the port with this name.
fn shape_of<'a>(ports: &'a [Port], name: &Name) -> Option<&'a Shape>
    ensures { option_copied result ≡ port_shape ports.now name.now }
{
    ports
        .iter()
        .find(|port| are_same(&port.name, name))
        .map(|port| &port.shape)
}

/// The output with this name.
fn out_named<'a>(outs: &'a [OutPort], name: &Name) -> Option<&'a OutPort>
    ensures { option_copied result ≡ find (λ o. same o.port.name name.now) outs.now }
{
    outs.iter().find(|out| are_same(&out.port.name, name))
}

/// The shape of the output with this name.
#[tactic(auto, using(aol_model_types::proofs::PortNames::out_found, aol_model_types::proofs::PortNames::out_missing))]
fn shape_of_out<'a>(outs: &'a [OutPort], name: &Name) -> Option<&'a Shape>
    ensures { option_copied result ≡ port_shape (map (λ o. o.port) outs.now) name.now }
{
    let out = out_named(outs, name)?;
    Some(&out.port.shape)
}

/// The shape of a task's output.
pub fn output_shape<'a>(task: &'a Task, port: &Name) -> Option<&'a Shape>
    ensures { option_copied result ≡ port_shape (outputs_of task.now) port.now }
{
    match task {
        Task::Elementary(task) => shape_of_out(task.outs.as_slice(), port),
        Task::Compound(task) => shape_of(task.outs.as_slice(), port),
        Task::Repeated(task) => shape_of(task.outs.as_slice(), port),
    }
}

/// The task with this name, by a look at each.
pub fn task_named<'a>(tasks: &'a [Task], name: &Name) -> Option<&'a Task>
    ensures { option_copied result ≡ task_named tasks.now name.now }
{
    tasks.iter().find(|task| are_same(name_of(task), name))
}

/// Gives a name its number, in place of the one that it has.
fn set(
    alloc: Global,
    numbers: &mut BTreeMap<String, u32>,
    name: &str,
    number: u32,
) -> Result<(), AllocError>
    ensures { OnOk result ((q : List ℕ) → get_by_text numbers.new q ≡ (if bytes_eq q name.now then Some number else get_by_text numbers.old q)) }
{
    let key = String::from_str(alloc, name)?;
    numbers.insert(key, number)?;
    Ok(())
}

/// The numbers of the tasks by their names; of tasks with one name it has the first. It takes `n log n` steps for `n` tasks.
pub fn numbers_of(alloc: Global, tasks: &[Task]) -> Result<BTreeMap<String, u32>, AllocError>
    requires { length tasks.now < 2 ^ 32 }
    ensures { IfOk result (λ m. FindsNumbers tasks.now m) }
{
    let mut numbers: BTreeMap<String, u32> = BTreeMap::new(alloc);
    let mut at = tasks.len();
    while at > 0 {
        at -= 1;
        set(alloc, &mut numbers, name_of(&tasks[at]).as_str(), at as u32)?;
    }
    Ok(numbers)
}

/// The number of the first task that has this name.
pub fn number_named(numbers: &BTreeMap<String, u32>, name: &Name) -> Option<u32>
    ensures { (tasks : List _) → FindsNumbers tasks numbers.now → result ≡ number_named tasks name.now }
{
    numbers.get(name.as_str()).copied()
}

/// A model with the numbers of its tasks by their names.
#[derive(Clone, Copy)]
pub struct Tasks<'a> {
    pub alloc: Global,
    pub model: &'a Model,
    pub numbers: &'a BTreeMap<String, u32>,
    ghost found: { FindsNumbers model.now.tasks numbers.now },
}

impl<'a> Tasks<'a> {
    /// The task with this name.
    pub fn named(&self, name: &Name) -> Option<&'a Task>
        ensures { option_copied result ≡ task_named self.now.model.now.tasks name.now }
    {
        match number_named(self.numbers, name) {
            None => None,
            Some(number) => Some(&self.model.tasks.as_slice()[number as usize]),
        }
    }

    /// The inputs of the task with this name; none where there is no such task.
    pub fn inputs_named(&self, name: &Name) -> &'a [Port]
        ensures { result.now ≡ inputs_named self.now.model.now.tasks name.now }
    {
        match self.named(name) {
            None => &[],
            Some(task) => inputs_of(task),
        }
    }
}

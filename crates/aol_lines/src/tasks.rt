//! Tasks and their ports, by name and by number.

ghost use Rattle.std.specs.Prelude.{◌≡◌, slice_get};
ghost use Rattle.std.specs.Option.{option_copied};
ghost use Rattle.aol_model_types.specs.Rules.{inputs_of, outputs_of, task_name, task_named};
ghost use Rattle.aol_flat.specs.Tasks.{main_task};

use aol_expr_tree::Port;
use aol_model_types::{Model, Task};
use aol_shape::{Name, are_same};

/// The name of a task.
pub fn name_of(task: &Task) -> &Name
    ensures { result.now ≡ task_name task.now }
{
    match task {
        Task::Elementary(task) => &task.name,
        Task::Compound(task) => &task.name,
        Task::Repeated(task) => &task.name,
    }
}

/// The first task with this name.
fn task_named<'a>(tasks: &'a [Task], name: &Name) -> Option<&'a Task>
    ensures { option_copied result ≡ task_named tasks.now name.now }
{
    tasks.iter().find(|task| are_same(name_of(task), name))
}

/// The main task.
pub fn main_task(model: &Model) -> Option<&Task>
    ensures { option_copied result ≡ main_task model.now }
{
    task_named(model.tasks.as_slice(), &model.main)
}

/// The input of a task with this number.
pub fn input(task: &Task, number: u32) -> Option<&Port>
    ensures { option_copied result ≡ slice_get (inputs_of task.now) number }
{
    match task {
        Task::Elementary(task) => task.ins.get(number as usize),
        Task::Compound(task) => task.ins.get(number as usize),
        Task::Repeated(task) => task.ins.get(number as usize),
    }
}

/// The output of a task with this number.
pub fn output(task: &Task, number: u32) -> Option<&Port>
    ensures { option_copied result ≡ slice_get (outputs_of task.now) number }
{
    match task {
        Task::Elementary(task) => {
            let out = task.outs.get(number as usize)?;
            Some(&out.port)
        }
        Task::Compound(task) => task.outs.get(number as usize),
        Task::Repeated(task) => task.outs.get(number as usize),
    }
}

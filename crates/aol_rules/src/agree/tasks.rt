ghost use Rattle.std.specs.Prelude.{◌≡◌, ◌<◌, map, is_some};
ghost use Rattle.std.specs.Option.{option_copied, ForSome};
ghost use Rattle.aol_rules.specs.Names.{Leads};
ghost use Rattle.aol_model_types.specs.Rules.{task_name, inputs_of, outputs_of, task_named, port_shape, inputs_named, outputs_named, is_earlier_task};

use crate::agree::names::{Index, Named};
use crate::agree::ports::{shape_of, shape_of_out};
use aol_expr_tree::Port;
use aol_model_types::Task;
use aol_shape::{Name, Shape, are_same};

/// The name of a task.
pub fn name_of(task: &Task) -> &Name
    ensures { result.now ≡ task_name task.now }
{
    match task {
        Task::Elementary(task) => &task.name,
        Task::Compound(task) => &task.name,
        Task::Repeated(task) => &task.name,
    }
}

impl Named for Task {
    ghost name = { task_name };

    fn name(&self) -> &str {
        name_of(self).as_str()
    }
}

/// The inputs of a task.
pub fn inputs_of(task: &Task) -> &[Port]
    ensures { result.now ≡ inputs_of task.now }
{
    match task {
        Task::Elementary(task) => task.ins.as_slice(),
        Task::Compound(task) => task.ins.as_slice(),
        Task::Repeated(task) => task.ins.as_slice(),
    }
}

/// The shape of a task's output.
pub fn output_shape<'a>(task: &'a Task, port: &Name) -> Option<&'a Shape>
    ensures { option_copied result ≡ port_shape (outputs_of task.now) port.now }
{
    match task {
        Task::Elementary(task) => shape_of_out(task.outs.as_slice(), port),
        Task::Compound(task) => shape_of(task.outs.as_slice(), port),
        Task::Repeated(task) => shape_of(task.outs.as_slice(), port),
    }
}

/// The task with this name, by a look at each.
fn task_named<'a>(tasks: &'a [Task], name: &Name) -> Option<&'a Task>
    ensures { option_copied result ≡ task_named tasks.now name.now }
{
    tasks.iter().find(|task| are_same(name_of(task), name))
}

/// The tasks in front of the one that is tested, and an index over all tasks where memory allowed one.
#[derive(Clone, Copy)]
pub struct Earlier<'a> {
    pub tasks: &'a [Task],
    pub index: Option<&'a Index>,
    ghost leads: { ForSome (option_copied index) (λ i. Leads (map task_name tasks.now) i.places) },
}

impl<'a> Earlier<'a> {
    /// The task with this name.
    pub fn named(&self, name: &Name) -> Option<&'a Task>
        ensures { option_copied result ≡ task_named self.now.tasks.now name.now }
    {
        match self.index {
            None => task_named(self.tasks, name),
            Some(index) => index.member(self.tasks, name),
        }
    }

    /// Whether a task has this name.
    pub fn has(&self, name: &Name) -> bool
        ensures { result ≡ is_earlier_task self.now.tasks.now name.now }
    {
        self.named(name).is_some()
    }

    /// The shape of the input of the task with this name.
    pub fn input_shape(&self, task: &Name, port: &Name) -> Option<&'a Shape>
        ensures { option_copied result ≡ port_shape (inputs_named self.now.tasks.now task.now) port.now }
    {
        shape_of(inputs_of(self.named(task)?), port)
    }

    /// The shape of the output of the task with this name.
    pub fn output_shape(&self, task: &Name, port: &Name) -> Option<&'a Shape>
        ensures { option_copied result ≡ port_shape (outputs_named self.now.tasks.now task.now) port.now }
    {
        output_shape(self.named(task)?, port)
    }
}

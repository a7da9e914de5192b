//! How far after a node the nodes of its parts come: the nodes at and below a task are counted once for each task.

ghost use Rattle.std.specs.Prelude.{◌≡◌, ℕ, ◌<◌, ◌+◌, [], ◌∷◌, ◌++◌, List, length, get_or, IfOk, OnOk};
ghost use Rattle.aol_flat.specs.Leaves.{narrowed};
ghost use Rattle.aol_flat.specs.Below.{IsCountNamed, AreStepsIn, AreStepsUnder, AreSteps};

use crate::numbers::number_named;
use crate::visit::Hierarchy;
use aol_model_types::{Part, Task};
use aol_shape::{Items, Name, NoMemory};
use std::alloc::Global;

/// How many nodes there are at and below a task, and how many of them come before each of its parts.
#[derive(Drop)]
struct Steps {
    own: Items<u32>,
    count: u32,
}

/// The steps of a task without parts.
fn alone(alloc: Global) -> Steps
    ensures own { result.own ≡ [] }
    ensures count { result.count ≡ 1 }
{
    Steps {
        own: Items::new(alloc),
        count: 1,
    }
}

/// How many nodes there are at and below the task of this name, where `counts` has these numbers for the first tasks.
fn count_named(from: Hierarchy, counts: &[u32], name: &Name) -> u32
    ensures { IsCountNamed from.entry.model.now name.now counts.now result }
{
    let Some(number) = number_named(from.numbers, name) else {
        return 0;
    };
    counts.get(number as usize).copied().unwrap_or(0)
}

/// The steps of a compound task with these parts.
fn steps_in(from: Hierarchy, counts: &[u32], parts: &[Part]) -> Result<Steps, NoMemory>
    ensures { IfOk result (λ s. AreStepsIn from.entry.model.now parts.now counts.now s.own s.count) }
{
    let mut steps = alone(from.alloc);
    for part in parts {
        steps.own.push(steps.count)?;
        steps.count = steps
            .count
            .saturating_add(count_named(from, counts, &part.task));
    }
    Ok(steps)
}

/// The steps of a task.
fn steps_under(from: Hierarchy, counts: &[u32], task: &Task) -> Result<Steps, NoMemory>
    ensures { IfOk result (λ s. AreStepsUnder from.entry.model.now task.now counts.now s.own s.count) }
{
    match task {
        Task::Elementary(_) => Ok(alone(from.alloc)),
        Task::Compound(task) => steps_in(from, counts, task.parts.as_slice()),
        Task::Repeated(task) => {
            let mut steps = alone(from.alloc);
            steps.count = steps
                .count
                .saturating_add(count_named(from, counts, &task.task));
            Ok(steps)
        }
    }
}

/// For each task how far after a node with that task the nodes of its parts come.
pub fn steps_of(from: Hierarchy) -> Result<Items<Items<u32>>, NoMemory>
    ensures { IfOk result (λ steps. AreSteps from.entry.model.now steps) }
{
    let mut counts: Items<u32> = Items::new(from.alloc);
    let mut steps: Items<Items<u32>> = Items::new(from.alloc);
    for task in from.model.tasks.as_slice() {
        let Steps { own, count } = steps_under(from, counts.as_slice(), task)?;
        counts.push(count)?;
        steps.push(own)?;
    }
    Ok(steps)
}

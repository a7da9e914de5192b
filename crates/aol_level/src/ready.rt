//! The elementary tasks of a model made ready.

ghost use Rattle.std.specs.Prelude.{◌≡◌, ◌+◌, ◌∷◌, ◌++◌, [], IfOk, OnOk};
ghost use Rattle.aol_level.specs.Made.{AreMade, IsMade, elementary_among};

use crate::outputs::Ready;
use aol_model_types::Task;
use aol_shape::NoMemory;
use std::alloc::Global;

/// A task made ready, where it computes.
fn made(alloc: Global, task: &Task, number: u32) -> Result<Option<Ready>, NoMemory>
    ensures { IfOk result (IsMade task.now number) }
{
    match task {
        Task::Elementary(elementary) => {
            let ready = Ready::of(alloc, elementary, number)?;
            Ok(Some(ready))
        }
        _ => Ok(None),
    }
}

/// One more, where the task computes.
fn number_after(number: u32, task: &Task) -> Result<u32, NoMemory>
    ensures { IfOk result (λ n. n ≡ number + elementary_among (task.now ∷ [])) }
{
    match task {
        Task::Elementary(_) => match number.checked_add(1) {
            Some(next) => Ok(next),
            None => Err(NoMemory),
        },
        _ => Ok(number),
    }
}

/// Adds one more.
fn push(all: &mut Vec<Option<Ready>>, one: Option<Ready>) -> Result<(), NoMemory>
    ensures { OnOk result (all.new.items ≡ all.old.items ++ one ∷ []) }
{
    match all.push(one) {
        Ok(()) => Ok(()),
        Err(_) => Err(NoMemory),
    }
}

/// The elementary tasks of a list made ready, each at the place of its task.
pub fn ready_tasks(alloc: Global, tasks: &[Task]) -> Result<Vec<Option<Ready>>, NoMemory>
    ensures { IfOk result (λ all. AreMade tasks.now all.items) }
{
    let mut all = Vec::with_capacity(alloc, tasks.len())?;
    let mut number = 0u32;
    for task in tasks {
        let one = made(alloc, task, number)?;
        push(&mut all, one)?;
        number = number_after(number, task)?;
    }
    Ok(all)
}

//! The list of tasks with new ones before a changed one.

ghost use Rattle.std.specs.Prelude.{◌≡◌, ◌+◌, ◌++◌, ◌≤◌, ◌^◌, List, [], ◌∷◌, length, reverse, position, IfOk, OnOk};
ghost use Rattle.aol_shape.specs.Lists.{same};
ghost use Rattle.aol_model_types.specs.Rules.{task_name};
ghost use Rattle.aol_change.specs.Change.{put_before, changed_model};
ghost use Rattle.aol_change.specs.Made.{MatchesLast};

use crate::tasks::name_of;
use aol_model_types::{Model, Task};
use aol_shape::{Items, Name, NoMemory, are_same};
use std::alloc::{AllocError, Global};

/// Takes the tasks from `at` on off, the last one first, onto the end of a list.
#[tactic(auto, using(crate::proofs::Lists::moved_off))]
fn take_off(tasks: &mut Items<Task>, at: usize, rest: &mut Items<Task>) -> Result<(), AllocError>
    requires { at ≤ length tasks.old }
    ensures taken { OnOk result (tasks.old ++ reverse rest.old ≡ tasks.new ++ reverse rest.new) }
    ensures left { OnOk result (length tasks.new ≡ at) }
{
    while tasks.len() > at {
        let Some(task) = tasks.pop() else { break };
        rest.push(task)?;
    }
    Ok(())
}

/// Puts tasks at the end, of which the last one comes first.
#[tactic(auto, using(crate::proofs::Lists::moved_back))]
pub fn put_back(tasks: &mut Items<Task>, rest: &mut Items<Task>) -> Result<(), AllocError>
    ensures { OnOk result (tasks.new ≡ tasks.old ++ reverse rest.old) }
{
    while let Some(task) = rest.pop() {
        tasks.push(task)?;
    }
    Ok(())
}

/// Drops the last task.
fn drop_last(tasks: &mut Items<Task>)
    ensures { MatchesLast tasks.old tasks.new }
{
    let _last = tasks.pop();
}

/// The place of the first task with this name.
fn place_of(tasks: &[Task], name: &Name) -> Option<usize>
    ensures { result ≡ position (λ t. same (task_name t) name.now) tasks.now }
{
    tasks.iter().position(|task| are_same(name_of(task), name))
}

/// The first task with this name gives way to the tasks of `put`, of which the last one comes first.
fn put_before(
    tasks: &mut Items<Task>,
    name: &Name,
    put: &mut Items<Task>,
    rest: &mut Items<Task>,
) -> Result<(), AllocError>
    requires { rest.old ≡ [] }
    ensures { (made : List _) (changed : _) → put.old ≡ reverse (made ++ changed ∷ []) → OnOk result (tasks.new ≡ put_before tasks.old name.now made changed) }
{
    let at = match place_of(tasks.as_slice(), name) {
        Some(at) => at,
        None => return Ok(()),
    };
    take_off(tasks, at + 1, rest)?;
    drop_last(tasks);
    put_back(tasks, put)?;
    put_back(tasks, rest)?;
    Ok(())
}

/// The model with a changed task in place of the first one with this name, and new tasks just before it.
///
/// `put` has the changed task, and then the new tasks from the last to the first. A list of tasks that a u32 can't
/// count is taken for want of memory.
pub fn changed_model(
    alloc: Global,
    model: &Model,
    name: &Name,
    put: &mut Items<Task>,
) -> Result<Model, NoMemory>
    ensures changed { (made : List _) (changed : _) → put.old ≡ reverse (made ++ changed ∷ []) → IfOk result (λ m. m ≡ changed_model model.now name.now made changed) }
    ensures count { OnOk result (length model.now.tasks + length put.old ≤ 2 ^ 32) }
{
    let most = 1usize << 32;
    if put.len() > most || model.tasks.len() > most - put.len() {
        return Err(NoMemory);
    }
    let mut copy = model.copy(alloc)?;
    let mut rest = Items::new(alloc);
    put_before(&mut copy.tasks, name, put, &mut rest)?;
    Ok(copy)
}

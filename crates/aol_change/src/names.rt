//! New names.

ghost use Rattle.std.specs.Prelude.{◌≡◌, ◌+◌, ◌++◌, ◌<◌, ◌^◌, map, length, IfOk};
ghost use Rattle.std.specs.List.{list_any};
ghost use Rattle.aol_shape.specs.Lists.{same};
ghost use Rattle.aol_flat.specs.Accept.{IsSound};
ghost use Rattle.aol_model_types.specs.Rules.{task_name};
ghost use Rattle.aol_change.specs.Change.{numbered, is_taken, free_number, new_name, name_limit};
ghost use Rattle.aol_change.specs.Made.{IsWithin};

use crate::refused::StepRefused;
use crate::tasks::name_of;
use aol_model_types::{Model, Task};
use aol_shape::{LimitName, MAX_NAME, Name, NoMemory, are_same};
use std::alloc::Global;

/// The name, `_` and a number.
fn numbered(alloc: Global, name: &Name, number: usize) -> Result<Name, NoMemory>
    ensures { IfOk result (λ n. n ≡ numbered name.now number) }
{
    let text = format!(in alloc; "{}_{}", name.as_str(), number)?;
    Ok(Name::from_string(text))
}

/// Whether a task has this name.
fn is_task(tasks: &[Task], name: &Name) -> bool
    ensures { result ≡ list_any (λ t. same (task_name t) name.now) tasks.now }
{
    tasks.iter().any(|task| are_same(name_of(task), name))
}

/// Whether the name is one of these.
fn is_other(names: &[Name], name: &Name) -> bool
    ensures { result ≡ is_taken names.now name.now }
{
    names.iter().any(|other| are_same(other, name))
}

/// Whether a task has this name, or it is one of the others.
fn is_taken(tasks: &[Task], others: &[Name], name: &Name) -> bool
    ensures { result ≡ is_taken (map task_name tasks.now ++ others.now) name.now }
{
    is_task(tasks, name) || is_other(others, name)
}

/// The name with the first number from 1 on with which no task has it and it is none of the others.
#[tactic(auto, using(crate::proofs::Taken::number_taken, crate::proofs::Taken::number_free, crate::proofs::Taken::number_last))]
fn free_name(alloc: Global, tasks: &[Task], others: &[Name], name: &Name) -> Result<Name, NoMemory>
    requires few { length tasks.now + length others.now < 2 ^ 63 }
    ensures { let taken = map task_name tasks.now ++ others.now in IfOk result (λ n. n ≡ numbered name.now (free_number taken name.now (length taken) 1)) }
{
    let mut number = 1;
    let mut left = tasks.len() + others.len();
    while left > 0 {
        let candidate = numbered(alloc, name, number)?;
        if !is_taken(tasks, others, &candidate) {
            return Ok(candidate);
        }
        number += 1;
        left -= 1;
    }
    numbered(alloc, name, number)
}

/// The name of a new task that is made from a task of this name, where `others` are new names just before it.
///
/// It is the name, `_` and the least number from 1 on with which it is new. `Limit` tells a name of more than 64 bytes.
pub fn new_name(
    alloc: Global,
    model: &Model,
    others: &[Name],
    name: &Name,
) -> Result<Name, StepRefused>
    requires sound { IsSound model.now }
    requires few { length others.now < 2 ^ 32 }
    ensures made { IfOk result (λ n. n ≡ new_name model.now others.now name.now) }
    ensures limit { IsWithin result (name_limit (new_name model.now others.now name.now)) }
{
    let made = free_name(alloc, model.tasks.as_slice(), others, name)?;
    if made.as_str().len() > MAX_NAME {
        return Err(StepRefused::Limit(LimitName::Name));
    }
    Ok(made)
}

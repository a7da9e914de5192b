//! The walk over all nodes in preorder, for the first point that is written twice.

ghost use Rattle.std.specs.Prelude.{◌≡◌, ◌<◌, ◌++◌, codes, length, slice_get, Some, IfOk, OnOk, IfErr, ℕ, string_bytes};
ghost use Rattle.aol_model_types.specs.declared.task.Task.TheVariants as tasks;
ghost use Rattle.aol_flat.specs.Accept.{IsSound};
ghost use Rattle.aol_flat.specs.Node.{root_or};
ghost use Rattle.aol_flat.specs.Numbered.{number_named};
ghost use Rattle.aol_flat.specs.Targets.{IsSingleAssignment};
ghost use Rattle.aol_assign.specs.Answers.{IsTwiceTold};
ghost use Rattle.aol_assign.specs.Visits.{IsRefusal, TestsNode, GoesBelow, GoesOverParts, GoesDown};

use crate::marks::unmarked;
use crate::refused::AssignRefused;
use crate::targets::{Found, twice_in};
use crate::tasks::{Tasks, number_named, numbers_of};
use aol_flat::Flat;
use aol_model_types::{Compound, Task};
use aol_shape::{Name, NoMemory};
use std::alloc::Global;

/// The path of a node, by its steps with a `/` before each.
fn node_path(alloc: Global, steps: &str) -> Result<Name, NoMemory>
    ensures { IfOk result (λ name. name ≡ root_or steps.now) }
{
    if steps.is_empty() {
        return Name::from_str(alloc, "/");
    }
    Name::from_str(alloc, steps)
}

/// The steps to a node below.
fn step_down(alloc: Global, steps: &str, step: &str) -> Result<String, NoMemory>
    ensures { IfOk result (λ text. string_bytes text ≡ steps.now ++ codes "/" ++ step.now) }
{
    let mut text = String::from_str(alloc, steps)?;
    text.push_str("/")?;
    text.push_str(step)?;
    Ok(text)
}

/// What is told of a point that is written twice at a node.
fn refusal(alloc: Global, steps: &str, found: Found) -> Result<AssignRefused, NoMemory>
    ensures { IfOk result (λ e. IsRefusal (root_or steps.now) found e) }
{
    let path = node_path(alloc, steps)?;
    let Found { part, port, repeat } = found;
    Ok(AssignRefused::Twice {
        path,
        part,
        port,
        point: repeat.point,
        first: repeat.first,
        second: repeat.second,
    })
}

/// Tests the targets of a node whose task has this number, unless those of the task are known to be written once.
fn test_node(
    from: Tasks,
    number: u32,
    steps: &str,
    tested: &mut [bool],
) -> Result<(), AssignRefused>
    requires within { number < length from.model.now.tasks }
    requires sound { IsSound from.model.now }
    requires room { length tested.old ≡ length from.model.now.tasks }
    ensures { TestsNode from.entry.model.now number steps.now tested.old tested.new result }
{
    if tested[number as usize] {
        return Ok(());
    }
    if let Some(found) = twice_in(from, number)? {
        return Err(refusal(from.alloc, steps, found)?);
    }
    tested[number as usize] = true;
    Ok(())
}

/// Tests a node whose task has this number, and all nodes below it.
#[cycle(visit)]
fn visit(from: Tasks, number: u32, steps: &str, tested: &mut [bool]) -> Result<(), AssignRefused>
    requires within { number < length from.model.now.tasks }
    requires sound { IsSound from.model.now }
    requires room { length tested.old ≡ length from.model.now.tasks }
    ensures { GoesBelow from.entry.model.now number steps.now tested.old tested.new result }
{
    test_node(from, number, steps, tested)?;
    match &from.model.tasks.as_slice()[number as usize] {
        Task::Elementary(_) => Ok(()),
        Task::Compound(task) => visit_parts(from, number, task, steps, tested),
        Task::Repeated(task) => visit_below(from, number, &task.task, "*", steps, tested),
    }
}

/// Tests the nodes of the parts of a compound task, and all below them.
#[cycle(visit)]
fn visit_parts(
    from: Tasks,
    number: u32,
    task: &Compound,
    steps: &str,
    tested: &mut [bool],
) -> Result<(), AssignRefused>
    requires within { slice_get from.model.now.tasks number ≡ Some (tasks.Compound task.now) }
    requires sound { IsSound from.model.now }
    requires room { length tested.old ≡ length from.model.now.tasks }
    ensures { GoesOverParts from.entry.model.now task.now steps.now tested.old tested.new result }
{
    for part in task.parts.as_slice() {
        visit_below(from, number, &part.task, part.name.as_str(), steps, tested)?;
    }
    Ok(())
}

/// Tests the node of the task with this name, one step down from a node whose task has the number `above`.
#[cycle(visit)]
fn visit_below(
    from: Tasks,
    above: u32,
    name: &Name,
    step: &str,
    steps: &str,
    tested: &mut [bool],
) -> Result<(), AssignRefused>
    requires below { (j : ℕ) → number_named from.model.now.tasks name.now ≡ Some j → j < above }
    requires sound { IsSound from.model.now }
    requires room { length tested.old ≡ length from.model.now.tasks }
    ensures { GoesDown from.entry.model.now name.now step.now steps.now tested.old tested.new result }
{
    let Some(number) = number_named(from.numbers, name) else {
        return Ok(());
    };
    let steps = step_down(from.alloc, steps, step)?;
    visit(from, number, steps.as_str(), tested)
}

/// Tests all nodes of a model, whose main task has this number.
fn test_all(from: Tasks, number: u32) -> Result<(), AssignRefused>
    requires main { number_named from.model.now.tasks from.model.now.main ≡ Some number }
    requires sound { IsSound from.model.now }
    ensures ok { OnOk result (IsSingleAssignment from.entry.model.now) }
    ensures refused { IfErr result (IsTwiceTold from.entry.model.now) }
{
    let mut tested = unmarked(from.alloc, from.model.tasks.len())?;
    visit(from, number, "", &mut tested)
}

/// Tests that no point of a model is written twice.
///
/// `Twice` tells the first point that is; it never answers `Unwritten`.
pub fn test_single(alloc: Global, flat: &Flat) -> Result<(), AssignRefused>
    ensures ok { OnOk result (IsSingleAssignment flat.now.model) }
    ensures refused { IfErr result (IsTwiceTold flat.now.model) }
{
    let model = flat.model();
    let numbers = numbers_of(alloc, model.tasks.as_slice())?;
    let Some(number) = number_named(&numbers, &model.main) else {
        return Ok(());
    };
    let from = Tasks {
        alloc,
        model,
        numbers: &numbers,
    };
    test_all(from, number)
}

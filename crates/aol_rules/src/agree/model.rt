ghost use Rattle.std.specs.Prelude.{◌≡◌, ◌<◌, None, Some, map, length, MatchResult, OnOk};
ghost use Rattle.std.specs.List.{AllByRecursion};
ghost use Rattle.std.specs.Option.{option_copied, ForSome};
ghost use Rattle.aol_rules.specs.Names.{Finds};
ghost use Rattle.aol_model_types.specs.Rules.{task_name, main_is_task, each, task_checks, checks, first_misfit, ShapesAgree};
ghost use Rattle.aol_model_types.specs.Types.{IsCounted, IsTask, IsModel};
ghost use Rattle.aol_rules.specs.Walk.{Tells};

use crate::agree::compound::test_compound;
use crate::agree::elementary::test_elementary;
use crate::agree::names::Index;
use crate::agree::repeated::test_repeated;
use crate::agree::tasks::{Earlier, name_of};
use crate::agree::walk::require;
use aol_model_types::{Key, Misfit, Model, Path, Task, rules};
use aol_shape::Items;
use std::alloc::Global;

/// Tests a task after the earlier ones.
fn test_task(alloc: Global, at: &Path, earlier: Earlier, task: &Task) -> Result<(), Misfit>
    requires depth { length at.now < 8 }
    requires types { IsTask task.now }
    ensures { Tells result (task_checks at.now earlier.entry.tasks.now task.now) }
{
    let is_new = earlier.named(name_of(task)).is_none();
    require(at.to_key(Key::KName), rules::TASK_NAMES_DIFFER, is_new)?;
    match task {
        Task::Elementary(task) => test_elementary(at, task),
        Task::Compound(task) => test_compound(alloc, at, earlier, task),
        Task::Repeated(task) => test_repeated(at, earlier, task),
    }
}

/// Tests each task of the list at the path, in order.
#[tactic(auto, using(crate::proofs::NamePlaces::front_known))]
fn test_tasks<'a>(
    alloc: Global,
    at: &Path,
    tasks: &'a Items<Task>,
    index: Option<&'a Index>,
) -> Result<(), Misfit>
    requires depth { length at.now < 7 }
    requires types { AllByRecursion IsTask tasks.now }
    requires count { IsCounted tasks.now }
    requires finds { ForSome (option_copied index) (λ i. Finds (map task_name tasks.now) i.places) }
    ensures { Tells result (each task_checks at.now tasks.now) }
{
    let list = tasks.as_slice();
    for (k, task) in list.iter().enumerate() {
        let earlier = Earlier {
            tasks: &list[..k],
            index,
        };
        test_task(alloc, &at.to_index(k as u32), earlier, task)?;
    }
    Ok(())
}

/// Whether the main task is one of the tasks.
#[tactic(auto, using(crate::proofs::NamePlaces::all_known))]
fn main_is_task<'a>(model: &'a Model, index: Option<&'a Index>) -> bool
    requires { ForSome (option_copied index) (λ i. Finds (map task_name model.now.tasks) i.places) }
    ensures { result ≡ main_is_task model.now }
{
    let tasks = model.tasks.as_slice();
    let all = Earlier { tasks, index };
    all.has(&model.main)
}

/// Tests the tasks of a model, and then that its main task is one of them.
#[tactic(auto, using(crate::proofs::Walks::passed, crate::proofs::Walks::failed, crate::proofs::NamePlaces::made))]
fn test_model(alloc: Global, model: &Model) -> Result<(), Misfit>
    requires { IsModel model.now }
    ensures { Tells result (checks model.now) }
{
    let at = Path::top(alloc).to_key(Key::KModel);
    let made = Index::of(alloc, model.tasks.as_slice());
    let index = made.as_ref();
    test_tasks(alloc, &at.to_key(Key::KTasks), &model.tasks, index)?;
    require(
        at.to_key(Key::KMain),
        rules::MAIN_IS_A_TASK,
        main_is_task(model, index),
    )
}

/// Tests the rules on shapes and names, task by task in the order of the list and then `main`: nothing where all hold,
/// else the first place at which one fails. It never answers want of memory.
#[tactic(auto, using(crate::proofs::Walks::first_found, crate::proofs::Walks::all_hold))]
pub fn shapes_agree(alloc: Global, model: &Model) -> Result<(), Misfit>
    requires { IsModel model.now }
    ensures first { MatchResult result (λ _. first_misfit model.now ≡ None) (λ m. first_misfit model.now ≡ Some m) }
    ensures agree { OnOk result (ShapesAgree model.now) }
{
    test_model(alloc, model)
}

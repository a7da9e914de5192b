//! The numbers of the tasks of a model by their names.

ghost use Rattle.std.specs.Prelude.{◌≡◌, ℕ, List, ◌<◌, ◌^◌, Some, length, OnOk, IfOk, if◌then◌else◌};
ghost use Rattle.std.specs.Str.{bytes_eq};
ghost use Rattle.std.specs.BTreeMap.{get_by_text};
ghost use Rattle.aol_model_types.specs.Rules.{task_name};
ghost use Rattle.aol_flat.specs.Numbered.{FindsNumbers, number_named};

use aol_model_types::Task;
use aol_shape::Name;
use std::alloc::{AllocError, Global};
use std::collections::BTreeMap;

/// The name of a task.
fn name_of(task: &Task) -> &Name
    ensures { result.now ≡ task_name task.now }
{
    match task {
        Task::Elementary(task) => &task.name,
        Task::Compound(task) => &task.name,
        Task::Repeated(task) => &task.name,
    }
}

/// Gives a name its number, in place of the one that it has.
fn set(
    alloc: Global,
    numbers: &mut BTreeMap<String, u32>,
    name: &str,
    number: u32,
) -> Result<(), AllocError>
    ensures { OnOk result ((q : List ℕ) → get_by_text numbers.new q ≡ (if bytes_eq q name.now then Some number else get_by_text numbers.old q)) }
{
    let key = String::from_str(alloc, name)?;
    numbers.insert(key, number)?;
    Ok(())
}

/// The numbers of the tasks by their names; of tasks with one name it has the first. It takes `n log n` steps for `n` tasks.
pub fn numbers_of(alloc: Global, tasks: &[Task]) -> Result<BTreeMap<String, u32>, AllocError>
    requires { length tasks.now < 2 ^ 32 }
    ensures { IfOk result (λ m. FindsNumbers tasks.now m) }
{
    let mut numbers: BTreeMap<String, u32> = BTreeMap::new(alloc);
    let mut at = tasks.len();
    while at > 0 {
        at -= 1;
        set(alloc, &mut numbers, name_of(&tasks[at]).as_str(), at as u32)?;
    }
    Ok(numbers)
}

/// The number of the first task that has this name.
pub fn number_named(numbers: &BTreeMap<String, u32>, name: &Name) -> Option<u32>
    ensures { (tasks : List _) → FindsNumbers tasks numbers.now → result ≡ number_named tasks name.now }
{
    numbers.get(name.as_str()).copied()
}

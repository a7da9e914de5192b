//! The fused model, whose lists a u32 counts.

ghost use Rattle.std.specs.Prelude.{◌≡◌, true, Some, IfOk};
ghost use Rattle.std.specs.List.{AllByRecursion, list_all};
ghost use Rattle.aol_model_types.specs.Rules.{task_named};
ghost use Rattle.aol_model_types.specs.Types.{IsPick};
ghost use Rattle.aol_flat.specs.Accept.{IsSound};
ghost use Rattle.aol_change.specs.Made.{IsStep};
ghost use Rattle.aol_fusion_parts.specs.Fuse.{fused_task};
ghost use Rattle.aol_fusion_rules.specs.Sound.{is_countable};

use aol_change::StepRefused;
use aol_fusion_parts::fused;
use aol_model_types::{FuseArgs, Model, Pick, Task};
use aol_shape::Name;
use std::alloc::Global;

/// How many elements a list has that a u32 doesn't count.
const TOO_MANY: usize = 4_294_967_296;

/// The picks' tilers are within the limits, which is what their type says.
fn picks_are_within(picks: &[Pick])
    ensures { AllByRecursion IsPick picks.now }
{
    for pick in picks {
        let _columns = pick.tiler.paving_columns();
    }
}

/// Whether a u32 counts the links and the reshapes of a task.
fn is_countable(task: &Task) -> bool
    ensures { result ≡ is_countable task.now }
{
    match task {
        Task::Compound(task) => task.links.len() < TOO_MANY && task.reshapes.len() < TOO_MANY,
        _ => true,
    }
}

/// Whether it does so for all tasks.
fn are_countable(tasks: &[Task]) -> bool
    ensures { result ≡ list_all is_countable tasks.now }
{
    tasks.iter().all(|task| is_countable(task))
}

/// The model with two joined parts of the compound of this name fused, as far as no limit of the hierarchy is looked at.
///
/// Causes in order: `NotJoined` where no compound has the name, it lacks one of the two parts, they are one, or no plain
/// link goes from the first to the second; `NotRepeated` where one of their tasks isn't repeated; `HasLinks` where one of
/// these has links between repetitions; `NotJoined` where the proposal isn't well formed; and `Limit`. A list of links
/// that a u32 can't count is taken for want of memory.
pub fn fused_model(
    alloc: Global,
    model: &Model,
    name: &Name,
    args: &FuseArgs,
) -> Result<Model, StepRefused>
    requires sound { IsSound model.now }
    ensures step { IsStep result (fused_task model.now (task_named model.now.tasks name.now) args.now) }
    ensures sound { IfOk result (λ m. IsSound m) }
{
    let _entries = args.block.as_slice();
    picks_are_within(args.picks.as_slice());
    match fused(alloc, model, name, args) {
        Ok(next) => {
            if !are_countable(next.tasks.as_slice()) {
                return Err(StepRefused::NoMemory);
            }
            Ok(next)
        }
        Err(error) => Err(error),
    }
}

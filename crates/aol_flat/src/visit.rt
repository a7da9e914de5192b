//! The walk of the hierarchy in preorder: each node, then what is below it, then the reshapes of a compound task.

ghost use Rattle.std.specs.Prelude.{◌<◌, length};
ghost use Rattle.aol_flat.specs.Numbered.{FindsNumbers, StandOnEarlier};
ghost use Rattle.aol_flat.specs.Walked.{GoesBelow, GoesDown, GoesOverParts, GoesOverRun, GoesOverCopy, GoesOverCopies};

use crate::counts::points_of;
use crate::leaf::LeafKind;
use crate::numbers::number_named;
use crate::refused::FlatRefused;
use crate::spot::{Spot, entries_of};
use crate::walk::Walk;
use aol_model_types::{Compound, Copied, Model, Task};
use aol_shape::Name;
use std::alloc::Global;
use std::collections::BTreeMap;

/// A model whose tasks stand on earlier ones, with the numbers of its tasks by their names.
#[derive(Clone, Copy)]
pub struct Hierarchy<'a> {
    pub alloc: Global,
    pub model: &'a Model,
    pub numbers: &'a BTreeMap<String, u32>,
    ghost earlier: { StandOnEarlier model.now.tasks },
    ghost found: { FindsNumbers model.now.tasks numbers.now },
}

/// Adds the leaf of a node whose task is elementary and has this number.
fn push_run(alloc: Global, number: u32, spot: &Spot, walk: &mut Walk) -> Result<(), FlatRefused>
    ensures { GoesOverRun number spot.now walk.old walk.new result }
{
    let path = spot.node_path(alloc)?;
    let space = entries_of(alloc, spot.space.as_slice(), &[], &[])?;
    walk.push(path, space, LeafKind::Elementary(number))?;
    Ok(())
}

/// Adds the leaf of a reshape with its number at a node.
fn push_copy(
    alloc: Global,
    number: usize,
    reshape: &Copied,
    spot: &Spot,
    walk: &mut Walk,
) -> Result<(), FlatRefused>
    ensures { GoesOverCopy number reshape.now spot.now walk.old walk.new result }
{
    let path = spot.reshape_path(alloc, number)?;
    let (space, pattern) = (reshape.by.space.as_slice(), reshape.by.pattern.as_slice());
    let space = entries_of(alloc, spot.space.as_slice(), space, pattern)?;
    walk.push(path, space, LeafKind::Copy)?;
    Ok(())
}

/// Adds the leaves of the reshapes of a compound task at a node.
fn push_copies(
    alloc: Global,
    reshapes: &[Copied],
    spot: &Spot,
    walk: &mut Walk,
) -> Result<(), FlatRefused>
    ensures { GoesOverCopies reshapes.now spot.now walk.old walk.new result }
{
    for (number, reshape) in reshapes.iter().enumerate() {
        push_copy(alloc, number, reshape, spot, walk)?;
    }
    Ok(())
}

/// Goes over the node of the task with this number and all that is below it. It stops at the first node at which a limit is passed.
#[cycle(visit)]
pub fn visit(from: Hierarchy, number: u32, spot: &Spot, walk: &mut Walk) -> Result<(), FlatRefused>
    requires { number < length from.model.now.tasks }
    ensures { GoesBelow from.entry.model.now number spot.now walk.old walk.new result }
{
    let task = &from.model.tasks.as_slice()[number as usize];
    let instances = points_of(spot.space.as_slice());
    if let Some(limit) = walk.counts.add(task, spot.depth, instances) {
        return Err(FlatRefused::Limit(spot.node_path(from.alloc)?, limit));
    }
    match task {
        Task::Elementary(_) => push_run(from.alloc, number, spot, walk),
        Task::Compound(task) => {
            visit_parts(from, task, spot, walk)?;
            push_copies(from.alloc, task.reshapes.as_slice(), spot, walk)
        }
        Task::Repeated(task) => {
            visit_below(from, &task.task, "*", task.space.as_slice(), spot, walk)
        }
    }
}

/// Goes over the nodes of the parts of a compound task, and all that is below them.
#[cycle(visit)]
fn visit_parts(
    from: Hierarchy,
    task: &Compound,
    spot: &Spot,
    walk: &mut Walk,
) -> Result<(), FlatRefused>
    requires { spot.now.depth < 33 }
    ensures { GoesOverParts from.entry.model.now task.now spot.now walk.old walk.new result }
{
    for part in task.parts.as_slice() {
        visit_below(from, &part.task, part.name.as_str(), &[], spot, walk)?;
    }
    Ok(())
}

/// Goes over the node of the task with this name, one step down, and all that is below it.
///
/// `text` is what the step adds to the path, and `space` the space of the repetition that it enters.
#[cycle(visit)]
fn visit_below(
    from: Hierarchy,
    name: &Name,
    text: &str,
    space: &[u32],
    spot: &Spot,
    walk: &mut Walk,
) -> Result<(), FlatRefused>
    requires { spot.now.depth < 33 }
    ensures { GoesDown from.entry.model.now name.now text.now space.now spot.now walk.old walk.new result }
{
    let Some(number) = number_named(from.numbers, name) else {
        return Ok(());
    };
    let below = spot.below(from.alloc, text, space)?;
    visit(from, number, &below, walk)
}

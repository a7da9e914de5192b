//! The table of nodes, filled in preorder: the row of each node, then those below it, then the places of its leaves.

ghost use Rattle.std.specs.Prelude.{◌≡◌, ℕ, ◌<◌, ◌+◌, ◌*◌, ◌++◌, [], ◌∷◌, length, get_or, Some, IfOk, OnOk};
ghost use Rattle.aol_shape.specs.Shape.{size};
ghost use Rattle.aol_flat.specs.Leaves.{narrowed};
ghost use Rattle.aol_flat.specs.Saturated.{saturated};
ghost use Rattle.aol_flat.specs.Numbered.{number_named};
ghost use Rattle.aol_flat.specs.Walked.{AreBelow};
ghost use Rattle.aol_flat.specs.Placed.{PlacesBelow, PlacesDown, PlacesParts, PlacesCopies};

use crate::counts::points_of;
use crate::nodes::{LeafSpot, NodeRow};
use crate::numbers::number_named;
use crate::visit::Hierarchy;
use crate::walk::narrowed;
use aol_model_types::{Compound, Task};
use aol_shape::{Items, Name, NoMemory};
use std::alloc::Global;

/// The rows of the nodes so far, and the places of their leaves.
#[derive(Drop)]
pub struct Table {
    pub rows: Items<NodeRow>,
    pub spots: Items<LeafSpot>,
}

/// How a node is reached: the number of the node above, that of the part, and what is around the node.
///
/// `around` counts the entries of the spaces around it, and `instances` their points.
#[derive(Clone, Copy)]
pub struct Way {
    pub up: u32,
    pub part: u32,
    pub around: u32,
    pub instances: u64,
}

impl Table {
    /// A table without rows.
    pub fn new(alloc: Global) -> Table
        ensures rows { result.rows ≡ [] }
        ensures spots { result.spots ≡ [] }
    {
        Table {
            rows: Items::new(alloc),
            spots: Items::new(alloc),
        }
    }

    /// Adds the row of a node with its task, and answers the number of the node.
    fn push_row(&mut self, task: u32, way: Way) -> Result<u32, NoMemory>
        ensures number { IfOk result (λ n. n ≡ narrowed (length self.old.rows)) }
        ensures rows { OnOk result (self.new.rows ≡ self.old.rows ++ record { up = way.up; part = way.part; task = task; around = way.around; instances = way.instances } ∷ []) }
        ensures spots { self.new.spots ≡ self.old.spots }
    {
        let number = narrowed(self.rows.len() as u64);
        self.rows.push(NodeRow {
            up: way.up,
            part: way.part,
            task,
            around: way.around,
            instances: way.instances,
        })?;
        Ok(number)
    }

    /// Adds the place of a leaf.
    fn push_spot(&mut self, node: u32, reshape: u32) -> Result<(), NoMemory>
        ensures spots { OnOk result (self.new.spots ≡ self.old.spots ++ record { node = node; reshape = reshape } ∷ []) }
        ensures rows { self.new.rows ≡ self.old.rows }
    {
        self.spots.push(LeafSpot { node, reshape })?;
        Ok(())
    }
}

/// Adds the places of the leaves of the reshapes of a node, which are so many.
fn place_copies(node: u32, count: usize, table: &mut Table) -> Result<(), NoMemory>
    ensures { PlacesCopies node count table.old table.new result }
{
    for number in 0..count {
        table.push_spot(node, narrowed(number as u64))?;
    }
    Ok(())
}

impl Way {
    /// The way from a node that is reached so, and has this number, to its first part.
    fn into_parts(self, number: u32) -> Way
        ensures { result ≡ record { up = number; part = 0; around = self.around; instances = self.instances } }
    {
        Way {
            up: number,
            part: 0,
            ..self
        }
    }

    /// The way from there to the body of a repetition with this space.
    fn into_body(self, number: u32, space: &[u32]) -> Way
        ensures up { result.up ≡ number }
        ensures part { result.part ≡ 0 }
        ensures around { result.around ≡ narrowed (self.around + length space.now) }
        ensures instances { result.instances ≡ saturated (self.instances * saturated (size space.now)) }
    {
        Way {
            up: number,
            part: 0,
            around: narrowed(u64::from(self.around).saturating_add(space.len() as u64)),
            instances: self.instances.saturating_mul(points_of(space)),
        }
    }
}

/// Adds the rows of the node of the task with this number and of all nodes below it.
#[cycle(place)]
pub fn place(from: Hierarchy, number: u32, way: Way, table: &mut Table) -> Result<(), NoMemory>
    requires { number < length from.model.now.tasks }
    ensures { PlacesBelow from.entry.model.now number way table.old table.new result }
{
    let node = table.push_row(number, way)?;
    match &from.model.tasks.as_slice()[number as usize] {
        Task::Elementary(_) => table.push_spot(node, 0),
        Task::Compound(task) => {
            place_parts(from, number, task, way.into_parts(node), table)?;
            place_copies(node, task.reshapes.len(), table)
        }
        Task::Repeated(task) => {
            let below = way.into_body(node, task.space.as_slice());
            place_named(from, number, &task.task, below, table)
        }
    }
}

/// Adds the rows of the nodes of the parts of a compound task, and of all nodes below them.
///
/// `above` is the number of the compound task; those of its parts are less.
#[cycle(place)]
fn place_parts(
    from: Hierarchy,
    above: u32,
    task: &Compound,
    way: Way,
    table: &mut Table,
) -> Result<(), NoMemory>
    requires { AreBelow from.model.now above task.now.parts }
    ensures { PlacesParts from.entry.model.now task.now way table.old table.new result }
{
    for (number, part) in task.parts.as_slice().iter().enumerate() {
        let way = Way {
            part: narrowed(number as u64),
            ..way
        };
        place_named(from, above, &part.task, way, table)?;
    }
    Ok(())
}

/// Adds the rows of the node of the task with this name, and of all nodes below it. Its number is less than `above`.
#[cycle(place)]
fn place_named(
    from: Hierarchy,
    above: u32,
    name: &Name,
    way: Way,
    table: &mut Table,
) -> Result<(), NoMemory>
    requires { (j : ℕ) → number_named from.model.now.tasks name.now ≡ Some j → j < above }
    ensures { PlacesDown from.entry.model.now name.now way table.old table.new result }
{
    let Some(number) = number_named(from.numbers, name) else {
        return Ok(());
    };
    place(from, number, way, table)
}

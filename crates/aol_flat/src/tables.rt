//! The tables of nodes and cells.

ghost use Rattle.std.specs.Prelude.{◌≡◌, [], IfOk, OnOk};
ghost use Rattle.aol_flat.specs.Accept.{IsSound};
ghost use Rattle.aol_flat.specs.Instance.{leaves};
ghost use Rattle.aol_flat.specs.Limits.{IsBounded};
ghost use Rattle.aol_flat.specs.Node.{nodes};
ghost use Rattle.aol_flat.specs.NodeTables.{AreNodeTables, PlacesAll};

use crate::below::steps_of;
use crate::cells::{Cells, cells_of};
use crate::nodes::{LeafSpot, NodeRow};
use crate::numbers::number_named;
use crate::place::{Table, Way, place};
use crate::visit::Hierarchy;
use aol_shape::{Items, NoMemory};

/// The tables of nodes and cells of a model.
///
/// There is a row for each node and a place for each leaf. For each task `steps` has how far after a node with that
/// task the nodes of its parts come, and `cells` where the arrays at the ports begin.
#[derive(Drop)]
pub struct Tables {
    pub rows: Items<NodeRow>,
    pub spots: Items<LeafSpot>,
    pub steps: Items<Items<u32>>,
    pub cells: Cells,
}

/// Fills the table of all nodes.
fn place_all(from: Hierarchy, table: &mut Table) -> Result<(), NoMemory>
    ensures { PlacesAll from.entry.model.now table.old table.new result }
{
    let Some(number) = number_named(from.numbers, &from.model.main) else {
        return Ok(());
    };
    let way = Way {
        up: 0,
        part: 0,
        around: 0,
        instances: 1,
    };
    place(from, number, way, table)
}

/// The tables of a model.
pub fn tables_of(from: Hierarchy) -> Result<Tables, NoMemory>
    requires sound { IsSound from.model.now }
    requires limits { IsBounded from.model.now }
    ensures { IfOk result (λ tables. AreNodeTables from.entry.model.now tables) }
{
    let mut table = Table::new(from.alloc);
    place_all(from, &mut table)?;
    let steps = steps_of(from)?;
    let cells = cells_of(from.alloc, from.model, table.rows.as_slice())?;
    Ok(Tables {
        rows: table.rows,
        spots: table.spots,
        steps,
        cells,
    })
}

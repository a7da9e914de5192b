//! A model laid out.

ghost use Rattle.std.specs.Prelude.{◌≡◌, ◌<◌, ℕ, List, length, IfOk, OnOk};
ghost use Rattle.aol_shape.specs.declared.limit.LimitName.{LimitName};
ghost use Rattle.aol_flat.specs.Accept.{IsSound, IsFlat};
ghost use Rattle.aol_flat.specs.Instance.{instances, leaves};
ghost use Rattle.aol_flat.specs.Leaves.{IsLeafRow};
ghost use Rattle.aol_flat.specs.Limits.{IsBounded};
ghost use Rattle.aol_flat.specs.Node.{nodes};
ghost use Rattle.aol_flat.specs.NodeTable.{IsNodeRow, HasPart, IsPartNode, HasInput, IsFirstOfInput, HasOutput, IsFirstOfOutput, IsLeafSpot};
ghost use Rattle.aol_flat.specs.Tables.{EndsWith, EndsLaid, IsFirstLimit};
ghost use Rattle.aol_flat.specs.Walked.{GoesOver};

use crate::leaf::Leaf;
use crate::nodes::{LeafSpot, NodeRow};
use crate::numbers::{number_named, numbers_of};
use crate::refused::FlatRefused;
use crate::spot::root;
use crate::tables::{Tables, tables_of};
use crate::visit::{Hierarchy, visit};
use crate::walk::{Walk, narrowed};
use aol_model_types::Model;
use aol_shape::Items;
use std::alloc::Global;

/// A model with the table of its leaves: what every call on the hierarchy answers from.
///
/// Contracts see it as the model and its cells, which are the homes of the model.
#[derive(Drop)]
pub struct Flat {
    model: Model,
    leaves: Items<Leaf>,
    instances: u32,
    tables: Tables,
}

/// What a walk over all nodes of a model finds, and the tables of its nodes.
#[derive(Drop)]
struct Layout {
    walk: Walk,
    tables: Tables,
}

impl std::marker::Model for Flat {
    ghost use Rattle.aol_flat.specs.Laid.{Laid, homes_of};
    ghost use Rattle.aol_flat.specs.Tables.{AreTablesOf};
    ghost use Rattle.std.specs.Coded.{codes};
    ghost use Rattle.aol_model_types.specs.contracts.document.Model as model_row;

    ghost Value = { Laid };

    ghost coded = { Prim.hlevel (codes, model_row.the_row.coded) };

    ghost view = { λ f. record { model = f.model; cells = homes_of f.model } };

    ghost invariant = { λ f. AreTablesOf f.model f.leaves f.instances f.tables };
}

/// Goes over all nodes of a model.
fn visit_all(from: Hierarchy, walk: &mut Walk) -> Result<(), FlatRefused>
    ensures { GoesOver from.entry.model.now (nodes from.entry.model.now) (leaves from.entry.model.now) walk.old walk.new result }
{
    let Some(number) = number_named(from.numbers, &from.model.main) else {
        return Ok(());
    };
    visit(from, number, &root(from.alloc), walk)
}

/// What a walk over all nodes of a model finds.
fn walk_of(from: Hierarchy) -> Result<Walk, FlatRefused>
    ensures { EndsWith from.entry.model.now result }
{
    let mut walk = Walk::new(from.alloc);
    visit_all(from, &mut walk)?;
    Ok(walk)
}

/// What a walk finds, and the tables of the nodes.
fn lay(alloc: Global, model: &Model) -> Result<Layout, FlatRefused>
    requires { IsSound model.now }
    ensures { EndsLaid model.now result }
{
    let numbers = numbers_of(alloc, model.tasks.as_slice())?;
    let from = Hierarchy {
        alloc,
        model,
        numbers: &numbers,
    };
    let walk = walk_of(from)?;
    let tables = tables_of(from)?;
    Ok(Layout { walk, tables })
}

/// Lays a model out.
///
/// The model's shapes agree, and it is within the limits of the types. `Limit` tells the first node in preorder at
/// which a count passes its limit, tested in the order hierarchy, nodes, walk, work.
pub fn flatten(alloc: Global, model: Model) -> Result<Flat, FlatRefused>
    requires { IsSound model }
    ensures same { IfOk result (λ f. f.model ≡ model) }
    ensures limits { OnOk result (IsBounded model) }
    ensures limit { (path : List ℕ) (limit : LimitName) → result ≡ Err (FlatRefused.Limit path limit) → IsFirstLimit model path limit }
{
    match lay(alloc, &model) {
        Ok(Layout { walk, tables }) => Ok(Flat {
            model,
            leaves: walk.leaves,
            instances: narrowed(walk.instances),
            tables,
        }),
        Err(error) => Err(error),
    }
}

impl Flat {
    /// The model.
    pub fn model(&self) -> &Model
        ensures same { result.now ≡ self.now.model }
        ensures flat { IsFlat self.now }
    {
        &self.model
    }

    /// How many leaves there are.
    pub fn leaves(&self) -> u32
        ensures { result ≡ length (leaves self.now.model) }
    {
        self.leaves.len() as u32
    }

    /// The leaf with this number.
    pub fn leaf(&self, number: u32) -> &Leaf
        requires { number < length (leaves self.now.model) }
        ensures { IsLeafRow self.now.model number result.now }
    {
        &self.leaves.as_slice()[number as usize]
    }

    /// How many instances there are.
    pub fn instances(&self) -> u32
        ensures { result ≡ length (instances self.now.model) }
    {
        self.instances
    }

    /// How many cells there are.
    pub fn cells(&self) -> u32
        ensures { result ≡ length self.now.cells }
    {
        narrowed(self.tables.cells.count)
    }

    /// The row of the node with this number.
    pub fn row(&self, number: u32) -> NodeRow
        requires { number < length (nodes self.now.model) }
        ensures { IsNodeRow self.now.model number result }
    {
        self.tables.rows.as_slice()[number as usize]
    }

    /// The number of the node of a part of a compound node.
    pub(crate) fn below(&self, number: u32, part: u32) -> u32
        requires { HasPart self.now.model number part }
        ensures { IsPartNode self.now.model number part result }
    {
        let row = self.tables.rows.as_slice()[number as usize];
        let steps = self.tables.steps.as_slice()[row.task as usize].as_slice();
        number + steps[part as usize]
    }

    /// The cell at which the array at input `port` of a node begins, where it is stored.
    pub(crate) fn first_of_input(&self, number: u32, port: u32) -> u32
        requires { HasInput self.now.model number port }
        ensures { IsFirstOfInput self.now.model number port result }
    {
        let begins = self.tables.cells.begins.as_slice()[number as usize];
        self.tables.cells.firsts.as_slice()[begins.ins + port as usize]
    }

    /// The cell at which the array at output `port` of a node begins, where it is stored.
    pub(crate) fn first_of_output(&self, number: u32, port: u32) -> u32
        requires { HasOutput self.now.model number port }
        ensures { IsFirstOfOutput self.now.model number port result }
    {
        let begins = self.tables.cells.begins.as_slice()[number as usize];
        self.tables.cells.firsts.as_slice()[begins.outs + port as usize]
    }

    /// Where the leaf with this number stands.
    pub fn leaf_spot(&self, number: u32) -> LeafSpot
        requires { number < length (leaves self.now.model) }
        ensures { IsLeafSpot self.now.model number result }
    {
        self.tables.spots.as_slice()[number as usize]
    }
}

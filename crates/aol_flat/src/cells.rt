//! The cells at which the arrays at the ports of all nodes begin.

ghost use Rattle.std.specs.Prelude.{◌≡◌, ℕ, ◌<◌, ◌+◌, ◌*◌, [], ◌∷◌, ◌++◌, true, false, map, length, if◌then◌else◌, IfOk, OnOk};
ghost use Rattle.aol_model_types.specs.Rules.{inputs_of, outputs_of};
ghost use Rattle.aol_model_types.specs.declared.task.OutPort.{OutPort};
ghost use Rattle.aol_shape.specs.Shape.{size};
ghost use Rattle.aol_flat.specs.Accept.{IsSound};
ghost use Rattle.aol_flat.specs.Leaves.{narrowed};
ghost use Rattle.aol_flat.specs.Limits.{IsBounded};
ghost use Rattle.aol_flat.specs.Node.{nodes};
ghost use Rattle.aol_flat.specs.Placed.{AreRowsAmong};
ghost use Rattle.aol_flat.specs.Cells.{AreCells, IsStand, PushesPorts, PushesNode};
ghost use Rattle.aol_flat.specs.Saturated.{saturated};

use crate::nodes::NodeRow;
use crate::stores::{Stand, stores};
use crate::walk::narrowed;
use aol_expr_tree::Port;
use aol_model_types::{Model, OutPort, Task};
use aol_shape::{Items, NoMemory};
use std::alloc::Global;

/// Where the inputs and the outputs of a node begin in the table of first cells.
#[derive(Clone, Copy)]
pub struct Begins {
    pub ins: usize,
    pub outs: usize,
}

/// The first cell of each port, node by node, the inputs of each before its outputs, and how many cells there are.
#[derive(Drop)]
pub struct Cells {
    pub begins: Items<Begins>,
    pub firsts: Items<u32>,
    pub count: u64,
}

/// The inputs of a task.
fn inputs(task: &Task) -> &[Port]
    ensures { result.now ≡ inputs_of task.now }
{
    match task {
        Task::Elementary(task) => task.ins.as_slice(),
        Task::Compound(task) => task.ins.as_slice(),
        Task::Repeated(task) => task.ins.as_slice(),
    }
}

impl Cells {
    /// No cells.
    fn new(alloc: Global) -> Cells
        ensures begins { result.begins ≡ [] }
        ensures firsts { result.firsts ≡ [] }
        ensures count { result.count ≡ 0 }
    {
        Cells {
            begins: Items::new(alloc),
            firsts: Items::new(alloc),
            count: 0,
        }
    }

    /// Adds a port of a node with so many instances.
    fn push_port(&mut self, port: &Port, stored: bool, instances: u64) -> Result<(), NoMemory>
        ensures begins { self.new.begins ≡ self.old.begins }
        ensures firsts { OnOk result (self.new.firsts ≡ self.old.firsts ++ narrowed self.old.count ∷ []) }
        ensures count { OnOk result (self.new.count ≡ (if stored then saturated (self.old.count + saturated (instances * size port.now.shape)) else self.old.count)) }
    {
        self.firsts.push(narrowed(self.count))?;
        if stored {
            let array = instances.saturating_mul(u64::from(port.shape.size()));
            self.count = self.count.saturating_add(array);
        }
        Ok(())
    }

    /// Adds some inputs or outputs of a node that stands so.
    fn push_ports(
        &mut self,
        stand: Stand,
        input: bool,
        instances: u64,
        ports: &[Port],
    ) -> Result<(), NoMemory>
        ensures { PushesPorts stand.entry.root stand.entry.above.now stand.entry.part input instances ports.now self.old self.new result }
    {
        for port in ports {
            self.push_port(port, stores(stand, input, &port.name), instances)?;
        }
        Ok(())
    }

    /// Adds the outputs of an elementary task at a node that stands so.
    fn push_made(&mut self, stand: Stand, instances: u64, outs: &[OutPort]) -> Result<(), NoMemory>
        ensures { PushesPorts stand.entry.root stand.entry.above.now stand.entry.part false instances (map (λ (o : OutPort). o.port) outs.now) self.old self.new result }
    {
        for out in outs {
            self.push_port(&out.port, stores(stand, false, &out.port.name), instances)?;
        }
        Ok(())
    }

    /// Adds the outputs of a task at a node that stands so.
    fn push_outputs(&mut self, stand: Stand, instances: u64, task: &Task) -> Result<(), NoMemory>
        ensures { PushesPorts stand.entry.root stand.entry.above.now stand.entry.part false instances (outputs_of task.now) self.old self.new result }
    {
        match task {
            Task::Elementary(task) => self.push_made(stand, instances, task.outs.as_slice()),
            Task::Compound(task) => {
                self.push_ports(stand, false, instances, task.outs.as_slice())
            }
            Task::Repeated(task) => {
                self.push_ports(stand, false, instances, task.outs.as_slice())
            }
        }
    }

    /// Adds the ports of a node with this task that stands so.
    fn push_node(&mut self, stand: Stand, instances: u64, task: &Task) -> Result<(), NoMemory>
        ensures { PushesNode stand.entry.root stand.entry.above.now stand.entry.part instances task.now self.old self.new result }
    {
        let ins = self.firsts.len();
        self.push_ports(stand, true, instances, inputs(task))?;
        let outs = self.firsts.len();
        self.push_outputs(stand, instances, task)?;
        self.begins.push(Begins { ins, outs })?;
        Ok(())
    }
}

/// How the node with this number stands in the node above.
fn stand_of<'a>(model: &'a Model, rows: &[NodeRow], number: usize) -> Stand<'a>
    requires sound { IsSound model.now }
    requires limits { IsBounded model.now }
    requires rows { AreRowsAmong model.now (nodes model.now) 0 (nodes model.now) rows.now }
    requires number { number < length (nodes model.now) }
    ensures { IsStand model.entry.now number result.root result.above.now result.part }
{
    let tasks = model.tasks.as_slice();
    let row = &rows[number];
    if number == 0 {
        return Stand {
            root: true,
            above: &tasks[row.task as usize],
            part: 0,
        };
    }
    let above = &rows[row.up as usize];
    Stand {
        root: false,
        above: &tasks[above.task as usize],
        part: row.part,
    }
}

/// The first cells of the ports of all nodes.
pub fn cells_of(alloc: Global, model: &Model, rows: &[NodeRow]) -> Result<Cells, NoMemory>
    requires sound { IsSound model.now }
    requires limits { IsBounded model.now }
    requires rows { AreRowsAmong model.now (nodes model.now) 0 (nodes model.now) rows.now }
    ensures { IfOk result (λ cells. AreCells model.now cells) }
{
    let mut cells = Cells::new(alloc);
    for number in 0..rows.len() {
        let row = &rows[number];
        let task = &model.tasks.as_slice()[row.task as usize];
        cells.push_node(stand_of(model, rows, number), row.instances, task)?;
    }
    Ok(cells)
}

//! The reads and the written cells of the instances of a leaf, one instance after another.

ghost use Rattle.std.specs.Prelude.{◌≡◌, ◌+◌, ◌^◌, ◌<◌, length};
ghost use Rattle.aol_model_types.specs.Rules.{inputs_of, outputs_of};
ghost use Rattle.aol_flat.specs.Accept.{IsFlat};
ghost use Rattle.aol_flat.specs.Cursor.{HasPortAt, ArePortReads, ArePortCells, IsRunPoint, AreReadsAt, AreWritesAt};
ghost use Rattle.aol_flat.specs.Instance.{leaves};
ghost use Rattle.aol_flat.specs.NodeTable.{IsLeafSpot};
ghost use Rattle.aol_flat.specs.Route.{AreRoutes, CanGive, AreTrailReads, AreTrailCells};
ghost use Rattle.aol_flat.specs.LeafCursor.{HasPortsFrom, AreReadsFrom, AreCellsFrom, IsLeafPoint, reads_each, writes_each};

use crate::counts::{elements_read, elements_written};
use crate::feed::{input, output};
use crate::flat::Flat;
use crate::leaf::LeafKind;
use crate::nodes::LeafSpot;
use crate::route::Route;
use crate::view::Read;
use crate::walk::narrowed;
use aol_trail::Trail;

/// The reads along a trail, in order of rank.
fn read_all(trail: &Trail<'_>, into: &mut [Read])
    requires few { length into.old < 2 ^ 32 }
    requires met { CanGive trail.now (length into.old) }
    ensures { AreTrailReads trail.now into.new }
{
    for (x, read) in into.iter_mut().enumerate() {
        *read = Read::Cell(trail.cell(x as u32));
    }
}

/// The cells along a trail.
pub(crate) fn write_all(trail: &Trail<'_>, into: &mut [u32])
    requires few { length into.old < 2 ^ 32 }
    requires met { CanGive trail.now (length into.old) }
    ensures { AreTrailCells trail.now into.new }
{
    for (x, cell) in into.iter_mut().enumerate() {
        *cell = trail.cell(x as u32);
    }
}

impl Flat {
    /// The reads of all elements of an input of one instance of a node, in order of rank.
    fn reads_at_port(&self, node: u32, port: u32, at: &[u32], into: &mut [Read])
        requires { HasPortAt self.now.model inputs_of node port (length into.old) at.now }
        ensures { ArePortReads self.now node port at.now into.new }
    {
        for (x, read) in into.iter_mut().enumerate() {
            *read = self.follow_input(node, port, at, x as u32);
        }
    }

    /// The cells of all elements of an output of one instance of a node, in order of rank.
    fn cells_at_port(&self, node: u32, port: u32, at: &[u32], into: &mut [u32])
        requires { HasPortAt self.now.model outputs_of node port (length into.old) at.now }
        ensures { ArePortCells self.now node port at.now into.new }
    {
        for (x, cell) in into.iter_mut().enumerate() {
            *cell = self.follow_output(node, port, at, x as u32);
        }
    }

    /// The reads of all elements of an input, along its route where one is known.
    fn port_reads(
        &self,
        node: u32,
        port: u32,
        at: &[u32],
        routes: &mut [Route<'_>],
        into: &mut [Read],
    )
        requires flat { IsFlat self.now }
        requires port { HasPortAt self.now.model inputs_of node port (length into.old) at.now }
        requires routes { AreRoutes self.now inputs_of node routes.old }
        ensures reads { ArePortReads self.now node port at.now into.new }
        ensures routes { AreRoutes self.now inputs_of node routes.new }
    {
        let k = port as usize;
        if k >= routes.len() || !routes[k].known || into.is_empty() {
            self.reads_at_port(node, port, at, into);
            return;
        }
        routes[k].trail.go_to(at);
        read_all(&routes[k].trail, into);
    }

    /// The reads of all elements of the inputs of one instance of a node, from the input with this number on.
    fn reads_from(
        &self,
        node: u32,
        port: u32,
        at: &[u32],
        routes: &mut [Route<'_>],
        into: &mut [Read],
    )
        requires flat { IsFlat self.now }
        requires ports { HasPortsFrom self.now.model inputs_of node port (length into.old) at.now }
        requires routes { AreRoutes self.now inputs_of node routes.old }
        ensures reads { AreReadsFrom self.now node port at.now into.new }
        ensures routes { AreRoutes self.now inputs_of node routes.new }
    {
        if into.is_empty() {
            return;
        }
        let many = input(self.task(node), port).shape.size() as usize;
        let (own, later) = into.split_at_mut(many);
        self.port_reads(node, port, at, routes, own);
        self.reads_from(node, port + 1, at, routes, later);
    }

    /// The cells of all elements of an output, along its route where one is known.
    fn port_cells(
        &self,
        node: u32,
        port: u32,
        at: &[u32],
        routes: &mut [Route<'_>],
        into: &mut [u32],
    )
        requires flat { IsFlat self.now }
        requires port { HasPortAt self.now.model outputs_of node port (length into.old) at.now }
        requires routes { AreRoutes self.now outputs_of node routes.old }
        ensures cells { ArePortCells self.now node port at.now into.new }
        ensures routes { AreRoutes self.now outputs_of node routes.new }
    {
        let k = port as usize;
        if k >= routes.len() || !routes[k].known || into.is_empty() {
            self.cells_at_port(node, port, at, into);
            return;
        }
        routes[k].trail.go_to(at);
        write_all(&routes[k].trail, into);
    }

    /// The cells of all elements of the outputs of one instance of a node, from the output with this number on.
    fn cells_from(
        &self,
        node: u32,
        port: u32,
        at: &[u32],
        routes: &mut [Route<'_>],
        into: &mut [u32],
    )
        requires flat { IsFlat self.now }
        requires ports { HasPortsFrom self.now.model outputs_of node port (length into.old) at.now }
        requires routes { AreRoutes self.now outputs_of node routes.old }
        ensures cells { AreCellsFrom self.now node port at.now into.new }
        ensures routes { AreRoutes self.now outputs_of node routes.new }
    {
        if into.is_empty() {
            return;
        }
        let many = output(self.task(node), port).shape.size() as usize;
        let (own, later) = into.split_at_mut(many);
        self.port_cells(node, port, at, routes, own);
        self.cells_from(node, port + 1, at, routes, later);
    }

    /// The reads of the instance of an elementary leaf at a point of its space, by port and rank.
    fn run_reads(
        &self,
        leaf: u32,
        spot: LeafSpot,
        at: &[u32],
        routes: &mut [Route<'_>],
        into: &mut [Read],
    )
        requires point { IsRunPoint self.now.model leaf at.now }
        requires spot { IsLeafSpot self.now.model leaf spot }
        requires routes { AreRoutes self.now inputs_of spot.node routes.old }
        requires many { length into.old ≡ reads_each self.now.model leaf }
        ensures reads { AreReadsAt self.now leaf at.now into.new }
        ensures routes { AreRoutes self.now inputs_of spot.node routes.new }
    {
        let _model = self.model();
        self.reads_from(spot.node, 0, at, routes, into);
    }

    /// The cells that it writes, by port and rank.
    fn run_writes(
        &self,
        leaf: u32,
        spot: LeafSpot,
        at: &[u32],
        routes: &mut [Route<'_>],
        into: &mut [u32],
    )
        requires point { IsRunPoint self.now.model leaf at.now }
        requires spot { IsLeafSpot self.now.model leaf spot }
        requires routes { AreRoutes self.now outputs_of spot.node routes.old }
        requires many { length into.old ≡ writes_each self.now.model leaf }
        ensures cells { AreWritesAt self.now leaf at.now into.new }
        ensures routes { AreRoutes self.now outputs_of spot.node routes.new }
    {
        let _model = self.model();
        self.cells_from(spot.node, 0, at, routes, into);
    }

    /// The reads of the instance of a leaf at a point of its space.
    pub(crate) fn reads_on(
        &self,
        leaf: u32,
        spot: LeafSpot,
        at: &[u32],
        routes: &mut [Route<'_>],
        into: &mut [Read],
    )
        requires point { IsLeafPoint self.now.model leaf at.now }
        requires spot { IsLeafSpot self.now.model leaf spot }
        requires routes { AreRoutes self.now inputs_of spot.node routes.old }
        requires many { length into.old ≡ reads_each self.now.model leaf }
        ensures reads { AreReadsAt self.now leaf at.now into.new }
        ensures routes { AreRoutes self.now inputs_of spot.node routes.new }
    {
        match self.leaf(leaf).kind {
            LeafKind::Elementary(_) => self.run_reads(leaf, spot, at, routes, into),
            LeafKind::Copy => into[0] = self.copy_read(leaf, at),
        }
    }

    /// The cells that it writes.
    pub(crate) fn writes_on(
        &self,
        leaf: u32,
        spot: LeafSpot,
        at: &[u32],
        routes: &mut [Route<'_>],
        into: &mut [u32],
    )
        requires point { IsLeafPoint self.now.model leaf at.now }
        requires spot { IsLeafSpot self.now.model leaf spot }
        requires routes { AreRoutes self.now outputs_of spot.node routes.old }
        requires many { length into.old ≡ writes_each self.now.model leaf }
        ensures cells { AreWritesAt self.now leaf at.now into.new }
        ensures routes { AreRoutes self.now outputs_of spot.node routes.new }
    {
        match self.leaf(leaf).kind {
            LeafKind::Elementary(_) => self.run_writes(leaf, spot, at, routes, into),
            LeafKind::Copy => into[0] = self.copy_write(leaf, at),
        }
    }

    /// How many elements an instance of a leaf reads.
    pub(crate) fn reads_of(&self, leaf: u32) -> u32
        requires { leaf < length (leaves self.now.model) }
        ensures { result ≡ reads_each self.now.model leaf }
    {
        let _model = self.model();
        match self.leaf(leaf).kind {
            LeafKind::Elementary(_) => {
                narrowed(elements_read(self.task(self.leaf_spot(leaf).node)))
            }
            LeafKind::Copy => 1,
        }
    }

    /// How many it writes.
    pub(crate) fn writes_of(&self, leaf: u32) -> u32
        requires { leaf < length (leaves self.now.model) }
        ensures { result ≡ writes_each self.now.model leaf }
    {
        let _model = self.model();
        match self.leaf(leaf).kind {
            LeafKind::Elementary(_) => {
                narrowed(elements_written(self.task(self.leaf_spot(leaf).node)))
            }
            LeafKind::Copy => 1,
        }
    }
}

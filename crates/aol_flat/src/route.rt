//! The trails from the ports of a leaf to the homes of their elements.
//!
//! There is one where tilers and plain links alone stand between. Other elements are followed one by one.

ghost use Rattle.std.specs.Prelude.{◌≡◌, ◌+◌, ◌^◌, ◌++◌, ◌∷◌, ◌<◌, ℕ, List, [], drop, length, false, IfOk, IfSome, OnOk, MatchOption};
ghost use Rattle.std.specs.Bool.{OnTrue};
ghost use Rattle.std.specs.List.{AllZip};
ghost use Rattle.aol_model_types.specs.Rules.{inputs_of, outputs_of};
ghost use Rattle.aol_flat.specs.Feed.{IsHand, IsFeed, HasTask};
ghost use Rattle.aol_flat.specs.Follow.{IsIndexed, IsRepetition};
ghost use Rattle.aol_flat.specs.LeafCursor.{IsLeafPoint};
ghost use Rattle.aol_flat.specs.NodeTable.{IsLeafSpot};
ghost use Rattle.aol_flat.specs.Run.{AreWhole, FitsPort};
ghost use Rattle.aol_flat.specs.Route.{HasSome, IsSpaceOf, LeadsHome, PushesStep, WayOn, AreRoutes, AreRoutesBefore, trail_to};

use crate::feed::{Feed, Hand, input, output};
use crate::flat::Flat;
use crate::follow::Repetition;
use crate::leaf::LeafKind;
use crate::nodes::LeafSpot;
use aol_model_types::{Repeated, Task};
use aol_shape::NoMemory;
use aol_trail::{Home, Level, Trail};
use std::alloc::Global;

/// The most elements of a pattern that a trail keeps offsets for.
const MAX_PATTERN: u32 = 65536;

/// A leaf with fewer instances is followed one by one, as routes would take longer to make.
const FEW_INSTANCES: u32 = 64;

/// A trail from a port, where one is known.
#[derive(Drop)]
pub struct Route<'a> {
    pub known: bool,
    pub trail: Trail<'a>,
    /// The cells of the elements at the first instance of a run; none where they are too many.
    pub cells: Vec<u32>,
    /// What is added to each cell with each instance of the run.
    pub stride: u32,
}

/// Puts a level after the others.
fn push<'a>(levels: &mut Vec<Level<'a>>, level: Level<'a>) -> Result<(), NoMemory>
    ensures { OnOk result (levels.new.items ≡ levels.old.items ++ level.entry ∷ []) }
{
    match levels.push(level) {
        Ok(()) => Ok(()),
        Err(_) => Err(NoMemory),
    }
}

impl Flat {
    /// The repeated task of a node.
    fn repeated_at<'a>(&'a self, number: u32, same: &Repeated) -> &'a Repeated
        requires { HasTask self.now.model number (Task.Repeated same.now) }
        ensures { result.now ≡ same.now }
    {
        match self.task(number) {
            Task::Repeated(task) => task,
            _ => unreachable!(),
        }
    }

    /// Puts the tiler that hands an output of a body up after the other levels.
    fn push_handed<'a>(
        &'a self,
        alloc: Global,
        body: Repetition<'_>,
        port: u32,
        tiler: u32,
        outer: u32,
        levels: &mut Vec<Level<'a>>,
    ) -> Result<(), NoMemory>
        requires place { IsRepetition self.now.model body.number body.up body.task.now body.around.now body.r.now }
        requires there { HasSome self.now.model outputs_of body.number port (body.around.now ++ body.r.now) }
        requires tiled { IsHand self.now.model body.number port (Hand.Tiled tiler outer) }
        ensures { OnOk result (PushesStep self.entry.now.model outputs_of body.entry.number port body.entry.up outer levels.old.items levels.new.items) }
    {
        let task = self.repeated_at(body.up, body.task);
        let shape = &output(self.task(body.number), port).shape;
        let array = &task.outs.as_slice()[outer as usize].shape;
        let tiler = &task.tilers.as_slice()[tiler as usize].tiler;
        let from = body.around.len();
        let level = Level::new(alloc, tiler, array, &task.space, shape, from, body.r)?;
        push(levels, level)
    }

    /// Puts the tiler that feeds an input of a body after the other levels.
    fn push_fed<'a>(
        &'a self,
        alloc: Global,
        body: Repetition<'_>,
        port: u32,
        tiler: u32,
        outer: u32,
        levels: &mut Vec<Level<'a>>,
    ) -> Result<(), NoMemory>
        requires place { IsRepetition self.now.model body.number body.up body.task.now body.around.now body.r.now }
        requires there { HasSome self.now.model inputs_of body.number port (body.around.now ++ body.r.now) }
        requires tiled { IsFeed self.now.model body.number port (Feed.Tiled tiler outer) }
        ensures { OnOk result (PushesStep self.entry.now.model inputs_of body.entry.number port body.entry.up outer levels.old.items levels.new.items) }
    {
        let task = self.repeated_at(body.up, body.task);
        let shape = &input(self.task(body.number), port).shape;
        let array = &task.ins.as_slice()[outer as usize].shape;
        let tiler = &task.tilers.as_slice()[tiler as usize].tiler;
        let from = body.around.len();
        let level = Level::new(alloc, tiler, array, &task.space, shape, from, body.r)?;
        push(levels, level)
    }

    /// The home of the elements of an output that is stored.
    fn output_home<'a>(&'a self, number: u32, port: u32, space: &'a [u32]) -> Home<'a>
        requires there { (at : List ℕ) × HasSome self.now.model outputs_of number port at }
        requires stored { IsHand self.now.model number port Hand.Stored }
        requires space { IsSpaceOf self.now.model number space.now }
        ensures { LeadsHome self.now outputs_of number port (trail_to [] result.around.now result.first result.many) }
    {
        let shape = &output(self.task(number), port).shape;
        Home {
            around: space,
            first: self.first_of_output(number, port),
            many: shape.size(),
        }
    }

    /// The home of the elements of an input that is stored.
    fn input_home<'a>(&'a self, number: u32, port: u32, space: &'a [u32]) -> Home<'a>
        requires there { (at : List ℕ) × HasSome self.now.model inputs_of number port at }
        requires stored { IsFeed self.now.model number port Feed.Stored }
        requires space { IsSpaceOf self.now.model number space.now }
        ensures { LeadsHome self.now inputs_of number port (trail_to [] result.around.now result.first result.many) }
    {
        let shape = &input(self.task(number), port).shape;
        Home {
            around: space,
            first: self.first_of_input(number, port),
            many: shape.size(),
        }
    }

    /// The way of the elements of an output; none where too large a pattern stands on it.
    fn way_of_output<'a>(
        &'a self,
        alloc: Global,
        number: u32,
        port: u32,
        at: &[u32],
        space: &'a [u32],
        levels: &mut Vec<Level<'a>>,
    ) -> Result<Option<Home<'a>>, NoMemory>
        requires there { HasSome self.now.model outputs_of number port at.now }
        requires space { IsSpaceOf self.now.model number space.now }
        ensures { IfOk result (λ o. IfSome o (λ home. WayOn self.entry.now outputs_of number port levels.old.items levels.new.items home.around.now home.first home.many)) }
    {
        match self.hand(number, port) {
            Hand::Stored => Ok(Some(self.output_home(number, port, space))),
            Hand::Own(own) => {
                self.way_of_output(alloc, self.row(number).up, own, at, space, levels)
            }
            Hand::Tiled { tiler, port: outer } => {
                if output(self.task(number), port).shape.size() > MAX_PATTERN {
                    return Ok(None);
                }
                let body = self.repetition(number, at);
                self.push_handed(alloc, body, port, tiler, outer, levels)?;
                let around = &space[..body.around.len()];
                self.way_of_output(alloc, body.up, outer, body.around, around, levels)
            }
        }
    }

    /// The way of the elements of an input; none where a link between repetitions or too large a pattern stands on it.
    fn way_of_input<'a>(
        &'a self,
        alloc: Global,
        number: u32,
        port: u32,
        at: &[u32],
        space: &'a [u32],
        levels: &mut Vec<Level<'a>>,
    ) -> Result<Option<Home<'a>>, NoMemory>
        requires there { HasSome self.now.model inputs_of number port at.now }
        requires space { IsSpaceOf self.now.model number space.now }
        ensures { IfOk result (λ o. IfSome o (λ home. WayOn self.entry.now inputs_of number port levels.old.items levels.new.items home.around.now home.first home.many)) }
    {
        match self.feed(number, port) {
            Feed::Stored => Ok(Some(self.input_home(number, port, space))),
            Feed::Own(own) => {
                self.way_of_input(alloc, self.row(number).up, own, at, space, levels)
            }
            Feed::Part { node, port: from } => {
                let _row = self.row(number);
                self.way_of_output(alloc, node, from, at, space, levels)
            }
            Feed::Tiled { tiler, port: outer } => {
                if input(self.task(number), port).shape.size() > MAX_PATTERN {
                    return Ok(None);
                }
                let body = self.repetition(number, at);
                self.push_fed(alloc, body, port, tiler, outer, levels)?;
                let around = &space[..body.around.len()];
                self.way_of_input(alloc, body.up, outer, body.around, around, levels)
            }
            Feed::Linked { .. } => Ok(None),
        }
    }
}

/// The route along a way, where there is one.
fn route_of<'a>(levels: Vec<Level<'a>>, found: Option<Home<'a>>, cells: Vec<u32>) -> Route<'a>
    ensures { MatchOption found.entry (result.known ≡ false) (λ home. result.trail ≡ trail_to levels.entry.items home.around.now home.first home.many) }
{
    match found {
        Some(home) => Route {
            known: true,
            trail: Trail::new(levels, home),
            cells,
            stride: 0,
        },
        None => Route {
            known: false,
            trail: Trail::new(
                levels,
                Home {
                    around: &[],
                    first: 0,
                    many: 0,
                },
            ),
            cells,
            stride: 0,
        },
    }
}

/// For how many elements of a pattern cells are kept: all, or none where they are too many.
fn kept(many: u32) -> u32 {
    if many > MAX_PATTERN { 0 } else { many }
}

/// Puts a route after the others.
fn push_route<'a>(routes: &mut Vec<Route<'a>>, route: Route<'a>) -> Result<(), NoMemory>
    ensures { OnOk result (routes.new.items ≡ routes.old.items ++ route.entry ∷ []) }
{
    match routes.push(route) {
        Ok(()) => Ok(()),
        Err(_) => Err(NoMemory),
    }
}

/// How many inputs a task has.
fn input_count(task: &Task) -> u32
    requires { length (inputs_of task.now) < 2 ^ 32 }
    ensures { result ≡ length (inputs_of task.now) }
{
    match task {
        Task::Elementary(task) => task.ins.len() as u32,
        Task::Compound(task) => task.ins.len() as u32,
        Task::Repeated(task) => task.ins.len() as u32,
    }
}

/// How many outputs.
fn output_count(task: &Task) -> u32
    requires { length (outputs_of task.now) < 2 ^ 32 }
    ensures { result ≡ length (outputs_of task.now) }
{
    match task {
        Task::Elementary(task) => task.outs.len() as u32,
        Task::Compound(task) => task.outs.len() as u32,
        Task::Repeated(task) => task.outs.len() as u32,
    }
}

/// Whether each input of a task, from one on, has a route that keeps its cells.
fn inputs_fit(task: &Task, k: u32, routes: &[Route]) -> bool
    requires { length (inputs_of task.now) < 2 ^ 32 }
    ensures { OnTrue result (AllZip FitsPort (drop k (inputs_of task.now)) routes.now) }
{
    let count = input_count(task);
    match routes.split_first() {
        None => k >= count,
        Some((route, later)) => {
            k < count
                && route.known
                && route.cells.len() == input(task, k).shape.size() as usize
                && inputs_fit(task, k + 1, later)
        }
    }
}

/// Whether each output of a task, from one on, has a route that keeps its cells.
fn outputs_fit(task: &Task, k: u32, routes: &[Route]) -> bool
    requires { length (outputs_of task.now) < 2 ^ 32 }
    ensures { OnTrue result (AllZip FitsPort (drop k (outputs_of task.now)) routes.now) }
{
    let count = output_count(task);
    match routes.split_first() {
        None => k >= count,
        Some((route, later)) => {
            k < count
                && route.known
                && route.cells.len() == output(task, k).shape.size() as usize
                && outputs_fit(task, k + 1, later)
        }
    }
}

impl Flat {
    /// Whether the leaf computes and each of its inputs has a route that keeps its cells.
    pub(crate) fn reads_are_whole(&self, leaf: u32, spot: LeafSpot, routes: &[Route]) -> bool
        requires { IsLeafSpot self.now.model leaf spot }
        ensures { OnTrue result (AreWhole self.now inputs_of leaf spot.node routes.now) }
    {
        match self.leaf(leaf).kind {
            LeafKind::Copy => false,
            LeafKind::Elementary(_) => inputs_fit(self.task(spot.node), 0, routes),
        }
    }

    /// Whether the leaf computes and each of its outputs has a route that keeps its cells.
    pub(crate) fn writes_are_whole(&self, leaf: u32, spot: LeafSpot, routes: &[Route]) -> bool
        requires { IsLeafSpot self.now.model leaf spot }
        ensures { OnTrue result (AreWhole self.now outputs_of leaf spot.node routes.now) }
    {
        match self.leaf(leaf).kind {
            LeafKind::Copy => false,
            LeafKind::Elementary(_) => outputs_fit(self.task(spot.node), 0, routes),
        }
    }

    /// Puts the route from an input after those of the inputs before it.
    fn push_input_route<'a>(
        &'a self,
        alloc: Global,
        node: u32,
        port: u32,
        at: &[u32],
        space: &'a [u32],
        routes: &mut Vec<Route<'a>>,
    ) -> Result<(), NoMemory>
        requires there { HasSome self.now.model inputs_of node port at.now }
        requires space { IsSpaceOf self.now.model node space.now }
        requires routes { AreRoutesBefore self.now inputs_of node port routes.old.items }
        ensures { OnOk result (AreRoutesBefore self.entry.now inputs_of node (port + 1) routes.new.items) }
    {
        let mut levels = Vec::new(alloc);
        let found = self.way_of_input(alloc, node, port, at, space, &mut levels)?;
        let many = input(self.task(node), port).shape.size();
        let cells = vec![in alloc; 0u32; kept(many) as usize]?;
        push_route(routes, route_of(levels, found, cells))
    }

    /// The routes from all inputs of a node.
    fn routes_of_inputs<'a>(
        &'a self,
        alloc: Global,
        node: u32,
        at: &[u32],
        space: &'a [u32],
    ) -> Result<Vec<Route<'a>>, NoMemory>
        requires there { IsIndexed self.now.model node at.now }
        requires space { IsSpaceOf self.now.model node space.now }
        ensures { IfOk result (λ v. AreRoutes self.entry.now inputs_of node v.items) }
    {
        let mut routes = Vec::new(alloc);
        for port in 0..input_count(self.task(node)) {
            self.push_input_route(alloc, node, port, at, space, &mut routes)?;
        }
        Ok(routes)
    }

    /// The routes from the inputs of a leaf that computes; none for one that copies or has few instances.
    pub(crate) fn input_routes<'a>(
        &'a self,
        alloc: Global,
        leaf: u32,
        spot: LeafSpot,
        at: &[u32],
    ) -> Result<Vec<Route<'a>>, NoMemory>
        requires spot { IsLeafSpot self.now.model leaf spot }
        requires point { IsLeafPoint self.now.model leaf at.now }
        ensures { IfOk result (λ v. AreRoutes self.entry.now inputs_of spot.node v.items) }
    {
        let _model = self.model();
        let row = self.leaf(leaf);
        if row.count < FEW_INSTANCES {
            return Ok(Vec::new(alloc));
        }
        match row.kind {
            LeafKind::Copy => Ok(Vec::new(alloc)),
            LeafKind::Elementary(_) => {
                self.routes_of_inputs(alloc, spot.node, at, row.space.as_slice())
            }
        }
    }

    /// Puts the route from an output after those of the outputs before it.
    fn push_output_route<'a>(
        &'a self,
        alloc: Global,
        node: u32,
        port: u32,
        at: &[u32],
        space: &'a [u32],
        routes: &mut Vec<Route<'a>>,
    ) -> Result<(), NoMemory>
        requires there { HasSome self.now.model outputs_of node port at.now }
        requires space { IsSpaceOf self.now.model node space.now }
        requires routes { AreRoutesBefore self.now outputs_of node port routes.old.items }
        ensures { OnOk result (AreRoutesBefore self.entry.now outputs_of node (port + 1) routes.new.items) }
    {
        let mut levels = Vec::new(alloc);
        let found = self.way_of_output(alloc, node, port, at, space, &mut levels)?;
        let many = output(self.task(node), port).shape.size();
        let cells = vec![in alloc; 0u32; kept(many) as usize]?;
        push_route(routes, route_of(levels, found, cells))
    }

    /// The routes from all outputs of a node.
    fn routes_of_outputs<'a>(
        &'a self,
        alloc: Global,
        node: u32,
        at: &[u32],
        space: &'a [u32],
    ) -> Result<Vec<Route<'a>>, NoMemory>
        requires there { IsIndexed self.now.model node at.now }
        requires space { IsSpaceOf self.now.model node space.now }
        ensures { IfOk result (λ v. AreRoutes self.entry.now outputs_of node v.items) }
    {
        let mut routes = Vec::new(alloc);
        for port in 0..output_count(self.task(node)) {
            self.push_output_route(alloc, node, port, at, space, &mut routes)?;
        }
        Ok(routes)
    }

    /// The routes from the outputs of a leaf that computes; none for one that copies or has few instances.
    pub(crate) fn output_routes<'a>(
        &'a self,
        alloc: Global,
        leaf: u32,
        spot: LeafSpot,
        at: &[u32],
    ) -> Result<Vec<Route<'a>>, NoMemory>
        requires spot { IsLeafSpot self.now.model leaf spot }
        requires point { IsLeafPoint self.now.model leaf at.now }
        ensures { IfOk result (λ v. AreRoutes self.entry.now outputs_of spot.node v.items) }
    {
        let _model = self.model();
        let row = self.leaf(leaf);
        if row.count < FEW_INSTANCES {
            return Ok(Vec::new(alloc));
        }
        match row.kind {
            LeafKind::Copy => Ok(Vec::new(alloc)),
            LeafKind::Elementary(_) => {
                self.routes_of_outputs(alloc, spot.node, at, row.space.as_slice())
            }
        }
    }
}

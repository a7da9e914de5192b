//! What feeds the inputs of a node, and what hands its outputs up.

ghost use Rattle.std.specs.Prelude.{◌≡◌, ◌&&◌, ◌^◌, ◌<◌, map, length, slice_index_or, is_some, is_none, true};
ghost use Rattle.std.specs.List.{find, position};
ghost use Rattle.std.specs.Option.{option_copied};
ghost use Rattle.aol_shape.specs.Lists.{same};
ghost use Rattle.aol_model_types.specs.Rules.{inputs_of, outputs_of, port_shape};
ghost use Rattle.aol_flat.specs.Feed.{IsNumberOf, IsFeed, IsHand, HasTask, PartHands, HandsToOutputs, BodyHands, TilesOutputs, PartFeeds, BodyFeeds, TilesInputs, LinksOutputs};
ghost use Rattle.aol_flat.specs.Accept.{IsFlat};
ghost use Rattle.aol_flat.specs.Home.{is_part_end, link_into_part, link_up, tiler_at, link_into_repetition};
ghost use Rattle.aol_flat.specs.Node.{Node, nodes};
ghost use Rattle.aol_flat.specs.NodeTable.{IsNode, HasInput, HasOutput};
ghost use Rattle.aol_model_types.specs.Types.{IsRepeated};
ghost use Rattle.aol_flat.specs.Tasks.{part_number};

use crate::flat::Flat;
use aol_expr_tree::Port;
use aol_link::Interlink;
use aol_model_types::{Compound, Hook, OutPort, Part, Plain, Repeated, Task, TilerOn};
use aol_shape::{Name, are_same};

/// What feeds an input of a node.
#[derive(Clone, Copy)]
pub(crate) enum Feed {
    /// It is stored by itself.
    Stored,
    /// An input of the compound task above, by a plain link.
    Own(u32),
    /// An output of another part of the compound task above, whose node has this number, by a plain link.
    Part { node: u32, port: u32 },
    /// An input of the repeated task above, by the tiler with this number.
    Tiled { tiler: u32, port: u32 },
    /// An output of another repetition of this node, by the link with this number.
    Linked { link: u32, port: u32 },
}

/// What hands an output of a node up.
#[derive(Clone, Copy)]
pub(crate) enum Hand {
    /// Nothing: it is stored by itself.
    Stored,
    /// A plain link, to an output of the compound task above.
    Own(u32),
    /// The tiler with this number, to an output of the repeated task above.
    Tiled { tiler: u32, port: u32 },
}

/// The input of a task with this number.
pub(crate) fn input(task: &Task, k: u32) -> &Port
    requires { k < length (inputs_of task.now) }
    ensures { result.now ≡ slice_index_or (inputs_of task.now) k result.now }
{
    match task {
        Task::Elementary(task) => &task.ins.as_slice()[k as usize],
        Task::Compound(task) => &task.ins.as_slice()[k as usize],
        Task::Repeated(task) => &task.ins.as_slice()[k as usize],
    }
}

/// The output of a task with this number.
pub(crate) fn output(task: &Task, k: u32) -> &Port
    requires { k < length (outputs_of task.now) }
    ensures { result.now ≡ slice_index_or (outputs_of task.now) k result.now }
{
    match task {
        Task::Elementary(task) => &task.outs.as_slice()[k as usize].port,
        Task::Compound(task) => &task.outs.as_slice()[k as usize],
        Task::Repeated(task) => &task.outs.as_slice()[k as usize],
    }
}

/// The number of the port with this name.
fn place_of(ports: &[Port], name: &Name) -> Option<usize>
    ensures { result ≡ position (λ p. same p.name name.now) ports.now }
{
    ports.iter().position(|port| are_same(&port.name, name))
}

/// The number of the output with this name.
fn place_of_out(outs: &[OutPort], name: &Name) -> Option<usize>
    ensures { result ≡ position (λ o. same o.port.name name.now) outs.now }
{
    outs.iter().position(|out| are_same(&out.port.name, name))
}

/// The number of the first part with this name.
fn place_of_part(parts: &[Part], name: &Name) -> Option<usize>
    ensures { result ≡ position (λ p. same p.name name.now) parts.now }
{
    parts.iter().position(|part| are_same(&part.name, name))
}

/// The number of the port with this name, which is there.
pub(crate) fn port_number(ports: &[Port], name: &Name) -> u32
    requires there { is_some (port_shape ports.now name.now) ≡ true }
    requires few { length ports.now < 2 ^ 32 }
    ensures { IsNumberOf ports.now name.now result }
{
    match place_of(ports, name) {
        Some(number) => number as u32,
        None => unreachable!(),
    }
}

/// The number of the input of a task with this name, which is there.
pub(crate) fn input_number(task: &Task, name: &Name) -> u32
    requires there { is_some (port_shape (inputs_of task.now) name.now) ≡ true }
    requires few { length (inputs_of task.now) < 2 ^ 32 }
    ensures { IsNumberOf (inputs_of task.now) name.now result }
{
    match task {
        Task::Elementary(task) => port_number(task.ins.as_slice(), name),
        Task::Compound(task) => port_number(task.ins.as_slice(), name),
        Task::Repeated(task) => port_number(task.ins.as_slice(), name),
    }
}

/// The number of the output of a task with this name, which is there.
pub(crate) fn output_number(task: &Task, name: &Name) -> u32
    requires there { is_some (port_shape (outputs_of task.now) name.now) ≡ true }
    requires few { length (outputs_of task.now) < 2 ^ 32 }
    ensures { IsNumberOf (outputs_of task.now) name.now result }
{
    match task {
        Task::Elementary(task) => match place_of_out(task.outs.as_slice(), name) {
            Some(number) => number as u32,
            None => unreachable!(),
        },
        Task::Compound(task) => port_number(task.outs.as_slice(), name),
        Task::Repeated(task) => port_number(task.outs.as_slice(), name),
    }
}

/// Whether an end of a link is this port of part `k`.
fn is_part_end(task: &Compound, k: usize, port: &Name, end: &Hook) -> bool
    ensures { result ≡ is_part_end task.now k port.now end.now }
{
    match &end.part {
        None => false,
        Some(name) => part_number(task, name) == k && are_same(&end.port, port),
    }
}

/// The number of the first part with this name; that of parts where none has it.
pub(crate) fn part_number(task: &Compound, name: &Name) -> usize
    ensures { result ≡ part_number task.now name.now }
{
    let parts = task.parts.as_slice();
    match place_of_part(parts, name) {
        Some(number) => number,
        None => parts.len(),
    }
}

/// The plain link into an input of part `k`.
fn link_into_part<'a>(task: &'a Compound, k: usize, port: &Name) -> Option<&'a Plain>
    ensures { option_copied result ≡ link_into_part task.now k port.now }
{
    task.links
        .as_slice()
        .iter()
        .find(|link| is_part_end(task, k, port, &link.to))
}

/// Whether a link hands an output of part `k` up.
fn hands_up(task: &Compound, k: usize, port: &Name, link: &Plain) -> bool
    ensures { result ≡ (is_part_end task.now k port.now link.now.from && is_none link.now.to.part) }
{
    is_part_end(task, k, port, &link.from) && link.to.part.is_none()
}

/// The plain link that hands an output of part `k` up.
fn link_up<'a>(task: &'a Compound, k: usize, port: &Name) -> Option<&'a Plain>
    ensures { option_copied result ≡ link_up task.now k port.now }
{
    task.links
        .as_slice()
        .iter()
        .find(|link| hands_up(task, k, port, link))
}

/// The number of the tiler at an inner port.
fn tiler_place(tilers: &[TilerOn], inner: &Name) -> Option<usize>
    ensures { result ≡ position (λ o. same o.inner inner.now) tilers.now }
{
    tilers
        .iter()
        .position(|tiler| are_same(&tiler.inner, inner))
}

/// The number of the link between repetitions into an inner input.
fn link_place(links: &[Interlink], inner: &Name) -> Option<usize>
    ensures { result ≡ position (λ l. same l.to inner.now) links.now }
{
    links.iter().position(|link| are_same(&link.to, inner))
}

/// What hands an output of part `k` of a compound task up.
fn part_hand(up: &Compound, k: usize, name: &Name) -> Hand
    requires there { HandsToOutputs up.now }
    requires few { length up.now.outs < 2 ^ 32 }
    ensures { PartHands up.now k name.now result }
{
    match link_up(up, k, name) {
        None => Hand::Stored,
        Some(link) => Hand::Own(port_number(up.outs.as_slice(), &link.to.port)),
    }
}

/// What hands an output of the body of a repeated task up.
fn body_hand(up: &Repeated, name: &Name) -> Hand
    requires there { TilesOutputs up.now name.now }
    requires tilers { length up.now.tilers < 2 ^ 32 }
    requires few { length up.now.outs < 2 ^ 32 }
    ensures { BodyHands up.now name.now result }
{
    let tilers = up.tilers.as_slice();
    match tiler_place(tilers, name) {
        None => Hand::Stored,
        Some(tiler) => Hand::Tiled {
            tiler: tiler as u32,
            port: port_number(up.outs.as_slice(), &tilers[tiler].outer),
        },
    }
}

/// What feeds an input of the body of a repeated task.
fn body_feed(up: &Repeated, inner: &Task, name: &Name) -> Feed
    requires tiled { TilesInputs up.now name.now }
    requires linked { LinksOutputs up.now inner.now name.now }
    requires up_limits { IsRepeated up.now }
    requires few { length (outputs_of inner.now) < 2 ^ 32 }
    ensures { BodyFeeds up.now inner.now name.now result }
{
    let tilers = up.tilers.as_slice();
    if let Some(tiler) = tiler_place(tilers, name) {
        return Feed::Tiled {
            tiler: tiler as u32,
            port: port_number(up.ins.as_slice(), &tilers[tiler].outer),
        };
    }
    let links = up.links.as_slice();
    let Some(link) = link_place(links, name) else {
        unreachable!()
    };
    Feed::Linked {
        link: link as u32,
        port: output_number(inner, &links[link].from),
    }
}

impl Flat {
    /// The task of the node with this number.
    pub(crate) fn task(&self, number: u32) -> &Task
        requires { number < length (nodes self.now.model) }
        ensures task { HasTask self.now.model number result.now }
        ensures flat { IsFlat self.now }
    {
        &self.model().tasks.as_slice()[self.row(number).task as usize]
    }

    /// What hands an output of a node up.
    pub(crate) fn hand(&self, number: u32, port: u32) -> Hand
        requires { HasOutput self.now.model number port }
        ensures hand { IsHand self.now.model number port result }
        ensures flat { IsFlat self.now }
    {
        let name = &output(self.task(number), port).name;
        if number == 0 {
            return Hand::Stored;
        }
        let row = self.row(number);
        match self.task(row.up) {
            Task::Compound(up) => part_hand(up, row.part as usize, name),
            Task::Repeated(up) => body_hand(up, name),
            Task::Elementary(_) => unreachable!(),
        }
    }

    /// What feeds an input of part `k` of the compound task of the node `above`.
    fn part_feed(&self, above: u32, up: &Compound, k: usize, name: &Name) -> Feed
        requires there { HasTask self.now.model above (Task.Compound up.now) }
        requires flat { IsFlat self.now }
        ensures { (node : Node) → IsNode self.now.model above node (Task.Compound up.now) → PartFeeds self.now.model node up.now k name.now result }
    {
        let Some(link) = link_into_part(up, k, name) else {
            return Feed::Stored;
        };
        let port = &link.from.port;
        let Some(giver) = &link.from.part else {
            return Feed::Own(port_number(up.ins.as_slice(), port));
        };
        let node = self.below(above, part_number(up, giver) as u32);
        Feed::Part {
            node,
            port: output_number(self.task(node), port),
        }
    }

    /// What feeds an input of a node.
    pub(crate) fn feed(&self, number: u32, port: u32) -> Feed
        requires { HasInput self.now.model number port }
        ensures feed { IsFeed self.now.model number port result }
        ensures flat { IsFlat self.now }
    {
        let task = self.task(number);
        let name = &input(task, port).name;
        if number == 0 {
            return Feed::Stored;
        }
        let row = self.row(number);
        match self.task(row.up) {
            Task::Compound(up) => self.part_feed(row.up, up, row.part as usize, name),
            Task::Repeated(up) => body_feed(up, task, name),
            Task::Elementary(_) => unreachable!(),
        }
    }
}

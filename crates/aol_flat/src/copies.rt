//! What the copies of reshapes read and write.

ghost use Rattle.std.specs.Prelude.{◌≡◌, [], ◌∷◌};
ghost use Rattle.aol_model_types.specs.Rules.{inputs_of, outputs_of};
ghost use Rattle.aol_flat.specs.Accept.{IsFlat};
ghost use Rattle.aol_flat.specs.Copies.{IsCopyAt, IsLeafCopy, HasEndNode, IsEndNode, HasEnd, IsAtEnd, IsReadOfCopy, IsCellOfCopy};
ghost use Rattle.aol_flat.specs.Cursor.{IsCopyPoint, AreReadsAt, AreWritesAt};
ghost use Rattle.aol_flat.specs.Feed.{HasTask};

use crate::feed::{input, input_number, output, output_number, part_number};
use crate::flat::Flat;
use crate::view::Read;
use aol_model_types::{Compound, Copied, Hook, Task};
use aol_tiler::Tiler;

/// One copy of a reshape, at an instance of its compound task.
#[derive(Clone, Copy)]
struct CopyAt<'a> {
    /// The number of the compound task's node.
    pub number: u32,
    pub task: &'a Compound,
    pub reshape: &'a Copied,
    /// The indices around that node.
    pub around: &'a [u32],
    /// Those of the repetition.
    pub r: &'a [u32],
    /// Those of the element of the pattern.
    pub i: &'a [u32],
}

/// The element of rank `x` at a port of a node.
#[derive(Clone, Copy)]
struct ElementAt {
    pub node: u32,
    pub port: u32,
    pub x: u32,
}

impl Flat {
    /// The number of the node at an end of a link of a compound task.
    fn end_node(&self, number: u32, task: &Compound, hook: &Hook) -> u32
        requires there { HasTask self.now.model number (Task.Compound task.now) }
        requires end { HasEndNode self.now.model number task.now hook.now }
        requires flat { IsFlat self.now }
        ensures { IsEndNode self.now.model number task.now hook.now result }
    {
        match &hook.part {
            None => number,
            Some(part) => self.below(number, part_number(task, part) as u32),
        }
    }

    /// The element of an input at an end of a copy.
    fn input_at(&self, copy: CopyAt, hook: &Hook, tiler: &Tiler) -> ElementAt
        requires place { IsCopyAt self.now.model copy.number copy.task.now copy.reshape.now copy.around.now copy.r.now copy.i.now }
        requires end { HasEnd self.now.model inputs_of copy.number copy.task.now copy.reshape.now hook.now tiler.now }
        requires flat { IsFlat self.now }
        ensures { IsAtEnd self.now.model inputs_of copy.entry.number copy.entry.task.now hook.now tiler.now copy.entry.around.now copy.entry.r.now copy.entry.i.now result.node result.port result.x }
    {
        let node = self.end_node(copy.number, copy.task, hook);
        let task = self.task(node);
        let port = input_number(task, &hook.port);
        let shape = &input(task, port).shape;
        let x = tiler.address(shape, copy.r, copy.i);
        ElementAt { node, port, x }
    }

    /// The element of an output at an end of a copy.
    fn output_at(&self, copy: CopyAt, hook: &Hook, tiler: &Tiler) -> ElementAt
        requires place { IsCopyAt self.now.model copy.number copy.task.now copy.reshape.now copy.around.now copy.r.now copy.i.now }
        requires end { HasEnd self.now.model outputs_of copy.number copy.task.now copy.reshape.now hook.now tiler.now }
        requires flat { IsFlat self.now }
        ensures { IsAtEnd self.now.model outputs_of copy.entry.number copy.entry.task.now hook.now tiler.now copy.entry.around.now copy.entry.r.now copy.entry.i.now result.node result.port result.x }
    {
        let node = self.end_node(copy.number, copy.task, hook);
        let task = self.task(node);
        let port = output_number(task, &hook.port);
        let shape = &output(task, port).shape;
        let x = tiler.address(shape, copy.r, copy.i);
        ElementAt { node, port, x }
    }

    /// What a copy reads.
    fn read_of(&self, copy: CopyAt) -> Read
        requires place { IsCopyAt self.now.model copy.number copy.task.now copy.reshape.now copy.around.now copy.r.now copy.i.now }
        requires flat { IsFlat self.now }
        ensures { IsReadOfCopy self.now copy.entry.number copy.entry.task.now copy.entry.reshape.now copy.entry.around.now copy.entry.r.now copy.entry.i.now result }
    {
        let from = &copy.reshape.from;
        let tiler = &copy.reshape.by.source;
        match &from.part {
            None => {
                let e = self.input_at(copy, from, tiler);
                self.follow_input(e.node, e.port, copy.around, e.x)
            }
            Some(_) => {
                let e = self.output_at(copy, from, tiler);
                Read::Cell(self.follow_output(e.node, e.port, copy.around, e.x))
            }
        }
    }

    /// The cell that a copy writes.
    fn cell_of(&self, copy: CopyAt) -> u32
        requires place { IsCopyAt self.now.model copy.number copy.task.now copy.reshape.now copy.around.now copy.r.now copy.i.now }
        requires flat { IsFlat self.now }
        ensures { IsCellOfCopy self.now copy.entry.number copy.entry.task.now copy.entry.reshape.now copy.entry.around.now copy.entry.r.now copy.entry.i.now result }
    {
        let to = &copy.reshape.to;
        let tiler = &copy.reshape.by.target;
        match &to.part {
            None => {
                let e = self.output_at(copy, to, tiler);
                self.follow_output(e.node, e.port, copy.around, e.x)
            }
            Some(_) => {
                let e = self.input_at(copy, to, tiler);
                match self.follow_input(e.node, e.port, copy.around, e.x) {
                    Read::Cell(cell) => cell,
                    Read::Const(_) => unreachable!(),
                }
            }
        }
    }

    /// The copy at a point of a leaf.
    fn copy_at<'a>(&'a self, leaf: u32, at: &'a [u32]) -> CopyAt<'a>
        requires { IsCopyPoint self.now.model leaf at.now }
        ensures copy { IsLeafCopy self.now.model leaf at.now result.number result.task.now result.reshape.now result.around.now result.r.now result.i.now }
        ensures flat { IsFlat self.now }
    {
        let spot = self.leaf_spot(leaf);
        let Task::Compound(task) = self.task(spot.node) else {
            unreachable!()
        };
        let reshape = &task.reshapes.as_slice()[spot.reshape as usize];
        let (around, rest) = at.split_at(self.row(spot.node).around as usize);
        let (r, i) = rest.split_at(reshape.by.space.as_slice().len());
        CopyAt {
            number: spot.node,
            task,
            reshape,
            around,
            r,
            i,
        }
    }

    /// What the copy at a point of a leaf reads.
    pub(crate) fn copy_read(&self, leaf: u32, at: &[u32]) -> Read
        requires { IsCopyPoint self.now.model leaf at.now }
        ensures { AreReadsAt self.now leaf at.now (result ∷ []) }
    {
        self.read_of(self.copy_at(leaf, at))
    }

    /// The cell that it writes.
    pub(crate) fn copy_write(&self, leaf: u32, at: &[u32]) -> u32
        requires { IsCopyPoint self.now.model leaf at.now }
        ensures { AreWritesAt self.now leaf at.now (result ∷ []) }
    {
        self.cell_of(self.copy_at(leaf, at))
    }
}

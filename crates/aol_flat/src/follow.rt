//! Following an element to the cell where it is stored.
//!
//! An element is given by numbers: those of its node and of its port among the inputs or outputs of the node's task,
//! the indices of the repetitions around the node, and the rank of a point of the port's shape.

ghost use Rattle.std.specs.Prelude.{◌≡◌, ◌+◌, ◌*◌, ◌^◌, ◌++◌, ◌<◌};
ghost use Rattle.aol_shape.specs.Shape.{IsPointOf, IsShape, size, point_at};
ghost use Rattle.aol_tiler.specs.Tiler.{Fits, address};
ghost use Rattle.aol_model_types.specs.Rules.{inputs_of, outputs_of};
ghost use Rattle.aol_flat.specs.Accept.{IsFlat};
ghost use Rattle.aol_flat.specs.Feed.{IsHand, IsFeed};
ghost use Rattle.aol_flat.specs.Follow.{IsIndexed, IsRankAround, IsRepetition, IsBodyIndexed, HasOutputElement, HasInputElement, IsCellOfPort, IsReadOfInput, IsStoredOutput, IsStoredInput, IsCellAtRank, PortLeadsTo, IsSourceOf, LeadsOutside};

use crate::feed::{Feed, Hand, input, output, port_number};
use crate::flat::Flat;
use crate::view::Read;
use aol_link::Fallback;
use aol_model_types::{Repeated, Task};
use aol_shape::{Shape, rank_of, unrank_into};
use aol_tiler::Tiler;

/// One repetition of the body of a repeated task, at an instance of that task.
#[derive(Clone, Copy)]
pub(crate) struct Repetition<'a> {
    /// The number of the body's node.
    pub number: u32,
    /// That of the repeated task's node.
    pub up: u32,
    pub task: &'a Repeated,
    /// The indices around the repeated task's node.
    pub around: &'a [u32],
    /// Those of the repetition.
    pub r: &'a [u32],
}

/// Where a step of following an input by a link between repetitions leads.
#[derive(Clone, Copy)]
enum Source {
    /// It ends here.
    Ends(Read),
    /// The element of rank `x` of this input of the repeated task.
    Input { port: u32, x: u32 },
}

/// The step that ends at a default number.
fn constant(number: &i64) -> Source
    ensures { result ≡ Source.Ends (Read.Const number.now) }
{
    Source::Ends(Read::Const(*number))
}

/// The rank of the element of an array that the element of rank `x` of a pattern is, in repetition `r`.
fn address_of(
    tiler: &Tiler,
    array: &Shape,
    space: &Shape,
    pattern: &Shape,
    r: &[u32],
    x: u32,
) -> u32
    requires space { IsShape space.now }
    requires fits { Fits tiler.now array.now space.now pattern.now }
    requires repetition { IsPointOf space.now r.now }
    requires element { x < size pattern.now }
    ensures address { result ≡ address tiler.now array.now r.now (point_at pattern.now x) }
    ensures within { result < size array.now }
{
    let mut buffer = [0u32; 12];
    let point = &mut buffer[..pattern.as_slice().len()];
    unrank_into(pattern, x, point);
    tiler.address(array, r, point)
}

/// The number of an element of arrays of this shape that follow one another: that of rank `x` in the array with this number.
fn place_in(index: u32, shape: &Shape, x: u32) -> u32
    requires { index * size shape.now + x < 2 ^ 32 }
    ensures { result ≡ index * size shape.now + x }
{
    index * shape.size() + x
}

/// The cell of that element, where these arrays are stored from `first` on.
fn place_from(first: u32, index: u32, shape: &Shape, x: u32) -> u32
    requires { first + (index * size shape.now + x) < 2 ^ 32 }
    ensures { result ≡ first + (index * size shape.now + x) }
{
    first + place_in(index, shape, x)
}

impl Flat {
    /// The rank of the instance of a node with these indices.
    #[cycle(ranks)]
    fn rank_around(&self, number: u32, at: &[u32]) -> u32
        requires { IsIndexed self.now.model number at.now }
        ensures { IsRankAround self.now.model number at.now result }
    {
        if number == 0 {
            return 0;
        }
        let up = self.row(number).up;
        match self.task(up) {
            Task::Repeated(task) => {
                let (around, r) = at.split_at(at.len() - task.space.as_slice().len());
                self.rank_below(Repetition {
                    number,
                    up,
                    task,
                    around,
                    r,
                })
            }
            _ => self.rank_around(up, at),
        }
    }

    /// The same of one repetition.
    #[cycle(ranks)]
    fn rank_below(&self, body: Repetition) -> u32
        requires place { IsRepetition self.now.model body.number body.up body.task.now body.around.now body.r.now }
        requires flat { IsFlat self.now }
        ensures { IsRankAround self.now.model body.entry.number (body.entry.around.now ++ body.entry.r.now) result }
    {
        let space = &body.task.space;
        place_in(
            self.rank_around(body.up, body.around),
            space,
            rank_of(space, body.r),
        )
    }

    /// The repetition of a body at an instance with these indices.
    pub(crate) fn repetition<'a>(&'a self, number: u32, at: &'a [u32]) -> Repetition<'a>
        requires { IsBodyIndexed self.now.model number at.now }
        ensures number { result.number ≡ number }
        ensures place { IsRepetition self.now.model number result.up result.task.now result.around.now result.r.now }
        ensures whole { result.around.now ++ result.r.now ≡ at.now }
        ensures flat { IsFlat self.now }
    {
        let up = self.row(number).up;
        let Task::Repeated(task) = self.task(up) else {
            unreachable!()
        };
        let (around, r) = at.split_at(at.len() - task.space.as_slice().len());
        Repetition {
            number,
            up,
            task,
            around,
            r,
        }
    }

    /// The cell of an element of an output that is stored; its instance has this rank.
    fn cell_of_output(&self, number: u32, port: u32, index: u32, x: u32) -> u32
        requires { IsStoredOutput self.now.model number port index x }
        ensures { IsCellAtRank self.now outputs_of number port index x result }
    {
        let shape = &output(self.task(number), port).shape;
        place_from(self.first_of_output(number, port), index, shape, x)
    }

    /// The rank of the element of an outer output to which a tiler hands an element of a repetition's output.
    fn handed_rank(&self, body: Repetition, port: u32, tiler: u32, outer: u32, x: u32) -> u32
        requires place { IsRepetition self.now.model body.number body.up body.task.now body.around.now body.r.now }
        requires there { HasOutputElement self.now.model body.number port (body.around.now ++ body.r.now) x }
        requires tiled { IsHand self.now.model body.number port (Hand.Tiled tiler outer) }
        ensures { PortLeadsTo self.now.model outputs_of body.entry.number port (body.entry.around.now ++ body.entry.r.now) x outputs_of body.entry.up outer body.entry.around.now result }
    {
        let shape = &output(self.task(body.number), port).shape;
        let array = &body.task.outs.as_slice()[outer as usize].shape;
        let tiler = &body.task.tilers.as_slice()[tiler as usize].tiler;
        address_of(tiler, array, &body.task.space, shape, body.r, x)
    }

    /// The cell of an element of an output.
    pub(crate) fn follow_output(&self, number: u32, port: u32, at: &[u32], x: u32) -> u32
        requires { HasOutputElement self.now.model number port at.now x }
        ensures { IsCellOfPort self.now outputs_of number port at.now x result }
    {
        match self.hand(number, port) {
            Hand::Stored => { self.cell_of_output(number, port, self.rank_around(number, at), x) }
            Hand::Own(own) => self.follow_output(self.row(number).up, own, at, x),
            Hand::Tiled { tiler, port: outer } => {
                let body = self.repetition(number, at);
                let y = self.handed_rank(body, port, tiler, outer, x);
                self.follow_output(body.up, outer, body.around, y)
            }
        }
    }

    /// The same of one repetition.
    fn follow_output_of(&self, body: Repetition, port: u32, x: u32) -> u32
        requires place { IsRepetition self.now.model body.number body.up body.task.now body.around.now body.r.now }
        requires there { HasOutputElement self.now.model body.number port (body.around.now ++ body.r.now) x }
        ensures { IsCellOfPort self.now outputs_of body.entry.number port (body.entry.around.now ++ body.entry.r.now) x result }
    {
        let _model = self.model();
        match self.hand(body.number, port) {
            Hand::Tiled { tiler, port: outer } => {
                let y = self.handed_rank(body, port, tiler, outer, x);
                self.follow_output(body.up, outer, body.around, y)
            }
            _ => self.cell_of_output(body.number, port, self.rank_below(body), x),
        }
    }

    /// The cell of an element of an input that is stored; its instance has this rank.
    fn cell_of_input(&self, number: u32, port: u32, index: u32, x: u32) -> u32
        requires { IsStoredInput self.now.model number port index x }
        ensures { IsCellAtRank self.now inputs_of number port index x result }
    {
        let shape = &input(self.task(number), port).shape;
        place_from(self.first_of_input(number, port), index, shape, x)
    }

    /// The rank of the element of an outer input that a tiler gives to an element of a repetition's input.
    fn fed_rank(&self, body: Repetition, port: u32, tiler: u32, outer: u32, x: u32) -> u32
        requires place { IsRepetition self.now.model body.number body.up body.task.now body.around.now body.r.now }
        requires there { HasInputElement self.now.model body.number port (body.around.now ++ body.r.now) x }
        requires tiled { IsFeed self.now.model body.number port (Feed.Tiled tiler outer) }
        ensures { PortLeadsTo self.now.model inputs_of body.entry.number port (body.entry.around.now ++ body.entry.r.now) x inputs_of body.entry.up outer body.entry.around.now result }
    {
        let shape = &input(self.task(body.number), port).shape;
        let array = &body.task.ins.as_slice()[outer as usize].shape;
        let tiler = &body.task.tilers.as_slice()[tiler as usize].tiler;
        address_of(tiler, array, &body.task.space, shape, body.r, x)
    }

    /// One step of following an input of a repetition that a link between repetitions feeds.
    fn link_source(&self, body: Repetition, port: u32, link: u32, from: u32, x: u32) -> Source
        requires place { IsRepetition self.now.model body.number body.up body.task.now body.around.now body.r.now }
        requires there { HasInputElement self.now.model body.number port (body.around.now ++ body.r.now) x }
        requires linked { IsFeed self.now.model body.number port (Feed.Linked link from) }
        requires flat { IsFlat self.now }
        ensures { IsSourceOf self.now body.entry.number port (body.entry.around.now ++ body.entry.r.now) x body.entry.up body.entry.around.now result }
    {
        let interlink = &body.task.links.as_slice()[link as usize];
        let space = &body.task.space;
        let mut buffer = [0u32; 12];
        let found = &mut buffer[..space.as_slice().len()];
        if interlink.before(space, body.r, found) {
            let source = Repetition {
                number: body.number,
                up: body.up,
                task: body.task,
                around: body.around,
                r: found,
            };
            return Source::Ends(Read::Cell(self.follow_output_of(source, from, x)));
        }
        self.default_source(body, port, link, from, x)
    }

    /// The same where the link comes from outside the space.
    fn default_source(&self, body: Repetition, port: u32, link: u32, from: u32, x: u32) -> Source
        requires place { IsRepetition self.now.model body.number body.up body.task.now body.around.now body.r.now }
        requires there { HasInputElement self.now.model body.number port (body.around.now ++ body.r.now) x }
        requires linked { IsFeed self.now.model body.number port (Feed.Linked link from) }
        requires outside { LeadsOutside body.task.now link body.r.now }
        ensures { IsSourceOf self.now body.entry.number port (body.entry.around.now ++ body.entry.r.now) x body.entry.up body.entry.around.now result }
    {
        let shape = &input(self.task(body.number), port).shape;
        let space = &body.task.space;
        let link = &body.task.links.as_slice()[link as usize];
        match &link.rest.as_slice()[link.choice(space, body.r) as usize].take {
            Fallback::Number(number) => constant(number),
            Fallback::Tiled { outer, tiler } => {
                let ins = body.task.ins.as_slice();
                let outer = port_number(ins, outer);
                let array = &ins[outer as usize].shape;
                Source::Input {
                    port: outer,
                    x: address_of(tiler, array, space, shape, body.r, x),
                }
            }
        }
    }

    /// What reading an element of an input means: its cell, or its default number.
    pub(crate) fn follow_input(&self, number: u32, port: u32, at: &[u32], x: u32) -> Read
        requires { HasInputElement self.now.model number port at.now x }
        ensures { IsReadOfInput self.now number port at.now x result }
    {
        match self.feed(number, port) {
            Feed::Stored => {
                Read::Cell(self.cell_of_input(number, port, self.rank_around(number, at), x))
            }
            Feed::Own(own) => self.follow_input(self.row(number).up, own, at, x),
            Feed::Part { node, port: from } => {
                let _row = self.row(number);
                Read::Cell(self.follow_output(node, from, at, x))
            }
            Feed::Tiled { tiler, port: outer } => {
                let body = self.repetition(number, at);
                let y = self.fed_rank(body, port, tiler, outer, x);
                self.follow_input(body.up, outer, body.around, y)
            }
            Feed::Linked { link, port: from } => {
                let body = self.repetition(number, at);
                match self.link_source(body, port, link, from, x) {
                    Source::Ends(read) => read,
                    Source::Input { port: outer, x: y } => {
                        self.follow_input(body.up, outer, body.around, y)
                    }
                }
            }
        }
    }
}

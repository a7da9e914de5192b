//! Cursors over the instances of a leaf: what they read and what they write, one instance after another.

ghost use Rattle.std.specs.Prelude.{◌≡◌, ◌+◌, ◌<◌, ℕ, length, IfOk};
ghost use Rattle.aol_trail.specs.Further.{further};
ghost use Rattle.aol_flat.specs.Instance.{leaves};
ghost use Rattle.aol_flat.specs.LeafCursor.{IsAlong, ReadsEach, WritesEach, first_on, instances_on, reads_each, writes_each};
ghost use Rattle.aol_flat.specs.Level.{AreReadsOf, AreWritesOf};

use crate::flat::Flat;
use crate::nodes::LeafSpot;
use crate::points::{go_on, left_in, unrank};
use crate::route::Route;
use crate::run::{fill_all, read_run, write_run};
use crate::view::Read;
use aol_shape::NoMemory;
use std::alloc::Global;
use std::marker::Model;

/// An instance of a leaf: its number among those of the leaf, and its indices.
#[derive(Drop)]
struct Along<'a> {
    flat: &'a Flat,
    leaf: u32,
    number: u32,
    at: Vec<u32>,
}

impl<'a> Along<'a> {
    /// The first instance of a leaf.
    fn new(alloc: Global, flat: &'a Flat, leaf: u32) -> Result<Along<'a>, NoMemory>
        requires { leaf < length (leaves flat.now.model) }
        ensures flat { IfOk result (λ a. a.flat.now ≡ flat.now) }
        ensures leaf { IfOk result (λ a. a.leaf ≡ leaf) }
        ensures along { IfOk result (λ a. IsAlong flat.now.model leaf a.number a.at.items) }
    {
        let _model = flat.model();
        let row = flat.leaf(leaf);
        let space = row.space.as_slice();
        let mut at = Vec::from_slice(alloc, space)?;
        unrank(space, row.count, 0, at.as_mut_slice());
        Ok(Along {
            flat,
            leaf,
            number: 0,
            at,
        })
    }

    /// Moves to another instance of the leaf.
    fn go_to(&mut self, number: u32)
        requires at { IsAlong self.old.flat.now.model self.old.leaf self.old.number self.old.at.items }
        requires number { number < instances_on self.old.flat.now.model self.old.leaf }
        ensures flat { self.new.flat.now ≡ self.old.flat.now }
        ensures leaf { self.new.leaf ≡ self.old.leaf }
        ensures number { self.new.number ≡ number }
        ensures along { IsAlong self.old.flat.now.model self.old.leaf number self.new.at.items }
    {
        let row = self.flat.leaf(self.leaf);
        let at = self.at.as_mut_slice();
        go_on(row.space.as_slice(), row.count, self.number, number, at);
        self.number = number;
    }

    /// For how many instances from this one on only the last index differs.
    fn left(&self) -> u32
        requires { IsAlong self.now.flat.now.model self.now.leaf self.now.number self.now.at.items }
        ensures some { 0 < result }
        ensures along { (i : ℕ) → i < result → IsAlong self.now.flat.now.model self.now.leaf (self.now.number + i) (further i self.now.at.items) }
    {
        let row = self.flat.leaf(self.leaf);
        left_in(row.space.as_slice(), self.at.as_slice())
    }
}

/// What the instances of a leaf read.
///
/// Contracts see it as the model that is laid out and the number of the leaf.
#[derive(Drop)]
pub struct LeafReads<'a> {
    along: Along<'a>,
    spot: LeafSpot,
    routes: Vec<Route<'a>>,
    many: u32,
    /// Whether each port has a route that keeps its cells.
    whole: bool,
    /// For how many instances, from the one where the cursor is, the routes have the cells.
    run: u32,
}

impl<'a> Model for LeafReads<'a> {
    ghost use Rattle.aol_flat.specs.Cursor.{CursorOf};
    ghost use Rattle.std.specs.Coded.{codes};
    ghost use Rattle.aol_model_types.specs.contracts.document.Model as model_row;
    ghost use Rattle.aol_model_types.specs.Rules.{inputs_of};
    ghost use Rattle.aol_flat.specs.LeafCursor.{reads_each};
    ghost use Rattle.aol_flat.specs.Run.{ReadsCells, IsRunning};

    ghost Value = { CursorOf };

    ghost coded = { Prim.hlevel (codes, model_row.the_row.coded) };

    ghost view = { λ c. record { flat = c.along.flat.now; leaf = c.along.leaf } };

    ghost invariant = { λ c. IsRunning ReadsCells c.along.flat.now inputs_of c.along.leaf c.along.number c.along.at.items c.many (reads_each c.along.flat.now.model c.along.leaf) c.spot c.routes.items c.whole c.run };
}

impl<'a> LeafReads<'a> {
    /// How many elements each instance of the leaf reads.
    pub fn many(&self) -> u32
        ensures same { result ≡ reads_each self.now.flat.model self.now.leaf }
        ensures each { ReadsEach self.now result }
    {
        self.many
    }

    /// The reads of the instance with this number among those of the leaf, by port and rank.
    ///
    /// There are as many instances as the row of the leaf counts. `into` has a place for each element.
    pub fn of(&mut self, number: u32, into: &mut [Read])
        requires number { number < instances_on self.old.flat.model self.old.leaf }
        requires many { length into.old ≡ reads_each self.old.flat.model self.old.leaf }
        ensures reads { AreReadsOf self.old.flat (first_on self.old.flat.model self.old.leaf + number) into.new }
        ensures same { self.new ≡ self.old }
    {
        if number >= self.along.number && number - self.along.number < self.run {
            read_run(self.routes.as_slice(), number - self.along.number, into);
            return;
        }
        self.move_to(number, into);
    }

    /// The same, with a new run from that instance on.
    fn move_to(&mut self, number: u32, into: &mut [Read])
        requires number { number < instances_on self.old.flat.model self.old.leaf }
        requires many { length into.old ≡ reads_each self.old.flat.model self.old.leaf }
        ensures reads { AreReadsOf self.old.flat (first_on self.old.flat.model self.old.leaf + number) into.new }
        ensures same { self.new ≡ self.old }
    {
        self.along.go_to(number);
        let flat = self.along.flat;
        let _model = flat.model();
        let routes = self.routes.as_mut_slice();
        if !self.whole {
            self.run = 0;
            flat.reads_on(
                self.along.leaf,
                self.spot,
                self.along.at.as_slice(),
                routes,
                into,
            );
            return;
        }
        let most = self.along.left();
        self.run = fill_all(routes, self.along.at.as_slice(), most);
        read_run(self.routes.as_slice(), 0, into);
    }
}

/// What the instances of a leaf write.
///
/// Contracts see it as the model that is laid out and the number of the leaf.
#[derive(Drop)]
pub struct LeafWrites<'a> {
    along: Along<'a>,
    spot: LeafSpot,
    routes: Vec<Route<'a>>,
    many: u32,
    /// Whether each port has a route that keeps its cells.
    whole: bool,
    /// For how many instances, from the one where the cursor is, the routes have the cells.
    run: u32,
}

impl<'a> Model for LeafWrites<'a> {
    ghost use Rattle.aol_flat.specs.Cursor.{CursorOf};
    ghost use Rattle.std.specs.Coded.{codes};
    ghost use Rattle.aol_model_types.specs.contracts.document.Model as model_row;
    ghost use Rattle.aol_model_types.specs.Rules.{outputs_of};
    ghost use Rattle.aol_flat.specs.LeafCursor.{writes_each};
    ghost use Rattle.aol_flat.specs.Run.{WritesCells, IsRunning};

    ghost Value = { CursorOf };

    ghost coded = { Prim.hlevel (codes, model_row.the_row.coded) };

    ghost view = { λ c. record { flat = c.along.flat.now; leaf = c.along.leaf } };

    ghost invariant = { λ c. IsRunning WritesCells c.along.flat.now outputs_of c.along.leaf c.along.number c.along.at.items c.many (writes_each c.along.flat.now.model c.along.leaf) c.spot c.routes.items c.whole c.run };
}

impl<'a> LeafWrites<'a> {
    /// How many elements each instance of the leaf writes.
    pub fn many(&self) -> u32
        ensures same { result ≡ writes_each self.now.flat.model self.now.leaf }
        ensures each { WritesEach self.now result }
    {
        self.many
    }

    /// The cells that the instance with this number among those of the leaf writes, by port and rank.
    ///
    /// There are as many instances as the row of the leaf counts. `into` has a place for each element.
    pub fn of(&mut self, number: u32, into: &mut [u32])
        requires number { number < instances_on self.old.flat.model self.old.leaf }
        requires many { length into.old ≡ writes_each self.old.flat.model self.old.leaf }
        ensures writes { AreWritesOf self.old.flat (first_on self.old.flat.model self.old.leaf + number) into.new }
        ensures same { self.new ≡ self.old }
    {
        if number >= self.along.number && number - self.along.number < self.run {
            write_run(self.routes.as_slice(), number - self.along.number, into);
            return;
        }
        self.move_to(number, into);
    }

    /// The same, with a new run from that instance on.
    fn move_to(&mut self, number: u32, into: &mut [u32])
        requires number { number < instances_on self.old.flat.model self.old.leaf }
        requires many { length into.old ≡ writes_each self.old.flat.model self.old.leaf }
        ensures writes { AreWritesOf self.old.flat (first_on self.old.flat.model self.old.leaf + number) into.new }
        ensures same { self.new ≡ self.old }
    {
        self.along.go_to(number);
        let flat = self.along.flat;
        let _model = flat.model();
        let routes = self.routes.as_mut_slice();
        if !self.whole {
            self.run = 0;
            flat.writes_on(
                self.along.leaf,
                self.spot,
                self.along.at.as_slice(),
                routes,
                into,
            );
            return;
        }
        let most = self.along.left();
        self.run = fill_all(routes, self.along.at.as_slice(), most);
        write_run(self.routes.as_slice(), 0, into);
    }
}

impl Flat {
    /// A cursor over what the instances of a leaf read.
    pub fn reads(&self, alloc: Global, leaf: u32) -> Result<LeafReads<'_>, NoMemory>
        requires { leaf < length (leaves self.now.model) }
        ensures { IfOk result (λ c. c ≡ record { flat = self.now; leaf = leaf }) }
    {
        let many = self.reads_of(leaf);
        let spot = self.leaf_spot(leaf);
        let along = Along::new(alloc, self, leaf)?;
        let routes = self.input_routes(alloc, leaf, spot, along.at.as_slice())?;
        let whole = self.reads_are_whole(leaf, spot, routes.as_slice());
        Ok(LeafReads {
            along,
            spot,
            routes,
            many,
            whole,
            run: 0,
        })
    }

    /// A cursor over what the instances of a leaf write.
    pub fn writes(&self, alloc: Global, leaf: u32) -> Result<LeafWrites<'_>, NoMemory>
        requires { leaf < length (leaves self.now.model) }
        ensures { IfOk result (λ c. c ≡ record { flat = self.now; leaf = leaf }) }
    {
        let many = self.writes_of(leaf);
        let spot = self.leaf_spot(leaf);
        let along = Along::new(alloc, self, leaf)?;
        let routes = self.output_routes(alloc, leaf, spot, along.at.as_slice())?;
        let whole = self.writes_are_whole(leaf, spot, routes.as_slice());
        Ok(LeafWrites {
            along,
            spot,
            routes,
            many,
            whole,
            run: 0,
        })
    }
}

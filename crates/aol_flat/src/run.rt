//! Runs of instances along the last index: the cells of the first one, and what is added to them with each instance.

ghost use Rattle.std.specs.Prelude.{◌≡◌, ◌+◌, ◌*◌, ◌^◌, ◌<◌, ◌≤◌, ℕ, length, map};
ghost use Rattle.std.specs.List.{AllByRecursion, AllZip};
ghost use Rattle.aol_trail.specs.Further.{further};
ghost use Rattle.aol_trail.specs.Trail.{IsTrailAt, cell_on, trail_at};
ghost use Rattle.aol_flat.specs.Route.{CanGive};
ghost use Rattle.aol_flat.specs.Run.{CanFill, HoldsAt, IsMovedTo, as_reads, runs};

use crate::cursor::write_all;
use crate::route::Route;
use crate::view::Read;
use aol_trail::{Stretch, Trail};

/// How the cells of all elements go on that a trail leads to, at most so often.
fn stretch_of(trail: &Trail<'_>, at: &[u32], many: u32, most: u32) -> Stretch
    requires there { IsTrailAt at.now trail.now }
    requires stands { trail_at at.now trail.now ≡ trail.now }
    requires gives { (i : ℕ) → i ≤ most → CanGive (trail_at (further i at.now) trail.now) many }
    ensures most { result.room ≤ most }
    ensures even { (i x : ℕ) → i ≤ result.room → x < many → cell_on (trail_at (further i at.now) trail.now) x ≡ cell_on trail.now x + i * result.stride }
{
    if many == 0 {
        return Stretch {
            stride: 0,
            room: most,
        };
    }
    let first = trail.stretch(at, 0, most);
    let mut room = first.room;
    for x in 1..many {
        let own = trail.stretch(at, x, room);
        if own.stride != first.stride {
            return Stretch { stride: 0, room: 0 };
        }
        room = own.room;
    }
    Stretch {
        stride: first.stride,
        room,
    }
}

impl<'a> Route<'a> {
    /// Takes the cells at an instance, and answers for how many instances from it on they go on along the last index;
    /// for so many at most.
    fn fill(&mut self, at: &[u32], most: u32) -> u32
        requires some { 0 < most }
        requires can { CanFill at.now most self.old }
        ensures form { IsMovedTo at.now self.old self.new }
        ensures some { 0 < result }
        ensures most { result ≤ most }
        ensures run { (i : ℕ) → i < result → HoldsAt i at.now self.old self.new }
    {
        self.trail.go_to(at);
        write_all(&self.trail, self.cells.as_mut_slice());
        let stretch = stretch_of(&self.trail, at, self.cells.len() as u32, most - 1);
        self.stride = stretch.stride;
        stretch.room + 1
    }
}

/// Takes the cells along all routes at an instance, and answers for how many instances they go on; for so many at most.
pub fn fill_all(routes: &mut [Route<'_>], at: &[u32], most: u32) -> u32
    requires some { 0 < most }
    requires can { AllByRecursion (CanFill at.now most) routes.old }
    ensures form { AllZip (IsMovedTo at.now) routes.old routes.new }
    ensures some { 0 < result }
    ensures most { result ≤ most }
    ensures run { (i : ℕ) → i < result → AllZip (HoldsAt i at.now) routes.old routes.new }
{
    let mut run = most;
    for k in 0..routes.len() {
        run = routes[k].fill(at, run);
    }
    run
}

/// Writes cells, each with so much added, as reads.
fn put_reads(cells: &[u32], more: u64, into: &mut [Read])
    requires many { length into.old ≡ length cells.now }
    requires small { AllByRecursion (λ c. c + more < 2 ^ 32) cells.now }
    ensures { into.new ≡ as_reads (map (λ c. c + more) cells.now) }
{
    let Some((cell, cells)) = cells.split_first() else {
        return;
    };
    let Some((read, into)) = into.split_first_mut() else {
        return;
    };
    *read = Read::Cell((u64::from(*cell) + more) as u32);
    put_reads(cells, more, into);
}

/// Writes the reads of the instance that comes so many after the first of the run.
pub fn read_run(routes: &[Route<'_>], i: u32, into: &mut [Read])
    requires many { length into.old ≡ length (runs i routes.now) }
    requires small { AllByRecursion (λ c. c < 2 ^ 32) (runs i routes.now) }
    ensures { into.new ≡ as_reads (runs i routes.now) }
{
    let Some((route, routes)) = routes.split_first() else {
        return;
    };
    let cells = route.cells.as_slice();
    let (own, into) = into.split_at_mut(cells.len());
    put_reads(cells, u64::from(i) * u64::from(route.stride), own);
    read_run(routes, i, into);
}

/// Writes cells, each with so much added.
fn put_cells(cells: &[u32], more: u64, into: &mut [u32])
    requires many { length into.old ≡ length cells.now }
    requires small { AllByRecursion (λ c. c + more < 2 ^ 32) cells.now }
    ensures { into.new ≡ map (λ c. c + more) cells.now }
{
    let Some((cell, cells)) = cells.split_first() else {
        return;
    };
    let Some((place, into)) = into.split_first_mut() else {
        return;
    };
    *place = (u64::from(*cell) + more) as u32;
    put_cells(cells, more, into);
}

/// Writes the cells of the instance that comes so many after the first of the run.
pub fn write_run(routes: &[Route<'_>], i: u32, into: &mut [u32])
    requires many { length into.old ≡ length (runs i routes.now) }
    requires small { AllByRecursion (λ c. c < 2 ^ 32) (runs i routes.now) }
    ensures { into.new ≡ runs i routes.now }
{
    let Some((route, routes)) = routes.split_first() else {
        return;
    };
    let cells = route.cells.as_slice();
    let (own, into) = into.split_at_mut(cells.len());
    put_cells(cells, u64::from(i) * u64::from(route.stride), own);
    write_run(routes, i, into);
}

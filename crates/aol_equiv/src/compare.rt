//! The reads of all instances of the new model and then the main outputs, up to the first that isn't kept.

ghost use Rattle.std.specs.Prelude.{◌≡◌, ◌+◌, ◌<◌, ◌^◌, ℕ, map, take, length, slice_get, Some, IsSome, IfOk};
ghost use Rattle.std.specs.List.{AllByRecursion};
ghost use Rattle.aol_flat.specs.Instance.{leaves, instances, places_of_sizes, port_sizes};
ghost use Rattle.aol_flat.specs.Leaves.{IsLeafRow, instances_of};
ghost use Rattle.aol_flat.specs.LeafCursor.{reads_each};
ghost use Rattle.aol_flat.specs.Laid.{main_input_elements};
ghost use Rattle.aol_flat.specs.Tasks.{main_outputs};
ghost use Rattle.aol_assign.specs.Holes.{cells_from};
ghost use Rattle.aol_equiv.specs.Leads.{end_of};
ghost use Rattle.aol_equiv.specs.Compared.{AreCompared, AreKeptBefore, TellsFirst, HasReadSpots, EndsKept, EndsAll};

use crate::before::read_before;
use crate::leads::{Lead, is_kept, must_end};
use crate::lost::Lost;
use crate::places::{Spot, input_spots, main_input_spots, main_output_spots};
use aol_flat::{End, Flat, Leaf, LeafKind, LeafReads, Read, Reader};
use std::alloc::{AllocError, Global};

/// Two models that are compared: where their cells end, the old instance of each new one, and the leaf of each old one.
#[derive(Clone, Copy)]
pub struct Sides<'a> {
    pub alloc: Global,
    pub old: &'a Flat,
    pub new: &'a Flat,
    pub old_ends: &'a [Lead],
    pub new_ends: &'a [Lead],
    pub old_of: &'a [u32],
    pub leaves: &'a [u32],
}

/// The number of the first read that doesn't end as the old one does, and where it had to end.
fn first_lost(sides: &Sides, taken: &[Read], before: &[Read]) -> Option<(u32, End)>
    requires many { length taken.now ≡ length before.now }
    requires few { length taken.now < 2 ^ 32 }
    requires ended { AllByRecursion (λ q. IsSome (end_of sides.now.old_ends.now q)) before.now }
    ensures { TellsFirst sides.now taken.now before.now result }
{
    for (number, read) in taken.iter().enumerate() {
        let required = must_end(sides.old_ends, before[number]);
        if !is_kept(sides.new_ends, sides.old_of, *read, required) {
            return Some((number as u32, required));
        }
    }
    None
}

/// Tests the reads of one instance of a leaf. `before` is over the instances of the old leaf `at`.
fn test_one(
    sides: &Sides,
    reads: &mut LeafReads,
    before: &mut LeafReads,
    at: u32,
    row: &Leaf,
    number: u32,
    spots: &[Spot],
    taken: &mut [Read],
    earlier: &mut [Read],
) -> Result<(), Lost>
    requires leaf { IsLeafRow sides.now.new.now.model reads.old.leaf row.now }
    requires within { number < row.now.count }
    requires compared { AreCompared sides.now }
    requires cursor { reads.old.flat ≡ sides.now.new.now }
    requires old_cursor { before.old.flat ≡ sides.now.old.now }
    requires old_leaf { before.old.leaf ≡ at }
    requires spots { HasReadSpots sides.now.new.now.model (row.now.base + number) spots.now }
    requires many { length taken.old ≡ reads_each reads.old.flat.model reads.old.leaf }
    requires few { length taken.old < 2 ^ 32 }
    requires as_many { length earlier.old ≡ length taken.old }
    requires kept { AreKeptBefore sides.now (row.now.base + number) }
    ensures same { reads.new ≡ reads.old }
    ensures old_same { before.new ≡ before.old }
    ensures kept { EndsKept sides.now (row.now.base + (number + 1)) result }
{
    let instance = row.base + number;
    let old = sides.old_of[instance as usize];
    reads.of(number, taken);
    read_before(
        sides.alloc,
        sides.old,
        sides.leaves,
        before,
        at,
        old,
        earlier,
    )?;
    match first_lost(sides, taken, earlier) {
        None => Ok(()),
        Some((lost, required)) => {
            let (port, point) = spots[lost as usize];
            Err(Lost::Element {
                reader: Reader::Instance(instance),
                port,
                point,
                required,
            })
        }
    }
}

/// Tests the reads of the instances of a leaf; `taken` and `earlier` have room for those of one.
fn test_instances(
    sides: &Sides,
    leaf: u32,
    reads: &mut LeafReads,
    before: &mut LeafReads,
    at: u32,
    spots: &[Spot],
    taken: &mut [Read],
    earlier: &mut [Read],
) -> Result<(), Lost>
    requires within { leaf < length (leaves sides.now.new.now.model) }
    requires compared { AreCompared sides.now }
    requires cursor { reads.old.flat ≡ sides.now.new.now }
    requires at { reads.old.leaf ≡ leaf }
    requires old_cursor { before.old.flat ≡ sides.now.old.now }
    requires old_leaf { before.old.leaf ≡ at }
    requires spots { (row : _) (n : ℕ) → IsLeafRow sides.now.new.now.model leaf row → n < row.count → HasReadSpots sides.now.new.now.model (row.base + n) spots.now }
    requires many { length taken.old ≡ reads_each reads.old.flat.model reads.old.leaf }
    requires few { length taken.old < 2 ^ 32 }
    requires as_many { length earlier.old ≡ length taken.old }
    requires kept { AreKeptBefore sides.now (instances_of (take leaf (leaves sides.now.new.now.model))) }
    ensures { EndsKept sides.now (instances_of (take (leaf + 1) (leaves sides.now.new.now.model))) result }
{
    let row = sides.new.leaf(leaf);
    for number in 0..row.count {
        test_one(sides, reads, before, at, row, number, spots, taken, earlier)?;
    }
    Ok(())
}

/// The ports and ranks of what each instance of a leaf reads.
fn read_spots(alloc: Global, flat: &Flat, leaf: u32) -> Result<Vec<Spot>, AllocError>
    requires { leaf < length (leaves flat.now.model) }
    ensures { IfOk result (λ v. (row : _) (n : ℕ) → IsLeafRow flat.now.model leaf row → n < row.count → HasReadSpots flat.now.model (row.base + n) v.items) }
{
    let model = flat.model();
    match flat.leaf(leaf).kind {
        LeafKind::Elementary(task) => input_spots(alloc, &model.tasks.as_slice()[task as usize]),
        LeafKind::Copy => {
            let mut spots = Vec::new(alloc);
            spots.push((0, 0))?;
            Ok(spots)
        }
    }
}

/// Tests the reads of the instances of a leaf.
fn test_leaf(sides: &Sides, leaf: u32) -> Result<(), Lost>
    requires within { leaf < length (leaves sides.now.new.now.model) }
    requires compared { AreCompared sides.now }
    requires kept { AreKeptBefore sides.now (instances_of (take leaf (leaves sides.now.new.now.model))) }
    ensures { EndsKept sides.now (instances_of (take (leaf + 1) (leaves sides.now.new.now.model))) result }
{
    let first = sides.old_of[sides.new.leaf(leaf).base as usize];
    let at = sides.leaves[first as usize];
    let spots = read_spots(sides.alloc, sides.new, leaf)?;
    let mut before = sides.old.reads(sides.alloc, at)?;
    let mut reads = sides.new.reads(sides.alloc, leaf)?;
    let many = reads.many() as usize;
    let mut taken = vec![in sides.alloc; Read::Const(0); many]?;
    let mut earlier = vec![in sides.alloc; Read::Const(0); many]?;
    test_instances(
        sides,
        leaf,
        &mut reads,
        &mut before,
        at,
        spots.as_slice(),
        &mut taken,
        &mut earlier,
    )
}

/// Tests the reads of all instances.
fn test_leaves(sides: &Sides) -> Result<(), Lost>
    requires { AreCompared sides.now }
    ensures { EndsKept sides.now (length (instances sides.now.new.now.model)) result }
{
    for leaf in 0..sides.new.leaves() {
        test_leaf(sides, leaf)?;
    }
    Ok(())
}

/// So many cells from this one on, as reads.
fn cells_after(alloc: Global, first: u32, count: u32) -> Result<Vec<Read>, AllocError>
    requires { first + count < 2 ^ 32 }
    ensures { IfOk result (λ v. v.items ≡ cells_from first count) }
{
    let mut reads = Vec::new(alloc);
    for number in 0..count {
        reads.push(Read::Cell(first + number))?;
    }
    Ok(reads)
}

/// How many elements the main inputs have.
fn main_input_count(alloc: Global, flat: &Flat) -> Result<u32, AllocError>
    requires { length flat.now.cells < 2 ^ 32 }
    ensures { IfOk result (λ n. n ≡ length (main_input_elements flat.now.model)) }
{
    let spots = main_input_spots(alloc, flat.model())?;
    let spots = spots.as_slice();
    Ok(spots.len() as u32)
}

/// Tests the main outputs, which have the cells after the main inputs in both models.
fn test_outputs(sides: &Sides, inputs: u32, spots: &[Spot]) -> Result<(), Lost>
    requires compared { AreCompared sides.now }
    requires few { length sides.now.new.now.cells < 2 ^ 32 }
    requires kept { AreKeptBefore sides.now (length (instances sides.now.new.now.model)) }
    requires inputs { inputs ≡ length (main_input_elements sides.now.new.now.model) }
    requires spots { spots.now ≡ places_of_sizes 0 (port_sizes (main_outputs sides.now.new.now.model)) }
    ensures { EndsAll sides.now result }
{
    let cells = cells_after(sides.alloc, inputs, spots.len() as u32)?;
    let reads = cells.as_slice();
    match first_lost(sides, reads, reads) {
        None => Ok(()),
        Some((lost, required)) => {
            let (port, point) = spots[lost as usize];
            Err(Lost::Element {
                reader: Reader::Main,
                port,
                point,
                required,
            })
        }
    }
}

/// Tests the main outputs.
fn test_main(sides: &Sides) -> Result<(), Lost>
    requires compared { AreCompared sides.now }
    requires few { length sides.now.new.now.cells < 2 ^ 32 }
    requires kept { AreKeptBefore sides.now (length (instances sides.now.new.now.model)) }
    ensures { EndsAll sides.now result }
{
    let inputs = main_input_count(sides.alloc, sides.new)?;
    let spots = main_output_spots(sides.alloc, sides.new.model())?;
    test_outputs(sides, inputs, spots.as_slice())
}

/// Tests the reads of all instances, and then the main outputs.
pub fn test_all(sides: &Sides) -> Result<(), Lost>
    requires compared { AreCompared sides.now }
    requires few { length sides.now.new.now.cells < 2 ^ 32 }
    ensures { EndsAll sides.now result }
{
    test_leaves(sides)?;
    test_main(sides)
}

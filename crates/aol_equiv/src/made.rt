//! What the instances make of the cells that they write.

ghost use Rattle.std.specs.Prelude.{◌≡◌, ◌+◌, ◌<◌, ◌^◌, ℕ, take, map, length, slice_get, Some, OnOk, IfOk};
ghost use Rattle.std.specs.List.{AllByRecursion};
ghost use Rattle.aol_flat.specs.Accept.{IsFlat};
ghost use Rattle.aol_flat.specs.Instance.{leaves};
ghost use Rattle.aol_flat.specs.Leaves.{IsLeafRow, instances_of};
ghost use Rattle.aol_flat.specs.Targets.{IsSingleAssignment};
ghost use Rattle.aol_flat.specs.LeafCursor.{reads_each, writes_each};
ghost use Rattle.aol_equiv.specs.Leads.{lead_of, put_leads};
ghost use Rattle.aol_equiv.specs.Table.{HasLeads, HasSpots, IsCopying, made_by};

use crate::leads::{Lead, lead_of};
use crate::places::{Spot, output_spots};
use aol_flat::{End, Flat, Leaf, LeafKind, LeafReads, LeafWrites, Read};
use aol_shape::NoMemory;
use std::alloc::{AllocError, Global};

/// Notes at the cells that an instance writes that they end at its outputs.
fn put_made(leads: &mut [Lead], cells: &[u32], spots: &[Spot], instance: u32)
    requires within { AllByRecursion (λ c. c < length leads.old) cells.now }
    requires many { length cells.now ≡ length spots.now }
    ensures { leads.new ≡ put_leads leads.old cells.now (map (made_by instance) spots.now) }
{
    for (number, cell) in cells.iter().enumerate() {
        let (port, point) = spots[number];
        leads[*cell as usize] = Lead::Ends(End::Made {
            instance,
            port,
            point,
        });
    }
}

/// Notes at the cell that a copy writes that it ends where the cell or number does that the copy reads.
fn put_copied(leads: &mut [Lead], cells: &[u32], reads: &[Read])
    requires within { AllByRecursion (λ c. c < length leads.old) cells.now }
    requires many { length cells.now ≡ length reads.now }
    ensures { leads.new ≡ put_leads leads.old cells.now (map lead_of reads.now) }
{
    for (number, cell) in cells.iter().enumerate() {
        leads[*cell as usize] = lead_of(reads[number]);
    }
}

/// Goes over one instance that runs a task.
fn lead_run(
    flat: &Flat,
    writes: &mut LeafWrites,
    row: &Leaf,
    number: u32,
    cells: &mut [u32],
    spots: &[Spot],
    leads: &mut [Lead],
)
    requires leaf { IsLeafRow flat.now.model writes.old.leaf row.now }
    requires within { number < row.now.count }
    requires flat { IsFlat flat.now }
    requires single { IsSingleAssignment flat.now.model }
    requires cursor { writes.old.flat ≡ flat.now }
    requires many { length cells.old ≡ writes_each writes.old.flat.model writes.old.leaf }
    requires spots { HasSpots flat.now.model (row.now.base + number) spots.now }
    requires has { HasLeads flat.now (row.now.base + number) leads.old }
    ensures same { writes.new ≡ writes.old }
    ensures has { HasLeads flat.now (row.now.base + (number + 1)) leads.new }
{
    writes.of(number, cells);
    put_made(leads, cells, spots, row.base + number);
}

/// Goes over the instances of a leaf that runs a task; `cells` has room for those of one.
fn lead_runs(
    flat: &Flat,
    leaf: u32,
    writes: &mut LeafWrites,
    cells: &mut [u32],
    spots: &[Spot],
    leads: &mut [Lead],
)
    requires within { leaf < length (leaves flat.now.model) }
    requires flat { IsFlat flat.now }
    requires single { IsSingleAssignment flat.now.model }
    requires cursor { writes.old.flat ≡ flat.now }
    requires at { writes.old.leaf ≡ leaf }
    requires many { length cells.old ≡ writes_each writes.old.flat.model writes.old.leaf }
    requires spots { (row : _) (n : ℕ) → IsLeafRow flat.now.model leaf row → n < row.count → HasSpots flat.now.model (row.base + n) spots.now }
    requires has { HasLeads flat.now (instances_of (take leaf (leaves flat.now.model))) leads.old }
    ensures { HasLeads flat.now (instances_of (take (leaf + 1) (leaves flat.now.model))) leads.new }
{
    let row = flat.leaf(leaf);
    for number in 0..row.count {
        lead_run(flat, writes, row, number, cells, spots, leads);
    }
}

/// Goes over one instance that copies.
fn lead_copy(
    flat: &Flat,
    reads: &mut LeafReads,
    writes: &mut LeafWrites,
    row: &Leaf,
    number: u32,
    taken: &mut [Read],
    cells: &mut [u32],
    leads: &mut [Lead],
)
    requires leaf { IsLeafRow flat.now.model writes.old.leaf row.now }
    requires same_leaf { reads.old.leaf ≡ writes.old.leaf }
    requires within { number < row.now.count }
    requires flat { IsFlat flat.now }
    requires single { IsSingleAssignment flat.now.model }
    requires cursor { writes.old.flat ≡ flat.now }
    requires read_cursor { reads.old.flat ≡ flat.now }
    requires many { length cells.old ≡ writes_each writes.old.flat.model writes.old.leaf }
    requires read_many { length taken.old ≡ reads_each reads.old.flat.model reads.old.leaf }
    requires copying { IsCopying flat.now.model (row.now.base + number) }
    requires has { HasLeads flat.now (row.now.base + number) leads.old }
    ensures same { writes.new ≡ writes.old }
    ensures same_reads { reads.new ≡ reads.old }
    ensures has { HasLeads flat.now (row.now.base + (number + 1)) leads.new }
{
    reads.of(number, taken);
    writes.of(number, cells);
    put_copied(leads, cells, taken);
}

/// Goes over the instances of a leaf that copies; `taken` and `cells` have room for those of one.
fn lead_copies(
    flat: &Flat,
    leaf: u32,
    reads: &mut LeafReads,
    writes: &mut LeafWrites,
    taken: &mut [Read],
    cells: &mut [u32],
    leads: &mut [Lead],
)
    requires within { leaf < length (leaves flat.now.model) }
    requires flat { IsFlat flat.now }
    requires single { IsSingleAssignment flat.now.model }
    requires cursor { writes.old.flat ≡ flat.now }
    requires read_cursor { reads.old.flat ≡ flat.now }
    requires at { writes.old.leaf ≡ leaf }
    requires read_at { reads.old.leaf ≡ leaf }
    requires many { length cells.old ≡ writes_each writes.old.flat.model writes.old.leaf }
    requires read_many { length taken.old ≡ reads_each reads.old.flat.model reads.old.leaf }
    requires copying { (row : _) (n : ℕ) → IsLeafRow flat.now.model leaf row → n < row.count → IsCopying flat.now.model (row.base + n) }
    requires has { HasLeads flat.now (instances_of (take leaf (leaves flat.now.model))) leads.old }
    ensures { HasLeads flat.now (instances_of (take (leaf + 1) (leaves flat.now.model))) leads.new }
{
    let row = flat.leaf(leaf);
    for number in 0..row.count {
        lead_copy(flat, reads, writes, row, number, taken, cells, leads);
    }
}

/// Goes over a leaf that runs the task with this number.
fn lead_run_leaf(
    alloc: Global,
    flat: &Flat,
    leaf: u32,
    task: u32,
    leads: &mut [Lead],
) -> Result<(), NoMemory>
    requires within { leaf < length (leaves flat.now.model) }
    requires flat { IsFlat flat.now }
    requires single { IsSingleAssignment flat.now.model }
    requires kind { (row : _) → IsLeafRow flat.now.model leaf row → row.kind ≡ LeafKind.Elementary task }
    requires task { task < length flat.now.model.tasks }
    requires has { HasLeads flat.now (instances_of (take leaf (leaves flat.now.model))) leads.old }
    ensures { OnOk result (HasLeads flat.now (instances_of (take (leaf + 1) (leaves flat.now.model))) leads.new) }
{
    let spots = output_spots(alloc, &flat.model().tasks.as_slice()[task as usize])?;
    let mut writes = flat.writes(alloc, leaf)?;
    let mut cells = vec![in alloc; 0u32; writes.many() as usize]?;
    lead_runs(flat, leaf, &mut writes, &mut cells, spots.as_slice(), leads);
    Ok(())
}

/// Goes over a leaf that copies.
fn lead_copy_leaf(alloc: Global, flat: &Flat, leaf: u32, leads: &mut [Lead]) -> Result<(), NoMemory>
    requires within { leaf < length (leaves flat.now.model) }
    requires flat { IsFlat flat.now }
    requires single { IsSingleAssignment flat.now.model }
    requires kind { (row : _) → IsLeafRow flat.now.model leaf row → row.kind ≡ LeafKind.Copy }
    requires has { HasLeads flat.now (instances_of (take leaf (leaves flat.now.model))) leads.old }
    ensures { OnOk result (HasLeads flat.now (instances_of (take (leaf + 1) (leaves flat.now.model))) leads.new) }
{
    let mut reads = flat.reads(alloc, leaf)?;
    let mut taken = vec![in alloc; Read::Const(0); reads.many() as usize]?;
    let mut writes = flat.writes(alloc, leaf)?;
    let mut cells = vec![in alloc; 0u32; writes.many() as usize]?;
    lead_copies(
        flat,
        leaf,
        &mut reads,
        &mut writes,
        &mut taken,
        &mut cells,
        leads,
    );
    Ok(())
}

/// Goes over a leaf.
fn lead_leaf(alloc: Global, flat: &Flat, leaf: u32, leads: &mut [Lead]) -> Result<(), NoMemory>
    requires within { leaf < length (leaves flat.now.model) }
    requires flat { IsFlat flat.now }
    requires single { IsSingleAssignment flat.now.model }
    requires has { HasLeads flat.now (instances_of (take leaf (leaves flat.now.model))) leads.old }
    ensures { OnOk result (HasLeads flat.now (instances_of (take (leaf + 1) (leaves flat.now.model))) leads.new) }
{
    match flat.leaf(leaf).kind {
        LeafKind::Elementary(task) => lead_run_leaf(alloc, flat, leaf, task, leads),
        LeafKind::Copy => lead_copy_leaf(alloc, flat, leaf, leads),
    }
}

/// Goes over all leaves.
pub fn lead_leaves(alloc: Global, flat: &Flat, leads: &mut [Lead]) -> Result<(), NoMemory>
    requires flat { IsFlat flat.now }
    requires single { IsSingleAssignment flat.now.model }
    requires none { HasLeads flat.now 0 leads.old }
    ensures { OnOk result (HasLeads flat.now (instances_of (leaves flat.now.model)) leads.new) }
{
    for leaf in 0..flat.leaves() {
        lead_leaf(alloc, flat, leaf, leads)?;
    }
    Ok(())
}

//! The reads of all instances and then the main outputs, up to the first that isn't given.

ghost use Rattle.std.specs.Prelude.{◌≡◌, ◌+◌, ◌<◌, ◌^◌, take, length, slice_get, Some, IfOk};
ghost use Rattle.std.specs.Option.{option_copied};
ghost use Rattle.aol_flat.specs.Instance.{Instance, leaves, instances, port_sizes, places_of_sizes, read_sizes};
ghost use Rattle.aol_flat.specs.Leaves.{IsLeafRow, instances_of};
ghost use Rattle.aol_flat.specs.Laid.{main_input_elements, main_output_elements};
ghost use Rattle.aol_flat.specs.Tasks.{main_task, main_inputs, main_outputs};
ghost use Rattle.aol_assign.specs.ReadsSoFar.{AreTested, AreGivenBefore, EndsReads, ReadsMain, HasReadSizes, IsReadNumber};
ghost use Rattle.aol_flat.specs.LeafCursor.{reads_each};

use crate::holes::{first_bare, first_hole, input_sizes, output_sizes, place_of, total};
use crate::refused::AssignRefused;
use crate::tasks::task_named;
use aol_flat::{Flat, Leaf, LeafKind, LeafReads, Read, Reader};
use aol_model_types::Model;
use std::alloc::{AllocError, Global};

/// The port and the rank of the read with this number of an instance of a leaf of this kind.
fn read_place(
    alloc: Global,
    flat: &Flat,
    kind: LeafKind,
    number: u32,
) -> Result<(u32, u32), AllocError>
    requires { IsReadNumber flat.now.model kind number }
    ensures { IfOk result (λ p. (i : Instance) → HasReadSizes flat.now.model i kind → slice_get (places_of_sizes 0 (read_sizes flat.now.model i)) number ≡ Some (p.0, p.1)) }
{
    match kind {
        LeafKind::Copy => Ok((0, 0)),
        LeafKind::Elementary(task) => {
            let sizes = input_sizes(alloc, &flat.model().tasks.as_slice()[task as usize])?;
            Ok(place_of(sizes.as_slice(), number))
        }
    }
}

/// Tests the reads of one instance of a leaf.
fn test_one(
    alloc: Global,
    flat: &Flat,
    reads: &mut LeafReads,
    row: &Leaf,
    number: u32,
    taken: &mut [Read],
    list: &[Option<u32>],
    inputs: u32,
) -> Result<(), AssignRefused>
    requires leaf { IsLeafRow flat.now.model reads.old.leaf row.now }
    requires within { number < row.now.count }
    requires tested { AreTested flat.now list.now inputs }
    requires cursor { reads.old.flat ≡ flat.now }
    requires many { length taken.old ≡ reads_each reads.old.flat.model reads.old.leaf }
    requires few { length taken.old < 2 ^ 32 }
    requires given { AreGivenBefore flat.now.model (row.now.base + number) }
    ensures same { reads.new ≡ reads.old }
    ensures given { EndsReads flat.now.model (row.now.base + (number + 1)) result }
{
    reads.of(number, taken);
    let Some(hole) = first_hole(list, inputs, taken) else {
        return Ok(());
    };
    let (port, point) = read_place(alloc, flat, row.kind, hole)?;
    Err(AssignRefused::Unwritten {
        reader: Reader::Instance(row.base + number),
        port,
        point,
    })
}

/// Tests the reads of the instances of a leaf; `taken` has room for those of one.
fn test_instances(
    alloc: Global,
    flat: &Flat,
    leaf: u32,
    reads: &mut LeafReads,
    taken: &mut [Read],
    list: &[Option<u32>],
    inputs: u32,
) -> Result<(), AssignRefused>
    requires within { leaf < length (leaves flat.now.model) }
    requires tested { AreTested flat.now list.now inputs }
    requires cursor { reads.old.flat ≡ flat.now }
    requires at { reads.old.leaf ≡ leaf }
    requires many { length taken.old ≡ reads_each reads.old.flat.model reads.old.leaf }
    requires few { length taken.old < 2 ^ 32 }
    requires given { AreGivenBefore flat.now.model (instances_of (take leaf (leaves flat.now.model))) }
    ensures { EndsReads flat.now.model (instances_of (take (leaf + 1) (leaves flat.now.model))) result }
{
    let row = flat.leaf(leaf);
    for number in 0..row.count {
        test_one(alloc, flat, reads, row, number, taken, list, inputs)?;
    }
    Ok(())
}

/// Tests the reads of the instances of a leaf.
fn test_leaf(
    alloc: Global,
    flat: &Flat,
    leaf: u32,
    list: &[Option<u32>],
    inputs: u32,
) -> Result<(), AssignRefused>
    requires within { leaf < length (leaves flat.now.model) }
    requires tested { AreTested flat.now list.now inputs }
    requires given { AreGivenBefore flat.now.model (instances_of (take leaf (leaves flat.now.model))) }
    ensures { EndsReads flat.now.model (instances_of (take (leaf + 1) (leaves flat.now.model))) result }
{
    let mut reads = flat.reads(alloc, leaf)?;
    let mut taken = vec![in alloc; Read::Const(0); reads.many() as usize]?;
    test_instances(alloc, flat, leaf, &mut reads, &mut taken, list, inputs)
}

/// Tests the reads of all instances.
fn test_leaves(
    alloc: Global,
    flat: &Flat,
    list: &[Option<u32>],
    inputs: u32,
) -> Result<(), AssignRefused>
    requires { AreTested flat.now list.now inputs }
    ensures { EndsReads flat.now.model (length (instances flat.now.model)) result }
{
    for leaf in 0..flat.leaves() {
        test_leaf(alloc, flat, leaf, list, inputs)?;
    }
    Ok(())
}

/// The sizes of the main inputs.
fn main_input_sizes(alloc: Global, model: &Model) -> Result<Vec<u32>, AllocError>
    ensures { IfOk result (λ v. v.items ≡ port_sizes (main_inputs model.now)) }
{
    match task_named(model.tasks.as_slice(), &model.main) {
        None => Ok(Vec::new(alloc)),
        Some(task) => input_sizes(alloc, task),
    }
}

/// The sizes of the main outputs.
fn main_output_sizes(alloc: Global, model: &Model) -> Result<Vec<u32>, AllocError>
    ensures { IfOk result (λ v. v.items ≡ port_sizes (main_outputs model.now)) }
{
    match task_named(model.tasks.as_slice(), &model.main) {
        None => Ok(Vec::new(alloc)),
        Some(task) => output_sizes(alloc, task),
    }
}

/// How many elements the main inputs have.
pub fn main_input_count(alloc: Global, flat: &Flat) -> Result<u32, AllocError>
    requires { length flat.now.cells < 2 ^ 32 }
    ensures { IfOk result (λ n. n ≡ length (main_input_elements flat.now.model)) }
{
    let sizes = main_input_sizes(alloc, flat.model())?;
    Ok(total(sizes.as_slice()))
}

/// Tests the main outputs.
fn test_main(
    alloc: Global,
    flat: &Flat,
    list: &[Option<u32>],
    inputs: u32,
) -> Result<(), AssignRefused>
    requires tested { AreTested flat.now list.now inputs }
    requires few { length flat.now.cells < 2 ^ 32 }
    requires given { AreGivenBefore flat.now.model (length (instances flat.now.model)) }
    ensures { ReadsMain flat.now.model result }
{
    let sizes = main_output_sizes(alloc, flat.model())?;
    let Some(number) = first_bare(list, inputs, total(sizes.as_slice())) else {
        return Ok(());
    };
    let (port, point) = place_of(sizes.as_slice(), number);
    Err(AssignRefused::Unwritten {
        reader: Reader::Main,
        port,
        point,
    })
}

/// Tests the reads of all instances, and then the main outputs.
pub fn test_reads(
    alloc: Global,
    flat: &Flat,
    list: &[Option<u32>],
    inputs: u32,
) -> Result<(), AssignRefused>
    requires tested { AreTested flat.now list.now inputs }
    requires few { length flat.now.cells < 2 ^ 32 }
    ensures { ReadsMain flat.now.model result }
{
    test_leaves(alloc, flat, list, inputs)?;
    test_main(alloc, flat, list, inputs)
}

//! What each instance needs, gathered from its reads and the writer of each cell.

ghost use Rattle.std.specs.Prelude.{◌≡◌, ◌+◌, ◌<◌, ◌^◌, ◌∷◌, [], ◌++◌, length, OnOk, IfOk};
ghost use Rattle.std.specs.List.{IsAmong};
ghost use Rattle.aol_flat.specs.Instance.{instances, leaves};
ghost use Rattle.aol_flat.specs.LeafCursor.{first_on};
ghost use Rattle.aol_depend.specs.Gather.{IsInList, AreEntries, AreGathered, AreNeeds};
ghost use Rattle.aol_flat.specs.Level.{writers_read};

use crate::needs::Needs;
use aol_flat::{Flat, Read};
use aol_shape::NoMemory;
use std::alloc::{AllocError, Global};

/// Adds a number.
fn push(list: &mut Vec<u32>, number: u32) -> Result<(), AllocError>
    ensures { OnOk result (list.new.items ≡ list.old.items ++ number ∷ []) }
{
    list.push(number)?;
    Ok(())
}

/// Adds the writer of what is read, where it is a cell that has one.
fn add_writer(list: &mut Vec<u32>, read: Read, writer_of: &[Option<u32>]) -> Result<(), AllocError>
    requires { IsInList writer_of.now read }
    ensures { OnOk result (list.new.items ≡ list.old.items ++ writers_read writer_of.now (read ∷ [])) }
{
    let Read::Cell(cell) = read else {
        return Ok(());
    };
    let Some(writer) = writer_of[cell as usize] else {
        return Ok(());
    };
    push(list, writer)
}

/// Adds the writers of all that an instance reads.
fn add_writers(
    list: &mut Vec<u32>,
    reads: &[Read],
    writer_of: &[Option<u32>],
) -> Result<(), AllocError>
    requires { (r : Read) → IsAmong reads.now r → IsInList writer_of.now r }
    ensures { OnOk result (list.new.items ≡ list.old.items ++ writers_read writer_of.now reads.now) }
{
    for read in reads {
        add_writer(list, *read, writer_of)?;
    }
    Ok(())
}

/// Adds the row of an instance that reads this.
pub fn add_row(
    starts: &mut Vec<u32>,
    list: &mut Vec<u32>,
    reads: &[Read],
    writer_of: &[Option<u32>],
) -> Result<(), NoMemory>
    requires { (r : Read) → IsAmong reads.now r → IsInList writer_of.now r }
    ensures list { OnOk result (list.new.items ≡ list.old.items ++ writers_read writer_of.now reads.now) }
    ensures starts { OnOk result (starts.new.items ≡ starts.old.items ++ length list.new.items ∷ []) }
{
    add_writers(list, reads, writer_of)?;
    let Ok(end) = u32::try_from(list.len()) else {
        return Err(NoMemory);
    };
    push(starts, end)?;
    Ok(())
}

/// The starts and the list of the rows so far.
#[derive(Drop)]
struct Gathered {
    starts: Vec<u32>,
    list: Vec<u32>,
}

/// Adds the rows of the instances of a leaf.
fn add_leaf(
    alloc: Global,
    flat: &Flat,
    leaf: u32,
    writer_of: &[Option<u32>],
    rows: &mut Gathered,
) -> Result<(), NoMemory>
    requires leaf { leaf < length (leaves flat.now.model) }
    requires few { length (instances flat.now.model) < 2 ^ 32 }
    requires entries { AreEntries flat.now writer_of.now }
    requires before { AreGathered flat.now writer_of.now (first_on flat.now.model leaf) rows.old.starts.items rows.old.list.items }
    ensures { OnOk result (AreGathered flat.now writer_of.now (first_on flat.now.model (leaf + 1)) rows.new.starts.items rows.new.list.items) }
{
    let mut cursor = flat.reads(alloc, leaf)?;
    let mut buffer = vec![in alloc; Read::Const(0); cursor.many() as usize]?;
    let reads = buffer.as_mut_slice();
    for number in 0..flat.leaf(leaf).count {
        cursor.of(number, reads);
        add_row(&mut rows.starts, &mut rows.list, reads, writer_of)?;
    }
    Ok(())
}

/// What each instance needs, by what it reads and the writer of each cell.
pub fn needs_of(alloc: Global, flat: &Flat, writer_of: &[Option<u32>]) -> Result<Needs, NoMemory>
    requires { AreEntries flat.now writer_of.now }
    ensures { IfOk result (λ needs. AreNeeds flat.now writer_of.now needs) }
{
    let mut rows = Gathered {
        starts: Vec::with_capacity(alloc, flat.instances() as usize)?,
        list: Vec::new(alloc),
    };
    push(&mut rows.starts, 0)?;
    for leaf in 0..flat.leaves() {
        add_leaf(alloc, flat, leaf, writer_of, &mut rows)?;
    }
    Ok(Needs::of_rows(rows.starts, rows.list))
}

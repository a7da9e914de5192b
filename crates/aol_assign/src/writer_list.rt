//! The one writer of each cell.

ghost use Rattle.std.specs.Prelude.{◌≡◌, ◌+◌, ◌<◌, take, length, slice_get, Some, None, ℕ, OnOk, IfOk, IfErr};
ghost use Rattle.std.specs.List.{AllByRecursion};
ghost use Rattle.aol_flat.specs.Accept.{IsFlat};
ghost use Rattle.aol_flat.specs.Instance.{leaves};
ghost use Rattle.aol_flat.specs.Leaves.{IsLeafRow, instances_of};
ghost use Rattle.aol_flat.specs.Level.{AreWriters};
ghost use Rattle.aol_flat.specs.Targets.{IsSingleAssignment};
ghost use Rattle.aol_assign.specs.WriterList.{put_all, HasWriters};
ghost use Rattle.aol_flat.specs.LeafCursor.{writes_each};

use crate::refused::AssignRefused;
use aol_flat::{Flat, Leaf, LeafWrites};
use aol_shape::{Items, NoMemory};
use std::alloc::{AllocError, Global};

/// The instance that writes each cell of a model that is laid out, or none where nothing does.
#[derive(Drop)]
pub struct Writers {
    of_cell: Items<Option<u32>>,
}

impl std::marker::Model for Writers {
    ghost use Rattle.std.specs.Prelude.{List, ℕ, Option};

    ghost Value = { List (Option ℕ) };

    ghost view = { λ w. w.of_cell };
}

impl Writers {
    /// The instance that writes the cell, or none where nothing does.
    pub fn writer_of(&self, cell: u32) -> Option<u32>
        requires { cell < length self.now }
        ensures { slice_get self.now cell ≡ Some result }
    {
        self.of_cell.as_slice()[cell as usize]
    }

    /// The same for each cell in order.
    pub fn list(&self) -> &[Option<u32>]
        ensures { result.now ≡ self.now }
    {
        self.of_cell.as_slice()
    }
}

/// Puts an instance at the cells that it writes.
fn put(list: &mut [Option<u32>], cells: &[u32], number: u32)
    requires { AllByRecursion (λ c. c < length list.old) cells.now }
    ensures { list.new ≡ put_all list.old cells.now number }
{
    for cell in cells {
        list[*cell as usize] = Some(number);
    }
}

/// Puts one instance of a leaf at the cells that it writes.
fn put_one(
    flat: &Flat,
    writes: &mut LeafWrites,
    row: &Leaf,
    number: u32,
    cells: &mut [u32],
    list: &mut [Option<u32>],
)
    requires leaf { IsLeafRow flat.now.model writes.old.leaf row.now }
    requires within { number < row.now.count }
    requires flat { IsFlat flat.now }
    requires single { IsSingleAssignment flat.now.model }
    requires cursor { writes.old.flat ≡ flat.now }
    requires many { length cells.old ≡ writes_each writes.old.flat.model writes.old.leaf }
    requires has { HasWriters flat.now (row.now.base + number) list.old }
    ensures same { writes.new ≡ writes.old }
    ensures has { HasWriters flat.now (row.now.base + (number + 1)) list.new }
{
    writes.of(number, cells);
    put(list, cells, row.base + number);
}

/// Puts the instances of a leaf at the cells that they write; `cells` has room for those of one.
fn put_instances(
    flat: &Flat,
    leaf: u32,
    writes: &mut LeafWrites,
    cells: &mut [u32],
    list: &mut [Option<u32>],
)
    requires within { leaf < length (leaves flat.now.model) }
    requires flat { IsFlat flat.now }
    requires single { IsSingleAssignment flat.now.model }
    requires cursor { writes.old.flat ≡ flat.now }
    requires at { writes.old.leaf ≡ leaf }
    requires many { length cells.old ≡ writes_each writes.old.flat.model writes.old.leaf }
    requires has { HasWriters flat.now (instances_of (take leaf (leaves flat.now.model))) list.old }
    ensures { HasWriters flat.now (instances_of (take (leaf + 1) (leaves flat.now.model))) list.new }
{
    let row = flat.leaf(leaf);
    for number in 0..row.count {
        put_one(flat, writes, row, number, cells, list);
    }
}

/// Puts the instances of a leaf at the cells that they write.
fn put_leaf(alloc: Global, flat: &Flat, leaf: u32, list: &mut [Option<u32>]) -> Result<(), NoMemory>
    requires within { leaf < length (leaves flat.now.model) }
    requires flat { IsFlat flat.now }
    requires single { IsSingleAssignment flat.now.model }
    requires has { HasWriters flat.now (instances_of (take leaf (leaves flat.now.model))) list.old }
    ensures { OnOk result (HasWriters flat.now (instances_of (take (leaf + 1) (leaves flat.now.model))) list.new) }
{
    let mut writes = flat.writes(alloc, leaf)?;
    let mut cells = vec![in alloc; 0u32; writes.many() as usize]?;
    put_instances(flat, leaf, &mut writes, &mut cells, list);
    Ok(())
}

/// Puts the instances of all leaves at the cells that they write.
fn put_leaves(alloc: Global, flat: &Flat, list: &mut [Option<u32>]) -> Result<(), NoMemory>
    requires flat { IsFlat flat.now }
    requires single { IsSingleAssignment flat.now.model }
    requires none { HasWriters flat.now 0 list.old }
    ensures { OnOk result (AreWriters flat.now list.new) }
{
    for leaf in 0..flat.leaves() {
        put_leaf(alloc, flat, leaf, list)?;
    }
    Ok(())
}

/// No writer of any of so many cells.
fn no_writers(alloc: Global, count: usize) -> Result<Vec<Option<u32>>, AllocError>
    ensures many { IfOk result (λ v. length v.items ≡ count) }
    ensures none { IfOk result (λ v. (c j : ℕ) → slice_get v.items c ≡ Some (Some j) → ⊥) }
{
    let list = vec![in alloc; None; count]?;
    Ok(list)
}

/// The list of the writers of all cells.
pub fn writer_list(alloc: Global, flat: &Flat) -> Result<Writers, AssignRefused>
    requires { IsSingleAssignment flat.now.model }
    ensures writers { IfOk result (λ w. AreWriters flat.now w) }
    ensures memory { IfErr result (λ e. e ≡ AssignRefused.NoMemory) }
{
    flat.model();
    let mut list = no_writers(alloc, flat.cells() as usize)?;
    put_leaves(alloc, flat, &mut list)?;
    Ok(Writers {
        of_cell: Items::from_vec(list),
    })
}

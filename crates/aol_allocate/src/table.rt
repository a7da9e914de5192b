//! Entry by entry: the workers of the leaves that entries name.

ghost use Rattle.std.specs.Prelude.{◌≡◌, ◌<◌, ◌≤◌, ◌^◌, [], length, IfOk, Some, is_some, slice_get};
ghost use Rattle.std.specs.List.{AllByRecursion};
ghost use Rattle.aol_shape.specs.Shape.{IsEntry};
ghost use Rattle.aol_flat.specs.Accept.{IsSound};
ghost use Rattle.aol_flat.specs.Instance.{leaves};
ghost use Rattle.aol_allocate.specs.Marks.{PlacesSpace};
ghost use Rattle.aol_allocate.specs.Tables.{FindsLeaves, IsTable, PlacesNext, PlacesAll};

use crate::cause::{PlaceCause, PlaceRefused};
use crate::fault::PlaceFault;
use crate::limits::MAX_WORKERS;
use crate::marks::place_space;
use crate::paths::number_of;
use aol_flat::{Flat, Leaf};
use aol_model_types::Entry;
use aol_shape::{Items, Shape};
use std::alloc::{AllocError, Global};
use std::collections::BTreeMap;

/// The workers of a leaf's instances as its entry places them, where it has one.
pub type Row = Option<Items<u8>>;

/// What entries are placed over.
#[derive(Clone, Copy)]
pub struct Places<'a> {
    pub alloc: Global,
    pub flat: &'a Flat,
    /// The numbers of the elementary leaves by their paths.
    pub numbers: &'a BTreeMap<String, u32>,
    pub workers: u32,
}

/// A row for each leaf, before any entry.
pub fn no_rows(alloc: Global, flat: &Flat) -> Result<Items<Row>, AllocError>
    ensures none { IfOk result (λ rows. (workers : _) → IsTable flat.now.model workers [] rows) }
    ensures few { length (leaves flat.now.model) < 2 ^ 32 }
{
    let mut rows = Items::new(alloc);
    for _ in 0..flat.leaves() {
        rows.push(None)?;
    }
    Ok(rows)
}

/// The workers of a leaf's instances as the entry places them, or why it doesn't.
fn place_leaf(
    alloc: Global,
    entry: &Entry,
    leaf: &Leaf,
    workers: u32,
) -> Result<Items<u8>, PlaceFault>
    requires entries { AllByRecursion IsEntry leaf.now.space }
    requires some { 1 ≤ workers }
    requires bound { workers ≤ MAX_WORKERS }
    ensures { PlacesSpace entry.now workers leaf.now.space result }
{
    match Shape::new(alloc, leaf.space.as_slice()) {
        Some(space) => place_space(alloc, entry, &space, workers),
        None => Err(PlaceFault::Cause(PlaceCause::Shape)),
    }
}

/// Whether the leaf with this number has the row of an entry.
fn has_row(rows: &Items<Row>, number: u32) -> bool
    requires { number < length rows.now }
    ensures { (row : _) → slice_get rows.now number ≡ Some row → result ≡ is_some row }
{
    rows.as_slice()[number as usize].is_some()
}

/// Places one more entry: its leaf gets its row.
fn place_entry(from: Places, entry: &Entry, rows: &mut Items<Row>) -> Result<(), PlaceFault>
    requires sound { IsSound from.flat.now.model }
    requires numbers { FindsLeaves from.flat.now.model from.numbers.now }
    requires some { 1 ≤ from.workers }
    requires bound { from.workers ≤ MAX_WORKERS }
    requires many { length rows.old ≡ length (leaves from.flat.now.model) }
    ensures next { PlacesNext from.entry.flat.now.model from.entry.workers entry.now rows.old rows.new result }
    ensures many { length rows.new ≡ length rows.old }
{
    let Some(number) = number_of(from.numbers, &entry.leaf) else {
        return Err(PlaceFault::Cause(PlaceCause::NoLeaf));
    };
    if has_row(rows, number) {
        return Err(PlaceFault::Cause(PlaceCause::NoLeaf));
    }
    match place_leaf(from.alloc, entry, from.flat.leaf(number), from.workers) {
        Ok(placed) => {
            rows.set(number as usize, Some(placed));
            Ok(())
        }
        Err(fault) => Err(fault),
    }
}

/// Places all entries in order, up to the first that has a cause.
pub fn place_entries(
    from: Places,
    entries: &[Entry],
    rows: &mut Items<Row>,
) -> Result<(), PlaceRefused>
    requires sound { IsSound from.flat.now.model }
    requires numbers { FindsLeaves from.flat.now.model from.numbers.now }
    requires some { 1 ≤ from.workers }
    requires bound { from.workers ≤ MAX_WORKERS }
    requires few { length (leaves from.flat.now.model) < 2 ^ 32 }
    requires none { IsTable from.flat.now.model from.workers [] rows.old }
    ensures { PlacesAll from.entry.flat.now.model from.entry.workers entries.now rows.new result }
{
    for (number, entry) in entries.iter().enumerate() {
        match place_entry(from, entry, rows) {
            Ok(()) => {}
            Err(PlaceFault::Cause(cause)) => {
                let entry = number as u32;
                return Err(PlaceRefused::Entry { entry, cause });
            }
            Err(PlaceFault::NoMemory) => return Err(PlaceRefused::NoMemory),
        }
    }
    Ok(())
}

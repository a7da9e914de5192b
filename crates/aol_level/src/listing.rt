//! The cells that instances write, listed.

ghost use Rattle.std.specs.Prelude.{◌≡◌, ◌+◌, ◌<◌, ◌≤◌, ◌∷◌, ◌++◌, [], length, take, All, IfOk, OnOk};
ghost use Rattle.aol_flat.specs.Instance.{instances, leaves};
ghost use Rattle.aol_flat.specs.LeafCursor.{writes_each};
ghost use Rattle.aol_flat.specs.Level.{AreWritesOf};
ghost use Rattle.aol_flat.specs.Net.{Net, IsNetOf, writes_at};
ghost use Rattle.aol_level.specs.Made.{AreCursors, IsLeafOf, IsListing};
ghost use Rattle.aol_level.specs.Parts.{AreCellsOf, AreInstances};

use crate::finding::leaf_of;
use aol_flat::{Flat, LeafWrites};
use aol_shape::{Items, NoMemory};
use std::alloc::Global;

/// A cursor over the writes of each leaf, a buffer for those of one instance, and the leaf of the last one.
#[derive(Drop)]
pub struct Listing<'a> {
    pub cursors: Vec<LeafWrites<'a>>,
    pub written: Vec<u32>,
    pub leaf: u32,
}

/// Adds a cursor.
fn push<'a>(cursors: &mut Vec<LeafWrites<'a>>, cursor: LeafWrites<'a>) -> Result<(), NoMemory>
    ensures { OnOk result (cursors.new.items ≡ cursors.old.items ++ cursor.entry ∷ []) }
{
    match cursors.push(cursor) {
        Ok(()) => Ok(()),
        Err(_) => Err(NoMemory),
    }
}

impl<'a> Listing<'a> {
    /// Cursors at the first instances.
    pub fn of(alloc: Global, flat: &'a Flat) -> Result<Listing<'a>, NoMemory>
        ensures { IfOk result (IsListing flat.now) }
    {
        let mut cursors = Vec::with_capacity(alloc, flat.leaves() as usize)?;
        let mut most = 0;
        for leaf in 0..flat.leaves() {
            let cursor = flat.writes(alloc, leaf)?;
            most = most.max(cursor.many());
            push(&mut cursors, cursor)?;
        }
        let written = vec![in alloc; 0u32; most as usize]?;
        Ok(Listing {
            cursors,
            written,
            leaf: 0,
        })
    }
}

/// Puts the cells that an instance of the leaf writes into the front of a buffer. It answers how many they are.
fn write_on(
    flat: &Flat,
    leaf: u32,
    instance: u32,
    cursors: &mut [LeafWrites<'_>],
    written: &mut [u32],
) -> usize
    requires leaf { IsLeafOf flat.now.model instance leaf }
    requires cursors { AreCursors flat.now cursors.old }
    requires room { writes_each flat.now.model leaf ≤ length written.old }
    ensures cursors { AreCursors flat.now cursors.new }
    ensures many { result ≡ writes_each flat.now.model leaf }
    ensures writes { AreWritesOf flat.now instance (take result written.new) }
{
    let number = instance - flat.leaf(leaf).base;
    let cursor = &mut cursors[leaf as usize];
    let many = cursor.many() as usize;
    cursor.of(number, &mut written[..many]);
    many
}

/// Adds the cells that an instance writes.
fn add_cells(
    flat: &Flat,
    listing: &mut Listing<'_>,
    cells: &mut Vec<u32>,
    instance: u32,
) -> Result<(), NoMemory>
    requires instance { instance < length (instances flat.now.model) }
    requires listing { IsListing flat.now listing.old }
    ensures listing { IsListing flat.now listing.new }
    ensures cells { OnOk result ((net : Net) → IsNetOf flat.now net → cells.new.items ≡ cells.old.items ++ writes_at net instance) }
{
    let _model = flat.model();
    let leaf = leaf_of(flat, listing.leaf, instance);
    listing.leaf = leaf;
    let many = write_on(
        flat,
        leaf,
        instance,
        listing.cursors.as_mut_slice(),
        listing.written.as_mut_slice(),
    );
    cells.extend_from_slice(&listing.written.as_slice()[..many])?;
    Ok(())
}

/// The cells that some instances write, instance after instance.
pub fn cells_of(
    alloc: Global,
    flat: &Flat,
    listing: &mut Listing<'_>,
    numbers: &[u32],
) -> Result<Vec<u32>, NoMemory>
    requires numbers { AreInstances flat.now numbers.now }
    requires listing { IsListing flat.now listing.old }
    ensures listing { IsListing flat.now listing.new }
    ensures cells { IfOk result (λ cells. AreCellsOf flat.now numbers.now cells.items) }
{
    let mut cells = Vec::new(alloc);
    for number in numbers {
        add_cells(flat, listing, &mut cells, *number)?;
    }
    Ok(cells)
}

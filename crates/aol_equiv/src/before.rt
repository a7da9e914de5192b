//! What an instance of the old model reads, found by its number.

ghost use Rattle.std.specs.Prelude.{◌≡◌, ◌+◌, ◌<◌, ◌++◌, replicate, length, OnOk, IfOk};
ghost use Rattle.aol_flat.specs.Accept.{IsFlat};
ghost use Rattle.aol_flat.specs.Cursor.{IsReadCount};
ghost use Rattle.aol_flat.specs.Instance.{leaves, instances};
ghost use Rattle.aol_flat.specs.Level.{AreReadsOf};
ghost use Rattle.aol_equiv.specs.Before.{AreLeavesTo, IsOnLeaf};

use aol_flat::{Flat, LeafReads, Read};
use aol_shape::NoMemory;
use std::alloc::{AllocError, Global};

/// Adds a leaf for each of its instances.
fn push_leaf(list: &mut Vec<u32>, leaf: u32, count: u32) -> Result<(), AllocError>
    ensures { OnOk result (list.new.items ≡ list.old.items ++ replicate count leaf) }
{
    for _number in 0..count {
        list.push(leaf)?;
    }
    Ok(())
}

/// The leaf of each instance.
pub fn leaf_list(alloc: Global, flat: &Flat) -> Result<Vec<u32>, NoMemory>
    ensures { IfOk result (λ v. AreLeavesTo flat.now.model (length (instances flat.now.model)) v.items) }
{
    let mut list = Vec::new(alloc);
    for leaf in 0..flat.leaves() {
        push_leaf(&mut list, leaf, flat.leaf(leaf).count)?;
    }
    Ok(list)
}

/// What an instance of another leaf reads than that of the cursor at hand.
fn read_elsewhere(
    alloc: Global,
    flat: &Flat,
    leaf: u32,
    instance: u32,
    into: &mut [Read],
) -> Result<(), NoMemory>
    requires on { IsOnLeaf flat.now.model leaf instance }
    requires flat { IsFlat flat.now }
    requires within { instance < length (instances flat.now.model) }
    requires many { IsReadCount flat.now instance (length into.old) }
    ensures { OnOk result (AreReadsOf flat.now instance into.new) }
{
    let mut reads = flat.reads(alloc, leaf)?;
    reads.of(instance - flat.leaf(leaf).base, into);
    Ok(())
}

/// What an instance reads, by the cursor where that is over the instances of its leaf.
pub fn read_before(
    alloc: Global,
    flat: &Flat,
    leaves: &[u32],
    reads: &mut LeafReads,
    at: u32,
    instance: u32,
    into: &mut [Read],
) -> Result<(), NoMemory>
    requires listed { AreLeavesTo flat.now.model (length (instances flat.now.model)) leaves.now }
    requires flat { IsFlat flat.now }
    requires cursor { reads.old.flat ≡ flat.now }
    requires at { reads.old.leaf ≡ at }
    requires within { instance < length (instances flat.now.model) }
    requires many { IsReadCount flat.now instance (length into.old) }
    ensures same { reads.new ≡ reads.old }
    ensures reads { OnOk result (AreReadsOf flat.now instance into.new) }
{
    let leaf = leaves[instance as usize];
    if leaf != at {
        return read_elsewhere(alloc, flat, leaf, instance, into);
    }
    reads.of(instance - flat.leaf(leaf).base, into);
    Ok(())
}

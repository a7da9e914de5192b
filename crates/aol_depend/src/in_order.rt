//! The levels of all instances in one pass, where each needs earlier ones alone.

ghost use Rattle.std.specs.Prelude.{◌≡◌, ◌+◌, ◌<◌, ◌^◌, [], ◌∷◌, ◌++◌, length, IsTrue, OnOk, IfOk, IfSome};
ghost use Rattle.std.specs.List.{IsAmong};
ghost use Rattle.aol_flat.specs.Instance.{instances, leaves};
ghost use Rattle.aol_flat.specs.LeafCursor.{first_on};
ghost use Rattle.aol_flat.specs.Level.{Reads, AreReads, AreLevels};
ghost use Rattle.aol_depend.specs.Gather.{IsInList, AreEntries};
ghost use Rattle.aol_depend.specs.MainReads.{ReadsMainInputs, AreBare};
ghost use Rattle.aol_depend.specs.InOrder.{AreLow, IsAbove, AreRankedBefore, RanksLeaf};

use crate::level_list::Levels;
use crate::main_reads::{are_bare, reads_main};
use aol_flat::{Flat, Read};
use aol_shape::NoMemory;
use std::alloc::{AllocError, Global};

/// Adds a level.
fn push(levels: &mut Vec<u32>, level: u32) -> Result<(), AllocError>
    ensures { OnOk result (levels.new.items ≡ levels.old.items ++ level ∷ []) }
{
    levels.push(level)?;
    Ok(())
}

/// One more than the level of the instance that writes what is read, and 0 where none does.
///
/// It answers none where that instance has no level yet.
fn level_over(levels: &[u32], read: Read, writer_of: &[Option<u32>]) -> Option<u32>
    requires list { IsInList writer_of.now read }
    requires low { AreLow levels.now }
    ensures { IfSome result (IsAbove levels.now writer_of.now (read ∷ [])) }
{
    let Read::Cell(cell) = read else {
        return Some(0);
    };
    let Some(writer) = writer_of[cell as usize] else {
        return Some(0);
    };
    let level = *levels.get(writer as usize)?;
    Some(level + 1)
}

/// The level of an instance that reads this; none where it needs one that has no level yet.
fn level_above(levels: &[u32], reads: &[Read], writer_of: &[Option<u32>]) -> Option<u32>
    requires list { (r : Read) → IsAmong reads.now r → IsInList writer_of.now r }
    requires low { AreLow levels.now }
    ensures { IfSome result (IsAbove levels.now writer_of.now reads.now) }
{
    let mut level = 0;
    for read in reads {
        level = level_over(levels, *read, writer_of)?.max(level);
    }
    Some(level)
}

/// Adds the levels of the instances of a leaf, and answers whether each needs earlier ones alone.
fn rank_leaf(
    alloc: Global,
    flat: &Flat,
    leaf: u32,
    writer_of: &[Option<u32>],
    levels: &mut Vec<u32>,
) -> Result<bool, NoMemory>
    requires leaf { leaf < length (leaves flat.now.model) }
    requires few { length (instances flat.now.model) < 2 ^ 32 }
    requires entries { AreEntries flat.now writer_of.now }
    requires before { AreRankedBefore flat.now writer_of.now (first_on flat.now.model leaf) levels.old.items }
    ensures { IfOk result (λ all. IsTrue all → AreRankedBefore flat.now writer_of.now (first_on flat.now.model (leaf + 1)) levels.new.items) }
{
    let mut cursor = flat.reads(alloc, leaf)?;
    let mut buffer = vec![in alloc; Read::Const(0); cursor.many() as usize]?;
    let reads = buffer.as_mut_slice();
    for number in 0..flat.leaf(leaf).count {
        cursor.of(number, reads);
        let Some(level) = level_above(levels.as_slice(), reads, writer_of) else {
            return Ok(false);
        };
        push(levels, level)?;
    }
    Ok(true)
}

/// Adds level 0 for each instance of a leaf that reads main inputs alone.
fn rank_first_leaf(flat: &Flat, leaf: u32, levels: &mut Vec<u32>) -> Result<(), AllocError>
    requires leaf { leaf < length (leaves flat.now.model) }
    requires reads { ReadsMainInputs flat.now leaf }
    ensures { OnOk result (RanksLeaf flat.now leaf levels.old.items levels.new.items) }
{
    for _number in 0..flat.leaf(leaf).count {
        push(levels, 0)?;
    }
    Ok(())
}

/// Adds the levels of the instances of a leaf; where no main input has a writer, `bare` may say so.
fn rank_next(
    alloc: Global,
    flat: &Flat,
    leaf: u32,
    writer_of: &[Option<u32>],
    bare: bool,
    levels: &mut Vec<u32>,
) -> Result<bool, NoMemory>
    requires leaf { leaf < length (leaves flat.now.model) }
    requires few { length (instances flat.now.model) < 2 ^ 32 }
    requires entries { AreEntries flat.now writer_of.now }
    requires bare { IsTrue bare → AreBare flat.now writer_of.now }
    requires before { AreRankedBefore flat.now writer_of.now (first_on flat.now.model leaf) levels.old.items }
    ensures { IfOk result (λ all. IsTrue all → AreRankedBefore flat.now writer_of.now (first_on flat.now.model (leaf + 1)) levels.new.items) }
{
    if bare && reads_main(flat, leaf) {
        rank_first_leaf(flat, leaf, levels)?;
        return Ok(true);
    }
    rank_leaf(alloc, flat, leaf, writer_of, levels)
}

/// The levels of all instances; none where some instance needs itself or a later one.
pub fn levels_in_order(
    alloc: Global,
    flat: &Flat,
    writer_of: &[Option<u32>],
) -> Result<Option<Levels>, NoMemory>
    requires { AreEntries flat.now writer_of.now }
    ensures { IfOk result (λ found. IfSome found (λ levels. (reads : Reads) × AreReads flat.now reads × AreLevels reads writer_of.now levels)) }
{
    let mut levels = Vec::with_capacity(alloc, flat.instances() as usize)?;
    let bare = flat.leaves() > 0 && are_bare(flat, writer_of);
    for leaf in 0..flat.leaves() {
        if !rank_next(alloc, flat, leaf, writer_of, bare, &mut levels)? {
            return Ok(None);
        }
    }
    Ok(Some(Levels::of(levels)))
}

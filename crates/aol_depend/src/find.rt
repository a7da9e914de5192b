//! The levels of a model that is laid out.

ghost use Rattle.std.specs.Prelude.{◌≡◌, ℕ, IfOk};
ghost use Rattle.aol_flat.specs.Level.{Reads, AreReads, AreLevels, IsFirstInLoop};
ghost use Rattle.aol_depend.specs.Gather.{AreEntries};

use crate::gather::needs_of;
use crate::in_order::levels_in_order;
use crate::level_list::{Levels, levels_of};
use crate::refused::DependRefused;
use aol_flat::Flat;
use std::alloc::Global;

/// The level of each instance of a model that is laid out, by the writer of each cell.
///
/// `writer_of` has one entry for each cell: the number of the instance that writes it, or none. An instance needs those
/// that write the cells that it reads. `Cycle` tells the least instance of a set in which each needs one of the set.
///
/// Where each instance needs earlier ones alone, one pass over the reads finds all levels, and takes no memory for needs.
/// A leaf that reads main inputs alone isn't read at all. Else the needs are gathered, and searched in time linear in them.
pub fn levels(
    alloc: Global,
    flat: &Flat,
    writer_of: &[Option<u32>],
) -> Result<Levels, DependRefused>
    requires { AreEntries flat.now writer_of.now }
    ensures levels { IfOk result (λ l. (reads : Reads) × AreReads flat.now reads × AreLevels reads writer_of.now l) }
    ensures cycle { (j : ℕ) → result ≡ Err (DependRefused.Cycle j) → (reads : Reads) × AreReads flat.now reads × IsFirstInLoop reads writer_of.now j }
{
    if let Some(levels) = levels_in_order(alloc, flat, writer_of)? {
        return Ok(levels);
    }
    let needs = needs_of(alloc, flat, writer_of)?;
    levels_of(alloc, &needs)
}

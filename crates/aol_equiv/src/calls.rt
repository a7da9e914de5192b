//! Whether a new model keeps an old one.

ghost use Rattle.std.specs.Prelude.{OnOk, IfErr};
ghost use Rattle.aol_flat.specs.Keep.{AreComparable, Keeps, KeepsOutputs};
ghost use Rattle.aol_flat.specs.Targets.{IsSingleAssignment};
ghost use Rattle.aol_equiv.specs.Answers.{IsRightlyLost};

use crate::before::leaf_list;
use crate::compare::{Sides, test_all};
use crate::lost::Lost;
use crate::table::ends_of;
use aol_flat::Flat;
use std::alloc::Global;

/// Whether each read of the new model ends where the same read of the old one does; then the new model is accepted, and
/// has the old main outputs.
///
/// `old_of` has the number of an old instance for each new one. Both must run a task of one name, or both copy; the
/// elementary tasks and the main ports of the two models are the same, the old model is accepted, and nothing is written
/// twice in the new one, as `aol_assign::writers` finds. `Element` tells the first read that isn't kept, by instance, port
/// and rank, and then the main outputs.
pub fn keeps(alloc: Global, old: &Flat, new: &Flat, old_of: &[u32]) -> Result<(), Lost>
    requires comparable { AreComparable old.now.model new.now.model old_of.now }
    requires single { IsSingleAssignment new.now.model }
    ensures ok { OnOk result (Keeps old.now.model new.now.model old_of.now) }
    ensures agrees { OnOk result (KeepsOutputs old.now.model new.now.model) }
    ensures refused { IfErr result (IsRightlyLost old.now.model new.now.model old_of.now) }
{
    old.model();
    new.model();
    let _cells = new.cells();
    let old_ends = ends_of(alloc, old)?;
    let new_ends = ends_of(alloc, new)?;
    let leaves = leaf_list(alloc, old)?;
    test_all(&Sides {
        alloc,
        old,
        new,
        old_ends: old_ends.as_slice(),
        new_ends: new_ends.as_slice(),
        old_of,
        leaves: leaves.as_slice(),
    })
}

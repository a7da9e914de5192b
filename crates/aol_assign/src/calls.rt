//! Single assignment of a model that is laid out.

ghost use Rattle.std.specs.Prelude.{OnOk, IfOk, IfErr};
ghost use Rattle.aol_flat.specs.Level.{AreWriters};
ghost use Rattle.aol_flat.specs.Targets.{IsSingleAssignment};
ghost use Rattle.aol_flat.specs.Reads.{AllGiven};
ghost use Rattle.aol_assign.specs.Answers.{IsTwiceTold, IsRightlyTold};
ghost use Rattle.aol_assign.specs.ReadsSoFar.{ReadsMain};

use crate::holes::are_written;
use crate::reads::{main_input_count, test_reads};
use crate::refused::AssignRefused;
use crate::twice::test_single;
use crate::writer_list::{Writers, writer_list};
use aol_flat::Flat;
use std::alloc::Global;

/// The instance that writes each cell, or the first point that is written twice.
///
/// `Twice` tells the first target, in the preorder of nodes, that has two pairs of tilers or reshapes with one point:
/// there the first pair whose point an earlier one has. It never answers `Unwritten`.
pub fn writers(alloc: Global, flat: &Flat) -> Result<Writers, AssignRefused>
    ensures single { OnOk result (IsSingleAssignment flat.now.model) }
    ensures writers { IfOk result (λ w. AreWriters flat.now w) }
    ensures refused { IfErr result (IsTwiceTold flat.now.model) }
{
    test_single(alloc, flat)?;
    writer_list(alloc, flat)
}

/// The same where also every element that is read is given, by a main input, a default number, an elementary task or a
/// reshape. `Unwritten` tells the first read that isn't, by instance, port and rank, and then the main outputs.
pub fn assign(alloc: Global, flat: &Flat) -> Result<Writers, AssignRefused>
    ensures single { OnOk result (IsSingleAssignment flat.now.model) }
    ensures given { OnOk result (AllGiven flat.now.model) }
    ensures writers { IfOk result (λ w. AreWriters flat.now w) }
    ensures refused { IfErr result (IsRightlyTold flat.now.model) }
{
    let found = writers(alloc, flat)?;
    test_given(alloc, flat, &found)?;
    Ok(found)
}

/// Tests that every element that is read is given.
fn test_given(alloc: Global, flat: &Flat, found: &Writers) -> Result<(), AssignRefused>
    requires single { IsSingleAssignment flat.now.model }
    requires writers { AreWriters flat.now found.now }
    ensures { ReadsMain flat.now.model result }
{
    flat.model();
    let _cells = flat.cells();
    let inputs = main_input_count(alloc, flat)?;
    if are_written(found.list(), inputs) {
        return Ok(());
    }
    test_reads(alloc, flat, found.list(), inputs)
}

ghost use Rattle.std.specs.Prelude.{◌≡◌, ◌+◌, ◌≤◌, ◌++◌, pos, length, replicate, IfOk};
ghost use Rattle.aol_tiler.specs.Tiler.{unit_columns};

use crate::columns::ZEROS;
use crate::tiler::IntMat;
use aol_shape::IntVec;
use std::alloc::{AllocError, Global};

/// Pushes the unit vectors of these dimensions, with so many zeros in front and after.
pub fn push_units(
    alloc: Global,
    made: &mut IntMat,
    before: usize,
    dimensions: &[u32],
    after: usize,
) -> Result<(), AllocError>
    requires { before + length dimensions.now + after ≤ 12 }
    ensures { IfOk result (λ _. made.new ≡ made.old ++ unit_columns (replicate before (pos 0)) dimensions.now (replicate after (pos 0))) }
{
    let rank = before + dimensions.len() + after;
    match dimensions.split_first() {
        None => Ok(()),
        Some((_, behind)) => {
            let mut unit = ZEROS;
            unit[before] = 1;
            match IntVec::new(alloc, &unit[..rank]) {
                Some(unit) => made.push(unit)?,
                None => unreachable!(),
            }
            push_units(alloc, made, before + 1, behind, after)
        }
    }
}

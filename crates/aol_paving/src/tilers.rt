//! Tilers from an outer port to an innermost one.

ghost use Rattle.std.specs.Prelude.{◌≡◌, ◌+◌, ◌++◌, ◌≤◌, length, IfOk, OnOk};
ghost use Rattle.aol_tiler.specs.Makers.{AreComposable, IsBlockable};
ghost use Rattle.aol_tiler.specs.Tiler.{composed, blocked};
ghost use Rattle.aol_change.specs.Change.{tiler_limit};
ghost use Rattle.aol_change.specs.Made.{IsWithin};
ghost use Rattle.aol_paving.specs.Crossings.{with_pattern, crossed_tiler};
ghost use Rattle.aol_paving.specs.Pave.{crossing_limit};
ghost use Rattle.aol_paving.specs.Paving.{CanCross};

use crate::crossing::Crossing;
use aol_change::StepRefused;
use aol_shape::{IntVec, LimitName, NoMemory, Shape};
use aol_tiler::{IntMat, Tiler, TilerRefused};
use std::alloc::Global;

/// Pushes equal columns.
fn push_columns(columns: &[IntVec], into: &mut IntMat) -> Result<(), NoMemory>
    ensures { OnOk result (into.new ≡ into.old ++ columns.now) }
{
    for column in columns {
        into.push(column.copy())?;
    }
    Ok(())
}

/// The tiler with so many paving columns, and the others as first fitting columns.
pub fn with_pattern(alloc: Global, tiler: &Tiler, many: usize) -> Result<Tiler, NoMemory>
    requires within { many ≤ length tiler.now.paving }
    requires room { length tiler.now.paving + length tiler.now.fitting ≤ 12 }
    ensures { IfOk result (λ t. t ≡ with_pattern many tiler.now) }
{
    let _columns = tiler.paving_columns();
    let (outer, inner) = tiler.paving.as_slice().split_at(many);
    let mut paving = IntMat::new(alloc);
    push_columns(outer, &mut paving)?;
    let mut fitting = IntMat::new(alloc);
    push_columns(inner, &mut fitting)?;
    push_columns(tiler.fitting.as_slice(), &mut fitting)?;
    Ok(Tiler {
        origin: tiler.origin.copy(),
        paving,
        fitting,
    })
}

/// An equal tiler.
pub fn copied(alloc: Global, tiler: &Tiler) -> Result<Tiler, NoMemory>
    ensures { IfOk result (λ t. t ≡ tiler.now) }
{
    let _columns = tiler.paving_columns();
    let mut paving = IntMat::new(alloc);
    push_columns(tiler.paving.as_slice(), &mut paving)?;
    let mut fitting = IntMat::new(alloc);
    push_columns(tiler.fitting.as_slice(), &mut fitting)?;
    Ok(Tiler {
        origin: tiler.origin.copy(),
        paving,
        fitting,
    })
}

/// The inner tiler over the pattern of the outer one, as one tiler.
fn composed(alloc: Global, outer: &Tiler, inner: &Tiler) -> Result<Tiler, StepRefused>
    requires { AreComposable outer.now inner.now }
    ensures made { IfOk result (λ t. t ≡ composed outer.now inner.now) }
    ensures limit { IsWithin result (tiler_limit (composed outer.now inner.now)) }
{
    match Tiler::compose(alloc, outer, inner) {
        Ok(tiler) => Ok(tiler),
        Err(TilerRefused::Entry(_)) => Err(StepRefused::Limit(LimitName::Entry)),
        Err(TilerRefused::NoMemory) => Err(StepRefused::NoMemory),
    }
}

/// A tiler in blocks.
fn blocked(alloc: Global, tiler: &Tiler, block: &Shape) -> Result<Tiler, StepRefused>
    requires { IsBlockable tiler.now block.now }
    ensures made { IfOk result (λ t. t ≡ blocked tiler.now block.now) }
    ensures limit { IsWithin result (tiler_limit (blocked tiler.now block.now)) }
{
    match tiler.blocked(alloc, block) {
        Ok(tiler) => Ok(tiler),
        Err(TilerRefused::Entry(_)) => Err(StepRefused::Limit(LimitName::Entry)),
        Err(TilerRefused::NoMemory) => Err(StepRefused::NoMemory),
    }
}

/// Both tilers as one, with the repetitions of the inner level in its pattern, in blocks of the outer level.
pub fn crossed_tiler(
    alloc: Global,
    crossing: &Crossing,
    block: &Shape,
) -> Result<Tiler, StepRefused>
    requires { CanCross block.now crossing.now }
    ensures made { IfOk result (λ t. t ≡ crossed_tiler block.now crossing.now) }
    ensures limit { IsWithin result (crossing_limit block.now crossing.now) }
{
    let both = composed(alloc, &crossing.outer.tiler, &crossing.inner.tiler)?;
    let wide = with_pattern(alloc, &both, block.as_slice().len())?;
    let tiler = blocked(alloc, &wide, block)?;
    Ok(tiler)
}

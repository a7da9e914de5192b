//! Values that the tables are made of.

ghost use Rattle.std.specs.Prelude.{◌↔◌, IsTrue, IfOk};
ghost use Rattle.aol_shape.specs.Shape.{IsPointOf};
ghost use Rattle.aol_shape.specs.Vectors.{IsVector};

use aol_shape::{IntVec, Shape};
use aol_tiler::{IntMat, Tiler};
use std::alloc::Global;
use std::test::Fail;

pub fn vector(alloc: Global, entries: &[i32]) -> Result<IntVec, Fail>
    ensures { IfOk result IsVector }
{
    match IntVec::new(alloc, entries) {
        Some(made) => Ok(made),
        None => Err("no vector".into()),
    }
}

pub fn shape(alloc: Global, entries: &[u32]) -> Result<Shape, Fail> {
    Ok(Shape::new(alloc, entries).ok_or("no shape")?)
}

/// A tiler with one column in each matrix.
#[tactic(auto, using(crate::proofs::Tried::tiler_line))]
pub fn tiler(
    alloc: Global,
    origin: &[i32],
    paving: &[i32],
    fitting: &[i32],
) -> Result<Tiler, Fail> {
    let origin = vector(alloc, origin)?;
    let paving = vector(alloc, paving)?;
    let fitting = vector(alloc, fitting)?;
    let mut pavings = IntMat::new(alloc);
    pavings.push(paving)?;
    let mut fittings = IntMat::new(alloc);
    fittings.push(fitting)?;
    Ok(Tiler {
        origin,
        paving: pavings,
        fitting: fittings,
    })
}

/// Whether the indices are those of a point of the shape.
pub fn is_point(shape: &[u32], point: &[u32]) -> bool
    ensures { IsTrue result ↔ IsPointOf shape.now point.now }
{
    match (shape.split_first(), point.split_first()) {
        (Some((entry, shape)), Some((index, point))) => index < entry && is_point(shape, point),
        (None, None) => true,
        _ => false,
    }
}

//! Points of a shape by their ranks in row-major order: the last index runs fastest.

ghost use Rattle.std.specs.Prelude.{◌≡◌, ◌+◌, ◌*◌, ◌<◌, ◌≤◌, ◌↔◌, length, IsTrue};
ghost use Rattle.std.specs.Bool.{OnTrue, OnFalse};
ghost use Rattle.std.specs.List.{AllByRecursion};
ghost use Rattle.aol_shape.specs.Shape.{IsEntry, IsPointOf, size, rank, point_at};

use crate::shape::Shape;

/// The rank of a point of the shape: `(.. (p0 * n1 + p1) * n2 ..) + pk` for the entries `n0, n1, ..`.
pub fn rank_of(shape: &Shape, point: &[u32]) -> u32
    requires { IsPointOf shape.now point.now }
    ensures rank { result ≡ rank shape.now point.now }
    ensures within { result < size shape.now }
{
    ranked(0, shape.as_slice(), point) as u32
}

/// The rank after indices whose rank is `before`.
fn ranked(before: u64, shape: &[u32], point: &[u32]) -> u64
    requires inside { IsPointOf shape.now point.now }
    requires entries { AllByRecursion IsEntry shape.now }
    requires few { (before + 1) * size shape.now ≤ 4194304 }
    ensures { result ≡ before * size shape.now + rank shape.now point.now }
{
    match (shape.split_first(), point.split_first()) {
        (Some((entry, shape)), Some((index, point))) => {
            ranked(before * u64::from(*entry) + u64::from(*index), shape, point)
        }
        _ => before,
    }
}

/// Writes the point with rank `x`, which is below the shape's size.
pub fn unrank_into(shape: &Shape, x: u32, point: &mut [u32])
    requires within { x < size shape.now }
    requires same { length point.old ≡ length shape.now }
    ensures { point.new ≡ point_at shape.now x }
{
    let entries = shape.as_slice();
    let mut behind = shape.size();
    let mut x = x;
    for (k, entry) in entries.iter().enumerate() {
        behind /= *entry;
        point[k] = x / behind;
        x %= behind;
    }
}

/// Moves to the point with the next rank and answers true; at the last point it goes back to the first and answers false.
pub fn next_point(shape: &Shape, point: &mut [u32]) -> bool
    requires { IsPointOf shape.now point.old }
    ensures more { IsTrue result ↔ (rank shape.now point.old + 1 < size shape.now) }
    ensures next { OnTrue result (point.new ≡ point_at shape.now (rank shape.now point.old + 1)) }
    ensures first { OnFalse result (point.new ≡ point_at shape.now 0) }
{
    advance(shape.as_slice(), point)
}

/// The same for the entries of a shape, from the last index on: it costs the indices that change.
fn advance(entries: &[u32], point: &mut [u32]) -> bool
    requires { IsPointOf entries.now point.old }
    ensures more { IsTrue result ↔ (rank entries.now point.old + 1 < size entries.now) }
    ensures next { OnTrue result (point.new ≡ point_at entries.now (rank entries.now point.old + 1)) }
    ensures first { OnFalse result (point.new ≡ point_at entries.now 0) }
{
    let Some((entry, outer)) = entries.split_last() else {
        return false;
    };
    let Some((index, before)) = point.split_last_mut() else {
        return false;
    };
    let greatest = entry.saturating_sub(1);
    if *index < greatest {
        *index += 1;
        return true;
    }
    *index = 0;
    advance(outer, before)
}

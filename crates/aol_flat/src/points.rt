//! Points of the spaces of leaves by their ranks. Such a space may have more entries than a shape.

ghost use Rattle.std.specs.Prelude.{◌≡◌, ◌+◌, ◌<◌, ◌↔◌, ℕ, length, IsTrue};
ghost use Rattle.std.specs.Bool.{OnTrue, OnFalse};
ghost use Rattle.aol_shape.specs.Shape.{IsPointOf, size, rank, point_at};
ghost use Rattle.aol_trail.specs.Further.{further};

/// Writes the point with rank `x` of a space that has `count` points.
pub fn unrank(entries: &[u32], count: u32, x: u32, point: &mut [u32])
    requires count { count ≡ size entries.now }
    requires within { x < count }
    requires same { length point.old ≡ length entries.now }
    ensures { point.new ≡ point_at entries.now x }
{
    let mut after = count;
    let mut x = x;
    for (k, entry) in entries.iter().enumerate() {
        after /= *entry;
        point[k] = x / after;
        x %= after;
    }
}

/// Moves to the point with the next rank and answers true; at the last point it goes back to the first and answers false.
///
/// It costs the indices that change.
fn advance(entries: &[u32], point: &mut [u32]) -> bool
    requires { IsPointOf entries.now point.old }
    ensures more { IsTrue result ↔ (rank entries.now point.old + 1 < size entries.now) }
    ensures next { OnTrue result (point.new ≡ point_at entries.now (rank entries.now point.old + 1)) }
    ensures first { OnFalse result (point.new ≡ point_at entries.now 0) }
{
    let Some((entry, outer)) = entries.split_last() else {
        return false;
    };
    let Some((index, before)) = point.split_last_mut() else {
        return false;
    };
    let greatest = entry.saturating_sub(1);
    if *index < greatest {
        *index += 1;
        return true;
    }
    *index = 0;
    advance(outer, before)
}

/// Moves from the point with rank `from` of a space that has `count` points to that with rank `to`.
///
/// It costs the indices that change where `to` is one more than `from`.
pub fn go_on(entries: &[u32], count: u32, from: u32, to: u32, point: &mut [u32])
    requires count { count ≡ size entries.now }
    requires from { from < count }
    requires to { to < count }
    requires at { point.old ≡ point_at entries.now from }
    ensures { point.new ≡ point_at entries.now to }
{
    if to == from {
        return;
    }
    if to == from + 1 {
        let _moved = advance(entries, point);
    } else {
        unrank(entries, count, to, point);
    }
}

/// For how many points from this one on only the last index differs.
pub fn left_in(entries: &[u32], point: &[u32]) -> u32
    requires { IsPointOf entries.now point.now }
    ensures some { 0 < result }
    ensures inside { (i : ℕ) → i < result → IsPointOf entries.now (further i point.now) }
    ensures rank { (i : ℕ) → i < result → rank entries.now (further i point.now) ≡ rank entries.now point.now + i }
{
    let Some((entry, _)) = entries.split_last() else {
        return 1;
    };
    let Some((index, _)) = point.split_last() else {
        return 1;
    };
    *entry - *index
}

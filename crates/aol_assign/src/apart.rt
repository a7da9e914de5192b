//! Whether the columns of a tiler count in mixed radix: then different pairs write different points.

ghost use Rattle.std.specs.Prelude.{◌≡◌, ◌<◌, ◌≤◌, ◌^◌, ℕ, length, IsTrue, IfSome};
ghost use Rattle.std.specs.List.{AllByRecursion};
ghost use Rattle.aol_assign.specs.Apart.{Steps, Counts, CountsIn, Moves, EachMoves, WritesApart};
ghost use Rattle.aol_assign.specs.Pairs.{FitsIn};

use crate::pairs::Member;
use aol_shape::{IntVec, Shape};
use aol_tiler::Tiler;

/// How far sums go with one column more, where without it they go up to `inner`.
///
/// It answers none where they reach the limit, or where the column moves no further than they go.
fn step(entry: i32, extent: u32, inner: u64, limit: u64) -> Option<u64>
    requires some { 1 ≤ extent }
    requires small { inner < limit }
    requires limit { limit ≤ 2 ^ 32 }
    ensures steps { IfSome result (λ outer. Steps entry extent inner outer) }
    ensures below { IfSome result (λ outer. outer < limit) }
{
    if extent == 1 || entry == 0 {
        return Some(inner);
    }
    let further = u64::from(entry.unsigned_abs());
    if entry < 0 || further <= inner {
        return None;
    }
    let outer = inner + further * u64::from(extent - 1);
    if outer < limit { Some(outer) } else { None }
}

/// How far sums go in dimension `k` with these columns, where without them they go up to `inner`.
fn count_in(columns: &[IntVec], extents: &[u32], k: usize, inner: u64, limit: u64) -> Option<u64>
    requires long { AllByRecursion (λ c. k < length c) columns.now }
    requires some { AllByRecursion (λ e. 1 ≤ e) extents.now }
    requires small { inner < limit }
    requires limit { limit ≤ 2 ^ 32 }
    ensures counts { IfSome result (λ outer. Counts columns.now extents.now k inner outer) }
    ensures below { IfSome result (λ outer. outer < limit) }
{
    match (columns.split_first(), extents.split_first()) {
        (Some((column, columns)), Some((extent, extents))) => {
            let middle = count_in(columns, extents, k, inner, limit)?;
            step(column.as_slice()[k], *extent, middle, limit)
        }
        _ => Some(inner),
    }
}

/// Whether all columns count in dimension `k`.
fn counts_in(array: &Shape, member: &Member, k: usize) -> bool
    requires fits { FitsIn array.now member.now }
    requires within { k < length array.now }
    ensures { IsTrue result → CountsIn member.now.tiler.now array.now member.now.space.now member.now.pattern.now k }
{
    let limit = u64::from(array.as_slice()[k]);
    let tiler: &Tiler = member.tiler;
    let fitting = tiler.fitting.as_slice();
    let Some(inner) = count_in(fitting, member.pattern.as_slice(), k, 0, limit) else {
        return false;
    };
    let paving = tiler.paving.as_slice();
    let Some(_outer) = count_in(paving, member.space.as_slice(), k, inner, limit) else {
        return false;
    };
    true
}

/// Whether a column moves something.
fn moves(column: &IntVec) -> bool
    ensures { IsTrue result → Moves column.now }
{
    for entry in column.as_slice() {
        if *entry != 0 {
            return true;
        }
    }
    false
}

/// Whether each column that has more than one index does.
fn each_moves(columns: &[IntVec], extents: &[u32]) -> bool
    ensures { IsTrue result → EachMoves columns.now extents.now }
{
    match (columns.split_first(), extents.split_first()) {
        (Some((column, columns)), Some((extent, extents))) => {
            (*extent == 1 || moves(column)) && each_moves(columns, extents)
        }
        _ => true,
    }
}

/// Whether all columns count in each dimension.
fn all_count(array: &Shape, member: &Member) -> bool
    requires { FitsIn array.now member.now }
    ensures { IsTrue result → (k : ℕ) → k < length array.now → CountsIn member.now.tiler.now array.now member.now.space.now member.now.pattern.now k }
{
    for k in 0..array.as_slice().len() {
        if !counts_in(array, member, k) {
            return false;
        }
    }
    true
}

/// Whether different pairs of a member surely write different points.
pub fn writes_apart(array: &Shape, member: &Member) -> bool
    requires { FitsIn array.now member.now }
    ensures { IsTrue result → WritesApart member.now.tiler.now array.now member.now.space.now member.now.pattern.now }
{
    let tiler: &Tiler = member.tiler;
    if !each_moves(tiler.paving.as_slice(), member.space.as_slice()) {
        return false;
    }
    if !each_moves(tiler.fitting.as_slice(), member.pattern.as_slice()) {
        return false;
    }
    all_count(array, member)
}

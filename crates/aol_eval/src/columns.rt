//! Loops over columns: one number for each lane.

ghost use Rattle.std.specs.Prelude.{◌≡◌, true, false, ◌<◌, ◌+◌, ◌^◌, ℕ, ℤ, pos, List, ◌∷◌, length, slice_index, slice_index_or};
ghost use Rattle.std.specs.Bool.{OnTrue};
ghost use Rattle.aol_expr_tree.specs.declared.op.ExprOp.TheVariants.{Add, Mul, Rem};
ghost use Rattle.aol_expr_tree.specs.Meaning.{is_zero, nth_number};
ghost use Rattle.aol_eval.specs.Lanes.{IsApplied, added_up};
ghost use Rattle.aol_eval.specs.Lines.{number_on};
ghost use Rattle.aol_eval.specs.Places.{rank_on};

use crate::arithmetic::{add, apply, multiply, remainder};
use crate::lines::Line;
use aol_expr_tree::{ExprOp, Kind};

/// The same number in each lane.
pub(crate) fn fill_same(out: &mut [i64], number: i64)
    ensures { (i : ℕ) → i < length out.new → slice_index_or out.new i (pos 0) ≡ number }
{
    for z in out.iter_mut() {
        *z = number;
    }
}

/// The numbers of a line; false where one is outside 64 bits.
pub(crate) fn fill_line(out: &mut [i64], line: Line) -> bool
    ensures { OnTrue result ((i : ℕ) → i < length out.new → slice_index_or out.new i (pos 0) ≡ number_on line i) }
{
    if !line.moves {
        fill_same(out, line.first);
        return true;
    }
    for k in 0..out.len() {
        match line.first.checked_add(k as i64) {
            Some(z) => out[k] = z,
            None => return false,
        }
    }
    true
}

/// Consecutive numbers, the first of them in the first lane.
pub(crate) fn fill_from(out: &mut [i64], first: u32)
    requires { first + length out.old < 2 ^ 33 }
    ensures { (i : ℕ) → i < length out.new → slice_index_or out.new i (pos 0) ≡ pos (first + i) }
{
    let mut next = i64::from(first);
    for z in out.iter_mut() {
        *z = next;
        next += 1;
    }
}

/// The sum in each lane; false where it is a fault in one.
fn add_each(out: &mut [i64], right: &[i64]) -> bool
    requires { length right.now ≡ length out.old }
    ensures { OnTrue result (IsApplied Add out.old right.now out.new) }
{
    for k in 0..out.len() {
        match add(out[k], right[k]) {
            Ok(z) => out[k] = z,
            Err(_) => return false,
        }
    }
    true
}

/// The product in each lane; false where it is a fault in one.
fn multiply_each(out: &mut [i64], right: &[i64]) -> bool
    requires { length right.now ≡ length out.old }
    ensures { OnTrue result (IsApplied Mul out.old right.now out.new) }
{
    for k in 0..out.len() {
        match multiply(out[k], right[k]) {
            Ok(z) => out[k] = z,
            Err(_) => return false,
        }
    }
    true
}

/// The remainder in each lane; false where it is a fault in one.
fn remainder_each(out: &mut [i64], right: &[i64]) -> bool
    requires { length right.now ≡ length out.old }
    ensures { OnTrue result (IsApplied Rem out.old right.now out.new) }
{
    for k in 0..out.len() {
        match remainder(out[k], right[k]) {
            Ok(z) => out[k] = z,
            Err(_) => return false,
        }
    }
    true
}

/// The operator at the numbers of each lane; false where it is a fault in one.
fn apply_each(op: ExprOp, out: &mut [i64], right: &[i64]) -> bool
    requires { length right.now ≡ length out.old }
    ensures { OnTrue result (IsApplied op out.old right.now out.new) }
{
    for k in 0..out.len() {
        match apply(op, out[k], right[k]) {
            Ok(z) => out[k] = z,
            Err(_) => return false,
        }
    }
    true
}

/// The operator at the numbers of each lane, with a loop of its own for sums, products and remainders; false where it is a
/// fault in one.
pub(crate) fn combine(op: ExprOp, out: &mut [i64], right: &[i64]) -> bool
    requires { length right.now ≡ length out.old }
    ensures { OnTrue result (IsApplied op out.old right.now out.new) }
{
    match op {
        ExprOp::Add => add_each(out, right),
        ExprOp::Mul => multiply_each(out, right),
        ExprOp::Rem => remainder_each(out, right),
        _ => apply_each(op, out, right),
    }
}

/// Whether each lane has 0.
pub(crate) fn all_zero(column: &[i64]) -> bool
    ensures { OnTrue result ((i : ℕ) → i < length column.now → is_zero (slice_index_or column.now i (pos 0)) ≡ true) }
{
    for z in column {
        if *z != 0 {
            return false;
        }
    }
    true
}

/// Whether no lane has 0.
pub(crate) fn none_zero(column: &[i64]) -> bool
    ensures { OnTrue result ((i : ℕ) → i < length column.now → is_zero (slice_index_or column.now i (pos 0)) ≡ false) }
{
    for z in column {
        if *z == 0 {
            return false;
        }
    }
    true
}

/// Rank 0 in each lane.
pub(crate) fn fill_zero(ranks: &mut [u32])
    ensures { (i : ℕ) → i < length ranks.new → slice_index ranks.new i ≡ 0 }
{
    for rank in ranks.iter_mut() {
        *rank = 0;
    }
}

/// The ranks with one more index in each lane, for an entry of a shape; false where an index isn't below it.
pub(crate) fn advance(ranks: &mut [u32], indices: &[i64], entry: u32) -> bool
    requires { length indices.now ≡ length ranks.old }
    ensures { OnTrue result ((i : ℕ) → i < length ranks.new → (rest : List ℕ) (more : List ℤ) → rank_on (entry ∷ rest) (slice_index ranks.old i) (slice_index_or indices.now i (pos 0) ∷ more) ≡ rank_on rest (slice_index ranks.new i) more) }
{
    for k in 0..ranks.len() {
        let index = indices[k];
        if index < 0 || index >= i64::from(entry) {
            return false;
        }
        let rank = u64::from(ranks[k]) * u64::from(entry) + index as u64;
        match u32::try_from(rank) {
            Ok(rank) => ranks[k] = rank,
            Err(_) => return false,
        }
    }
    true
}

/// The number with this rank, 0 where the numbers don't go so far.
#[tactic(auto, using(crate::proofs::Places::nth_number_get))]
fn number_at(nums: &[i64], rank: u32) -> i64
    ensures { result ≡ nth_number nums.now rank }
{
    nums.get(rank as usize).copied().unwrap_or(0)
}

/// The numbers with these ranks, 0 where the numbers don't go so far.
pub(crate) fn gather(nums: &[i64], ranks: &[u32], out: &mut [i64])
    requires { length ranks.now ≡ length out.old }
    ensures { (i : ℕ) → i < length out.new → slice_index_or out.new i (pos 0) ≡ nth_number nums.now (slice_index ranks.now i) }
{
    for k in 0..out.len() {
        out[k] = number_at(nums, ranks[k]);
    }
}

/// The sum with the numbers of all lanes added in order, or `Overflow`.
pub(crate) fn add_up(sum: i64, column: &[i64]) -> Result<i64, Kind>
    ensures { result ≡ added_up sum column.now }
{
    let mut sum = sum;
    for z in column {
        sum = add(sum, *z)?;
    }
    Ok(sum)
}

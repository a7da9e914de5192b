//! Indices that stay the same from lane to lane, or go up by one: a read then goes on by one step from lane to lane.

ghost use Rattle.std.specs.Prelude.{◌≡◌, true, false, ◌<◌, ◌≤◌, ◌*◌, ◌+◌, ◌+ℤ◌, ℕ, pos, length, slice_index_or, Ok, IfSome};
ghost use Rattle.std.specs.Bool.{OnTrue};
ghost use Rattle.aol_expr_tree.specs.Meaning.{checked, nth_number};
ghost use Rattle.aol_eval.specs.Lines.{moved, number_on, rank_in_lane, IsLineOf, LeadsTo};

use crate::arithmetic::apply;
use aol_expr_tree::ExprOp;

/// A number in each lane: the first, and whether it goes up by one from lane to lane.
#[derive(Clone, Copy)]
pub(crate) struct Line {
    pub(crate) first: i64,
    pub(crate) moves: bool,
}

/// The rank in each lane: the first, and how far it is from one to the next.
#[derive(Clone, Copy)]
pub(crate) struct Ranks {
    pub(crate) first: u32,
    pub(crate) step: u32,
}

/// The same number in each lane.
#[tactic(auto, using(crate::proofs::LineSteps::plus_none))]
pub(crate) fn still(first: i64) -> Line
    ensures { (i : ℕ) → number_on result i ≡ first }
{
    Line {
        first,
        moves: false,
    }
}

/// How far from 0 the first number of a line that moves is at most.
const FAR: i64 = 4611686018427387904;

/// The line that goes up by one from this number, unless it is far from 0.
#[tactic(auto, using(crate::proofs::LineSteps::checked_near))]
fn moving(first: i64) -> Option<Line>
    ensures { IfSome result (λ line. (i : ℕ) → i < 128 → checked (first +ℤ pos i) ≡ Ok (number_on line i)) }
{
    if -FAR <= first && first < FAR {
        Some(Line { first, moves: true })
    } else {
        None
    }
}

/// An operator at two numbers that stay.
#[tactic(auto, using(crate::proofs::LineSteps::op_still))]
fn still_of(op: ExprOp, left: Line, right: Line) -> Option<Line>
    requires left { left.moves ≡ false }
    requires right { right.moves ≡ false }
    ensures { IfSome result (IsLineOf op left right) }
{
    match apply(op, left.first, right.first) {
        Ok(first) => Some(Line {
            first,
            moves: false,
        }),
        Err(_) => None,
    }
}

/// The line of an operator at two lines, where it is one and no result is a fault.
pub(crate) fn line_of_op(op: ExprOp, left: Line, right: Line) -> Option<Line>
    ensures { IfSome result (IsLineOf op left right) }
{
    match (op, left.moves, right.moves) {
        (_, false, false) => still_of(op, left, right),
        (ExprOp::Add, false, true) => moving(left.first.checked_add(right.first)?),
        (ExprOp::Add, true, false) => moving(left.first.checked_add(right.first)?),
        (ExprOp::Sub, true, false) => moving(left.first.checked_sub(right.first)?),
        _ => None,
    }
}

/// How many numbers there are from the first to the last of so many lanes.
fn span(moves: bool, count: u32) -> u32
    ensures { (i : ℕ) → i < count → moved moves i < result }
{
    if moves { count } else { 1 }
}

/// The first number of a line that is below an entry in each of the first lanes, and not below 0.
fn first_below(line: Line, entry: u32, count: u32) -> Option<u32>
    ensures { IfSome result (λ first. (i : ℕ) → i < count → (number_on line i ≡ pos (first + moved line.moves i)) × (first + moved line.moves i < entry)) }
{
    let first = u32::try_from(line.first).ok()?;
    if u64::from(first) + u64::from(span(line.moves, count)) <= u64::from(entry) {
        Some(first)
    } else {
        None
    }
}

/// How far it is from lane to lane.
fn step_of(moves: bool) -> u32
    ensures { result ≡ moved moves 1 }
{
    if moves { 1 } else { 0 }
}

/// A rank with one more index.
fn scaled(rank: u32, entry: u32, index: u32) -> Option<u32>
    ensures { IfSome result (λ r. r ≡ rank * entry + index) }
{
    u32::try_from(u64::from(rank) * u64::from(entry) + u64::from(index)).ok()
}

/// The ranks with one more index, where it is below the entry in each of the first lanes.
pub(crate) fn next_ranks(ranks: Ranks, line: Line, entry: u32, count: u32) -> Option<Ranks>
    ensures { IfSome result (LeadsTo ranks line entry count) }
{
    let first = first_below(line, entry, count)?;
    let first = scaled(ranks.first, entry, first)?;
    let step = scaled(ranks.step, entry, step_of(line.moves))?;
    Some(Ranks { first, step })
}

/// The number with this rank, where the numbers go so far.
#[tactic(auto, using(crate::proofs::Places::nth_number_get))]
pub(crate) fn nth(nums: &[i64], rank: u64) -> Option<i64>
    ensures { IfSome result (λ z. z ≡ nth_number nums.now rank) }
{
    nums.get(rank as usize).copied()
}

/// The numbers at the ranks; false where the numbers don't go so far.
pub(crate) fn take(nums: &[i64], ranks: Ranks, out: &mut [i64]) -> bool
    requires few { length out.old ≤ 128 }
    ensures { OnTrue result ((i : ℕ) → i < length out.new → slice_index_or out.new i (pos 0) ≡ nth_number nums.now (rank_in_lane ranks i)) }
{
    let mut rank = u64::from(ranks.first);
    for k in 0..out.len() {
        let Some(z) = nth(nums, rank) else {
            return false;
        };
        out[k] = z;
        rank += u64::from(ranks.step);
    }
    true
}

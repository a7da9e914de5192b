//! Programs: operations one after another, without names, sums or branches.

ghost use Rattle.std.specs.Prelude.{◌≡◌, ◌≤◌, ◌+◌, length, Ok, IfSome, nat_abs};
ghost use Rattle.aol_expr_tree.specs.Meaning.{nth_number};
ghost use Rattle.aol_eval.specs.Programs.{next_rank, operand_value, operation_value, Yields};

use crate::arithmetic::{add, apply, multiply, subtract};
use crate::inputs::entry;
use aol_expr_tree::ExprOp;
use aol_shape::Items;

/// The most operations of a program.
pub(crate) const LONGEST: usize = 128;

/// How many operations need only a little room.
const SMALL: usize = 6;

/// How many need more.
const MIDDLE: usize = 32;

/// What an operation is applied to.
#[derive(Clone, Copy)]
pub(crate) enum Operand {
    /// What the operation with this number gave.
    Given(usize),
    /// The number with this rank in the patterns.
    Place(usize),
    Number(i64),
}

/// One step of a program.
#[derive(Clone, Copy, Drop)]
pub(crate) enum Operation {
    /// `$k`.
    Entry(u32),
    Add(Operand, Operand),
    Subtract(Operand, Operand),
    Multiply(Operand, Operand),
    Apply(ExprOp, Operand, Operand),
    /// The second where the first isn't 0, else the third.
    Choose(Operand, Operand, Operand),
    /// The rank with one more index, which is checked against the entry.
    Rank(Operand, u32, Operand),
    /// The number behind the first so many whose rank is a rank with one more index, which is checked against the entry.
    Element(usize, Operand, u32, Operand),
}

/// Operations, and where its value is.
#[derive(Drop)]
pub(crate) struct Program {
    pub(crate) operations: Items<Operation>,
    pub(crate) value: Operand,
}

impl Operand {
    /// Its number.
    #[inline(always)]
    fn number(self, nums: &[i64], given: &[i64]) -> i64
        ensures { result ≡ operand_value nums.now given.now self }
    {
        match self {
            Operand::Given(k) => nth(given, k),
            Operand::Place(k) => nth(nums, k),
            Operand::Number(number) => number,
        }
    }
}

/// The number with a rank, or 0.
#[inline(always)]
#[tactic(auto, using(crate::proofs::Places::nth_number_get))]
fn nth(nums: &[i64], rank: usize) -> i64
    ensures { result ≡ nth_number nums.now rank }
{
    nums.get(rank).copied().unwrap_or(0)
}

/// The rank with one more index, where the index is below the entry.
#[inline(always)]
pub(crate) fn rank_with(rank: i64, entry: u32, index: i64) -> Option<i64>
    ensures { IfSome result (λ z. next_rank entry rank index ≡ Ok z) }
{
    if 0 <= index && index < i64::from(entry) {
        rank.checked_mul(i64::from(entry))?.checked_add(index)
    } else {
        None
    }
}

/// The number with this rank behind the first so many.
#[inline(always)]
fn number_after(nums: &[i64], start: usize, rank: i64) -> Option<i64>
    ensures { IfSome result (λ z. z ≡ nth_number nums.now (start + nat_abs rank)) }
{
    let place = start.checked_add(usize::try_from(rank).ok()?)?;
    Some(nth(nums, place))
}

/// What an operation gives, where it is no fault.
#[inline(always)]
fn given_by(operation: Operation, nums: &[i64], at: &[u32], given: &[i64]) -> Option<i64>
    ensures { IfSome result (λ z. operation_value nums.now at.now given.now operation ≡ Ok z) }
{
    match operation {
        Operation::Entry(k) => Some(entry(at, k)),
        Operation::Add(left, right) => add(
            left.number(nums, given),
            right.number(nums, given),
        ).ok(),
        Operation::Subtract(left, right) => {
            subtract(left.number(nums, given), right.number(nums, given)).ok()
        }
        Operation::Multiply(left, right) => {
            multiply(left.number(nums, given), right.number(nums, given)).ok()
        }
        Operation::Apply(op, left, right) => {
            apply(op, left.number(nums, given), right.number(nums, given)).ok()
        }
        Operation::Choose(condition, then, otherwise) => {
            if condition.number(nums, given) != 0 {
                Some(then.number(nums, given))
            } else {
                Some(otherwise.number(nums, given))
            }
        }
        Operation::Rank(rank, entry, index) => {
            let rank = rank.number(nums, given);
            let index = index.number(nums, given);
            rank_with(rank, entry, index)
        }
        Operation::Element(start, rank, entry, index) => {
            let rank = rank.number(nums, given);
            let index = index.number(nums, given);
            number_after(nums, start, rank_with(rank, entry, index)?)
        }
    }
}

/// The value of a program, where none of its operations is a fault; `given` has room for what they give.
#[inline(always)]
fn outcome_in(program: &Program, nums: &[i64], at: &[u32], given: &mut [i64]) -> Option<i64>
    requires { length program.now.operations ≤ length given.old }
    ensures { IfSome result (Yields program.now nums.now at.now) }
{
    let operations = program.operations.as_slice();
    for k in 0..operations.len() {
        let z = given_by(operations[k], nums, at, &given[..k])?;
        given[k] = z;
    }
    Some(program.value.number(nums, given))
}

/// The value of a program, where none of its operations is a fault.
pub(crate) fn outcome_of(program: &Program, nums: &[i64], at: &[u32]) -> Option<i64>
    ensures { IfSome result (Yields program.now nums.now at.now) }
{
    let count = program.operations.len();
    if count <= SMALL {
        outcome_in(program, nums, at, &mut [0i64; SMALL])
    } else if count <= MIDDLE {
        outcome_in(program, nums, at, &mut [0i64; MIDDLE])
    } else if count <= LONGEST {
        outcome_in(program, nums, at, &mut [0i64; LONGEST])
    } else {
        None
    }
}

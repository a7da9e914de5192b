//! Sums of products of elements that stand one step apart: added as they are multiplied, without columns.

ghost use Rattle.std.specs.Prelude.{◌≡◌, ℕ, ◌+◌, ◌<◌, ◌≤◌, ◌∷◌, pos, Ok, IfSome};
ghost use Rattle.aol_expr_tree.specs.Meaning.{nth_number, summed};
ghost use Rattle.aol_eval.specs.Frames.{numbers_of};
ghost use Rattle.aol_eval.specs.Lanes.{numbers_in};
ghost use Rattle.aol_eval.specs.Lines.{rank_in_lane};
ghost use Rattle.aol_eval.specs.Products.{dotted, with_product};
ghost use Rattle.aol_eval.specs.Resolved.{operation, plan_of, run};

use crate::arithmetic::{add, multiply};
use crate::lanes::{Lanes, ranks_of};
use crate::lines::{Ranks, nth};
use crate::pattern::behind;
use crate::run::Frame;
use crate::step::Step;
use aol_expr_tree::ExprOp;

/// Numbers, and the rank in each lane.
#[derive(Clone, Copy)]
pub(crate) struct Strided<'a> {
    pub(crate) nums: &'a [i64],
    pub(crate) ranks: Ranks,
}

impl Strided<'_> {
    /// The number in a lane, where the numbers go so far.
    #[inline(always)]
    fn number(&self, k: u32) -> Option<i64>
        ensures { IfSome result (λ z. z ≡ nth_number self.now.nums.now (rank_in_lane self.now.ranks k)) }
    {
        nth(self.nums, rank_at(self.ranks, k))
    }
}

/// The rank in a lane.
#[inline(always)]
fn rank_at(ranks: Ranks, k: u32) -> u64
    ensures { result ≡ rank_in_lane ranks k }
{
    u64::from(ranks.step) * u64::from(k) + u64::from(ranks.first)
}

/// The elements that a step reads, where it reads and its indices are lines that stay below their entries.
fn elements_of<'n, 'v>(
    step: &Step,
    nums: &'n [i64],
    at: &[u32],
    lanes: &'v Lanes<'v>,
    from: u32,
    count: u32,
) -> Option<Strided<'n>>
    requires width { count ≤ 128 }
    ensures { IfSome result (λ s. (i : ℕ) → i < count → run nums.now at.now (numbers_in lanes.now (pos (from + i))) (plan_of step.now) ≡ Ok (nth_number s.nums.now (rank_in_lane s.ranks i))) }
{
    let Step::Read(shape, start, indices) = step else {
        return None;
    };
    let ranks = ranks_of(shape, indices, at, lanes, from, count)?;
    Some(Strided {
        nums: behind(nums, *start),
        ranks,
    })
}

/// The same, where the lanes are the terms of a sum.
fn terms_of<'n, 'v>(
    step: &Step,
    nums: &'n [i64],
    at: &[u32],
    vars: &'v Frame<'v>,
    from: u32,
    count: u32,
) -> Option<Strided<'n>>
    requires width { count ≤ 128 }
    ensures { IfSome result (λ s. (i : ℕ) → i < count → run nums.now at.now (pos (from + i) ∷ numbers_of vars.now) (plan_of step.now) ≡ Ok (nth_number s.nums.now (rank_in_lane s.ranks i))) }
{
    elements_of(step, nums, at, &Lanes::Own(vars), from, count)
}

/// The sum with one more product, where neither is a fault.
#[inline(always)]
fn add_product(sum: i64, left: i64, right: i64) -> Option<i64>
    ensures { IfSome result (λ z. with_product sum left right ≡ Ok z) }
{
    let product = multiply(left, right).ok()?;
    add(sum, product).ok()
}

/// The sum with the products in the first lanes added in order, where none is a fault.
fn dot(sum: i64, left: Strided, right: Strided, count: u32) -> Option<i64>
    ensures { IfSome result (λ total. dotted left.entry.nums.now left.entry.ranks right.entry.nums.now right.entry.ranks sum count ≡ Ok total) }
{
    let mut total = sum;
    for k in 0..count {
        total = add_product(total, left.number(k)?, right.number(k)?)?;
    }
    Some(total)
}

/// The sum with the products of what two steps read, where they do so and none is a fault.
fn products_on<'v>(
    sum: i64,
    from: u32,
    count: u32,
    left: &Step,
    right: &Step,
    nums: &[i64],
    at: &[u32],
    vars: &'v Frame<'v>,
) -> Option<i64>
    requires sum { Ok sum ≡ summed (λ k. run nums.now at.now (k ∷ numbers_of vars.now) (operation ExprOp.Mul (plan_of left.now) (plan_of right.now))) from }
    requires width { count ≤ 128 }
    ensures { IfSome result (λ total. summed (λ k. run nums.now at.now (k ∷ numbers_of vars.now) (operation ExprOp.Mul (plan_of left.now) (plan_of right.now))) (from + count) ≡ Ok total) }
{
    let left = terms_of(left, nums, at, vars, from, count)?;
    let right = terms_of(right, nums, at, vars, from, count)?;
    dot(sum, left, right, count)
}

/// The sum of the first terms with so many more, where these are products of such elements and none is a fault.
pub(crate) fn sum_of_products<'v>(
    sum: i64,
    from: u32,
    count: u32,
    term: &Step,
    nums: &[i64],
    at: &[u32],
    vars: &'v Frame<'v>,
) -> Option<i64>
    requires sum { Ok sum ≡ summed (λ k. run nums.now at.now (k ∷ numbers_of vars.now) (plan_of term.now)) from }
    requires width { count ≤ 128 }
    ensures { IfSome result (λ total. summed (λ k. run nums.now at.now (k ∷ numbers_of vars.now) (plan_of term.now)) (from + count) ≡ Ok total) }
{
    match term {
        Step::Bin(op, left, right) => match op {
            ExprOp::Mul => products_on(sum, from, count, left, right, nums, at, vars),
            _ => None,
        },
        _ => None,
    }
}

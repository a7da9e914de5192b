ghost use Rattle.std.specs.Prelude.{◌≡◌, ◌∷◌, ◌+◌, ◌<◌, ◌≤◌, ◌^◌, pos, Ok};
ghost use Rattle.aol_eval.specs.Frames.{numbers_of};
ghost use Rattle.aol_expr_tree.specs.Meaning.{nth_number, summed};
ghost use Rattle.aol_eval.specs.Resolved.{element_at, plan_of, plans_of, run, series};

use crate::arithmetic::apply;
use crate::columns::add_up;
use crate::inputs::entry;
use crate::lanes::{WIDTH, fill_terms};
use crate::pattern::behind;
use crate::place::{Place, number_of};
use crate::products::sum_of_products;
use crate::step::Step;
use aol_expr_tree::{ExprOp, Kind};
use aol_shape::{Items, Shape};

/// The most terms of a sum that are computed at once.
const MOST: u32 = 128;

/// The fewest terms for which that is quicker than one by one.
const FEWEST: u32 = 8;

/// The values of the variables of the sums around a step, the innermost first.
#[derive(Clone, Copy)]
pub(crate) enum Frame<'a> {
    Outermost,
    Inside(i64, &'a Frame<'a>),
}

impl Frame<'_> {
    /// The variable with so many sums between, or 0.
    pub(crate) fn value(&self, depth: u32) -> i64
        ensures { result ≡ nth_number (numbers_of self.now) depth }
    {
        match self {
            Frame::Outermost => 0,
            Frame::Inside(value, _) if depth == 0 => *value,
            Frame::Inside(_, outer) => outer.value(depth - 1),
        }
    }
}

/// What a step computes.
#[cycle(run)]
pub(crate) fn value_at<'v>(
    step: &Step,
    nums: &[i64],
    at: &[u32],
    vars: &'v Frame<'v>,
) -> Result<i64, Kind>
    ensures { result ≡ run nums.now at.now (numbers_of vars.now) (plan_of step.now) }
{
    match step {
        Step::Num(number) => Ok(*number),
        Step::Index(k) => Ok(entry(at, *k)),
        Step::Var(depth) => Ok(vars.value(*depth)),
        Step::Read(shape, start, indices) => element(shape, *start, indices, nums, at, vars),
        Step::Bin(op, left, right) => {
            let left = value_at(left, nums, at, vars)?;
            let right = value_at(right, nums, at, vars)?;
            apply(*op, left, right)
        }
        Step::If(condition, then, otherwise) => {
            if value_at(condition, nums, at, vars)? != 0 {
                value_at(then, nums, at, vars)
            } else {
                value_at(otherwise, nums, at, vars)
            }
        }
        Step::Sum(terms, term) => sum(*terms, term, nums, at, vars),
    }
}

/// The element at the indices, all of which are computed first.
#[cycle(run)]
fn element<'v>(
    shape: &Option<Shape>,
    start: usize,
    indices: &Items<Step>,
    nums: &[i64],
    at: &[u32],
    vars: &'v Frame<'v>,
) -> Result<i64, Kind>
    ensures { result ≡ run nums.now at.now (numbers_of vars.now) (element_at shape.now start (plans_of indices.now)) }
{
    let mut place = Place::of(shape);
    for index in indices.as_slice() {
        place = place.with(value_at(index, nums, at, vars)?);
    }
    number_of(behind(nums, start), place.rank())
}

/// The sum of the term with the variable from 0 to below the number of terms, in this order.
#[cycle(run)]
fn sum<'v>(
    terms: u32,
    term: &Step,
    nums: &[i64],
    at: &[u32],
    vars: &'v Frame<'v>,
) -> Result<i64, Kind>
    ensures { result ≡ run nums.now at.now (numbers_of vars.now) (series terms (plan_of term.now)) }
{
    let mut sum = 0;
    let mut from = 0;
    'blocks: while from < terms {
        let count = (terms - from).min(MOST);
        sum = sum_on(sum, from, count, term, nums, at, vars)?;
        from += count;
    }
    Ok(sum)
}

/// The sum of the first terms with so many more.
#[cycle(run)]
fn sum_on<'v>(
    sum: i64,
    from: u32,
    count: u32,
    term: &Step,
    nums: &[i64],
    at: &[u32],
    vars: &'v Frame<'v>,
) -> Result<i64, Kind>
    requires sum { Ok sum ≡ summed (λ k. run nums.now at.now (k ∷ numbers_of vars.now) (plan_of term.now)) from }
    requires within { from + count < 2 ^ 32 }
    requires width { count ≤ 128 }
    ensures { result ≡ summed (λ k. run nums.now at.now (k ∷ numbers_of vars.now) (plan_of term.now)) (from + count) }
{
    if count >= FEWEST {
        if let Some(total) = sum_of_products(sum, from, count, term, nums, at, vars) {
            return Ok(total);
        }
        let mut column = [0i64; WIDTH];
        let lanes = &mut column[..count as usize];
        if fill_terms(term, nums, at, vars, from, lanes) {
            return add_up(sum, lanes);
        }
    }
    sum_one_by_one(sum, from, count, term, nums, at, vars)
}

/// The same, term by term.
#[cycle(run)]
fn sum_one_by_one<'v>(
    sum: i64,
    from: u32,
    count: u32,
    term: &Step,
    nums: &[i64],
    at: &[u32],
    vars: &'v Frame<'v>,
) -> Result<i64, Kind>
    requires sum { Ok sum ≡ summed (λ k. run nums.now at.now (k ∷ numbers_of vars.now) (plan_of term.now)) from }
    requires within { from + count < 2 ^ 32 }
    ensures { result ≡ summed (λ k. run nums.now at.now (k ∷ numbers_of vars.now) (plan_of term.now)) (from + count) }
{
    let mut sum = sum;
    for k in from..from + count {
        sum = apply(ExprOp::Add, sum, term_at(k, term, nums, at, vars)?)?;
    }
    Ok(sum)
}

/// The term with the variable at a number.
#[cycle(run)]
fn term_at<'v>(
    k: u32,
    term: &Step,
    nums: &[i64],
    at: &[u32],
    vars: &'v Frame<'v>,
) -> Result<i64, Kind>
    ensures { result ≡ run nums.now at.now (pos k ∷ numbers_of vars.now) (plan_of term.now) }
{
    value_at(term, nums, at, &Frame::Inside(i64::from(k), vars))
}

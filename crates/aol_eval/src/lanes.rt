//! A step in many lanes at once: the variable of one sum runs over consecutive numbers.

ghost use Rattle.std.specs.Prelude.{◌≡◌, ℕ, ℤ, List, drop, IfSome, ◌+◌, ◌<◌, ◌≤◌, ◌^◌, length, pos, ◌∷◌, Ok};
ghost use Rattle.std.specs.Bool.{OnTrue};
ghost use Rattle.aol_expr_tree.specs.Meaning.{nth_number};
ghost use Rattle.aol_eval.specs.Frames.{numbers_of};
ghost use Rattle.aol_eval.specs.Lanes.{Gives, numbers_in};
ghost use Rattle.aol_eval.specs.Lines.{number_on, rank_in_lane, IsLine};
ghost use Rattle.aol_eval.specs.Resolved.{element_at, plan_of, plans_of, run, series};

use crate::columns::{
    advance, all_zero, combine, fill_from, fill_line, fill_same, fill_zero, gather, none_zero,
};
use crate::inputs::entry;
use crate::lines::{Line, Ranks, line_of_op, next_ranks, still, take};
use crate::pattern::behind;
use crate::run::Frame;
use crate::step::Step;
use aol_expr_tree::ExprOp;
use aol_shape::{Items, Shape};

/// The most lanes at once.
pub(crate) const WIDTH: usize = 128;

/// The variables around a step in lanes, the innermost first.
#[derive(Clone, Copy)]
pub(crate) enum Lanes<'a> {
    /// The variable that has consecutive values, and those around it.
    Own(&'a Frame<'a>),
    /// The variable of a sum inside, with one value in all lanes.
    Inside(i64, &'a Lanes<'a>),
}

impl Lanes<'_> {
    /// The values of the variable with so many sums between, or 0.
    fn fill(&self, depth: u32, from: u32, out: &mut [i64])
        requires { from + length out.old < 2 ^ 33 }
        ensures { Gives (λ z. Ok (nth_number (numbers_in self.now z) depth)) from out.new }
    {
        match self {
            Lanes::Own(_) if depth == 0 => fill_from(out, from),
            Lanes::Own(outer) => fill_same(out, outer.value(depth - 1)),
            Lanes::Inside(value, _) if depth == 0 => fill_same(out, *value),
            Lanes::Inside(_, lanes) => lanes.fill(depth - 1, from, out),
        }
    }

    /// The line of the variable with so many sums between, or of 0.
    fn line(&self, depth: u32, from: u32) -> Line
        ensures { (i : ℕ) → number_on result i ≡ nth_number (numbers_in self.now (pos (from + i))) depth }
    {
        match self {
            Lanes::Own(_) if depth == 0 => Line {
                first: i64::from(from),
                moves: true,
            },
            Lanes::Own(outer) => still(outer.value(depth - 1)),
            Lanes::Inside(value, _) if depth == 0 => still(*value),
            Lanes::Inside(_, lanes) => lanes.line(depth - 1, from),
        }
    }
}

/// The line of what the step computes, where it is seen to be one.
#[cycle(lines)]
fn line_of<'v>(step: &Step, at: &[u32], lanes: &'v Lanes<'v>, from: u32) -> Option<Line>
    ensures { IfSome result (λ line. (nums : List ℤ) → IsLine (λ z. run nums at.now (numbers_in lanes.now z) (plan_of step.now)) from line) }
{
    match step {
        Step::Num(number) => Some(still(*number)),
        Step::Index(k) => Some(still(entry(at, *k))),
        Step::Var(depth) => Some(lanes.line(*depth, from)),
        Step::Bin(op, left, right) => line_of_op(
            *op,
            line_of(left, at, lanes, from)?,
            line_of(right, at, lanes, from)?,
        ),
        Step::Read(_, _, _) | Step::If(_, _, _) | Step::Sum(_, _) => None,
    }
}

/// Fills each lane with what the step computes there, where that is seen to be a line.
fn fill_on<'v>(
    step: &Step,
    nums: &[i64],
    at: &[u32],
    lanes: &'v Lanes<'v>,
    from: u32,
    out: &mut [i64],
) -> bool
    requires width { length out.old ≤ 128 }
    ensures { OnTrue result (Gives (λ z. run nums.now at.now (numbers_in lanes.now z) (plan_of step.now)) from out.new) }
{
    match line_of(step, at, lanes, from) {
        Some(line) => fill_line(out, line),
        None => false,
    }
}

/// The ranks of the elements at the indices, where each index is a line that stays below its entry.
pub(crate) fn ranks_of<'v>(
    shape: &Option<Shape>,
    indices: &Items<Step>,
    at: &[u32],
    lanes: &'v Lanes<'v>,
    from: u32,
    count: u32,
) -> Option<Ranks>
    requires width { count ≤ 128 }
    ensures { IfSome result (λ ranks. (nums : List ℤ) (start i : ℕ) → i < count → run nums at.now (numbers_in lanes.now (pos (from + i))) (element_at shape.now start (plans_of indices.now)) ≡ Ok (nth_number (drop start nums) (rank_in_lane ranks i))) }
{
    let Some(known) = shape else {
        return None;
    };
    let mut entries = known.as_slice();
    let mut ranks = Ranks { first: 0, step: 0 };
    for index in indices.as_slice() {
        let (entry, rest) = entries.split_first()?;
        ranks = next_ranks(ranks, line_of(index, at, lanes, from)?, *entry, count)?;
        entries = rest;
    }
    if entries.is_empty() {
        Some(ranks)
    } else {
        None
    }
}

/// The elements at the indices, where these are lines that stay below their entries.
fn fill_read_on<'v>(
    shape: &Option<Shape>,
    start: usize,
    indices: &Items<Step>,
    nums: &[i64],
    at: &[u32],
    lanes: &'v Lanes<'v>,
    from: u32,
    out: &mut [i64],
) -> bool
    requires width { length out.old ≤ 128 }
    ensures { OnTrue result (Gives (λ z. run nums.now at.now (numbers_in lanes.now z) (element_at shape.now start (plans_of indices.now))) from out.new) }
{
    match ranks_of(shape, indices, at, lanes, from, out.len() as u32) {
        Some(ranks) => take(behind(nums, start), ranks, out),
        None => false,
    }
}

/// Fills each lane with what the step computes there; false where it isn't found to be a number in each.
#[cycle(lanes)]
fn fill<'v>(
    step: &Step,
    nums: &[i64],
    at: &[u32],
    lanes: &'v Lanes<'v>,
    from: u32,
    out: &mut [i64],
) -> bool
    requires within { from + length out.old < 2 ^ 33 }
    requires width { length out.old ≤ 128 }
    ensures { OnTrue result (Gives (λ z. run nums.now at.now (numbers_in lanes.now z) (plan_of step.now)) from out.new) }
{
    match step {
        Step::Num(number) => {
            fill_same(out, *number);
            true
        }
        Step::Index(k) => {
            fill_same(out, entry(at, *k));
            true
        }
        Step::Var(depth) => {
            lanes.fill(*depth, from, out);
            true
        }
        Step::Read(shape, start, indices) => {
            fill_read_on(shape, *start, indices, nums, at, lanes, from, out)
                || fill_read(shape, *start, indices, nums, at, lanes, from, out)
        }
        Step::Bin(_, _, _) if fill_on(step, nums, at, lanes, from, out) => true,
        Step::Bin(op, left, right) => {
            let mut column = [0i64; WIDTH];
            let others = &mut column[..out.len()];
            fill(left, nums, at, lanes, from, out)
                && fill(right, nums, at, lanes, from, others)
                && combine(*op, out, others)
        }
        Step::If(condition, then, otherwise) => {
            if !fill(condition, nums, at, lanes, from, out) {
                false
            } else if none_zero(out) {
                fill(then, nums, at, lanes, from, out)
            } else {
                all_zero(out) && fill(otherwise, nums, at, lanes, from, out)
            }
        }
        Step::Sum(terms, term) => fill_sum(*terms, term, nums, at, lanes, from, out),
    }
}

/// The elements at the indices.
#[cycle(lanes)]
fn fill_read<'v>(
    shape: &Option<Shape>,
    start: usize,
    indices: &Items<Step>,
    nums: &[i64],
    at: &[u32],
    lanes: &'v Lanes<'v>,
    from: u32,
    out: &mut [i64],
) -> bool
    requires within { from + length out.old < 2 ^ 33 }
    requires width { length out.old ≤ 128 }
    ensures { OnTrue result (Gives (λ z. run nums.now at.now (numbers_in lanes.now z) (element_at shape.now start (plans_of indices.now))) from out.new) }
{
    let Some(known) = shape else {
        return false;
    };
    let mut entries = known.as_slice();
    let mut column = [0u32; WIDTH];
    let ranks = &mut column[..out.len()];
    fill_zero(ranks);
    for index in indices.as_slice() {
        let Some((entry, rest)) = entries.split_first() else {
            return false;
        };
        if !(fill(index, nums, at, lanes, from, out) && advance(ranks, out, *entry)) {
            return false;
        }
        entries = rest;
    }
    if !entries.is_empty() {
        return false;
    }
    gather(behind(nums, start), ranks, out);
    true
}

/// The sums of the term.
#[cycle(lanes)]
fn fill_sum<'v>(
    terms: u32,
    term: &Step,
    nums: &[i64],
    at: &[u32],
    lanes: &'v Lanes<'v>,
    from: u32,
    out: &mut [i64],
) -> bool
    requires within { from + length out.old < 2 ^ 33 }
    requires width { length out.old ≤ 128 }
    ensures { OnTrue result (Gives (λ z. run nums.now at.now (numbers_in lanes.now z) (series terms (plan_of term.now))) from out.new) }
{
    let mut column = [0i64; WIDTH];
    let others = &mut column[..out.len()];
    fill_same(out, 0);
    for k in 0..terms {
        if !(fill_term(k, term, nums, at, lanes, from, others)
            && combine(ExprOp::Add, out, others))
        {
            return false;
        }
    }
    true
}

/// The terms with the variable at a number.
#[cycle(lanes)]
fn fill_term<'v>(
    k: u32,
    term: &Step,
    nums: &[i64],
    at: &[u32],
    lanes: &'v Lanes<'v>,
    from: u32,
    out: &mut [i64],
) -> bool
    requires within { from + length out.old < 2 ^ 33 }
    requires width { length out.old ≤ 128 }
    ensures { OnTrue result (Gives (λ z. run nums.now at.now (pos k ∷ numbers_in lanes.now z) (plan_of term.now)) from out.new) }
{
    fill(
        term,
        nums,
        at,
        &Lanes::Inside(i64::from(k), lanes),
        from,
        out,
    )
}

/// Fills each lane with a term of a sum, whose variable has consecutive values.
pub(crate) fn fill_terms<'v>(
    term: &Step,
    nums: &[i64],
    at: &[u32],
    vars: &'v Frame<'v>,
    from: u32,
    out: &mut [i64],
) -> bool
    requires within { from + length out.old < 2 ^ 33 }
    requires width { length out.old ≤ 128 }
    ensures { OnTrue result (Gives (λ k. run nums.now at.now (k ∷ numbers_of vars.now) (plan_of term.now)) from out.new) }
{
    fill(term, nums, at, &Lanes::Own(vars), from, out)
}

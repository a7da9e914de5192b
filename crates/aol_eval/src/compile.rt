//! Programs of steps whose sums are short: these are written out term by term.

ghost use Rattle.std.specs.Prelude.{◌≡◌, ℕ, ℤ, List, ◌∷◌, pos, length, slice_get, slice_index, Some, Ok, IfSome};
ghost use Rattle.aol_expr_tree.specs.Meaning.{applied, is_zero};
ghost use Rattle.aol_eval.specs.Frames.{numbers_of};
ghost use Rattle.aol_eval.specs.Programs.{operand_value, operation_value, element_after, next_rank, Computes, IsKnown, Makes, Pushes};
ghost use Rattle.aol_eval.specs.Resolved.{element_at, plan_of, plans_of, run, series};

use crate::arithmetic::apply;
use crate::program::{LONGEST, Operand, Operation, Program, rank_with};
use crate::run::Frame;
use crate::step::Step;
use aol_expr_tree::ExprOp;
use aol_shape::{Items, Shape};
use std::alloc::Global;

/// The most terms of a sum that is written out.
const SHORT: u32 = 9;

/// Adds an operation, where there is room for it, and says what it gives.
fn push(operations: &mut Items<Operation>, operation: Operation) -> Option<Operand>
    ensures { IfSome result (Pushes operations.old operations.new operation) }
{
    let count = operations.len();
    if count >= LONGEST {
        return None;
    }
    operations.push(operation).ok()?;
    Some(Operand::Given(count))
}

/// The operation of an operator.
fn operation_of(op: ExprOp, left: Operand, right: Operand) -> Operation
    ensures { (nums : List ℤ) (at : List ℕ) (given : List ℤ) → operation_value nums at given result ≡ applied op (operand_value nums given left) (operand_value nums given right) }
{
    match op {
        ExprOp::Add => Operation::Add(left, right),
        ExprOp::Sub => Operation::Subtract(left, right),
        ExprOp::Mul => Operation::Multiply(left, right),
        _ => Operation::Apply(op, left, right),
    }
}

/// An operator at two operands; at two numbers it is computed at once.
fn apply_to(
    operations: &mut Items<Operation>,
    op: ExprOp,
    left: Operand,
    right: Operand,
) -> Option<Operand>
    requires left { IsKnown (length operations.old) left }
    requires right { IsKnown (length operations.old) right }
    ensures { IfSome result (Makes operations.old operations.new (λ nums at given. applied op (operand_value nums given left) (operand_value nums given right))) }
{
    match (left, right) {
        (Operand::Number(left), Operand::Number(right)) => {
            Some(Operand::Number(apply(op, left, right).ok()?))
        }
        _ => push(operations, operation_of(op, left, right)),
    }
}

/// A rank with one more index; at two numbers it is computed at once.
fn rank_to(
    operations: &mut Items<Operation>,
    rank: Operand,
    entry: u32,
    index: Operand,
) -> Option<Operand>
    requires rank { IsKnown (length operations.old) rank }
    requires index { IsKnown (length operations.old) index }
    ensures { IfSome result (Makes operations.old operations.new (λ nums at given. next_rank entry (operand_value nums given rank) (operand_value nums given index))) }
{
    match (rank, index) {
        (Operand::Number(rank), Operand::Number(index)) => {
            Some(Operand::Number(rank_with(rank, entry, index)?))
        }
        _ => push(operations, Operation::Rank(rank, entry, index)),
    }
}

/// The element at a rank with one more index; at two numbers its place is computed at once.
fn element_to(
    operations: &mut Items<Operation>,
    start: usize,
    rank: Operand,
    entry: u32,
    index: Operand,
) -> Option<Operand>
    requires rank { IsKnown (length operations.old) rank }
    requires index { IsKnown (length operations.old) index }
    ensures { IfSome result (Makes operations.old operations.new (λ nums at given. element_after start nums entry (operand_value nums given rank) (operand_value nums given index))) }
{
    match (rank, index) {
        (Operand::Number(rank), Operand::Number(index)) => {
            let rank = rank_with(rank, entry, index)?;
            Some(Operand::Place(start.checked_add(usize::try_from(rank).ok()?)?))
        }
        _ => push(operations, Operation::Element(start, rank, entry, index)),
    }
}

fn equals_zero(number: i64) -> bool
    ensures { result ≡ is_zero number }
{
    number == 0
}

/// The first operation that gives `$k`.
fn entry_in(operations: &[Operation], k: u32) -> Option<usize>
    ensures { IfSome result (λ number. slice_get operations.now number ≡ Some (Operation.Entry k)) }
{
    for (number, operation) in operations.iter().enumerate() {
        if let Operation::Entry(entry) = operation {
            if *entry == k {
                return Some(number);
            }
        }
    }
    None
}

/// `$k`, by the operation that gives it already, if there is one.
fn entry_to(operations: &mut Items<Operation>, k: u32) -> Option<Operand>
    ensures { IfSome result (Makes operations.old operations.new (λ nums at given. Ok (pos (slice_index at k)))) }
{
    match entry_in(operations.as_slice(), k) {
        Some(number) => Some(Operand::Given(number)),
        None => push(operations, Operation::Entry(k)),
    }
}

/// What a step computes, where its operations have room.
#[cycle(compile)]
fn operand_of<'v>(
    step: &Step,
    vars: &'v Frame<'v>,
    operations: &mut Items<Operation>,
) -> Option<Operand>
    ensures { IfSome result (Makes operations.old operations.new (λ nums at given. run nums at (numbers_of vars.now) (plan_of step.now))) }
{
    match step {
        Step::Num(number) => Some(Operand::Number(*number)),
        Step::Index(k) => entry_to(operations, *k),
        Step::Var(depth) => Some(Operand::Number(vars.value(*depth))),
        Step::Read(shape, start, indices) => {
            read_operand(shape, *start, indices, vars, operations)
        }
        Step::Bin(op, left, right) => {
            let left = operand_of(left, vars, operations)?;
            let right = operand_of(right, vars, operations)?;
            apply_to(operations, *op, left, right)
        }
        Step::If(condition, then, otherwise) => {
            let condition = operand_of(condition, vars, operations)?;
            if let Operand::Number(known) = condition {
                return if equals_zero(known) {
                    operand_of(otherwise, vars, operations)
                } else {
                    operand_of(then, vars, operations)
                };
            }
            let then = operand_of(then, vars, operations)?;
            let otherwise = operand_of(otherwise, vars, operations)?;
            push(operations, Operation::Choose(condition, then, otherwise))
        }
        Step::Sum(terms, term) => sum_operand(*terms, term, vars, operations),
    }
}

/// The element at the indices.
#[cycle(compile)]
fn read_operand<'v>(
    shape: &Option<Shape>,
    start: usize,
    indices: &Items<Step>,
    vars: &'v Frame<'v>,
    operations: &mut Items<Operation>,
) -> Option<Operand>
    ensures { IfSome result (Makes operations.old operations.new (λ nums at given. run nums at (numbers_of vars.now) (element_at shape.now start (plans_of indices.now)))) }
{
    let Some(known) = shape else {
        return None;
    };
    let mut entries = known.as_slice();
    if entries.is_empty() && indices.is_empty() {
        return Some(Operand::Place(start));
    }
    let mut rank = Operand::Number(0);
    for (k, index) in indices.as_slice().iter().enumerate() {
        let (entry, rest) = entries.split_first()?;
        let index = operand_of(index, vars, operations)?;
        if rest.is_empty() && k + 1 == indices.len() {
            return element_to(operations, start, rank, *entry, index);
        }
        rank = rank_to(operations, rank, *entry, index)?;
        entries = rest;
    }
    None
}

/// The sum of the term with the variable from 0 to below the number of terms.
#[cycle(compile)]
fn sum_operand<'v>(
    terms: u32,
    term: &Step,
    vars: &'v Frame<'v>,
    operations: &mut Items<Operation>,
) -> Option<Operand>
    ensures { IfSome result (Makes operations.old operations.new (λ nums at given. run nums at (numbers_of vars.now) (series terms (plan_of term.now)))) }
{
    if terms > SHORT {
        return None;
    }
    let mut sum = Operand::Number(0);
    for k in 0..terms {
        let z = term_operand(k, term, vars, operations)?;
        sum = push(operations, Operation::Add(sum, z))?;
    }
    Some(sum)
}

/// The term with the variable at a number.
#[cycle(compile)]
fn term_operand<'v>(
    k: u32,
    term: &Step,
    vars: &'v Frame<'v>,
    operations: &mut Items<Operation>,
) -> Option<Operand>
    ensures { IfSome result (Makes operations.old operations.new (λ nums at given. run nums at (pos k ∷ numbers_of vars.now) (plan_of term.now))) }
{
    operand_of(term, &Frame::Inside(i64::from(k), vars), operations)
}

/// The program of a step outside any sum, where its sums are short and its operations few.
pub(crate) fn program_of(alloc: Global, step: &Step) -> Option<Program>
    ensures { IfSome result (Computes (plan_of step.now)) }
{
    let mut operations = Items::new(alloc);
    let value = operand_of(step, &Frame::Outermost, &mut operations)?;
    Some(Program { operations, value })
}

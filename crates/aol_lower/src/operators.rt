//! The statements of operators. Each tests by comparisons and divisions whether its result has 64 bits.

ghost use Rattle.std.specs.Prelude.{◌≡◌, IfOk, ◌∷◌, []};
ghost use Rattle.aol_expr_tree.specs.declared.op.ExprOp.TheVariants.{Max, Min};
ghost use Rattle.aol_csyn.specs.declared.program.COp.TheVariants.{Eq};
ghost use Rattle.aol_csyn.specs.Tree.{bin, num, set_var, var};
ghost use Rattle.aol_lower.specs.Lowered.{assign, at_most, attempt, divided, either, minus, operation, plus, times, times_above, times_below};
ghost use Rattle.aol_lower.specs.Stored.{comparison_of, trees_of};

use crate::comparison::{Comparison, Side, at_most, comparison_expr};
use crate::parts::{between, either, fail, set};
use aol_csyn::{CExpr, COp, CStmt};
use aol_expr_tree::{ExprOp, Kind};
use aol_shape::{Items, NoMemory};
use std::alloc::Global;

/// The first statements where the test holds, else the second.
pub(crate) fn choose(
    alloc: Global,
    tested: Comparison,
    first: Items<CStmt>,
    second: Items<CStmt>,
) -> Result<Items<CStmt>, NoMemory>
    ensures { IfOk result (λ body. trees_of body ≡ either (comparison_of tested) (trees_of first) (trees_of second)) }
{
    let tested = comparison_expr(alloc, tested)?;
    either(alloc, tested, first, second)
}

/// Variable `x` takes the result of the operator at `x` and `y`.
fn assign(alloc: Global, op: COp, x: u32, y: u32) -> Result<Items<CStmt>, NoMemory>
    ensures { IfOk result (λ body. trees_of body ≡ assign op x y) }
{
    let e = between(alloc, op, CExpr::Var(x), CExpr::Var(y))?;
    set(alloc, x, e)
}

/// Variable `x` takes the number in `y`.
fn take(alloc: Global, x: u32, y: u32) -> Result<Items<CStmt>, NoMemory>
    ensures { IfOk result (λ body. trees_of body ≡ set_var x (var y) ∷ []) }
{
    set(alloc, x, CExpr::Var(y))
}

/// The same as `assign` where the test holds, else the fault `Overflow`.
fn attempt(
    alloc: Global,
    tested: Comparison,
    op: COp,
    x: u32,
    y: u32,
) -> Result<Items<CStmt>, NoMemory>
    ensures { IfOk result (λ body. trees_of body ≡ attempt (comparison_of tested) op x y) }
{
    let first = assign(alloc, op, x, y)?;
    let second = fail(alloc, Kind::Overflow)?;
    choose(alloc, tested, first, second)
}

/// That a variable is at most an operator between a number and the other.
fn under(x: u32, op: COp, number: i64, y: u32) -> Comparison
    ensures { comparison_of result ≡ at_most (var x) (bin op (num number) (var y)) }
{
    at_most(Side::Variable(x), Side::Limit(op, number, y))
}

/// That an operator between a number and a variable is at most the other.
fn over(op: COp, number: i64, y: u32, x: u32) -> Comparison
    ensures { comparison_of result ≡ at_most (bin op (num number) (var y)) (var x) }
{
    at_most(Side::Limit(op, number, y), Side::Variable(x))
}

/// That a number and a variable stand so.
fn compare(op: COp, number: i64, x: u32) -> Comparison
    ensures { comparison_of result ≡ bin op (num number) (var x) }
{
    Comparison {
        op,
        left: Side::Number(number),
        right: Side::Variable(x),
    }
}

/// That a variable holds the number.
fn equals(x: u32, number: i64) -> Comparison
    ensures { comparison_of result ≡ bin Eq (var x) (num number) }
{
    Comparison {
        op: COp::Eq,
        left: Side::Variable(x),
        right: Side::Number(number),
    }
}

pub(crate) fn plus(alloc: Global, x: u32, y: u32) -> Result<Items<CStmt>, NoMemory>
    ensures { IfOk result (λ body. trees_of body ≡ plus x y) }
{
    let up = attempt(alloc, under(x, COp::Sub, i64::MAX, y), COp::Add, x, y)?;
    let down = attempt(alloc, over(COp::Sub, i64::MIN, y, x), COp::Add, x, y)?;
    choose(alloc, compare(COp::Le, 0, y), up, down)
}

fn minus(alloc: Global, x: u32, y: u32) -> Result<Items<CStmt>, NoMemory>
    ensures { IfOk result (λ body. trees_of body ≡ minus x y) }
{
    let down = attempt(alloc, over(COp::Add, i64::MIN, y, x), COp::Sub, x, y)?;
    let up = attempt(alloc, under(x, COp::Add, i64::MAX, y), COp::Sub, x, y)?;
    choose(alloc, compare(COp::Le, 0, y), down, up)
}

/// The product where `y` holds a number above 0.
fn times_above(alloc: Global, x: u32, y: u32) -> Result<Items<CStmt>, NoMemory>
    ensures { IfOk result (λ body. trees_of body ≡ times_above x y) }
{
    let up = attempt(alloc, under(x, COp::Div, i64::MAX, y), COp::Mul, x, y)?;
    let down = attempt(alloc, over(COp::Div, i64::MIN, y, x), COp::Mul, x, y)?;
    choose(alloc, compare(COp::Le, 0, x), up, down)
}

/// The product where neither holds a number above 0.
fn times_below(alloc: Global, x: u32, y: u32) -> Result<Items<CStmt>, NoMemory>
    ensures { IfOk result (λ body. trees_of body ≡ times_below x y) }
{
    let none = set(alloc, x, CExpr::Num(0))?;
    let up = attempt(alloc, over(COp::Div, i64::MAX, y, x), COp::Mul, x, y)?;
    choose(alloc, equals(y, 0), none, up)
}

fn times(alloc: Global, x: u32, y: u32) -> Result<Items<CStmt>, NoMemory>
    ensures { IfOk result (λ body. trees_of body ≡ times x y) }
{
    let down = attempt(alloc, over(COp::Div, i64::MIN, x, y), COp::Mul, x, y)?;
    let below = times_below(alloc, x, y)?;
    let other = choose(alloc, compare(COp::Lt, 0, x), down, below)?;
    let above = times_above(alloc, x, y)?;
    choose(alloc, compare(COp::Lt, 0, y), above, other)
}

/// A quotient or a remainder.
fn divided(alloc: Global, op: COp, x: u32, y: u32) -> Result<Items<CStmt>, NoMemory>
    ensures { IfOk result (λ body. trees_of body ≡ divided op x y) }
{
    let by_minus_one = attempt(alloc, compare(COp::Lt, i64::MIN, x), op, x, y)?;
    let other = assign(alloc, op, x, y)?;
    let some = choose(alloc, equals(y, -1), by_minus_one, other)?;
    let none = fail(alloc, Kind::Divide)?;
    choose(alloc, equals(y, 0), none, some)
}

/// The lesser of two numbers.
fn lesser(alloc: Global, x: u32, y: u32) -> Result<Items<CStmt>, NoMemory>
    ensures { IfOk result (λ body. trees_of body ≡ operation Min x y) }
{
    let other = take(alloc, x, y)?;
    let order = at_most(Side::Variable(x), Side::Variable(y));
    choose(alloc, order, Items::new(alloc), other)
}

/// The greater of two numbers.
fn greater(alloc: Global, x: u32, y: u32) -> Result<Items<CStmt>, NoMemory>
    ensures { IfOk result (λ body. trees_of body ≡ operation Max x y) }
{
    let other = take(alloc, x, y)?;
    let order = at_most(Side::Variable(x), Side::Variable(y));
    choose(alloc, order, other, Items::new(alloc))
}

/// Variable `x` takes the result of an operator at the numbers in `x` and `y`, or there is its fault.
pub(crate) fn operation(alloc: Global, op: ExprOp, x: u32, y: u32) -> Result<Items<CStmt>, NoMemory>
    ensures { IfOk result (λ body. trees_of body ≡ operation op x y) }
{
    match op {
        ExprOp::Add => plus(alloc, x, y),
        ExprOp::Sub => minus(alloc, x, y),
        ExprOp::Mul => times(alloc, x, y),
        ExprOp::Div => divided(alloc, COp::Div, x, y),
        ExprOp::Rem => divided(alloc, COp::Rem, x, y),
        ExprOp::Lt => assign(alloc, COp::Lt, x, y),
        ExprOp::Le => assign(alloc, COp::Le, x, y),
        ExprOp::Eq => assign(alloc, COp::Eq, x, y),
        ExprOp::Min => lesser(alloc, x, y),
        ExprOp::Max => greater(alloc, x, y),
    }
}

//! The indices of an output point, from its rank.

ghost use Rattle.std.specs.Prelude.{◌≡◌, ◌+◌, ◌<◌, ◌≤◌, ◌^◌, ◌++◌, OnOk, IfOk, length, pos};
ghost use Rattle.std.specs.List.{AllByRecursion};
ghost use Rattle.aol_shape.specs.Shape.{IsEntry, IsShape, size};
ghost use Rattle.aol_csyn.specs.Stored.{expr_of};
ghost use Rattle.aol_csyn.specs.declared.program.COp.TheVariants.{Div, Rem};
ghost use Rattle.aol_csyn.specs.Tree.{bin, num, var};
ghost use Rattle.aol_lower.specs.Stored.{trees_of};
ghost use Rattle.aol_cinstance.specs.Statements.{indices, point_here};

use crate::layout::{RANK, REST};
use aol_csyn::{CExpr, COp, CStmt};
use aol_lower::parts::{between, set};
use aol_shape::{Items, MAX_POINTS, NoMemory, Shape};
use std::alloc::Global;

/// How many points some entries have.
#[tactic(auto, using(crate::proofs::Rests::rest_few))]
fn points_of(entries: &[u32]) -> u32
    requires entries { AllByRecursion IsEntry entries.now }
    requires few { size entries.now ≤ MAX_POINTS }
    ensures { result ≡ size entries.now }
{
    match entries.split_first() {
        None => 1,
        Some((first, rest)) => *first * points_of(rest),
    }
}

/// What is left of the rank, divided by a number, or the remainder.
fn rest_by(alloc: Global, op: COp, points: u32) -> Result<CExpr, NoMemory>
    ensures { IfOk result (λ e. expr_of e ≡ bin op (var REST) (num (pos points))) }
{
    between(alloc, op, CExpr::Var(REST), CExpr::Num(i64::from(points)))
}

/// Appends the statements that set the indices from variable `k` on.
#[tactic(auto, using(crate::proofs::Rests::rest_few))]
fn push_indices(
    alloc: Global,
    out: &mut Items<CStmt>,
    k: u32,
    entries: &[u32],
) -> Result<(), NoMemory>
    requires entries { AllByRecursion IsEntry entries.now }
    requires few { size entries.now ≤ MAX_POINTS }
    requires room { k + length entries.now < 2 ^ 32 }
    ensures { OnOk result (trees_of out.new ≡ trees_of out.old ++ indices k entries.now) }
{
    let Some((_, rest)) = entries.split_first() else {
        return Ok(());
    };
    let points = points_of(rest);
    let index = rest_by(alloc, COp::Div, points)?;
    out.push(CStmt::Set(k, index))?;
    let left = rest_by(alloc, COp::Rem, points)?;
    out.push(CStmt::Set(REST, left))?;
    push_indices(alloc, out, k + 1, rest)
}

/// The statements that set the point whose rank stands in the variable.
pub fn point_here(alloc: Global, shape: &Shape) -> Result<Items<CStmt>, NoMemory>
    ensures { IfOk result (λ body. trees_of body ≡ point_here shape.now) }
{
    let mut body = set(alloc, REST, CExpr::Var(RANK))?;
    push_indices(alloc, &mut body, 2, shape.as_slice())?;
    Ok(body)
}

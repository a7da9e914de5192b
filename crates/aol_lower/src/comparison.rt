ghost use Rattle.std.specs.Prelude.{◌≡◌, IfOk};
ghost use Rattle.aol_csyn.specs.declared.program.COp.TheVariants.{Le};
ghost use Rattle.aol_csyn.specs.Stored.{expr_of};
ghost use Rattle.aol_lower.specs.Stored.{side_of, comparison_of};

use crate::parts::between;
use aol_csyn::{CExpr, COp};
use aol_shape::NoMemory;
use std::alloc::Global;

/// One side of a comparison: a number, a variable, or an operator between both.
#[derive(Clone, Copy)]
pub(crate) enum Side {
    Number(i64),
    Variable(u32),
    Limit(COp, i64, u32),
}

/// An operator between two sides.
#[derive(Clone, Copy)]
pub(crate) struct Comparison {
    pub(crate) op: COp,
    pub(crate) left: Side,
    pub(crate) right: Side,
}

/// The expression of a side.
fn side_expr(alloc: Global, side: Side) -> Result<CExpr, NoMemory>
    ensures { IfOk result (λ e. expr_of e ≡ side_of side) }
{
    match side {
        Side::Number(number) => Ok(CExpr::Num(number)),
        Side::Variable(k) => Ok(CExpr::Var(k)),
        Side::Limit(op, number, k) => between(alloc, op, CExpr::Num(number), CExpr::Var(k)),
    }
}

/// The expression of a comparison.
pub(crate) fn comparison_expr(alloc: Global, comparison: Comparison) -> Result<CExpr, NoMemory>
    ensures { IfOk result (λ e. expr_of e ≡ comparison_of comparison) }
{
    let left = side_expr(alloc, comparison.left)?;
    let right = side_expr(alloc, comparison.right)?;
    between(alloc, comparison.op, left, right)
}

/// That one side is at most the other.
pub(crate) fn at_most(left: Side, right: Side) -> Comparison
    ensures { result ≡ record { op = Le; left = left; right = right } }
{
    Comparison {
        op: COp::Le,
        left,
        right,
    }
}

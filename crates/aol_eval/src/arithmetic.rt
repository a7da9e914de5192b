ghost use Rattle.std.specs.Prelude.{◌≡◌};
ghost use Rattle.aol_expr_tree.specs.declared.op.ExprOp.TheVariants.{Add, Sub, Mul, Div, Rem};
ghost use Rattle.aol_expr_tree.specs.Meaning.{applied};

use aol_expr_tree::{ExprOp, Kind};

/// A sum, or `Overflow`.
pub(crate) fn add(left: i64, right: i64) -> Result<i64, Kind>
    ensures { result ≡ applied Add left right }
{
    left.checked_add(right).ok_or(Kind::Overflow)
}

/// A difference, or `Overflow`.
pub(crate) fn subtract(left: i64, right: i64) -> Result<i64, Kind>
    ensures { result ≡ applied Sub left right }
{
    left.checked_sub(right).ok_or(Kind::Overflow)
}

/// A product, or `Overflow`.
pub(crate) fn multiply(left: i64, right: i64) -> Result<i64, Kind>
    ensures { result ≡ applied Mul left right }
{
    left.checked_mul(right).ok_or(Kind::Overflow)
}

/// A quotient, truncated towards zero; `Divide` at 0, or `Overflow`.
pub(crate) fn divide(left: i64, right: i64) -> Result<i64, Kind>
    ensures { result ≡ applied Div left right }
{
    if right == 0 {
        return Err(Kind::Divide);
    }
    left.checked_div(right).ok_or(Kind::Overflow)
}

/// A remainder with the dividend's sign; `Divide` at 0, or `Overflow` where the quotient is.
pub(crate) fn remainder(left: i64, right: i64) -> Result<i64, Kind>
    ensures { result ≡ applied Rem left right }
{
    if right == 0 {
        return Err(Kind::Divide);
    }
    left.checked_rem(right).ok_or(Kind::Overflow)
}

/// An operator at two numbers: 1 or 0 for a comparison, else the number or its fault.
///
/// Division truncates towards zero and a remainder has the dividend's sign. A zero divisor is
/// `Divide`; a result outside 64 bits is `Overflow`, and so is the remainder of such a quotient.
pub(crate) fn apply(op: ExprOp, left: i64, right: i64) -> Result<i64, Kind>
    ensures { result ≡ applied op left right }
{
    match op {
        ExprOp::Add => add(left, right),
        ExprOp::Sub => subtract(left, right),
        ExprOp::Mul => multiply(left, right),
        ExprOp::Div => divide(left, right),
        ExprOp::Rem => remainder(left, right),
        ExprOp::Lt => Ok(i64::from(left < right)),
        ExprOp::Le => Ok(i64::from(left <= right)),
        ExprOp::Eq => Ok(i64::from(left == right)),
        ExprOp::Min => Ok(left.min(right)),
        ExprOp::Max => Ok(left.max(right)),
    }
}

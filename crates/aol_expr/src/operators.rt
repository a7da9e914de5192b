//! The operators that wait for their right operands.

ghost use Rattle.std.specs.Prelude.{◌≡◌, Some, IfOk, OnOk};
ghost use Rattle.aol_expr_tree.specs.Reading.{nothing_waits, waits, grouped, combined};

use aol_expr_tree::{ExprOp, Left, Part, Waiting};
use aol_shape::NoMemory;
use std::alloc::Global;

/// An operator that waits takes its right operand.
fn combined(alloc: Global, left: Option<Left>, part: Part) -> Result<Part, NoMemory>
    ensures { IfOk result (λ p. p ≡ combined left part) }
{
    match left {
        None => Ok(part),
        Some(left) => Part::operator(alloc, left.op, left.part, part),
    }
}

/// All that waits takes its right operand, and then nothing waits.
#[tactic(auto, unfolding(aol_expr_tree::specs::Reading::grouped))]
pub(crate) fn group(waiting: &mut Waiting, alloc: Global, part: Part) -> Result<Part, NoMemory>
    ensures part { IfOk result (λ p. p ≡ grouped waiting.old part) }
    ensures after { OnOk result (waiting.new ≡ nothing_waits) }
{
    let part = combined(alloc, waiting.product.take(), part)?;
    let part = combined(alloc, waiting.sum.take(), part)?;
    combined(alloc, waiting.comparison.take(), part)
}

/// Puts an operator with its left operand where none waits any more.
fn put(place: &mut Option<Left>, op: ExprOp, part: Part)
    ensures { place.new ≡ Some (record { op = op; part = part }) }
{
    *place = Some(Left { op, part });
}

/// The operator waits after this operand.
#[tactic(auto, unfolding(aol_expr_tree::specs::Reading::waits, aol_expr_tree::specs::Reading::grouped))]
pub(crate) fn wait(
    waiting: &mut Waiting,
    alloc: Global,
    op: ExprOp,
    part: Part,
) -> Result<(), NoMemory>
    ensures { OnOk result (waiting.new ≡ waits op waiting.old part) }
{
    match op {
        ExprOp::Mul | ExprOp::Div | ExprOp::Rem => {
            let part = combined(alloc, waiting.product.take(), part)?;
            put(&mut waiting.product, op, part);
        }
        ExprOp::Add | ExprOp::Sub => {
            let part = combined(alloc, waiting.product.take(), part)?;
            let part = combined(alloc, waiting.sum.take(), part)?;
            put(&mut waiting.sum, op, part);
        }
        _ => {
            let part = group(waiting, alloc, part)?;
            put(&mut waiting.comparison, op, part);
        }
    }
    Ok(())
}

//! The output ports of an elementary task.

ghost use Rattle.std.specs.Prelude.{◌≡◌, ◌+◌, ◌<◌, ◌≤◌, ◌^◌, IfOk, length, drop};
ghost use Rattle.aol_shape.specs.Shape.{IsShape};
ghost use Rattle.aol_expr_tree.specs.Tree.{IsExpr};
ghost use Rattle.aol_flat.specs.InstanceValue.{width_at};
ghost use Rattle.aol_lower.specs.Contract.{LeaveFitted, FittedAreFormed};
ghost use Rattle.aol_lower.specs.Stored.{trees_of};
ghost use Rattle.aol_cinstance.specs.Statements.{ArePorts};

use crate::element::{first_mark, port_loop};
use crate::layout::{Tables, VALUE};
use aol_csyn::CStmt;
use aol_expr_tree::Width;
use aol_lower::parts::single;
use aol_lower::{lower_fitted, room};
use aol_model_types::{Elementary, OutPort};
use aol_shape::{Items, NoMemory};
use std::alloc::Global;

/// The width of output port `k`.
fn width_of(task: &Elementary, k: u32) -> Width
    ensures { result ≡ width_at task.now.wide_out k }
{
    match task.wide_out.get(k as usize) {
        Some(width) => *width,
        None => Width::Int64,
    }
}

/// The statements of an output port's expression, with the number tested by a width.
fn fitted(
    alloc: Global,
    task: &Elementary,
    out: &OutPort,
    width: Width,
    tables: Tables,
) -> Result<Items<CStmt>, NoMemory>
    ensures shape { IsShape out.now.port.shape }
    ensures limits { IsExpr out.now.expr }
    ensures value { IfOk result (λ body. LeaveFitted tables.reads task.now.ins (length out.now.port.shape) VALUE width out.now.expr (trees_of body)) }
    ensures formed { IfOk result (λ body. FittedAreFormed tables.reads task.now.ins VALUE out.now.expr (trees_of body)) }
{
    let rank = out.port.shape.as_slice().len() as u32;
    let _variables = room(&out.expr);
    let _root = out.expr.root();
    let ins = task.ins.as_slice();
    lower_fitted(alloc, &out.expr, ins, rank, width, tables.reads, VALUE)
}

/// The statements of the output ports from number `k` on.
///
/// `place` output points of elementary tasks come before the first of them, and `start` elements of the same instance.
pub fn ports(
    alloc: Global,
    task: &Elementary,
    outs: &[OutPort],
    k: u32,
    start: u32,
    place: u64,
    tables: Tables,
) -> Result<Items<CStmt>, NoMemory>
    requires counted { k + length outs.now < 2 ^ 32 }
    ensures { (before : _) → place ≡ before + start → IfOk result (λ body. ArePorts tables task.now before k start outs.now (trees_of body)) }
{
    let Some((out, others)) = outs.split_first() else {
        return Ok(Items::new(alloc));
    };
    let shape = &out.port.shape;
    let value = fitted(alloc, task, out, width_of(task, k), tables)?;
    let first = first_mark(place)?;
    let each = port_loop(alloc, shape, tables.cells, start, first, value)?;
    let points = shape.size();
    let Some(next) = start.checked_add(points) else {
        return Err(NoMemory);
    };
    let after = place + u64::from(points);
    let rest = ports(alloc, task, others, k + 1, next, after, tables)?;
    let mut body = single(alloc, each)?;
    body.append(rest)?;
    Ok(body)
}

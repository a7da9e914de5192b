//! The elements of an output port.

ghost use Rattle.std.specs.Prelude.{◌≡◌, ◌*◌, ◌≤◌, ◌^◌, IfOk, OnOk, pos};
ghost use Rattle.aol_csyn.specs.Stored.{stmt_of};
ghost use Rattle.aol_lower.specs.Stored.{trees_of};
ghost use Rattle.aol_cinstance.specs.Statements.{element_here, port_loop};

use crate::layout::{HELD, RANK};
use crate::point::point_here;
use crate::puts::settle;
use aol_csyn::{CExpr, CStmt};
use aol_lower::parts::push_guarded;
use aol_shape::{Items, NoMemory, Shape};
use std::alloc::Global;

/// The greatest number of output points before a port for which marks are made.
const MOST_BEFORE: u64 = 1 << 60;

/// 4 for each of so many output points.
pub fn first_mark(place: u64) -> Result<i64, NoMemory>
    ensures value { IfOk result (λ first. first ≡ pos (4 * place)) }
    ensures few { OnOk result (4 * place ≤ 2 ^ 62) }
{
    if place > MOST_BEFORE {
        return Err(NoMemory);
    }
    Ok((place * 4) as i64)
}

/// One element of a port: its point, its value and its cell.
fn element_here(
    alloc: Global,
    shape: &Shape,
    cells: u32,
    start: u32,
    first: i64,
    fitted: Items<CStmt>,
) -> Result<Items<CStmt>, NoMemory>
    ensures { (n : _) → first ≡ pos n → IfOk result (λ body. trees_of body ≡ element_here shape.now cells start n (trees_of fitted)) }
{
    let settled = settle(alloc, cells, start, first)?;
    let mut body = point_here(alloc, shape)?;
    body.push(CStmt::Set(0, CExpr::Var(HELD)))?;
    push_guarded(alloc, &mut body, fitted)?;
    body.append(settled)?;
    Ok(body)
}

/// The loop over the elements of a port.
pub fn port_loop(
    alloc: Global,
    shape: &Shape,
    cells: u32,
    start: u32,
    first: i64,
    fitted: Items<CStmt>,
) -> Result<CStmt, NoMemory>
    ensures { (n : _) → first ≡ pos n → IfOk result (λ st. stmt_of st ≡ port_loop shape.now cells start n (trees_of fitted)) }
{
    let points = i64::from(shape.size());
    let body = element_here(alloc, shape, cells, start, first, fitted)?;
    Ok(CStmt::For(RANK, 0, points, body))
}

//! The search for the first fault among the inputs.

ghost use Rattle.std.specs.Prelude.{◌≡◌, ◌+◌, ◌<◌, ◌^◌, IfOk};
ghost use Rattle.aol_lower.specs.Contract.{FirstIsFormed, LeaveFirst};
ghost use Rattle.aol_lower.specs.Ports.{first_fault, marked};
ghost use Rattle.aol_lower.specs.Stored.{trees_of};

use crate::element::{Place, entry_expr};
use crate::parts::{between, either, fault_cell, set};
use crate::reads::Reads;
use aol_csyn::{CExpr, COp, CStmt};
use aol_shape::{Items, NoMemory};
use std::alloc::Global;

/// A variable takes the mark of the read whose number stands in another.
fn marked(alloc: Global, reads: Reads, rank: u32, d: u32) -> Result<Items<CStmt>, NoMemory>
    ensures { IfOk result (λ body. trees_of body ≡ marked reads rank d) }
{
    let place = Place {
        reads,
        start: 0,
        rank,
        target: d,
    };
    let entry = entry_expr(alloc, place)?;
    let mark = fault_cell(alloc, entry)?;
    let first = set(alloc, d, mark)?;
    let tested = entry_expr(alloc, place)?;
    let is_cell = between(alloc, COp::Le, CExpr::Num(0), tested)?;
    either(alloc, is_cell, first, Items::new(alloc))
}

/// The statements, as they are defined.
fn first_fault(alloc: Global, reads: Reads, count: u32, d: u32) -> Result<Items<CStmt>, NoMemory>
    requires { d + 1 < 2 ^ 32 }
    ensures { IfOk result (λ body. trees_of body ≡ first_fault reads count d) }
{
    let looked = marked(alloc, reads, d + 1, d)?;
    let none = between(alloc, COp::Eq, CExpr::Var(d), CExpr::Num(0))?;
    let turn = either(alloc, none, looked, Items::new(alloc))?;
    let mut body = set(alloc, d, CExpr::Num(0))?;
    body.push(CStmt::For(d + 1, 0, i64::from(count), turn))?;
    Ok(body)
}

/// The statements that look for the first fault among so many reads.
///
/// From each state in which the reads have marks in F, 0 for a number, they are not stuck. They leave the first mark that
/// isn't 0 in variable `d`, or 0 where there is none, and change no variable below `d`, and no array.
pub fn lower_first_fault(
    alloc: Global,
    reads: Reads,
    count: u32,
    d: u32,
) -> Result<Items<CStmt>, NoMemory>
    requires space { d + 1 < 2 ^ 32 }
    requires above { 1 < d }
    ensures value { IfOk result (λ body. LeaveFirst reads count d (trees_of body)) }
    ensures formed { IfOk result (λ body. FirstIsFormed reads d (trees_of body)) }
{
    first_fault(alloc, reads, count, d)
}

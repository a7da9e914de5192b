//! Statements that put a cell.

ghost use Rattle.std.specs.Prelude.{◌≡◌, IfOk, pos, ◌++◌};
ghost use Rattle.aol_csyn.specs.Stored.{expr_of};
ghost use Rattle.aol_lower.specs.Stored.{trees_of};
ghost use Rattle.aol_cinstance.specs.Statements.{cell_of, mark_here, put_both, settle, pass_on, entry_read, own_cell};

use crate::layout::{CELLS, RANK, VALUE};
use aol_csyn::{CExpr, COp, CStmt};
use aol_lower::parts::{between, either, single, table_entry};
use aol_shape::{Items, NoMemory};
use std::alloc::Global;

/// The cell of the output element at the rank, behind so many others.
fn cell_of(alloc: Global, cells: u32, start: u32) -> Result<CExpr, NoMemory>
    ensures { IfOk result (λ e. expr_of e ≡ cell_of cells start) }
{
    let start = CExpr::Num(i64::from(start));
    let behind = between(alloc, COp::Add, start, CExpr::Var(RANK))?;
    let place = between(alloc, COp::Add, CExpr::Var(CELLS), behind)?;
    table_entry(alloc, cells, place)
}

/// V and F take a number each, at an index that is made twice.
pub fn put_both(
    alloc: Global,
    v_at: CExpr,
    v: CExpr,
    f_at: CExpr,
    f: CExpr,
) -> Result<Items<CStmt>, NoMemory>
    requires { expr_of v_at ≡ expr_of f_at }
    ensures { IfOk result (λ body. trees_of body ≡ put_both (expr_of v_at) (expr_of v) (expr_of f)) }
{
    let mut body = single(alloc, CStmt::PutV(v_at, v))?;
    body.push(CStmt::PutF(f_at, f))?;
    Ok(body)
}

/// The cell of the output element at the rank takes a number in V and one in F.
fn put_here(
    alloc: Global,
    cells: u32,
    start: u32,
    v: CExpr,
    f: CExpr,
) -> Result<Items<CStmt>, NoMemory>
    ensures { IfOk result (λ body. trees_of body ≡ put_both (cell_of cells start) (expr_of v) (expr_of f)) }
{
    let v_at = cell_of(alloc, cells, start)?;
    let f_at = cell_of(alloc, cells, start)?;
    put_both(alloc, v_at, v, f_at, f)
}

/// The mark of the fault at the output point at the rank, behind 4 for each before the port.
fn mark_here(alloc: Global, first: i64) -> Result<CExpr, NoMemory>
    ensures { (n : _) → first ≡ pos n → IfOk result (λ e. expr_of e ≡ mark_here n) }
{
    let place = between(alloc, COp::Mul, CExpr::Num(4), CExpr::Var(RANK))?;
    let behind = between(alloc, COp::Add, CExpr::Num(first), place)?;
    between(alloc, COp::Add, CExpr::Var(0), behind)
}

/// The cell of the output element at the rank takes the value, or the fault.
pub fn settle(alloc: Global, cells: u32, start: u32, first: i64) -> Result<Items<CStmt>, NoMemory>
    ensures { (n : _) → first ≡ pos n → IfOk result (λ body. trees_of body ≡ settle cells start n) }
{
    let number = put_here(alloc, cells, start, CExpr::Var(VALUE), CExpr::Num(0))?;
    let mark = mark_here(alloc, first)?;
    let fault = put_here(alloc, cells, start, CExpr::Num(0), mark)?;
    let sound = between(alloc, COp::Eq, CExpr::Var(0), CExpr::Num(0))?;
    either(alloc, sound, number, fault)
}

/// All cells of the instance take the fault in the variable.
pub fn pass_on(alloc: Global, cells: u32, count: u32) -> Result<Items<CStmt>, NoMemory>
    ensures { IfOk result (λ body. trees_of body ≡ pass_on cells count) }
{
    let turn = put_here(alloc, cells, 0, CExpr::Num(0), CExpr::Var(VALUE))?;
    single(alloc, CStmt::For(RANK, 0, i64::from(count), turn))
}

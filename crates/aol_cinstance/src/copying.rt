//! The statements of a copy.

ghost use Rattle.std.specs.Prelude.{◌≡◌, ◌+◌, ℕ, List, negsuc, IfOk};
ghost use Rattle.aol_csyn.specs.Stored.{expr_of};
ghost use Rattle.aol_csyn.specs.Tree.{bin, cell_f, cell_v, num, tab};
ghost use Rattle.aol_csyn.specs.declared.program.COp.TheVariants.{Sub};
ghost use Rattle.aol_lower.specs.Lowered.{nought};
ghost use Rattle.aol_lower.specs.Stored.{trees_of};
ghost use Rattle.aol_cinstance.specs.Effect.{AreBodies, Gives};
ghost use Rattle.aol_cinstance.specs.Statements.{copying, entry_read, own_cell, put_both};

use crate::layout::{CELLS, READS, Tables, VALUE};
use crate::puts::put_both;
use aol_csyn::{CExpr, COp, CStmt};
use aol_lower::parts::{between, cell, either, fault_cell, table_entry};
use aol_shape::{Items, NoMemory};
use std::alloc::Global;

/// The entry of the copy's read.
fn entry_read(alloc: Global, entries: u32) -> Result<CExpr, NoMemory>
    ensures { IfOk result (λ e. expr_of e ≡ entry_read entries) }
{
    table_entry(alloc, entries, CExpr::Var(READS))
}

/// The copy's cell.
fn own_cell(alloc: Global, cells: u32) -> Result<CExpr, NoMemory>
    ensures { IfOk result (λ e. expr_of e ≡ own_cell cells) }
{
    table_entry(alloc, cells, CExpr::Var(CELLS))
}

/// The copy's cell takes a number in V and one in F.
fn put_own(alloc: Global, cells: u32, v: CExpr, f: CExpr) -> Result<Items<CStmt>, NoMemory>
    ensures { IfOk result (λ body. trees_of body ≡ put_both (own_cell cells) (expr_of v) (expr_of f)) }
{
    let v_at = own_cell(alloc, cells)?;
    let f_at = own_cell(alloc, cells)?;
    put_both(alloc, v_at, v, f_at, f)
}

/// The copy of a cell.
fn from_cell(alloc: Global, tables: Tables) -> Result<Items<CStmt>, NoMemory>
    ensures { IfOk result (λ body. trees_of body ≡ put_both (own_cell tables.cells) (cell_v (entry_read tables.reads.entries)) (cell_f (entry_read tables.reads.entries))) }
{
    let v_entry = entry_read(alloc, tables.reads.entries)?;
    let f_entry = entry_read(alloc, tables.reads.entries)?;
    let v = cell(alloc, v_entry)?;
    let f = fault_cell(alloc, f_entry)?;
    put_own(alloc, tables.cells, v, f)
}

/// The copy of a default number.
fn from_number(alloc: Global, tables: Tables) -> Result<Items<CStmt>, NoMemory>
    ensures { IfOk result (λ body. trees_of body ≡ put_both (own_cell tables.cells) (tab tables.reads.numbers (bin Sub (num (negsuc 0)) (entry_read tables.reads.entries))) nought) }
{
    let entry = entry_read(alloc, tables.reads.entries)?;
    let index = between(alloc, COp::Sub, CExpr::Num(-1), entry)?;
    let number = table_entry(alloc, tables.reads.numbers, index)?;
    put_own(alloc, tables.cells, number, CExpr::Num(0))
}

/// The statements of a copy, as they are defined.
fn copying(alloc: Global, tables: Tables) -> Result<Items<CStmt>, NoMemory>
    ensures { IfOk result (λ body. trees_of body ≡ copying tables) }
{
    let first = from_cell(alloc, tables)?;
    let second = from_number(alloc, tables)?;
    let entry = entry_read(alloc, tables.reads.entries)?;
    let is_cell = between(alloc, COp::Le, CExpr::Num(0), entry)?;
    either(alloc, is_cell, first, second)
}

/// The statements of a copy: its cell takes what it reads, a fault as it is.
pub fn lower_copy(alloc: Global, tables: Tables) -> Result<Items<CStmt>, NoMemory>
    ensures value { IfOk result (λ body. (sizes : List (List ℕ)) → Gives sizes tables 1 1 (VALUE + 2) (λ xs. xs) (trees_of body)) }
    ensures formed { IfOk result (λ body. AreBodies tables (VALUE + 2) (trees_of body)) }
{
    copying(alloc, tables)
}

//! Expressions and statements made of parts.

ghost use Rattle.std.specs.Prelude.{◌≡◌, IfOk, OnOk, ◌++◌, ◌∷◌, [], pos};
ghost use Rattle.aol_csyn.specs.Stored.{expr_of, stmt_of};
ghost use Rattle.aol_csyn.specs.Tree.{bin, set_var, cell_f, cell_v, tab};
ghost use Rattle.aol_lower.specs.Effect.{kind_number};
ghost use Rattle.aol_lower.specs.Lowered.{either, fail, guard};
ghost use Rattle.aol_lower.specs.Stored.{trees_of};

use aol_csyn::{CExpr, COp, CStmt};
use aol_expr_tree::Kind;
use aol_shape::{Items, NoMemory};
use std::alloc::Global;

/// The expression on the heap.
fn boxed(alloc: Global, e: CExpr) -> Result<Box<CExpr>, NoMemory>
    ensures { IfOk result (λ b. b.value ≡ e) }
{
    Box::new(alloc, e).map_err(|_| NoMemory)
}

/// An operator between two expressions.
pub fn between(alloc: Global, op: COp, left: CExpr, right: CExpr) -> Result<CExpr, NoMemory>
    ensures { IfOk result (λ e. expr_of e ≡ bin op (expr_of left) (expr_of right)) }
{
    Ok(CExpr::Bin(op, boxed(alloc, left)?, boxed(alloc, right)?))
}

/// The cell of V at an index.
pub fn cell(alloc: Global, index: CExpr) -> Result<CExpr, NoMemory>
    ensures { IfOk result (λ e. expr_of e ≡ cell_v (expr_of index)) }
{
    Ok(CExpr::V(boxed(alloc, index)?))
}

/// The cell of F at an index.
pub fn fault_cell(alloc: Global, index: CExpr) -> Result<CExpr, NoMemory>
    ensures { IfOk result (λ e. expr_of e ≡ cell_f (expr_of index)) }
{
    Ok(CExpr::F(boxed(alloc, index)?))
}

/// The entry of a table at an index.
pub fn table_entry(alloc: Global, table: u32, index: CExpr) -> Result<CExpr, NoMemory>
    ensures { IfOk result (λ e. expr_of e ≡ tab table (expr_of index)) }
{
    Ok(CExpr::Tab(table, boxed(alloc, index)?))
}

/// One statement.
pub fn single(alloc: Global, statement: CStmt) -> Result<Items<CStmt>, NoMemory>
    ensures { IfOk result (λ body. trees_of body ≡ stmt_of statement ∷ []) }
{
    let mut body = Items::new(alloc);
    body.push(statement)?;
    Ok(body)
}

/// A variable takes the value of an expression.
pub fn set(alloc: Global, k: u32, e: CExpr) -> Result<Items<CStmt>, NoMemory>
    ensures { IfOk result (λ body. trees_of body ≡ set_var k (expr_of e) ∷ []) }
{
    single(alloc, CStmt::Set(k, e))
}

/// The number of a kind of fault, from 1 on.
pub fn kind_number(kind: Kind) -> i64
    ensures { result ≡ pos (kind_number kind) }
{
    match kind {
        Kind::Overflow => 1,
        Kind::Divide => 2,
        Kind::Index => 3,
        Kind::Range => 4,
    }
}

/// The fault of this kind.
pub fn fail(alloc: Global, kind: Kind) -> Result<Items<CStmt>, NoMemory>
    ensures { IfOk result (λ body. trees_of body ≡ fail kind ∷ []) }
{
    set(alloc, 0, CExpr::Num(kind_number(kind)))
}

/// The first statements where the test isn't 0, else the second.
pub fn either(
    alloc: Global,
    test: CExpr,
    first: Items<CStmt>,
    second: Items<CStmt>,
) -> Result<Items<CStmt>, NoMemory>
    ensures { IfOk result (λ body. trees_of body ≡ either (expr_of test) (trees_of first) (trees_of second)) }
{
    single(alloc, CStmt::If(test, first, second))
}

/// Appends statements that are left out where there is a fault.
pub fn push_guarded(
    alloc: Global,
    out: &mut Items<CStmt>,
    body: Items<CStmt>,
) -> Result<(), NoMemory>
    ensures { OnOk result (trees_of out.new ≡ trees_of out.old ++ guard (trees_of body) ∷ []) }
{
    let sound = between(alloc, COp::Eq, CExpr::Var(0), CExpr::Num(0))?;
    out.push(CStmt::If(sound, body, Items::new(alloc)))?;
    Ok(())
}

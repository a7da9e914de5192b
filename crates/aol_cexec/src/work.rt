ghost use Rattle.std.specs.Prelude.{◌≡◌};
ghost use Rattle.aol_csyn.specs.Form.{IsWellFormed};
ghost use Rattle.aol_csyn.specs.Meaning.{turn_count};
ghost use Rattle.aol_csyn.specs.Stored.{expr_of, program_of, stmt_of, stmts_of};
ghost use Rattle.aol_cexec.specs.Work.{counted_work, expr_work, for_work, program_work, saturated, step_work, stmt_work, stmts_work};

use aol_csyn::{CExpr, CProgram, CStmt};

/// The most cells that a program is run with.
pub const MAX_CELLS: u32 = 16_777_216;

/// The most work that a program is run with.
pub const MAX_WORK: u64 = 4_294_967_296;

/// The work of an expression.
fn work_of_expr(e: &CExpr) -> u64
    ensures { result ≡ saturated (expr_work (expr_of e.now)) }
{
    match e {
        CExpr::Num(_) | CExpr::Var(_) => 1,
        CExpr::Tab(_, index) | CExpr::V(index) | CExpr::F(index) => {
            work_of_expr(index).saturating_add(1)
        }
        CExpr::Bin(_, left, right) => {
            let left = work_of_expr(left);
            let right = work_of_expr(right);
            left.saturating_add(right).saturating_add(1)
        }
    }
}

/// How many turns a `For` has.
fn turns_of(a: i64, b: i64) -> u64
    ensures { result ≡ turn_count a b }
{
    if a < b { b.abs_diff(a) } else { 0 }
}

/// The work of a statement.
#[cycle(work)]
fn work_of_stmt(stmt: &CStmt) -> u64
    ensures { result ≡ saturated (stmt_work (stmt_of stmt.now)) }
{
    match stmt {
        CStmt::Set(_, e) => work_of_expr(e).saturating_add(1),
        CStmt::PutV(at, e) | CStmt::PutF(at, e) => {
            let at = work_of_expr(at);
            let e = work_of_expr(e);
            at.saturating_add(e).saturating_add(1)
        }
        CStmt::If(e, first, second) => {
            let e = work_of_expr(e);
            let first = work_of_stmts(first.as_slice());
            let second = work_of_stmts(second.as_slice());
            e.saturating_add(first)
                .saturating_add(second)
                .saturating_add(1)
        }
        CStmt::For(_, a, b, body) => work_of_for(*a, *b, body.as_slice()),
    }
}

/// The work of a `For`.
#[cycle(work)]
fn work_of_for(a: i64, b: i64, body: &[CStmt]) -> u64
    ensures { result ≡ saturated (for_work a b (stmts_work (stmts_of body.now))) }
{
    let body = work_of_stmts(body).saturating_add(1);
    turns_of(a, b).saturating_mul(body).saturating_add(1)
}

/// The work of statements.
#[cycle(work)]
fn work_of_stmts(body: &[CStmt]) -> u64
    ensures { result ≡ saturated (stmts_work (stmts_of body.now)) }
{
    let mut work = 0u64;
    for stmt in body {
        work = work.saturating_add(work_of_stmt(stmt));
    }
    work
}

/// How much work a run has at most, or the greatest number of 64 bits where that is less.
///
/// A `For` counts each of its turns, also through an empty body, and an `If` both its bodies.
pub fn c_work(program: &CProgram) -> u64
    requires { IsWellFormed (program_of program.now) }
    ensures { result ≡ counted_work (program_of program.now) }
{
    let mut work = 0u64;
    for step in program.steps.as_slice() {
        work = work.saturating_add(work_of_stmts(step.body.as_slice()));
    }
    work
}

ghost use Rattle.std.specs.Prelude.{◌≡◌};
ghost use Rattle.aol_csyn.specs.Meaning.{run, run_all, value, turns, turn_count, with_var};
ghost use Rattle.aol_csyn.specs.Stored.{expr_of, stmt_of, stmts_of, tables_of};
ghost use Rattle.aol_csyn.specs.Tree.{set_var, put_v, put_f, for_each};
ghost use Rattle.aol_cexec.specs.Machine.{Leads, state_of};

use crate::machine::{Machine, apply, entry_at, number_at, put_at, put_entry, table_entry_at};
use aol_csyn::{CExpr, CStmt, Table};

/// What an expression gives, or nothing where it is stuck.
pub(crate) fn value_of(tables: &[Table], machine: &Machine, e: &CExpr) -> Option<i64>
    ensures { result ≡ value (tables_of tables.now) (state_of machine.now) (expr_of e.now) }
{
    match e {
        CExpr::Num(number) => Some(*number),
        CExpr::Var(k) => number_at(machine.vars.as_slice(), *k as usize),
        CExpr::Tab(t, index) => {
            let at = value_of(tables, machine, index)?;
            table_entry_at(tables, *t, at)
        }
        CExpr::V(index) => {
            let at = value_of(tables, machine, index)?;
            entry_at(machine.v.as_slice(), at)
        }
        CExpr::F(index) => {
            let at = value_of(tables, machine, index)?;
            entry_at(machine.f.as_slice(), at)
        }
        CExpr::Bin(op, left, right) => {
            let left = value_of(tables, machine, left)?;
            let right = value_of(tables, machine, right)?;
            apply(*op, left, right)
        }
    }
}

/// Sets a variable, or answers false where there is no such one.
fn set(machine: &mut Machine, k: u32, number: i64) -> bool
    ensures { Leads (with_var k number (state_of machine.old)) result (state_of machine.new) }
{
    put_at(&mut machine.vars, k as usize, number)
}

/// Runs a `Set`, or answers false where it is stuck.
fn run_set(tables: &[Table], machine: &mut Machine, k: u32, e: &CExpr) -> bool
    ensures { Leads (run (tables_of tables.now) (set_var k (expr_of e.now)) (state_of machine.old)) result (state_of machine.new) }
{
    match value_of(tables, machine, e) {
        Some(number) => set(machine, k, number),
        None => false,
    }
}

/// Runs a `PutV`, or answers false where it is stuck.
fn run_put_v(tables: &[Table], machine: &mut Machine, at: &CExpr, e: &CExpr) -> bool
    ensures { Leads (run (tables_of tables.now) (put_v (expr_of at.now) (expr_of e.now)) (state_of machine.old)) result (state_of machine.new) }
{
    let Some(at) = value_of(tables, machine, at) else {
        return false;
    };
    match value_of(tables, machine, e) {
        Some(number) => put_entry(&mut machine.v, at, number),
        None => false,
    }
}

/// Runs a `PutF`, or answers false where it is stuck.
fn run_put_f(tables: &[Table], machine: &mut Machine, at: &CExpr, e: &CExpr) -> bool
    ensures { Leads (run (tables_of tables.now) (put_f (expr_of at.now) (expr_of e.now)) (state_of machine.old)) result (state_of machine.new) }
{
    let Some(at) = value_of(tables, machine, at) else {
        return false;
    };
    match value_of(tables, machine, e) {
        Some(number) => put_entry(&mut machine.f, at, number),
        None => false,
    }
}

/// Runs a statement, or answers false where it is stuck.
#[cycle(statement)]
fn run_stmt(tables: &[Table], machine: &mut Machine, stmt: &CStmt) -> bool
    ensures { Leads (run (tables_of tables.now) (stmt_of stmt.now) (state_of machine.old)) result (state_of machine.new) }
{
    match stmt {
        CStmt::Set(k, e) => run_set(tables, machine, *k, e),
        CStmt::PutV(at, e) => run_put_v(tables, machine, at, e),
        CStmt::PutF(at, e) => run_put_f(tables, machine, at, e),
        CStmt::If(e, first, second) => match value_of(tables, machine, e) {
            None => false,
            Some(0) => run_stmts(tables, machine, second.as_slice()),
            Some(_) => run_stmts(tables, machine, first.as_slice()),
        },
        CStmt::For(k, a, b, body) => run_for(tables, machine, *k, *a, *b, body.as_slice()),
    }
}

/// Runs a `For`, or answers false where it is stuck.
#[cycle(statement)]
fn run_for(tables: &[Table], machine: &mut Machine, k: u32, a: i64, b: i64, body: &[CStmt]) -> bool
    ensures { Leads (run (tables_of tables.now) (for_each k a b (stmts_of body.now)) (state_of machine.old)) result (state_of machine.new) }
{
    for number in a..b {
        if !set(machine, k, number) {
            return false;
        }
        if !run_stmts(tables, machine, body) {
            return false;
        }
    }
    set(machine, k, b)
}

/// Runs statements one after another, or answers false where one is stuck.
#[cycle(statement)]
pub(crate) fn run_stmts(tables: &[Table], machine: &mut Machine, body: &[CStmt]) -> bool
    ensures { Leads (run_all (tables_of tables.now) (stmts_of body.now) (state_of machine.old)) result (state_of machine.new) }
{
    for stmt in body {
        if !run_stmt(tables, machine, stmt) {
            return false;
        }
    }
    true
}

//! The statements of an instance of an elementary task.

ghost use Rattle.std.specs.Prelude.{◌≡◌, ◌<◌, ◌^◌, ◌++◌, IfOk, OnOk, length};
ghost use Rattle.aol_lower.specs.Contract.{TestWidths, TestsAreFormed, LeaveFirst, FirstIsFormed};
ghost use Rattle.aol_lower.specs.Effect.{AreShapes, patterns_size};
ghost use Rattle.aol_lower.specs.Stored.{trees_of};
ghost use Rattle.aol_cinstance.specs.Effect.{AreBodies, Computes, out_points, variables};
ghost use Rattle.aol_cinstance.specs.Made.{IsMade};
ghost use Rattle.aol_cinstance.specs.Statements.{compute, computing, pass_on};

use crate::layout::{HELD, Tables, VALUE};
use crate::ports::ports;
use crate::puts::pass_on;
use aol_csyn::{CExpr, COp, CStmt};
use aol_expr_tree::Port;
use aol_lower::parts::{between, either, set};
use aol_lower::{lower_first_fault, lower_widths};
use aol_model_types::{Elementary, OutPort};
use aol_shape::{Items, NoMemory};
use std::alloc::Global;

/// How many elements some input ports have.
fn reads_of(ins: &[Port]) -> Result<u32, NoMemory>
    ensures count { IfOk result (λ count. count ≡ patterns_size ins.now) }
    ensures shapes { OnOk result (AreShapes ins.now) }
{
    let Some((port, others)) = ins.split_first() else {
        return Ok(0);
    };
    let _entries = port.shape.as_slice();
    let rest = reads_of(others)?;
    port.shape.size().checked_add(rest).ok_or(NoMemory)
}

/// How many elements some output ports have.
fn cells_of(outs: &[OutPort]) -> Result<u32, NoMemory>
    ensures { IfOk result (λ count. count ≡ out_points outs.now) }
{
    let Some((out, others)) = outs.split_first() else {
        return Ok(0);
    };
    let rest = cells_of(others)?;
    out.port.shape.size().checked_add(rest).ok_or(NoMemory)
}

/// The statements where no input is a fault.
fn compute(
    alloc: Global,
    mut widths: Items<CStmt>,
    ports: Items<CStmt>,
) -> Result<Items<CStmt>, NoMemory>
    ensures { IfOk result (λ body. trees_of body ≡ compute (trees_of widths) (trees_of ports)) }
{
    let mut body = set(alloc, 0, CExpr::Num(0))?;
    widths.push(CStmt::Set(HELD, CExpr::Var(0)))?;
    widths.append(ports)?;
    body.append(widths)?;
    Ok(body)
}

/// The search for the first fault, and then one of two.
fn choose(
    alloc: Global,
    mut search: Items<CStmt>,
    sound: Items<CStmt>,
    faulty: Items<CStmt>,
) -> Result<Items<CStmt>, NoMemory>
    ensures { IfOk result (λ body. (cells count : _) (widths ports : _) → trees_of sound ≡ compute widths ports → trees_of faulty ≡ pass_on cells count → trees_of body ≡ computing cells count (trees_of search) widths ports) }
{
    let none = between(alloc, COp::Eq, CExpr::Var(VALUE), CExpr::Num(0))?;
    let chosen = either(alloc, none, sound, faulty)?;
    search.append(chosen)?;
    Ok(search)
}

/// The parts of an instance's statements.
fn made(
    alloc: Global,
    task: &Elementary,
    before: u64,
    tables: Tables,
) -> Result<Items<CStmt>, NoMemory>
    requires counted { length task.now.outs < 2 ^ 32 }
    ensures { IfOk result (λ body. IsMade tables task.now before (trees_of body)) }
{
    let reads = reads_of(task.ins.as_slice())?;
    let cells = cells_of(task.outs.as_slice())?;
    let search = lower_first_fault(alloc, tables.reads, reads, VALUE)?;
    let (ins, wide_in) = (task.ins.as_slice(), task.wide_in.as_slice());
    let widths = lower_widths(alloc, ins, wide_in, tables.reads, VALUE)?;
    let computed = ports(alloc, task, task.outs.as_slice(), 0, 0, before, tables)?;
    let sound = compute(alloc, widths, computed)?;
    let faulty = pass_on(alloc, tables.cells, cells)?;
    choose(alloc, search, sound, faulty)
}

/// The statements of an instance of an elementary task.
///
/// `before` output points of elementary tasks come before the task's own, in the order of the task list.
pub fn lower_instance(
    alloc: Global,
    task: &Elementary,
    before: u64,
    tables: Tables,
) -> Result<Items<CStmt>, NoMemory>
    requires counted { length task.now.outs < 2 ^ 32 }
    ensures value { IfOk result (λ body. Computes tables task.now before (trees_of body)) }
    ensures formed { IfOk result (λ body. AreBodies tables (variables task.now.outs) (trees_of body)) }
{
    made(alloc, task, before, tables)
}

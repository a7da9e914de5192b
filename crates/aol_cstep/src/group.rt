ghost use Rattle.std.specs.Prelude.{◌≡◌, ◌+◌, ◌<◌, ◌^◌, ◌++◌, ◌∷◌, [], IfOk, pos};
ghost use Rattle.aol_csyn.specs.Stored.{expr_of, stmt_of};
ghost use Rattle.aol_lower.specs.Stored.{trees_of};
ghost use Rattle.aol_cstep.specs.Effect.{GroupFills, GroupIsFormed};
ghost use Rattle.aol_cstep.specs.Statements.{group_loop, place, turn};

use aol_cinstance::{CELLS, INSTANCE, READS};
use aol_csyn::{CExpr, COp, CStmt};
use aol_lower::parts::{between, set};
use aol_shape::{Items, NoMemory};
use std::alloc::Global;

/// Some instances of one leaf: where their entries and their cells begin in the tables, how many of both each instance
/// has, and how many instances they are.
#[derive(Clone, Copy, Debug, PartialEq, Eq)]
pub struct Group {
    pub from: u32,
    pub at: u32,
    pub reads: u32,
    pub cells: u32,
    pub count: u32,
}

/// Where the instance of the loop begins, if the first begins at a place and each has so many.
fn place(alloc: Global, first: u32, each: u32) -> Result<CExpr, NoMemory>
    ensures { IfOk result (λ e. expr_of e ≡ place first each) }
{
    let each = CExpr::Num(i64::from(each));
    let before = between(alloc, COp::Mul, CExpr::Var(INSTANCE), each)?;
    between(alloc, COp::Add, CExpr::Num(i64::from(first)), before)
}

/// The statements of one turn: both places, and then those of an instance.
fn turn(alloc: Global, group: Group, instance: Items<CStmt>) -> Result<Items<CStmt>, NoMemory>
    ensures { IfOk result (λ body. trees_of body ≡ turn group (trees_of instance)) }
{
    let from = place(alloc, group.from, group.reads)?;
    let at = place(alloc, group.at, group.cells)?;
    let mut body = set(alloc, READS, from)?;
    body.push(CStmt::Set(CELLS, at))?;
    body.append(instance)?;
    Ok(body)
}

/// The loop, as it is defined.
fn group_loop(alloc: Global, group: Group, instance: Items<CStmt>) -> Result<CStmt, NoMemory>
    ensures { IfOk result (λ st. stmt_of st ≡ group_loop group (trees_of instance)) }
{
    let body = turn(alloc, group, instance)?;
    Ok(CStmt::For(INSTANCE, 0, i64::from(group.count), body))
}

/// The loop over a group of instances, each of which does these statements.
///
/// It sets the places of each instance's entries and cells, and then does them.
pub fn lower_group(alloc: Global, group: Group, instance: Items<CStmt>) -> Result<CStmt, NoMemory>
    ensures value { IfOk result (λ st. GroupFills group (trees_of instance) (stmt_of st)) }
    ensures formed { IfOk result (λ st. GroupIsFormed (trees_of instance) (stmt_of st)) }
{
    group_loop(alloc, group, instance)
}

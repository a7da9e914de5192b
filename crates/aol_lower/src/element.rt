//! The statements that read an element of a port.

ghost use Rattle.std.specs.Prelude.{◌≡◌, ◌+◌, ◌<◌, ◌^◌, IfOk, pos, negsuc, ◌∷◌, []};
ghost use Rattle.aol_csyn.specs.declared.program.COp.TheVariants.{Sub};
ghost use Rattle.aol_csyn.specs.Tree.{bin, cell_v, num, set_var, tab};
ghost use Rattle.aol_csyn.specs.Stored.{expr_of};
ghost use Rattle.aol_eval.specs.Resolved.{shape_of, start_of};
ghost use Rattle.aol_lower.specs.Lowered.{element_in, entry_at, fetched, inside, next_rank, ranked};
ghost use Rattle.aol_lower.specs.Stored.{trees_of};

use crate::comparison::{Comparison, Side, at_most, comparison_expr};
use crate::parts::{between, cell, either, fail, set, table_entry};
use crate::reads::Reads;
use crate::scope::Inside;
use aol_csyn::{CExpr, COp, CStmt};
use aol_expr_tree::{Kind, Port};
use aol_shape::{Items, Name, NoMemory, Shape, are_same};
use std::alloc::Global;

/// The shape of the first port with the name.
fn shape_named(ins: &[Port], name: &Name) -> Option<Shape>
    ensures { result ≡ shape_of ins.now name.now }
{
    match ins.split_first() {
        None => None,
        Some((port, _)) if are_same(&port.name, name) => Some(port.shape.copy()),
        Some((_, others)) => shape_named(others, name),
    }
}

/// How many numbers stand before the pattern of the first port with the name.
fn start_named(ins: &[Port], name: &Name) -> Result<i64, NoMemory>
    ensures { IfOk result (λ start. start ≡ pos (start_of ins.now name.now)) }
{
    match ins.split_first() {
        None => Ok(0),
        Some((port, _)) if are_same(&port.name, name) => Ok(0),
        Some((port, others)) => {
            let start = start_named(others, name)?;
            i64::from(port.shape.size())
                .checked_add(start)
                .ok_or(NoMemory)
        }
    }
}

/// Where an element is read: after so many numbers, at the rank in a variable, into a variable.
#[derive(Clone, Copy)]
pub(crate) struct Place {
    pub(crate) reads: Reads,
    pub(crate) start: i64,
    pub(crate) rank: u32,
    pub(crate) target: u32,
}

/// The entry of the read at the rank.
pub(crate) fn entry_expr(alloc: Global, place: Place) -> Result<CExpr, NoMemory>
    ensures { IfOk result (λ e. expr_of e ≡ entry_at place.reads place.start place.rank) }
{
    let behind = between(
        alloc,
        COp::Add,
        CExpr::Num(place.start),
        CExpr::Var(place.rank),
    )?;
    let index = between(alloc, COp::Add, CExpr::Var(1), behind)?;
    table_entry(alloc, place.reads.entries, index)
}

/// The number where the entry is a cell.
fn from_cell(alloc: Global, place: Place) -> Result<Items<CStmt>, NoMemory>
    ensures { IfOk result (λ body. trees_of body ≡ set_var place.target (cell_v (entry_at place.reads place.start place.rank)) ∷ []) }
{
    let entry = entry_expr(alloc, place)?;
    let number = cell(alloc, entry)?;
    set(alloc, place.target, number)
}

/// The number where the entry is one of the table of numbers.
fn from_number(alloc: Global, place: Place) -> Result<Items<CStmt>, NoMemory>
    ensures { IfOk result (λ body. trees_of body ≡ set_var place.target (tab place.reads.numbers (bin Sub (num (negsuc 0)) (entry_at place.reads place.start place.rank))) ∷ []) }
{
    let entry = entry_expr(alloc, place)?;
    let index = between(alloc, COp::Sub, CExpr::Num(-1), entry)?;
    let number = table_entry(alloc, place.reads.numbers, index)?;
    set(alloc, place.target, number)
}

/// The number at the rank.
pub(crate) fn fetched(alloc: Global, place: Place) -> Result<Items<CStmt>, NoMemory>
    ensures { IfOk result (λ body. trees_of body ≡ fetched place.reads place.start place.rank place.target) }
{
    let first = from_cell(alloc, place)?;
    let second = from_number(alloc, place)?;
    let entry = entry_expr(alloc, place)?;
    let is_cell = between(alloc, COp::Le, CExpr::Num(0), entry)?;
    either(alloc, is_cell, first, second)
}

/// Whether an index is from 0 to below the entry.
fn inside(alloc: Global, x: u32, entry: u32) -> Result<CExpr, NoMemory>
    ensures { IfOk result (λ e. expr_of e ≡ inside x entry) }
{
    let above = comparison_expr(alloc, at_most(Side::Number(0), Side::Variable(x)))?;
    let less = Comparison {
        op: COp::Lt,
        left: Side::Variable(x),
        right: Side::Number(i64::from(entry)),
    };
    let below = comparison_expr(alloc, less)?;
    between(alloc, COp::Mul, above, below)
}

/// The rank with one more index.
fn next_rank(alloc: Global, rank: u32, entry: u32, x: u32) -> Result<Items<CStmt>, NoMemory>
    ensures { IfOk result (λ body. trees_of body ≡ next_rank rank entry x ∷ []) }
{
    let entry = CExpr::Num(i64::from(entry));
    let row = between(alloc, COp::Mul, CExpr::Var(rank), entry)?;
    let next = between(alloc, COp::Add, row, CExpr::Var(x))?;
    set(alloc, rank, next)
}

/// The element at so many indices from a variable on, after the rank of those before.
fn ranked(
    alloc: Global,
    place: Place,
    shape: &[u32],
    x: u32,
    count: u32,
) -> Result<Items<CStmt>, NoMemory>
    requires { x + count < 2 ^ 32 }
    ensures { IfOk result (λ body. trees_of body ≡ ranked place.reads place.start place.rank place.target shape.now x count) }
{
    match shape.split_first() {
        None if count == 0 => fetched(alloc, place),
        Some((entry, rest)) if count > 0 => {
            let mut first = next_rank(alloc, place.rank, *entry, x)?;
            let others = ranked(alloc, place, rest, x + 1, count - 1)?;
            first.append(others)?;
            let second = fail(alloc, Kind::Index)?;
            let tested = inside(alloc, x, *entry)?;
            either(alloc, tested, first, second)
        }
        _ => fail(alloc, Kind::Index),
    }
}

/// The element of the named port at so many indices from variable `d` on, into that variable.
pub(crate) fn element(
    alloc: Global,
    shared: &Inside,
    port: &Name,
    d: u32,
    count: u32,
) -> Result<Items<CStmt>, NoMemory>
    requires { d + count < 2 ^ 32 }
    ensures { IfOk result (λ body. trees_of body ≡ element_in shared.now.reads (pos (start_of shared.now.ins.now port.now)) d count (shape_of shared.now.ins.now port.now)) }
{
    let Some(shape) = shape_named(shared.ins, port) else {
        return fail(alloc, Kind::Index);
    };
    let place = Place {
        reads: shared.reads,
        start: start_named(shared.ins, port)?,
        rank: d + count,
        target: d,
    };
    let mut body = set(alloc, place.rank, CExpr::Num(0))?;
    let others = ranked(alloc, place, shape.as_slice(), d, count)?;
    body.append(others)?;
    Ok(body)
}

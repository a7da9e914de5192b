ghost use Rattle.std.specs.Prelude.{◌≡◌, ◌+◌, ◌<◌, ◌≤◌, ◌^◌, ◌++◌, ◌∷◌, [], IfOk, OnOk};
ghost use Rattle.aol_csyn.specs.Stored.{expr_of};
ghost use Rattle.aol_csyn.specs.Tree.{set_var, var};
ghost use Rattle.aol_expr_tree.specs.Node.{tree_of, trees_of as nodes_of};
ghost use Rattle.aol_expr_tree.specs.Tree.{read, sum, tree_count, IsExpr};
ghost use Rattle.aol_lower.specs.Contract.{AreWellFormed, FittedAreFormed, LeaveFitted, LeaveValue};
ghost use Rattle.aol_lower.specs.Lowered.{all_lowered, either, guard, lowered, operation, point_at, series, then_do};
ghost use Rattle.aol_lower.specs.Small.{room, room_of};
ghost use Rattle.aol_lower.specs.Stored.{scope_of, setting_of, trees_of};

use crate::element::element;
use crate::operators::{operation, plus};
use crate::parts::{either, push_guarded};
use crate::reads::Reads;
use crate::scope::{Inside, Scope};
use crate::widths::width_test;
use aol_csyn::{CExpr, CStmt};
use aol_expr_tree::{Expr, ExprNode, ExprOp, Port, Width};
use aol_shape::{Items, Name, NoMemory};
use std::alloc::Global;

/// An index of the output point, or 0 where there is none.
fn point_at(rank: u32, k: u32) -> CExpr
    requires { rank + 2 < 2 ^ 32 }
    ensures { expr_of result ≡ point_at rank k }
{
    if k < rank {
        CExpr::Var(k + 2)
    } else {
        CExpr::Num(0)
    }
}

/// Appends that a variable takes the value of an expression.
fn push_set(out: &mut Items<CStmt>, d: u32, e: CExpr) -> Result<(), NoMemory>
    ensures { OnOk result (trees_of out.new ≡ trees_of out.old ++ set_var d (expr_of e) ∷ []) }
{
    out.push(CStmt::Set(d, e))?;
    Ok(())
}

/// How many indices there are.
#[tactic(auto, using(crate::proofs::Rooms::count_fits, aol_expr_tree::proofs::Nodes::nodes_counted))]
fn count_of(d: u32, nodes: &Items<ExprNode>) -> u32
    requires { d + room_of (nodes_of nodes.now) < 2 ^ 32 }
    ensures within { d + result < 2 ^ 32 }
    ensures count { result ≡ tree_count (nodes_of nodes.now) }
{
    nodes.len() as u32
}

/// Appends the statements of a sum of so many terms, each of which the statements leave in variable `d + 2`.
fn push_series(
    alloc: Global,
    out: &mut Items<CStmt>,
    d: u32,
    terms: u32,
    mut term: Items<CStmt>,
) -> Result<(), NoMemory>
    requires { d + 2 < 2 ^ 32 }
    ensures { OnOk result (trees_of out.new ≡ trees_of out.old ++ series d terms (trees_of term)) }
{
    let added = plus(alloc, d, d + 2)?;
    push_guarded(alloc, &mut term, added)?;
    let mut body = Items::new(alloc);
    push_guarded(alloc, &mut body, term)?;
    push_set(out, d, CExpr::Num(0))?;
    out.push(CStmt::For(d + 1, 0, i64::from(terms), body))?;
    Ok(())
}

/// Appends the statements of an operator at `d` and the next variable, which the statements of its right side set.
fn push_applied(
    alloc: Global,
    out: &mut Items<CStmt>,
    op: ExprOp,
    d: u32,
    mut right: Items<CStmt>,
) -> Result<(), NoMemory>
    requires { d + 1 < 2 ^ 32 }
    ensures { OnOk result (trees_of out.new ≡ trees_of out.old ++ guard (then_do (trees_of right) (operation op d (d + 1))) ∷ []) }
{
    let applied = operation(alloc, op, d, d + 1)?;
    push_guarded(alloc, &mut right, applied)?;
    push_guarded(alloc, out, right)
}

/// Appends the statements that variable `d` chooses.
fn push_chosen(
    alloc: Global,
    out: &mut Items<CStmt>,
    d: u32,
    first: Items<CStmt>,
    second: Items<CStmt>,
) -> Result<(), NoMemory>
    ensures { OnOk result (trees_of out.new ≡ trees_of out.old ++ guard (either (var d) (trees_of first) (trees_of second)) ∷ []) }
{
    let chosen = either(alloc, CExpr::Var(d), first, second)?;
    push_guarded(alloc, out, chosen)
}

/// Appends the statements of a node.
#[cycle(lower)]
fn lower_into<'n>(
    alloc: Global,
    node: &'n ExprNode,
    shared: &Inside,
    scope: &'n Scope<'n>,
    d: u32,
    out: &mut Items<CStmt>,
) -> Result<(), NoMemory>
    requires space { d + room (tree_of node.now) < 2 ^ 32 }
    requires above { shared.now.rank + 2 ≤ d }
    ensures { OnOk result (trees_of out.new ≡ trees_of out.old ++ lowered (setting_of shared.now) (scope_of scope.now) d (tree_of node.now)) }
{
    match node {
        ExprNode::Num(number) => push_set(out, d, CExpr::Num(*number)),
        ExprNode::Index(k) => push_set(out, d, point_at(shared.rank, *k)),
        ExprNode::Var(name) => push_set(out, d, scope.expr(name)),
        ExprNode::Read(port, indices) => lower_read(alloc, port, indices, shared, scope, d, out),
        ExprNode::Bin(op, left, right) => {
            lower_into(alloc, left, shared, scope, d, out)?;
            let mut rest = Items::new(alloc);
            lower_into(alloc, right, shared, scope, d + 1, &mut rest)?;
            push_applied(alloc, out, *op, d, rest)
        }
        ExprNode::If(condition, then, otherwise) => {
            lower_into(alloc, condition, shared, scope, d, out)?;
            let mut first = Items::new(alloc);
            lower_into(alloc, then, shared, scope, d, &mut first)?;
            let mut second = Items::new(alloc);
            lower_into(alloc, otherwise, shared, scope, d, &mut second)?;
            push_chosen(alloc, out, d, first, second)
        }
        ExprNode::Sum(name, terms, term) => {
            lower_sum(alloc, name, *terms, term, shared, scope, d, out)
        }
    }
}

/// Appends the statements of a read.
#[cycle(lower)]
fn lower_read<'n>(
    alloc: Global,
    port: &Name,
    indices: &'n Items<ExprNode>,
    shared: &Inside,
    scope: &'n Scope<'n>,
    d: u32,
    out: &mut Items<CStmt>,
) -> Result<(), NoMemory>
    requires space { d + room_of (nodes_of indices.now) + 1 < 2 ^ 32 }
    requires above { shared.now.rank + 2 ≤ d }
    ensures { OnOk result (trees_of out.new ≡ trees_of out.old ++ lowered (setting_of shared.now) (scope_of scope.now) d (read port.now (nodes_of indices.now))) }
{
    lower_indices(alloc, indices, shared, scope, d, out)?;
    let count = count_of(d, indices);
    let read = element(alloc, shared, port, d, count)?;
    push_guarded(alloc, out, read)
}

/// Appends the statements of indices, each of which takes the next variable.
#[cycle(lower)]
#[tactic(auto, using(crate::proofs::Rooms::rooms_left))]
fn lower_indices<'n>(
    alloc: Global,
    nodes: &'n Items<ExprNode>,
    shared: &Inside,
    scope: &'n Scope<'n>,
    d: u32,
    out: &mut Items<CStmt>,
) -> Result<(), NoMemory>
    requires space { d + room_of (nodes_of nodes.now) + 1 < 2 ^ 32 }
    requires above { shared.now.rank + 2 ≤ d }
    ensures { OnOk result (trees_of out.new ≡ trees_of out.old ++ all_lowered (setting_of shared.now) (scope_of scope.now) d (nodes_of nodes.now)) }
{
    let mut at = d;
    for node in nodes.as_slice() {
        let mut index = Items::new(alloc);
        lower_into(alloc, node, shared, scope, at, &mut index)?;
        push_guarded(alloc, out, index)?;
        at += 1;
    }
    Ok(())
}

/// Appends the statements of a sum.
#[cycle(lower)]
fn lower_sum<'n>(
    alloc: Global,
    name: &'n Name,
    terms: u32,
    term: &'n ExprNode,
    shared: &Inside,
    scope: &'n Scope<'n>,
    d: u32,
    out: &mut Items<CStmt>,
) -> Result<(), NoMemory>
    requires space { d + room (tree_of term.now) + 2 < 2 ^ 32 }
    requires above { shared.now.rank + 2 ≤ d }
    ensures { OnOk result (trees_of out.new ≡ trees_of out.old ++ lowered (setting_of shared.now) (scope_of scope.now) d (sum name.now terms (tree_of term.now))) }
{
    let mut body = Items::new(alloc);
    lower_into(
        alloc,
        term,
        shared,
        &Scope::Bound(name, d + 1, scope),
        d + 2,
        &mut body,
    )?;
    push_series(alloc, out, d, terms, body)
}

/// The statements of an expression, as they are defined.
fn lower_tree(
    alloc: Global,
    e: &Expr,
    ins: &[Port],
    rank: u32,
    reads: Reads,
    d: u32,
) -> Result<Items<CStmt>, NoMemory>
    requires space { d + room e.now < 2 ^ 32 }
    requires above { rank + 2 ≤ d }
    ensures limits { IsExpr e.now }
    ensures made { IfOk result (λ body. trees_of body ≡ lowered (record { reads = reads; ins = ins.now; rank = rank }) [] d e.now) }
{
    let shared = Inside { reads, ins, rank };
    let mut out = Items::new(alloc);
    lower_into(alloc, e.root(), &shared, &Scope::Outermost, d, &mut out)?;
    Ok(out)
}

/// The statements of an expression of a task with these input ports, at an output of this rank.
///
/// From each state in which the numbers of the inputs can be read through `reads`, and the output point stands in the
/// variables from 2 on, they are not stuck. They leave the value of the expression in variable `d`, or the number of its
/// first fault in variable 0, and change no other variable below `d`, and no array.
pub fn lower_expr(
    alloc: Global,
    e: &Expr,
    ins: &[Port],
    rank: u32,
    reads: Reads,
    d: u32,
) -> Result<Items<CStmt>, NoMemory>
    requires space { d + room e.now < 2 ^ 32 }
    requires above { rank + 2 ≤ d }
    ensures value { IfOk result (λ body. LeaveValue reads ins.now rank d e.now (trees_of body)) }
    ensures formed { IfOk result (λ body. AreWellFormed reads ins.now rank d e.now (trees_of body)) }
{
    lower_tree(alloc, e, ins, rank, reads, d)
}

/// The same, with the value tested by the width of an output port.
///
/// The statements leave the value where the width holds it, and else the fault `Range`; a fault of the expression stays.
pub fn lower_fitted(
    alloc: Global,
    e: &Expr,
    ins: &[Port],
    rank: u32,
    width: Width,
    reads: Reads,
    d: u32,
) -> Result<Items<CStmt>, NoMemory>
    requires space { d + room e.now < 2 ^ 32 }
    requires above { rank + 2 ≤ d }
    ensures value { IfOk result (λ body. LeaveFitted reads ins.now rank d width e.now (trees_of body)) }
    ensures formed { IfOk result (λ body. FittedAreFormed reads ins.now d e.now (trees_of body)) }
{
    let mut out = lower_expr(alloc, e, ins, rank, reads, d)?;
    let tested = width_test(alloc, width, d)?;
    push_guarded(alloc, &mut out, tested)?;
    Ok(out)
}

ghost use Rattle.std.specs.Prelude.{◌≡◌, IfOk};
ghost use Rattle.aol_expr_tree.specs.Node.{tree_of, trees_of};
ghost use Rattle.aol_eval.specs.Resolved.{all_resolved, depth_of, plan_of, plans_of, resolved, shape_of, start_of};
ghost use Rattle.aol_expr_tree.specs.BoundNames.{names_of};

use crate::step::Step;
use aol_expr_tree::{Bound, ExprNode, Port};
use aol_shape::{Items, Name, NoMemory, Shape, are_same};
use std::alloc::Global;

fn shape_copy(alloc: Global, shape: &Shape) -> Shape
    ensures { result ≡ shape.now }
{
    match Shape::new(alloc, shape.as_slice()) {
        Some(shape) => shape,
        None => unreachable!(),
    }
}

/// The shape of the first port with the name.
fn shape_named(alloc: Global, ins: &[Port], name: &Name) -> Option<Shape>
    ensures { result ≡ shape_of ins.now name.now }
{
    match ins.split_first() {
        None => None,
        Some((port, _)) if are_same(&port.name, name) => Some(shape_copy(alloc, &port.shape)),
        Some((_, others)) => shape_named(alloc, others, name),
    }
}

/// How many numbers stand before the pattern of the first port with the name.
fn start_named(ins: &[Port], name: &Name) -> Result<usize, NoMemory>
    ensures { IfOk result (λ start. start ≡ start_of ins.now name.now) }
{
    match ins.split_first() {
        None => Ok(0),
        Some((port, _)) if are_same(&port.name, name) => Ok(0),
        Some((port, others)) => {
            let start = start_named(others, name)?;
            (port.shape.size() as usize)
                .checked_add(start)
                .ok_or(NoMemory)
        }
    }
}

/// How many bound names stand before the name.
fn depth(bound: &Bound, name: &Name) -> Result<u32, NoMemory>
    ensures { IfOk result (λ depth. depth ≡ depth_of (names_of bound.now) name.now) }
{
    match bound {
        Bound::Nothing => Ok(0),
        Bound::Name(inner, _) if are_same(inner, name) => Ok(0),
        Bound::Name(_, outer) => depth(outer, name)?.checked_add(1).ok_or(NoMemory),
    }
}

/// The node with its names resolved.
#[cycle(resolve)]
pub(crate) fn step_of<'n>(
    alloc: Global,
    node: &'n ExprNode,
    ins: &[Port],
    bound: &'n Bound<'n>,
) -> Result<Step, NoMemory>
    ensures { IfOk result (λ step. plan_of step ≡ resolved ins.now (names_of bound.now) (tree_of node.now)) }
{
    Ok(match node {
        ExprNode::Num(number) => Step::Num(*number),
        ExprNode::Index(k) => Step::Index(*k),
        ExprNode::Var(name) => Step::Var(depth(bound, name)?),
        ExprNode::Read(port, indices) => Step::Read(
            shape_named(alloc, ins, port),
            start_named(ins, port)?,
            steps_of(alloc, indices, ins, bound)?,
        ),
        ExprNode::Bin(op, left, right) => Step::Bin(
            *op,
            boxed(alloc, left, ins, bound)?,
            boxed(alloc, right, ins, bound)?,
        ),
        ExprNode::If(condition, then, otherwise) => Step::If(
            boxed(alloc, condition, ins, bound)?,
            boxed(alloc, then, ins, bound)?,
            boxed(alloc, otherwise, ins, bound)?,
        ),
        ExprNode::Sum(name, terms, term) => {
            Step::Sum(*terms, boxed(alloc, term, ins, &Bound::Name(name, bound))?)
        }
    })
}

#[cycle(resolve)]
fn boxed<'n>(
    alloc: Global,
    node: &'n ExprNode,
    ins: &[Port],
    bound: &'n Bound<'n>,
) -> Result<Box<Step>, NoMemory>
    ensures { IfOk result (λ step. plan_of step.value ≡ resolved ins.now (names_of bound.now) (tree_of node.now)) }
{
    let step = step_of(alloc, node, ins, bound)?;
    Box::new(alloc, step).map_err(|_| NoMemory)
}

#[cycle(resolve)]
#[tactic(auto, using(crate::proofs::Plans::plans_made))]
fn steps_of<'n>(
    alloc: Global,
    nodes: &'n Items<ExprNode>,
    ins: &[Port],
    bound: &'n Bound<'n>,
) -> Result<Items<Step>, NoMemory>
    ensures { IfOk result (λ steps. plans_of steps ≡ all_resolved ins.now (names_of bound.now) (trees_of nodes.now)) }
{
    let mut steps = Items::new(alloc);
    for node in nodes.as_slice() {
        steps.push(step_of(alloc, node, ins, bound)?)?;
    }
    Ok(steps)
}

ghost use Rattle.std.specs.Prelude.{◌≡◌, IfOk};
ghost use Rattle.aol_expr_tree.specs.Node.{tree_of, trees_of};

use crate::node::ExprNode;
use aol_shape::{Items, Name, NoMemory};
use std::alloc::Global;

fn name_copy(alloc: Global, name: &Name) -> Result<Name, NoMemory>
    ensures { IfOk result (λ n. n ≡ name.now) }
{
    Name::from_str(alloc, name.as_str())
}

/// A node with an equal tree.
#[cycle(copy)]
pub(crate) fn copy_of(alloc: Global, node: &ExprNode) -> Result<ExprNode, NoMemory>
    ensures { IfOk result (λ n. tree_of n ≡ tree_of node.now) }
{
    Ok(match node {
        ExprNode::Num(number) => ExprNode::Num(*number),
        ExprNode::Index(k) => ExprNode::Index(*k),
        ExprNode::Var(name) => ExprNode::Var(name_copy(alloc, name)?),
        ExprNode::Read(port, indices) => {
            ExprNode::Read(name_copy(alloc, port)?, copy_all(alloc, indices)?)
        }
        ExprNode::Bin(op, left, right) => {
            ExprNode::Bin(*op, boxed(alloc, left)?, boxed(alloc, right)?)
        }
        ExprNode::If(condition, then, otherwise) => ExprNode::If(
            boxed(alloc, condition)?,
            boxed(alloc, then)?,
            boxed(alloc, otherwise)?,
        ),
        ExprNode::Sum(name, terms, term) => {
            ExprNode::Sum(name_copy(alloc, name)?, *terms, boxed(alloc, term)?)
        }
    })
}

#[cycle(copy)]
fn boxed(alloc: Global, node: &ExprNode) -> Result<Box<ExprNode>, NoMemory>
    ensures { IfOk result (λ b. tree_of b.value ≡ tree_of node.now) }
{
    let copy = copy_of(alloc, node)?;
    Box::new(alloc, copy).map_err(|_| NoMemory)
}

#[cycle(copy)]
fn copy_all(alloc: Global, nodes: &Items<ExprNode>) -> Result<Items<ExprNode>, NoMemory>
    ensures { IfOk result (λ ns. trees_of ns ≡ trees_of nodes.now) }
{
    let mut copies = Items::new(alloc);
    for node in nodes.as_slice() {
        copies.push(copy_of(alloc, node)?)?;
    }
    Ok(copies)
}

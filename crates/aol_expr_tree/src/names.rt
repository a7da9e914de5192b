ghost use Rattle.std.specs.Prelude.{◌≡◌};
ghost use Rattle.std.specs.List.{list_any};
ghost use Rattle.aol_shape.specs.Lists.{same};
ghost use Rattle.aol_expr_tree.specs.Names.{all_names_ok, is_port, names_ok, names_ok_in};
ghost use Rattle.aol_expr_tree.specs.Node.{tree_of, trees_of};
ghost use Rattle.aol_expr_tree.specs.Tree.{tree_count};
ghost use Rattle.aol_expr_tree.specs.BoundNames.{names_of};

use crate::expr::Expr;
use crate::node::ExprNode;
use crate::port::Port;
use aol_shape::{Items, Name, are_same};

/// The names that the sums around an expression bind, the innermost first.
#[derive(Clone, Copy)]
pub enum Bound<'a> {
    Nothing,
    Name(&'a Name, &'a Bound<'a>),
}

impl Bound<'_> {
    fn has(&self, name: &Name) -> bool
        ensures { result ≡ list_any (same name.now) (names_of self.now) }
    {
        match self {
            Bound::Nothing => false,
            Bound::Name(bound, outer) => are_same(name, bound) || outer.has(name),
        }
    }
}

/// Whether each name that an expression uses is there: each port read names a port of `ins` with as
/// many indices as its rank, each `$k` has `k` below `out_rank`, and each variable is bound by a sum.
pub fn names_ok(e: &Expr, ins: &Items<Port>, out_rank: u32) -> bool
    ensures { result ≡ names_ok ins.now out_rank e.now }
{
    are_named(e.root(), ins.as_slice(), out_rank, &Bound::Nothing)
}

fn is_port(ins: &[Port], name: &Name, rank: usize) -> bool
    ensures { result ≡ is_port ins.now name.now rank }
{
    ins.iter().any(|port| are_same(&port.name, name) && port.shape.as_slice().len() == rank)
}

/// Whether a port has the name and as many dimensions as there are indices.
#[tactic(auto, using(crate::proofs::Nodes::nodes_counted))]
fn has_port(ins: &[Port], name: &Name, indices: &Items<ExprNode>) -> bool
    ensures { result ≡ is_port ins.now name.now (tree_count (trees_of indices.now)) }
{
    is_port(ins, name, indices.len())
}

#[cycle(named)]
fn are_named<'n>(node: &'n ExprNode, ins: &[Port], out_rank: u32, bound: &'n Bound<'n>) -> bool
    ensures { result ≡ names_ok_in ins.now out_rank (names_of bound.now) (tree_of node.now) }
{
    match node {
        ExprNode::Num(_) => true,
        ExprNode::Index(k) => *k < out_rank,
        ExprNode::Var(name) => bound.has(name),
        ExprNode::Read(port, indices) => {
            has_port(ins, port, indices) && all_named(indices, ins, out_rank, bound)
        }
        ExprNode::Bin(_, left, right) => {
            are_named(left, ins, out_rank, bound) && are_named(right, ins, out_rank, bound)
        }
        ExprNode::If(condition, then, otherwise) => {
            are_named(condition, ins, out_rank, bound)
                && are_named(then, ins, out_rank, bound)
                && are_named(otherwise, ins, out_rank, bound)
        }
        ExprNode::Sum(name, _, term) => are_named(term, ins, out_rank, &Bound::Name(name, bound)),
    }
}

#[cycle(named)]
fn all_named<'n>(
    nodes: &'n Items<ExprNode>,
    ins: &[Port],
    out_rank: u32,
    bound: &'n Bound<'n>,
) -> bool
    ensures { result ≡ all_names_ok ins.now out_rank (names_of bound.now) (trees_of nodes.now) }
{
    for node in nodes.as_slice() {
        if !are_named(node, ins, out_rank, bound) {
            return false;
        }
    }
    true
}

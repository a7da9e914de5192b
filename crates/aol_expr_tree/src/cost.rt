ghost use Rattle.std.specs.Prelude.{◌≡◌, ◌+◌, ◌<◌, ◌^◌};
ghost use Rattle.aol_expr_tree.specs.Node.{tree_of, trees_of};
ghost use Rattle.aol_expr_tree.specs.Tree.{work, work_of};

use crate::expr::Expr;
use crate::node::ExprNode;
use aol_shape::Items;

/// How many evaluations of a node one evaluation of the expression takes at most: 1 for each node,
/// and for a sum besides as many times the work of its term as it has terms.
///
/// It fits: 10,000 nodes, each inside sums of at most 1,048,576 terms in all.
#[tactic(auto, using(crate::proofs::Bounds::work_fits))]
pub fn work(e: &Expr) -> u64
    ensures { result ≡ work e.now }
{
    node_work(e.root())
}

#[cycle(work)]
pub(crate) fn node_work(node: &ExprNode) -> u64
    requires { work (tree_of node.now) < 2 ^ 64 }
    ensures { result ≡ work (tree_of node.now) }
{
    match node {
        ExprNode::Num(_) | ExprNode::Index(_) | ExprNode::Var(_) => 1,
        ExprNode::Read(_, indices) => 1 + nodes_work(indices),
        ExprNode::Bin(_, left, right) => 1 + node_work(left) + node_work(right),
        ExprNode::If(condition, then, otherwise) => {
            1 + node_work(condition) + node_work(then) + node_work(otherwise)
        }
        ExprNode::Sum(_, 0, _) => 1,
        ExprNode::Sum(_, terms, term) => 1 + u64::from(*terms) * node_work(term),
    }
}

#[cycle(work)]
fn nodes_work(nodes: &Items<ExprNode>) -> u64
    requires { work_of (trees_of nodes.now) < 2 ^ 64 }
    ensures { result ≡ work_of (trees_of nodes.now) }
{
    let mut work = 0;
    for node in nodes.as_slice() {
        work += node_work(node);
    }
    work
}

ghost use Rattle.std.specs.Prelude.{◌≡◌, ◌≤◌, ◌<◌, ◌^◌};
ghost use Rattle.aol_expr_tree.specs.Node.{tree_of, trees_of};
ghost use Rattle.aol_lower.specs.Small.{room, room_of};

use aol_expr_tree::{Expr, ExprNode};
use aol_shape::Items;

/// How many variables the statements of an expression take, from the one that takes its value on.
#[tactic(auto, using(crate::proofs::Rooms::few_variables))]
pub fn room(e: &Expr) -> u32
    ensures variables { result ≡ room e.now }
    ensures few { result ≤ 20000 }
{
    node_room(e.root())
}

#[cycle(space)]
fn node_room(node: &ExprNode) -> u32
    requires { room (tree_of node.now) < 2 ^ 32 }
    ensures { result ≡ room (tree_of node.now) }
{
    match node {
        ExprNode::Num(_) | ExprNode::Index(_) | ExprNode::Var(_) => 1,
        ExprNode::Read(_, indices) => nodes_room(indices) + 1,
        ExprNode::Bin(_, left, right) => node_room(left).max(node_room(right) + 1),
        ExprNode::If(condition, then, otherwise) => {
            node_room(condition).max(node_room(then).max(node_room(otherwise)))
        }
        ExprNode::Sum(_, _, term) => node_room(term) + 2,
    }
}

/// The variables of indices one after another.
#[cycle(space)]
fn nodes_room(nodes: &Items<ExprNode>) -> u32
    requires { room_of (trees_of nodes.now) < 2 ^ 32 }
    ensures { result ≡ room_of (trees_of nodes.now) }
{
    let mut room = 0;
    let mut count = 0;
    for node in nodes.as_slice() {
        room = room.max(count + node_room(node));
        count += 1;
    }
    room.max(count)
}

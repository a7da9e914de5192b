ghost use Rattle.std.specs.Prelude.{◌≡◌, ◌≤◌, ◌<◌, ◌^◌, IfOk};
ghost use Rattle.std.specs.Option.{option_map};
ghost use Rattle.aol_expr_tree.specs.Tree.{num, index, var, read, bin, if_else, sum, no_trees, nodes, depth};
ghost use Rattle.aol_expr_tree.specs.Node.{tree_of, trees_of};
ghost use Rattle.aol_expr_tree.specs.declared.part.Part.TheVariants.{Kept};
ghost use Rattle.aol_expr_tree.specs.Parts.{followed_by, read_parts, forgotten, seen, node_count, over_one, over_two, over_three, with_index};

use crate::node::ExprNode;
use crate::op::ExprOp;
use aol_shape::{Items, Name, NoMemory};
use std::alloc::{AllocError, Global};
use std::marker::Model;

/// The most nodes of an expression.
const MAX_NODES: u64 = 10_000;

/// The most levels of its tree.
const MAX_DEPTH: u64 = 100;

/// A tree within the limits, with the number of its nodes and of its levels.
#[derive(Drop)]
pub struct Small {
    node: ExprNode,
    count: u32,
    levels: u32,
}

impl Model for Small {
    ghost use Rattle.aol_expr_tree.specs.Tree.{Tree};
    ghost use Rattle.aol_expr_tree.specs.Code.{tree_code};

    ghost Value = { Tree };

    ghost coded = { tree_code };

    ghost use Rattle.aol_expr_tree.specs.Counted.{IsCounted};
    ghost use Rattle.aol_expr_tree.specs.Node.{tree_of, trees_of};

    ghost view = { λ s. tree_of s.node };

    ghost invariant = { λ s. IsCounted (tree_of s.node) s.count s.levels };
}

/// A part of an expression while its text is read: a tree, or the number of nodes of one that passes a limit.
#[derive(Drop)]
pub enum Part {
    Kept(Small),
    Forgotten(u32),
}

/// The part that so many nodes are, of which the tree is forgotten.
fn forgotten(count: u64) -> Part
    ensures { result ≡ forgotten count }
{
    Part::Forgotten(count.min(MAX_NODES + 1) as u32)
}

/// The part that a tree with so many nodes and levels is.
#[tactic(auto, unfolding(crate::specs::Parts::seen))]
fn kept(node: ExprNode, count: u64, levels: u64) -> Part
    requires counted { nodes (tree_of node) ≡ count }
    requires measured { depth (tree_of node) ≡ levels }
    ensures { result ≡ seen (tree_of node) }
{
    if count <= MAX_NODES && levels <= MAX_DEPTH {
        Part::Kept(Small {
            node,
            count: count as u32,
            levels: levels as u32,
        })
    } else {
        forgotten(count)
    }
}

/// A read of a port as a node.
fn read_node(name: Name, at: Items<ExprNode>) -> ExprNode
    ensures { tree_of result ≡ read name (trees_of at) }
{
    ExprNode::Read(name, at)
}

/// The port and the indices, where the node is a read of a port.
fn read_parts(node: ExprNode) -> Option<(Name, Items<ExprNode>)>
    ensures { option_map (λ r. (r.0, trees_of r.1)) result ≡ read_parts (tree_of node) }
{
    match node {
        ExprNode::Read(name, at) => Some((name, at)),
        _ => None,
    }
}

/// Nodes with one more after them.
#[tactic(auto, using(crate::proofs::Followed::trees_of_followed))]
fn followed_by(at: Items<ExprNode>, node: ExprNode) -> Result<Items<ExprNode>, AllocError>
    ensures { IfOk result (λ more. trees_of more ≡ followed_by (trees_of at) (tree_of node)) }
{
    let mut more = at;
    more.push(node)?;
    Ok(more)
}

/// A node in a box.
fn boxed(alloc: Global, node: ExprNode) -> Result<Box<ExprNode>, AllocError>
    ensures { IfOk result (λ b. b.value ≡ node) }
{
    match Box::new(alloc, node) {
        Ok(boxed) => Ok(boxed),
        Err(refused) => Err(AllocError::from(refused)),
    }
}

impl Small {
    /// The nodes.
    fn count(&self) -> u64
        ensures count { result ≡ nodes self.now }
        ensures most { result ≤ 10000 }
    {
        u64::from(self.count)
    }

    /// The levels.
    fn levels(&self) -> u64
        ensures levels { result ≡ depth self.now }
        ensures most { result ≤ 100 }
    {
        u64::from(self.levels)
    }

    /// A read of a port with one more index.
    #[tactic(auto, using(crate::proofs::Followed::nodes_followed, crate::proofs::Followed::depth_followed), unfolding(crate::specs::Parts::with_index))]
    fn with_index(self, value: Small) -> Result<Part, NoMemory>
        ensures { IfOk result (λ p. p ≡ with_index (Kept self) (Kept value)) }
    {
        let count = self.count() + value.count();
        let levels = self.levels().max(1 + value.levels());
        let Some((name, at)) = read_parts(self.into_node()) else {
            return Ok(forgotten(count));
        };
        let at = followed_by(at, value.into_node())?;
        Ok(kept(read_node(name, at), count, levels))
    }

    /// A choice between two trees.
    fn choice(alloc: Global, condition: Small, then: Small, other: Small) -> Result<Part, NoMemory>
        ensures { IfOk result (λ p. p ≡ seen (if_else condition then other)) }
    {
        let count = 1 + condition.count() + then.count() + other.count();
        let levels = 1 + condition.levels().max(then.levels().max(other.levels()));
        let condition = boxed(alloc, condition.into_node())?;
        let then = boxed(alloc, then.into_node())?;
        let other = boxed(alloc, other.into_node())?;
        Ok(kept(ExprNode::If(condition, then, other), count, levels))
    }

    /// The tree.
    pub fn into_node(self) -> ExprNode
        ensures tree { tree_of result ≡ self }
        ensures small { nodes self ≤ 10000 }
        ensures shallow { depth self ≤ 100 }
    {
        let Small { node, .. } = self;
        node
    }
}

impl Part {
    /// The nodes, as far as they are counted.
    fn count(&self) -> u64
        ensures count { result ≡ node_count self.now }
        ensures most { result < 2 ^ 32 }
    {
        match self {
            Part::Kept(tree) => tree.count(),
            Part::Forgotten(count) => u64::from(*count),
        }
    }

    /// A number.
    pub fn number(value: i64) -> Part
        ensures { result ≡ seen (num value) }
    {
        kept(ExprNode::Num(value), 1, 1)
    }

    /// An index of the output point.
    pub fn index(k: u32) -> Part
        ensures { result ≡ seen (index k) }
    {
        kept(ExprNode::Index(k), 1, 1)
    }

    /// A variable.
    pub fn variable(name: Name) -> Part
        ensures { result ≡ seen (var name) }
    {
        kept(ExprNode::Var(name), 1, 1)
    }

    /// A read of a port with no indices.
    pub fn port(alloc: Global, name: Name) -> Part
        ensures { result ≡ seen (read name no_trees) }
    {
        kept(ExprNode::Read(name, Items::new(alloc)), 1, 1)
    }

    /// A read of a port with one more index.
    #[tactic(auto, unfolding(crate::specs::Parts::with_index))]
    pub fn with_index(self, value: Part) -> Result<Part, NoMemory>
        ensures { IfOk result (λ p. p ≡ with_index self value) }
    {
        match self {
            Part::Kept(port) => match value {
                Part::Kept(value) => port.with_index(value),
                Part::Forgotten(count) => Ok(forgotten(port.count() + u64::from(count))),
            },
            Part::Forgotten(count) => Ok(forgotten(u64::from(count) + value.count())),
        }
    }

    /// An operator over two parts.
    #[tactic(auto, unfolding(crate::specs::Parts::over_two))]
    pub fn operator(alloc: Global, op: ExprOp, left: Part, right: Part) -> Result<Part, NoMemory>
        ensures { IfOk result (λ p. p ≡ over_two (bin op) left right) }
    {
        match left {
            Part::Kept(left) => match right {
                Part::Kept(right) => {
                    let count = 1 + left.count() + right.count();
                    let levels = 1 + left.levels().max(right.levels());
                    let left = boxed(alloc, left.into_node())?;
                    let right = boxed(alloc, right.into_node())?;
                    Ok(kept(ExprNode::Bin(op, left, right), count, levels))
                }
                Part::Forgotten(count) => Ok(forgotten(1 + left.count() + u64::from(count))),
            },
            Part::Forgotten(count) => Ok(forgotten(1 + u64::from(count) + right.count())),
        }
    }

    /// A choice between two parts.
    #[tactic(auto, unfolding(crate::specs::Parts::over_three))]
    pub fn choice(alloc: Global, condition: Part, then: Part, other: Part) -> Result<Part, NoMemory>
        ensures { IfOk result (λ p. p ≡ over_three if_else condition then other) }
    {
        match condition {
            Part::Kept(condition) => match then {
                Part::Kept(then) => match other {
                    Part::Kept(other) => Small::choice(alloc, condition, then, other),
                    Part::Forgotten(count) => Ok(forgotten(
                        1 + condition.count() + then.count() + u64::from(count),
                    )),
                },
                Part::Forgotten(count) => Ok(forgotten(
                    1 + condition.count() + u64::from(count) + other.count(),
                )),
            },
            Part::Forgotten(count) => {
                Ok(forgotten(1 + u64::from(count) + then.count() + other.count()))
            }
        }
    }

    /// A sum of so many terms.
    #[tactic(auto, unfolding(crate::specs::Parts::over_one))]
    pub fn sum(alloc: Global, name: Name, terms: u32, term: Part) -> Result<Part, NoMemory>
        ensures { IfOk result (λ p. p ≡ over_one (sum name terms) term) }
    {
        match term {
            Part::Kept(term) => {
                let count = 1 + term.count();
                let levels = 1 + term.levels();
                let term = boxed(alloc, term.into_node())?;
                Ok(kept(ExprNode::Sum(name, terms, term), count, levels))
            }
            Part::Forgotten(count) => Ok(forgotten(1 + u64::from(count))),
        }
    }
}

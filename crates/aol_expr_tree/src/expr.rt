ghost use Rattle.std.specs.Prelude.{◌≡◌, IfOk};
ghost use Rattle.aol_expr_tree.specs.Node.{tree_of};
ghost use Rattle.aol_expr_tree.specs.Tree.{IsExpr};

use crate::copy::copy_of;
use crate::node::ExprNode;
use aol_shape::{LimitName, NoMemory};
use std::alloc::Global;
use std::marker::Model;

/// An expression within the limits of its text.
#[derive(Drop)]
pub struct Expr {
    root: ExprNode,
}

impl Model for Expr {
    ghost use Rattle.aol_expr_tree.specs.Tree.{Tree, IsExpr};
    ghost use Rattle.aol_expr_tree.specs.Code.{tree_code};

    ghost Value = { Tree };

    ghost coded = { tree_code };

    ghost use Rattle.aol_expr_tree.specs.Node.{tree_of};

    ghost view = { λ e. tree_of e.root };

    ghost invariant = { λ e. IsExpr (tree_of e.root) };
}

/// Why a text isn't read.
#[derive(Clone, Copy, Debug, PartialEq, Eq)]
pub enum ExprRefused {
    At(u32),
    Limit(u32, LimitName),
    NoMemory,
}

/// The expression with this tree.
pub fn expr_of(root: ExprNode) -> Expr
    requires { IsExpr (tree_of root) }
    ensures { result ≡ tree_of root }
{
    Expr { root }
}

impl Expr {
    /// The tree.
    pub fn root(&self) -> &ExprNode
        ensures tree { tree_of result.now ≡ self.now }
        ensures limits { IsExpr self.now }
    {
        &self.root
    }

    /// An equal expression.
    pub fn copy(&self, alloc: Global) -> Result<Expr, NoMemory>
        ensures { IfOk result (λ e. e ≡ self.now) }
    {
        let root = copy_of(alloc, self.root())?;
        Ok(expr_of(root))
    }
}

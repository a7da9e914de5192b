ghost use Rattle.std.specs.Prelude.{◌≡◌};
ghost use Rattle.aol_csyn.specs.Stored.{expr_of};
ghost use Rattle.aol_lower.specs.Lowered.{bound_at};
ghost use Rattle.aol_lower.specs.Stored.{scope_of};

use crate::reads::Reads;
use aol_csyn::CExpr;
use aol_expr_tree::Port;
use aol_shape::{Name, are_same};

/// The names that the sums around an expression bind, each with its variable, the innermost first.
#[derive(Clone, Copy)]
pub(crate) enum Scope<'a> {
    Outermost,
    Bound(&'a Name, u32, &'a Scope<'a>),
}

/// What all parts of an expression share.
#[derive(Clone, Copy)]
pub(crate) struct Inside<'a> {
    pub(crate) reads: Reads,
    pub(crate) ins: &'a [Port],
    pub(crate) rank: u32,
}

impl Scope<'_> {
    /// The variable of the innermost sum that binds the name, or 0.
    pub(crate) fn expr(&self, name: &Name) -> CExpr
        ensures { expr_of result ≡ bound_at (scope_of self.now) name.now }
    {
        match self {
            Scope::Outermost => CExpr::Num(0),
            Scope::Bound(bound, k, _) if are_same(bound, name) => CExpr::Var(*k),
            Scope::Bound(_, _, outer) => outer.expr(name),
        }
    }
}

ghost use Rattle.std.specs.Prelude.{◌≡◌};
ghost use Rattle.aol_expr_tree.specs.Meaning.{variable};
ghost use Rattle.aol_eval.specs.Vars.{vars_of};

use aol_shape::{Name, are_same};

/// The variables of the sums around an expression, the innermost first.
#[derive(Clone, Copy)]
pub(crate) enum Vars<'a> {
    Unbound,
    Bound(&'a Name, i64, &'a Vars<'a>),
}

impl Vars<'_> {
    /// The value of the innermost variable with the name, or 0.
    pub(crate) fn value(&self, name: &Name) -> i64
        ensures { result ≡ variable (vars_of self.now) name.now }
    {
        match self {
            Vars::Unbound => 0,
            Vars::Bound(bound, value, _) if are_same(bound, name) => *value,
            Vars::Bound(_, _, outer) => outer.value(name),
        }
    }
}

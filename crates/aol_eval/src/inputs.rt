ghost use Rattle.std.specs.Prelude.{◌≡◌, pos, slice_index};

use aol_expr_tree::Port;
use aol_shape::Items;

/// What an expression is evaluated with: the input ports, their patterns one after another, and the output point.
#[derive(Clone, Copy)]
pub(crate) struct Inputs<'a> {
    pub(crate) ins: &'a Items<Port>,
    pub(crate) nums: &'a [i64],
    pub(crate) at: &'a [u32],
}

impl Inputs<'_> {
    /// The entry of the output point, or 0 where it has none.
    pub(crate) fn index(&self, k: u32) -> i64
        ensures { result ≡ pos (slice_index self.now.at.now k) }
    {
        entry(self.at, k)
    }
}

/// The entry of a point, or 0 where it has none.
pub(crate) fn entry(at: &[u32], k: u32) -> i64
    ensures { result ≡ pos (slice_index at.now k) }
{
    match at.get(k as usize) {
        Some(index) => i64::from(*index),
        None => 0,
    }
}

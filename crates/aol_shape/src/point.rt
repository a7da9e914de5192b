ghost use Rattle.std.specs.Prelude.{◌≡◌, ◌≤◌, length, IfSome, IfNone};

use crate::limit::MAX_RANK;
use smallvec::SmallVec;
use std::alloc::Global;
use std::marker::Model;

/// The indices of a point: at most 12 numbers.
#[derive(Drop)]
pub struct Point {
    indices: SmallVec<u32, 12>,
}

impl Model for Point {
    ghost use Rattle.std.specs.Prelude.{List, ℕ, ◌≤◌, length};
    ghost use Rattle.aol_shape.specs.declared.limit.TheConstants.{MAX_RANK};

    ghost Value = { List ℕ };

    ghost view = { λ p. p.indices.items };

    ghost invariant = { λ p. length p.indices.items ≤ MAX_RANK };
}

impl Point {
    /// The point with these indices; none where they are more than 12. It takes no memory.
    pub fn new(alloc: Global, entries: &[u32]) -> Option<Point>
        ensures some { IfSome result (λ p. p ≡ entries.now) }
        ensures none { IfNone result (¬ (length entries.now ≤ MAX_RANK)) }
    {
        if entries.len() > MAX_RANK {
            return None;
        }
        match SmallVec::from_slice(alloc, entries) {
            Ok(indices) => Some(Point { indices }),
            Err(_) => unreachable!(),
        }
    }

    /// The indices, the outermost dimension first.
    pub fn as_slice(&self) -> &[u32]
        ensures entries { result.now ≡ self.now }
        ensures limits { length self.now ≤ 12 }
    {
        self.indices.as_slice()
    }
}

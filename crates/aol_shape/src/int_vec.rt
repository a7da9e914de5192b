ghost use Rattle.std.specs.Prelude.{◌≡◌, ◌≤◌, ◌↔◌, length, IsTrue, IfSome, IfNone};
ghost use Rattle.std.specs.List.{AllByRecursion};
ghost use Rattle.aol_shape.specs.Vectors.{IsVector, IsVectorEntry};

use crate::limit::{MAX_RANK, MAX_VECTOR_ENTRY};
use smallvec::SmallVec;
use std::alloc::Global;
use std::marker::Model;

/// A vector of at most 12 whole numbers, each within ±2,147,483,647.
#[derive(Drop)]
pub struct IntVec {
    entries: SmallVec<i32, 12>,
}

impl Model for IntVec {
    ghost use Rattle.std.specs.Prelude.{List, ℤ};

    ghost Value = { List ℤ };

    ghost use Rattle.aol_shape.specs.Vectors.{IsVector};

    ghost view = { λ v. v.entries.items };

    ghost invariant = { λ v. IsVector v.entries.items };
}

/// Whether each number can be an entry of a vector: all but the least.
fn are_entries(entries: &[i32]) -> bool
    ensures { IsTrue result ↔ AllByRecursion IsVectorEntry entries.now }
{
    match entries.split_first() {
        None => true,
        Some((first, rest)) => *first >= -(MAX_VECTOR_ENTRY as i32) && are_entries(rest),
    }
}

impl IntVec {
    /// The vector with these entries; none where they are too many or one is the least number. It takes no memory.
    pub fn new(alloc: Global, entries: &[i32]) -> Option<IntVec>
        ensures some { IfSome result (λ v. (v ≡ entries.now) × IsVector entries.now) }
        ensures none { IfNone result (¬ IsVector entries.now) }
    {
        if entries.len() > MAX_RANK || !are_entries(entries) {
            return None;
        }
        match SmallVec::from_slice(alloc, entries) {
            Ok(entries) => Some(IntVec { entries }),
            Err(_) => unreachable!(),
        }
    }

    /// An equal vector. It takes no memory.
    pub fn copy(&self) -> IntVec
        ensures { result ≡ self.now }
    {
        match SmallVec::from_slice(*self.entries.allocator(), self.entries.as_slice()) {
            Ok(entries) => IntVec { entries },
            Err(_) => unreachable!(),
        }
    }

    /// The entries.
    pub fn as_slice(&self) -> &[i32]
        ensures entries { result.now ≡ self.now }
        ensures limits { IsVector self.now }
    {
        self.entries.as_slice()
    }
}

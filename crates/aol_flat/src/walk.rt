//! The walk of the hierarchy in preorder.

ghost use Rattle.std.specs.Prelude.{◌≡◌, ◌+◌, [], ◌∷◌, ◌++◌, OnOk};
ghost use Rattle.aol_shape.specs.Shape.{size};
ghost use Rattle.aol_flat.specs.Leaves.{narrowed};
ghost use Rattle.aol_flat.specs.Saturated.{saturated};

use crate::counts::{Counts, points_of};
use crate::leaf::{Leaf, LeafKind};
use aol_shape::{Items, Name, NoMemory};
use std::alloc::Global;

/// What a walk has found: the counts that are limited, how many instances the leaves have, and the leaves.
#[derive(Drop)]
pub struct Walk {
    pub counts: Counts,
    pub instances: u64,
    pub leaves: Items<Leaf>,
}

/// The number, or the greatest u32 where it is more.
pub fn narrowed(number: u64) -> u32
    ensures { result ≡ narrowed number }
{
    number.min(u64::from(u32::MAX)) as u32
}

impl Walk {
    /// A walk that has found nothing so far.
    pub fn new(alloc: Global) -> Walk
        ensures counts { (result.counts.nodes ≡ 0) × (result.counts.walk ≡ 0) × (result.counts.work ≡ 0) }
        ensures instances { result.instances ≡ 0 }
        ensures leaves { result.leaves ≡ [] }
    {
        Walk {
            counts: Counts {
                nodes: 0,
                walk: 0,
                work: 0,
            },
            instances: 0,
            leaves: Items::new(alloc),
        }
    }

    /// Adds a leaf, whose instances come after those of all leaves so far.
    pub fn push(&mut self, path: Name, space: Items<u32>, kind: LeafKind) -> Result<(), NoMemory>
        ensures counts { self.new.counts ≡ self.old.counts }
        ensures instances { self.new.instances ≡ saturated (self.old.instances + saturated (size space)) }
        ensures leaves { OnOk result (self.new.leaves ≡ self.old.leaves ++ record { path = path; space = space; base = narrowed self.old.instances; count = narrowed (saturated (size space)); kind = kind } ∷ []) }
    {
        let count = points_of(space.as_slice());
        let leaf = Leaf {
            path,
            space,
            base: narrowed(self.instances),
            count: narrowed(count),
            kind,
        };
        self.instances = self.instances.saturating_add(count);
        self.leaves.push(leaf)?;
        Ok(())
    }
}

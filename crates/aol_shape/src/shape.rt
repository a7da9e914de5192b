ghost use Rattle.std.specs.Prelude.{◌≡◌, ◌+◌, ◌*◌, ◌≤◌, ◌<◌, ◌↔◌, length, IsTrue, IfSome, IfNone};
ghost use Rattle.std.specs.List.{AllByRecursion};
ghost use Rattle.aol_shape.specs.Shape.{IsShape, IsEntry, size};
ghost use Rattle.aol_shape.specs.Joined.{Joins};

use crate::limit::{MAX_POINTS, MAX_RANK};
use smallvec::SmallVec;
use std::alloc::Global;
use std::marker::Model;
use thiserror::Error;

/// The shape of an array: 0 to 12 entries, each from 1 to 4,194,304, whose product is at most 4,194,304. `{}` is a scalar.
#[derive(Drop)]
pub struct Shape {
    entries: SmallVec<u32, 12>,
}

impl Model for Shape {
    ghost use Rattle.std.specs.Prelude.{List, ℕ};

    ghost Value = { List ℕ };

    ghost use Rattle.aol_shape.specs.Shape.{IsShape};

    ghost view = { λ s. s.entries.items };

    ghost invariant = { λ s. IsShape s.entries.items };
}

/// Why two shapes have no joined one.
#[derive(Clone, Copy, Debug, PartialEq, Eq, Error)]
pub enum ShapeRefused {
    #[error("more than 12 entries")]
    Rank,
    #[error("more than 4,194,304 points")]
    Points,
}

/// Whether the entries go on a shape that has this many points so far.
#[tactic(auto, using(crate::proofs::Sizes::product_fails))]
fn goes_on(points: u64, entries: &[u32]) -> bool
    requires least { 1 ≤ points }
    requires most { points ≤ MAX_POINTS }
    ensures { IsTrue result ↔ (AllByRecursion IsEntry entries.now × (points * size entries.now ≤ MAX_POINTS)) }
{
    match entries.split_first() {
        None => true,
        Some((first, rest)) => {
            let first = u64::from(*first);
            if first < 1 || first > u64::from(MAX_POINTS) {
                return false;
            }
            let next = points * first;
            if next > u64::from(MAX_POINTS) {
                return false;
            }
            goes_on(next, rest)
        }
    }
}

/// Whether the entries are those of a shape.
fn is_shape(entries: &[u32]) -> bool
    ensures { IsTrue result ↔ IsShape entries.now }
{
    entries.len() <= MAX_RANK && goes_on(1, entries)
}

impl Shape {
    /// The shape with these entries; none where they are no shape. It takes no memory.
    pub fn new(alloc: Global, entries: &[u32]) -> Option<Shape>
        ensures some { IfSome result (λ s. (s ≡ entries.now) × IsShape entries.now) }
        ensures none { IfNone result (¬ IsShape entries.now) }
    {
        if !is_shape(entries) {
            return None;
        }
        match SmallVec::from_slice(alloc, entries) {
            Ok(entries) => Some(Shape { entries }),
            Err(_) => unreachable!(),
        }
    }

    /// The entries, the outermost dimension first.
    pub fn as_slice(&self) -> &[u32]
        ensures entries { result.now ≡ self.now }
        ensures limits { IsShape self.now }
    {
        self.entries.as_slice()
    }

    /// An equal shape. It takes no memory.
    pub fn copy(&self) -> Shape
        ensures { result ≡ self.now }
    {
        match SmallVec::from_slice(*self.entries.allocator(), self.entries.as_slice()) {
            Ok(entries) => Shape { entries },
            Err(_) => unreachable!(),
        }
    }

    /// How many points there are: the product of the entries, and 1 for a scalar.
    #[tactic(auto, using(crate::proofs::Sizes::size_positive))]
    pub fn size(&self) -> u32
        ensures points { result ≡ size self.now }
        ensures least { 1 ≤ result }
        ensures most { result ≤ MAX_POINTS }
    {
        product(1, self.as_slice()) as u32
    }
}

/// The product of the entries and a number.
#[tactic(auto, using(crate::proofs::Sizes::product_stays, crate::proofs::Sizes::product_moves))]
fn product(points: u64, entries: &[u32]) -> u64
    requires entries { AllByRecursion IsEntry entries.now }
    requires few { points * size entries.now ≤ MAX_POINTS }
    ensures { result ≡ points * size entries.now }
{
    match entries.split_first() {
        None => points,
        Some((first, rest)) => product(points * u64::from(*first), rest),
    }
}

/// The shape with the entries of the first and then those of the second. Rank: these are more than 12; Points: they
/// are at most 12, and have more than 4,194,304 points.
#[tactic(auto, using(crate::proofs::Sizes::shape_both, crate::proofs::Sizes::size_both))]
pub fn joined(first: &Shape, second: &Shape) -> Result<Shape, ShapeRefused>
    ensures { Joins result first.now second.now }
{
    let (one, other) = (first.as_slice(), second.as_slice());
    if one.len() + other.len() > MAX_RANK {
        return Err(ShapeRefused::Rank);
    }
    let points = u64::from(first.size()) * u64::from(second.size());
    if points > u64::from(MAX_POINTS) {
        return Err(ShapeRefused::Points);
    }
    let Ok(mut entries) = SmallVec::from_slice(*first.entries.allocator(), one) else {
        unreachable!()
    };
    match entries.extend_from_slice(other) {
        Ok(()) => Ok(Shape { entries }),
        Err(_) => unreachable!(),
    }
}

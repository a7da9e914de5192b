//! Tilers that write one array, and the pairs of a repetition and a pattern element that they have.

ghost use Rattle.std.specs.Prelude.{◌≡◌, ◌<◌};
ghost use Rattle.aol_shape.specs.Shape.{size, point_at};
ghost use Rattle.aol_assign.specs.Pairs.{pair_count, IsPair};

use aol_flat::Writer;
use aol_shape::{Point, Shape, unrank_into};
use aol_tiler::Tiler;
use std::alloc::Global;

/// A tiler of a list, with its number there, over a space and a pattern.
#[derive(Clone, Copy)]
pub struct Member<'a> {
    pub item: u32,
    pub tiler: &'a Tiler,
    pub space: &'a Shape,
    pub pattern: &'a Shape,
}

/// The point of a shape with this rank.
pub fn point_of(alloc: Global, shape: &Shape, x: u64) -> Point
    requires { x < size shape.now }
    ensures { result ≡ point_at shape.now x }
{
    let mut indices = [0; 12];
    let front = &mut indices[..shape.as_slice().len()];
    unrank_into(shape, x as u32, front);
    match Point::new(alloc, front) {
        Some(point) => point,
        None => unreachable!(),
    }
}

impl Member<'_> {
    #[tactic(auto, using(crate::proofs::Counts::quotient_below))]
    /// The pair with this number, in row-major order of repetitions and of pattern elements.
    pub fn writer(&self, alloc: Global, number: u64) -> Writer
        requires { number < pair_count self.now }
        ensures { IsPair self.now number result }
    {
        let many = u64::from(self.pattern.size());
        Writer {
            item: self.item,
            rep: point_of(alloc, self.space, number / many),
            pattern: point_of(alloc, self.pattern, number % many),
        }
    }
}

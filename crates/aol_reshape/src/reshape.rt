use aol_shape::Shape;
use aol_tiler::Tiler;

/// For each pair of a repetition and a pattern index, one element of the source goes to one element of the target.
#[derive(Drop)]
pub struct Reshape {
    pub space: Shape,
    pub pattern: Shape,
    pub source: Tiler,
    pub target: Tiler,
}

impl Reshape {
    ghost use Rattle.std.specs.Prelude.{◌≡◌, ◌<◌};
    ghost use Rattle.aol_shape.specs.Shape.{size};
    ghost use Rattle.aol_reshape.specs.Copies.{IsCopyAt, source_address, target_address};

    /// The rank of the element of the source, an array of this shape, that copy `(r, i)` reads.
    ///
    /// The source's tiler fits the array with the reshape's space and pattern, of which `r` and `i` are points.
    #[tactic(auto, using(crate::proofs::Addressed::addressed))]
    pub fn source_of(&self, array: &Shape, r: &[u32], i: &[u32]) -> u32
        requires { IsCopyAt self.now self.now.source array.now r.now i.now }
        ensures source { result ≡ source_address self.now array.now r.now i.now }
        ensures within { result < size array.now }
    {
        let (space, pattern) = (self.space.as_slice(), self.pattern.as_slice());
        prove!(r.len() == space.len() && i.len() == pattern.len());
        self.source.address(array, r, i)
    }

    /// The rank of the element of the target, an array of this shape, that copy `(r, i)` writes.
    ///
    /// The target's tiler fits the array with the reshape's space and pattern, of which `r` and `i` are points.
    #[tactic(auto, using(crate::proofs::Addressed::addressed))]
    pub fn target_of(&self, array: &Shape, r: &[u32], i: &[u32]) -> u32
        requires { IsCopyAt self.now self.now.target array.now r.now i.now }
        ensures target { result ≡ target_address self.now array.now r.now i.now }
        ensures within { result < size array.now }
    {
        let (space, pattern) = (self.space.as_slice(), self.pattern.as_slice());
        prove!(r.len() == space.len() && i.len() == pattern.len());
        self.target.address(array, r, i)
    }
}

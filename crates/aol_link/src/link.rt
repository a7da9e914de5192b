use crate::steps::{first_for, leads_inside, step_back};
use aol_shape::{IntVec, Items, Name, Shape};
use aol_tiler::Tiler;

/// What stands in for a repetition outside the space.
#[derive(Drop)]
pub enum Fallback {
    Number(i64),
    Tiled { outer: Name, tiler: Tiler },
}

/// The repetitions that a choice is for.
#[derive(Clone, Copy, Debug, PartialEq, Eq)]
pub enum When {
    Always,
    /// Those that leave the space below, in this dimension.
    Low(u32),
    /// Those that leave the space above, in this dimension.
    High(u32),
}

#[derive(Drop)]
pub struct Choice {
    pub when: When,
    pub take: Fallback,
}

/// An inner output feeds an inner input of the repetition that is `distance` further.
#[derive(Drop)]
pub struct Interlink {
    pub from: Name,
    pub to: Name,
    pub distance: IntVec,
    pub wrap: bool,
    /// What stands in for a repetition outside the space, the first choice that applies. There are no choices where the
    /// link wraps. Else the last one, and no other, is `Always`: the rules on shapes and names keep that (the rule
    /// `LAST_CHOICE_IS_ALWAYS`), and `choice` asks for it.
    pub rest: Items<Choice>,
}

impl Interlink {
    ghost use Rattle.std.specs.Prelude.{◌≡◌, ◌<◌, Some, None, length};
    ghost use Rattle.std.specs.Bool.{OnTrue, OnFalse};
    ghost use Rattle.aol_link.specs.Links.{source_repetition, first_choice, stepped_back};
    ghost use Rattle.aol_link.specs.Types.{IsLinked, IsDefaulted};

    /// Whether the link comes from a repetition of the space, which is then written to `found`.
    ///
    /// It is `r - distance`, modulo the space where the link wraps. `found` has the space's rank, and stays as it is where the answer is false.
    #[tactic(auto, using(crate::proofs::Outside::leads_back, crate::proofs::Outside::wraps_back, crate::proofs::Outside::leads_nowhere))]
    pub fn before(&self, space: &Shape, r: &[u32], found: &mut [u32]) -> bool
        requires linked { IsLinked self.now space.now r.now }
        requires room { length found.old ≡ length space.now }
        ensures yes { OnTrue result (source_repetition self.now.wrap self.now.distance space.now r.now ≡ Some found.new) }
        ensures no { OnFalse result ((source_repetition self.now.wrap self.now.distance space.now r.now ≡ None) × (found.new ≡ found.old)) }
    {
        let (entries, distance) = (space.as_slice(), self.distance.as_slice());
        if self.wrap || leads_inside(entries, r, distance) {
            step_back(entries, r, distance, found);
            return true;
        }
        false
    }

    /// The number of the first choice for a repetition whose source lies outside the space.
    ///
    /// With `q = r - distance`, `Low(k)` is for `q[k] < 0`, `High(k)` for `q[k] >= space[k]`, and `Always`, the last choice, for all.
    pub fn choice(&self, space: &Shape, r: &[u32]) -> u32
        requires { IsDefaulted self.now space.now r.now }
        ensures number { result ≡ first_choice self.now.rest space.now (stepped_back r.now self.now.distance) }
        ensures within { result < length self.now.rest }
    {
        first_for(
            0,
            self.rest.as_slice(),
            space.as_slice(),
            r,
            self.distance.as_slice(),
        )
    }
}

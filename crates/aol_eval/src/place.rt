ghost use Rattle.std.specs.Prelude.{◌≡◌, ℤ, List, [], ◌∷◌};
ghost use Rattle.aol_eval.specs.Places.{IsPlace, number_at, rank_from, rank_in};

use aol_expr_tree::Kind;
use aol_shape::Shape;

/// The place of an element in an array, as far as its indices are known.
#[derive(Clone, Copy)]
pub(crate) enum Place<'a> {
    /// The rank of the indices so far, and the entries of the shape that have no index yet.
    Inside(u64, &'a [u32]),
    Outside,
}

impl<'a> Place<'a> {
    /// The place in an array of the shape without any index, or outside where there is no shape.
    pub(crate) fn of(shape: &'a Option<Shape>) -> Place<'a>
        ensures place { IsPlace result }
        ensures rank { (at : List ℤ) → rank_from result at ≡ rank_in shape.now at }
    {
        match shape {
            Some(shape) => Place::Inside(0, shape.as_slice()),
            None => Place::Outside,
        }
    }

    /// The place with one more index, by Horner's rule: the rank times the entry, plus the index.
    #[tactic(auto, using(crate::proofs::Places::rank_stays))]
    pub(crate) fn with(self, index: i64) -> Place<'a>
        requires { IsPlace self }
        ensures place { IsPlace result }
        ensures rank { (more : List ℤ) → rank_from result more ≡ rank_from self.entry (index ∷ more) }
    {
        let Place::Inside(rank, entries) = self else {
            return Place::Outside;
        };
        match entries.split_first() {
            Some((entry, rest)) if 0 <= index && index < i64::from(*entry) => {
                Place::Inside(rank * u64::from(*entry) + index as u64, rest)
            }
            _ => Place::Outside,
        }
    }

    /// The rank of the element, where each entry has its index and no index is left over.
    #[tactic(auto, using(crate::proofs::Places::no_rank))]
    pub(crate) fn rank(self) -> Option<u64>
        ensures { result ≡ rank_from self.entry [] }
    {
        match self {
            Place::Inside(rank, entries) if entries.is_empty() => Some(rank),
            _ => None,
        }
    }
}

/// The number at a rank of a pattern, or `Index` where there is no rank; 0 where the numbers don't go so far.
#[tactic(auto, using(crate::proofs::Places::nth_number_get))]
pub(crate) fn number_of(nums: &[i64], rank: Option<u64>) -> Result<i64, Kind>
    ensures { result ≡ number_at nums.now rank }
{
    match rank {
        None => Err(Kind::Index),
        Some(rank) => Ok(nums.get(rank as usize).copied().unwrap_or(0)),
    }
}

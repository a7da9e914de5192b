ghost use Rattle.std.specs.Prelude.{◌≡◌, ℤ, List, drop};
ghost use Rattle.aol_expr_tree.specs.Meaning.{element};
ghost use Rattle.aol_eval.specs.Places.{IsPlace, number_at, rank_from};

use crate::place::Place;
use aol_expr_tree::Port;
use aol_shape::{Name, are_same};

/// The numbers behind the first `count`.
pub(crate) fn behind(nums: &[i64], count: usize) -> &[i64]
    ensures { result.now ≡ drop count nums.now }
{
    if count < nums.len() {
        &nums[count..]
    } else {
        &[]
    }
}

/// A port's pattern, whose numbers stand first in `nums`, and a place in it.
pub(crate) struct Pattern<'a> {
    pub(crate) place: Place<'a>,
    pub(crate) nums: &'a [i64],
}

/// The pattern of the first port with the name, and the place in it without any index.
///
/// The numbers of the ports' patterns stand in `nums` one pattern after another.
pub(crate) fn pattern_of<'a>(ins: &'a [Port], nums: &'a [i64], name: &Name) -> Pattern<'a>
    ensures place { IsPlace result.place }
    ensures element { (at : List ℤ) → element ins.now nums.now name.now at ≡ number_at result.nums.now (rank_from result.place at) }
{
    let mut rest = nums;
    for port in ins {
        if are_same(&port.name, name) {
            return Pattern {
                place: Place::Inside(0, port.shape.as_slice()),
                nums: rest,
            };
        }
        rest = behind(rest, port.shape.size() as usize);
    }
    Pattern {
        place: Place::Outside,
        nums: rest,
    }
}

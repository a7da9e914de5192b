//! How ranks go on along the last index of an instance, so that the elements of many instances need no walk of their own.

ghost use Rattle.std.specs.Prelude.{◌≡◌, ◌+◌, ◌*◌, ◌^◌, ◌<◌, ◌≤◌, ℕ, length, map};
ghost use Rattle.std.specs.Bool.{OnFalse};
ghost use Rattle.std.specs.List.{AllByRecursion};
ghost use Rattle.aol_shape.specs.Shape.{size};
ghost use Rattle.aol_trail.specs.Further.{EndsAt, further};
ghost use Rattle.aol_trail.specs.Trail.{IsStepAt, Reaches, rank_on, step_at, step_rank};

use crate::level::Level;
use crate::trail::rank_over;

/// What is added to a rank or a cell with each instance, and how often.
#[derive(Clone, Copy)]
pub struct Stretch {
    pub stride: u32,
    pub room: u32,
}

/// Whether the last of so many indices is one of a level's repetition.
fn any_ends(levels: &[Level], many: usize) -> bool
    requires { AllByRecursion (λ s. s.from + length s.space ≤ many) levels.now }
    ensures { OnFalse result (AllByRecursion (λ s. ¬ EndsAt many s) levels.now) }
{
    match levels.split_first() {
        None => false,
        Some((level, outer)) => level.ends_at(many) || any_ends(outer, many),
    }
}

/// How the rank goes on that a level gives an element, at most so often.
fn along(level: &Level, at: &[u32], x: u32, most: u32) -> Stretch
    requires there { IsStepAt at.now level.now }
    requires stands { step_at at.now level.now ≡ level.now }
    requires element { x < size level.now.pattern }
    ensures most { result.room ≤ most }
    ensures even { (i : ℕ) → i ≤ result.room → step_rank (step_at (further i at.now) level.now) x ≡ step_rank level.now x + i * result.stride }
    ensures small { (i : ℕ) → i ≤ result.room → step_rank level.now x + i * result.stride < 2 ^ 32 }
{
    if level.ends_at(at.len()) {
        return Stretch {
            stride: level.stride(),
            room: level.room(x, most),
        };
    }
    let _rank = level.rank(x);
    Stretch {
        stride: 0,
        room: most,
    }
}

/// How the rank over some levels goes on for an element whose own rank goes on so.
fn over(outer: &[Level], y: u32, inner: Stretch) -> Stretch
    requires reaches { (i : ℕ) → i ≤ inner.room → Reaches outer.now (y + i * inner.stride) }
    requires small { (i : ℕ) → i ≤ inner.room → y + i * inner.stride < 2 ^ 32 }
    ensures most { result.room ≤ inner.room }
    ensures even { (i : ℕ) → i ≤ result.room → rank_on outer.now (y + i * inner.stride) ≡ rank_on outer.now y + i * result.stride }
{
    let first = rank_over(outer, y);
    if inner.room == 0 {
        return Stretch { stride: 0, room: 0 };
    }
    let second = rank_over(outer, y + inner.stride);
    if second < first {
        return Stretch { stride: 0, room: 0 };
    }
    let stride = second - first;
    for k in 1..inner.room {
        let next = k + 1;
        let there = rank_over(outer, y + next * inner.stride);
        if u64::from(there) != u64::from(first) + u64::from(next) * u64::from(stride) {
            return Stretch { stride, room: k };
        }
    }
    Stretch {
        stride,
        room: inner.room,
    }
}

/// How the rank of an element over some levels goes on, at most so often.
pub fn ranks(levels: &[Level], at: &[u32], x: u32, most: u32) -> Stretch
    requires there { AllByRecursion (IsStepAt at.now) levels.now }
    requires stands { map (step_at at.now) levels.now ≡ levels.now }
    requires reaches { (i : ℕ) → i ≤ most → Reaches (map (step_at (further i at.now)) levels.now) x }
    ensures most { result.room ≤ most }
    ensures even { (i : ℕ) → i ≤ result.room → rank_on (map (step_at (further i at.now)) levels.now) x ≡ rank_on levels.now x + i * result.stride }
{
    let Some((level, outer)) = levels.split_first() else {
        return Stretch {
            stride: 0,
            room: most,
        };
    };
    if any_ends(outer, at.len()) {
        return Stretch { stride: 0, room: 0 };
    }
    let inner = along(level, at, x, most);
    if outer.is_empty() {
        return inner;
    }
    over(outer, level.rank(x), inner)
}

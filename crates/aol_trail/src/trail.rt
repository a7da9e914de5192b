//! The way of a port's elements to the cells where they are stored.

ghost use Rattle.std.specs.Prelude.{◌≡◌, ◌+◌, ◌*◌, ◌^◌, ◌<◌, ◌≤◌, ℕ, length, map};
ghost use Rattle.std.specs.List.{AllByRecursion};
ghost use Rattle.aol_shape.specs.Shape.{IsPointOf, rank};
ghost use Rattle.aol_trail.specs.Further.{further};
ghost use Rattle.aol_trail.specs.Trail.{IsStepAt, IsTrailAt, Reaches, base_at, cell_on, rank_on, step_at, trail_at};

use crate::level::Level;
use crate::stretch::{Stretch, ranks};
use std::marker::Model;

/// The array at the end of a trail: its first cell, how many cells each instance has, and the space of its instances.
#[derive(Clone, Copy)]
pub struct Home<'a> {
    pub around: &'a [u32],
    pub first: u32,
    pub many: u32,
}

/// A trail, and the instance where it stands.
#[derive(Drop)]
pub struct Trail<'a> {
    levels: Vec<Level<'a>>,
    home: Home<'a>,
    base: u32,
}

impl<'a> Model for Trail<'a> {
    ghost use Rattle.std.specs.Coded.{codes};
    ghost use Rattle.aol_tiler.specs.Matrices.{tiler_code};
    ghost use Rattle.aol_trail.specs.Further.{further};
    ghost use Rattle.aol_trail.specs.Trail.{TrailOf};

    ghost Value = { TrailOf };

    ghost coded = { Prim.hlevel (codes, tiler_code) };

    ghost view = { λ t. record { steps = t.levels.items; around = t.home.around.now; first = t.home.first; many = t.home.many; base = t.base } };
}

/// The rank of a point of a space.
fn rank_in(space: &[u32], point: &[u32]) -> u32
    requires point { IsPointOf space.now point.now }
    requires small { rank space.now point.now < 2 ^ 32 }
    ensures { result ≡ rank space.now point.now }
{
    let Some((entry, outer)) = space.split_last() else {
        return 0;
    };
    let Some((index, before)) = point.split_last() else {
        return 0;
    };
    rank_in(outer, before) * *entry + *index
}

/// Moves all levels to an instance with these indices.
fn move_all(levels: &mut [Level<'_>], at: &[u32])
    requires { AllByRecursion (IsStepAt at.now) levels.old }
    ensures { levels.new ≡ map (step_at at.now) levels.old }
{
    for k in 0..levels.len() {
        levels[k].go_to(at);
    }
}

/// The rank of the element at the end of some levels.
pub fn rank_over(levels: &[Level], x: u32) -> u32
    requires { Reaches levels.now x }
    ensures { result ≡ rank_on levels.now x }
{
    match levels.split_first() {
        None => x,
        Some((level, outer)) => rank_over(outer, level.rank(x)),
    }
}

impl<'a> Trail<'a> {
    /// A trail over some levels, the innermost first.
    pub fn new(levels: Vec<Level<'a>>, home: Home<'a>) -> Trail<'a>
        ensures { result ≡ record { steps = levels.entry.items; around = home.entry.around.now; first = home.entry.first; many = home.entry.many; base = home.entry.first } }
    {
        Trail {
            levels,
            home,
            base: home.first,
        }
    }

    /// Goes to the instance with these indices.
    pub fn go_to(&mut self, at: &[u32])
        requires { IsTrailAt at.now self.old }
        ensures { self.new ≡ trail_at at.now self.old }
    {
        move_all(self.levels.as_mut_slice(), at);
        let home = self.home;
        let index = rank_in(home.around, &at[..home.around.len()]);
        self.base = home.first + index * home.many;
    }

    /// The cell of the element of rank `x`.
    pub fn cell(&self, x: u32) -> u32
        requires reaches { Reaches self.now.steps x }
        requires small { cell_on self.now x < 2 ^ 32 }
        ensures { result ≡ cell_on self.now x }
    {
        self.base + rank_over(self.levels.as_slice(), x)
    }
    /// What is added to the first cell of the array at the end as the last index of the instance grows.
    fn base_stride(&self, at: &[u32]) -> u32
        requires { IsTrailAt at.now self.now }
        ensures { (i : ℕ) → base_at (further i at.now) self.now ≡ base_at at.now self.now + i * result }
    {
        if at.is_empty() {
            return 0;
        }
        if self.home.around.len() != at.len() {
            return 0;
        }
        self.home.many
    }

    /// How the cell of the element of rank `x` goes on along the last index of the instance, at most so often.
    ///
    /// `at` has the indices of the instance where the trail stands.
    pub fn stretch(&self, at: &[u32], x: u32, most: u32) -> Stretch
        requires there { IsTrailAt at.now self.now }
        requires stands { trail_at at.now self.now ≡ self.now }
        requires reaches { (i : ℕ) → i ≤ most → Reaches (map (step_at (further i at.now)) self.now.steps) x }
        requires small { (i : ℕ) → i ≤ most → cell_on (trail_at (further i at.now) self.now) x < 2 ^ 32 }
        ensures most { result.room ≤ most }
        ensures even { (i : ℕ) → i ≤ result.room → cell_on (trail_at (further i at.now) self.now) x ≡ cell_on self.now x + i * result.stride }
    {
        let own = ranks(self.levels.as_slice(), at, x, most);
        if own.room == 0 {
            return own;
        }
        Stretch {
            stride: own.stride + self.base_stride(at),
            room: own.room,
        }
    }
}

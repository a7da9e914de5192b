//! One tiler on a trail.

ghost use Rattle.std.specs.Prelude.{◌≡◌, ◌+◌, ◌*◌, ◌^◌, ◌<◌, ◌≤◌, ◌==◌, ◌++◌, ◌↔◌, ℕ, length, drop, true, IfOk, OnOk, IsTrue};
ghost use Rattle.std.specs.List.{list_all, AllByRecursion};
ghost use Rattle.aol_shape.specs.Shape.{IsPointOf, IsShape, size, point_at};
ghost use Rattle.aol_shape.specs.Vectors.{IsVector};
ghost use Rattle.aol_tiler.specs.Makers.{IsIndex};
ghost use Rattle.aol_tiler.specs.Tiler.{Fits};
ghost use Rattle.std.specs.Bool.{OnTrue};
ghost use Rattle.aol_trail.specs.Further.{EndsAt, step_further, stride_of};
ghost use Rattle.aol_trail.specs.Level.{offset_at, step_of, AreOffsets, IsNextIn};
ghost use Rattle.aol_trail.specs.Trail.{IsStepAt, step_at, step_rank};

use crate::residues::{add_within, room, sum_of, total, write_moduli, write_residues};
use aol_shape::{IntVec, NoMemory, Shape, unrank_into};
use aol_tiler::Tiler;
use std::alloc::Global;
use std::marker::Model;

/// The zero vector of the greatest rank.
const ZEROS: [i32; 12] = [0; 12];

/// A tiler on a trail, and the repetition where the trail stands.
///
/// The residues of the reference element are kept, and those of what each element of the pattern adds to it.
#[derive(Drop)]
pub struct Level<'a> {
    tiler: &'a Tiler,
    array: &'a Shape,
    space: &'a Shape,
    pattern: &'a Shape,
    from: usize,
    rank: usize,
    r: Vec<u32>,
    moduli: [u32; 12],
    place: [u32; 12],
    /// What one more repetition in the last dimension adds to the reference element.
    step: [u32; 12],
    offsets: Vec<u32>,
}

impl<'a> Model for Level<'a> {
    ghost use Rattle.std.specs.Coded.{codes};
    ghost use Rattle.aol_tiler.specs.Matrices.{tiler_code};
    ghost use Rattle.aol_trail.specs.Level.{IsLevel};
    ghost use Rattle.aol_trail.specs.Trail.{StepOf};

    ghost Value = { StepOf };

    ghost coded = { Prim.hlevel (codes, tiler_code) };

    ghost view = { λ l. record { tiler = l.tiler.now; array = l.array.now; space = l.space.now; pattern = l.pattern.now; from = l.from; r = l.r.items } };

    ghost invariant = { λ l. IsLevel l.tiler.now l.array.now l.space.now l.pattern.now l.r.items l.rank l.moduli l.place l.step l.offsets.items };
}

/// Whether the indices are the next in the last dimension.
fn is_next(old: &[u32], new: &[u32]) -> bool
    ensures { OnTrue result (IsNextIn old.now new.now) }
{
    let Some((last, front)) = old.split_last() else {
        return false;
    };
    let Some((next, others)) = new.split_last() else {
        return false;
    };
    *next > *last && *next - *last == 1 && front == others
}

/// Puts the offset of one element after those before it.
fn push_offset(
    offsets: &mut Vec<u32>,
    array: &[u32],
    columns: &[IntVec],
    point: &[u32],
) -> Result<(), NoMemory>
    requires array { IsShape array.now }
    requires columns { length columns.now ≤ 12 }
    requires even { list_all (λ c. length c == length array.now) columns.now ≡ true }
    requires point { AllByRecursion IsIndex point.now }
    ensures { OnOk result (offsets.new.items ≡ offsets.old.items ++ offset_at columns.now array.now point.now) }
{
    let mut places = [0; 12];
    let zeros = &ZEROS[..array.len()];
    write_residues(array, zeros, columns, point, 0, &mut places);
    offsets.extend_from_slice(&places[..array.len()])?;
    Ok(())
}

/// Writes what one more repetition in the last dimension adds.
fn write_step(array: &[u32], paving: &[IntVec], step: &mut [u32])
    requires array { IsShape array.now }
    requires columns { length paving.now ≤ 12 }
    requires even { list_all (λ c. length c == length array.now) paving.now ≡ true }
    requires room { length array.now ≤ length step.old }
    ensures { step.new ≡ step_of paving.now array.now ++ drop (length array.now) step.old }
{
    let last = &paving[paving.len().saturating_sub(1)..];
    let zeros = &ZEROS[..array.len()];
    write_residues(array, zeros, last, &[1], 0, step);
}

/// The offsets of all elements of a pattern, in order of rank.
fn offsets_of(
    alloc: Global,
    array: &[u32],
    columns: &[IntVec],
    pattern: &Shape,
) -> Result<Vec<u32>, NoMemory>
    requires array { IsShape array.now }
    requires columns { length columns.now ≤ 12 }
    requires even { list_all (λ c. length c == length array.now) columns.now ≡ true }
    ensures { IfOk result (λ offsets. AreOffsets columns.now array.now pattern.now (size pattern.now) offsets.items) }
{
    let mut offsets = Vec::new(alloc);
    let mut buffer = [0u32; 12];
    let point = &mut buffer[..pattern.as_slice().len()];
    for x in 0..pattern.size() {
        unrank_into(pattern, x, point);
        push_offset(&mut offsets, array, columns, point)?;
    }
    Ok(offsets)
}

impl<'a> Level<'a> {
    /// A tiler at repetition `r`, whose indices begin at `from` among those of an instance.
    pub fn new(
        alloc: Global,
        tiler: &'a Tiler,
        array: &'a Shape,
        space: &'a Shape,
        pattern: &'a Shape,
        from: usize,
        r: &[u32],
    ) -> Result<Level<'a>, NoMemory>
        requires fits { Fits tiler.now array.now space.now pattern.now }
        requires inside { IsPointOf space.now r.now }
        ensures { IfOk result (λ l. l ≡ record { tiler = tiler.now; array = array.now; space = space.now; pattern = pattern.now; from = from; r = r.now }) }
    {
        let (entries, _space, _pattern) = (array.as_slice(), space.as_slice(), pattern.as_slice());
        let mut moduli = [0; 12];
        write_moduli(entries, &mut moduli);
        let mut place = [0; 12];
        let paving = tiler.paving.as_slice();
        write_residues(entries, tiler.origin.as_slice(), paving, r, 0, &mut place);
        let mut step = [0; 12];
        write_step(entries, paving, &mut step);
        let offsets = offsets_of(alloc, entries, tiler.fitting.as_slice(), pattern)?;
        Ok(Level {
            tiler,
            array,
            space,
            pattern,
            from,
            rank: entries.len(),
            r: Vec::from_slice(alloc, r)?,
            moduli,
            place,
            step,
            offsets,
        })
    }

    /// Goes to the repetition of an instance with these indices.
    pub fn go_to(&mut self, at: &[u32])
        requires { IsStepAt at.now self.old }
        ensures { self.new ≡ step_at at.now self.old }
    {
        let to = self.from + self.space.as_slice().len();
        let r = &at[self.from..to];
        if is_next(self.r.as_slice(), r) {
            let (rank, moduli, step) = (self.rank, self.moduli, self.step);
            add_within(&mut self.place[..rank], &moduli[..rank], &step[..rank]);
            self.r.as_mut_slice().copy_from_slice(r);
            return;
        }
        if self.r.as_slice() == r {
            return;
        }
        self.r.as_mut_slice().copy_from_slice(r);
        let tiler = self.tiler;
        write_residues(
            self.array.as_slice(),
            tiler.origin.as_slice(),
            tiler.paving.as_slice(),
            r,
            0,
            &mut self.place,
        );
    }

    /// The rank of the element of the array that the pattern element of rank `x` is.
    pub fn rank(&self, x: u32) -> u32
        requires { x < size self.now.pattern }
        ensures { result ≡ step_rank self.now x }
    {
        let begin = x as usize * self.rank;
        let offset = &self.offsets.as_slice()[begin..begin + self.rank];
        total(offset, &self.moduli[..self.rank], &self.place[..self.rank])
    }
    /// Whether the last of so many indices is one of this repetition's.
    pub fn ends_at(&self, many: usize) -> bool
        requires { self.now.from + length self.now.space ≤ many }
        ensures { IsTrue result ↔ EndsAt many self.now }
    {
        let own = self.space.as_slice().len();
        own > 0 && self.from + own == many
    }

    /// What one more repetition in the last dimension adds to the rank of an element, unless an index wraps.
    pub fn stride(&self) -> u32
        ensures { result ≡ stride_of self.now }
    {
        sum_of(&self.step[..self.rank])
    }

    /// How often just the stride is added to the rank of an element, repetition by repetition in the last dimension;
    /// at most so often.
    pub fn room(&self, x: u32, most: u32) -> u32
        requires element { x < size self.now.pattern }
        requires some { 0 < length self.now.space }
        ensures most { result ≤ most }
        ensures even { (i : ℕ) → i ≤ result → step_rank (step_further i self.now) x ≡ step_rank self.now x + i * stride_of self.now }
        ensures small { (i : ℕ) → i ≤ result → step_rank self.now x + i * stride_of self.now < 2 ^ 32 }
    {
        let rank = self.rank;
        let begin = x as usize * rank;
        let offset = &self.offsets.as_slice()[begin..begin + rank];
        room(
            offset,
            &self.moduli[..rank],
            &self.place[..rank],
            &self.step[..rank],
            most,
        )
    }
}

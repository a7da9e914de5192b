//! Going through the addresses of all pairs of a repetition and a pattern element, with no multiplication.

ghost use Rattle.std.specs.Prelude.{◌≡◌, ◌+◌, ◌*◌, ◌^◌, ◌<◌, ◌≤◌, ◌++◌, ◌*ℤ◌, ◌-◌, length, take, drop, sum, nat_abs};
ghost use Rattle.std.specs.List.{AllByRecursion};
ghost use Rattle.aol_shape.specs.Shape.{IsEntry, IsShape, size, max_points};
ghost use Rattle.aol_shape.specs.Vectors.{IsVectorEntry, IsVector, times};
ghost use Rattle.aol_tiler.specs.Walk.{added, plus_within, stepped, moved, AreWithin, IsWalk, moduli_of, residues, column_at, columns_on};

use crate::sums::reduced;
use crate::tiler::Tiler;
use aol_shape::{IntVec, Shape};
use std::marker::Model;

/// A column of a tiler on its way through a dimension.
#[derive(Clone, Copy)]
struct Column {
    /// How often it is added before it starts again.
    last: u32,
    /// How often it is yet to be added.
    left: u32,
    /// What is added for one more.
    step: [u32; 12],
    /// What is added to start again.
    back: [u32; 12],
}

/// No column: it starts again at once.
const NONE: Column = Column {
    last: 0,
    left: 0,
    step: [0; 12],
    back: [0; 12],
};

/// The addresses of all pairs of a repetition and a pattern element that are still to come.
///
/// Each index of the element's point is kept times the size of the dimensions after it, so the address is their sum.
/// To go on, a column is added, and what reaches its modulus loses it.
#[derive(Drop)]
pub struct Walker {
    left: u64,
    rank: usize,
    moduli: [u32; 12],
    place: [u32; 12],
    /// Those of the fitting and then those of the paving, each the innermost first.
    columns: [Column; 24],
}

impl Model for Walker {
    ghost use Rattle.std.specs.Prelude.{List, ℕ, ◌≡◌, ◌≤◌, length, take};

    ghost Value = { List ℕ };

    ghost use Rattle.aol_tiler.specs.Walk.{to_come, IsWalk};

    ghost view = { λ w. to_come (take w.rank w.moduli) w.left w.columns (take w.rank w.place) };

    ghost invariant = { λ w. (w.rank ≤ 12) × (length (take w.rank w.moduli) ≡ w.rank) × IsWalk (take w.rank w.moduli) (take w.rank w.place) w.columns };
}

impl Walker {
    ghost use Rattle.std.specs.Prelude.{◌≡◌, [], ◌∷◌, MatchOption};
    ghost use Rattle.aol_tiler.specs.Tiler.{Fits, addresses};

    /// The addresses of all pairs of a repetition of the space and an element of the pattern.
    ///
    /// They come repetition by repetition, each in order of the element's rank. The tiler fits the array.
    pub fn start(tiler: &Tiler, array: &Shape, space: &Shape, pattern: &Shape) -> Walker
        requires { Fits tiler.now array.now space.now pattern.now }
        ensures { result ≡ addresses tiler.now array.now space.now pattern.now }
    {
        let entries = array.as_slice();
        let mut moduli = [0; 12];
        write_moduli(entries, &mut moduli);
        let mut place = [0; 12];
        write_residues(entries, tiler.origin.as_slice(), 1, &mut place);
        let mut columns = [NONE; 24];
        let (inner, outer) = columns.split_at_mut(pattern.as_slice().len());
        write_columns(entries, tiler.fitting.as_slice(), pattern.as_slice(), inner);
        write_columns(entries, tiler.paving.as_slice(), space.as_slice(), outer);
        Walker {
            left: u64::from(space.size()) * u64::from(pattern.size()),
            rank: entries.len(),
            moduli,
            place,
            columns,
        }
    }

    /// The next address; none where all have come.
    #[tactic(auto, using(crate::proofs::Walks::sum_small, crate::proofs::Walks::to_come_next, crate::proofs::Walks::walk_on))]
    pub fn next(&mut self) -> Option<u32>
        ensures { MatchOption result ((self.old ≡ []) × (self.new ≡ [])) (λ a. self.old ≡ a ∷ self.new) }
    {
        if self.left == 0 {
            return None;
        }
        self.left -= 1;
        let moduli = &self.moduli[..self.rank];
        let address = total(&self.place[..self.rank]);
        advance_front(&mut self.columns, &mut self.place, moduli);
        Some(address)
    }
}

/// The sum of a place's entries.
fn total(place: &[u32]) -> u32
    requires { sum place.now < 2 ^ 32 }
    ensures { result ≡ sum place.now }
{
    place.iter().sum()
}

/// Two numbers added, modulo a third that is no less than either.
fn added(entry: u32, more: u32, modulus: u32) -> u32
    requires entry { entry ≤ modulus }
    requires more { more ≤ modulus }
    requires modulus { modulus ≤ max_points }
    ensures value { result ≡ added entry more modulus }
    ensures within { result ≤ modulus }
{
    let sum = entry + more;
    if sum >= modulus { sum - modulus } else { sum }
}

/// An entry of a vector times a factor.
#[tactic(auto, using(crate::proofs::Residues::scaled_small))]
fn times_factor(number: i32, factor: i64) -> i64
    requires number { IsVectorEntry number }
    requires factor { nat_abs factor ≤ max_points }
    ensures { result ≡ factor *ℤ number }
{
    factor * i64::from(number)
}

/// Adds a step to a place, entry by entry.
#[tactic(auto, using(crate::proofs::Walks::plus_none, crate::proofs::Walks::plus_none_moduli, crate::proofs::Walks::plus_none_step, crate::proofs::Walks::plus_more))]
fn add_within(place: &mut [u32], moduli: &[u32], step: &[u32])
    requires place { AreWithin place.old moduli.now }
    requires step { AreWithin step.now moduli.now }
    requires small { AllByRecursion (λ m. m ≤ max_points) moduli.now }
    ensures { place.new ≡ plus_within place.old moduli.now step.now }
{
    let Some((entry, place)) = place.split_first_mut() else {
        return;
    };
    let Some((modulus, moduli)) = moduli.split_first() else {
        return;
    };
    let Some((more, step)) = step.split_first() else {
        return;
    };
    *entry = added(*entry, *more, *modulus);
    add_within(place, moduli, step);
}

/// Goes on to the next pair, where the first entries are the place.
fn advance_front(columns: &mut [Column], place: &mut [u32], moduli: &[u32])
    requires walk { IsWalk moduli.now (take (length moduli.now) place.old) columns.old }
    requires room { length moduli.now ≤ length place.old }
    ensures columns { columns.new ≡ stepped columns.old }
    ensures place { place.new ≡ moved moduli.now columns.old (take (length moduli.now) place.old) ++ drop (length moduli.now) place.old }
{
    let front = &mut place[..moduli.len()];
    advance(columns, front, moduli);
}

/// Goes on to the next pair: it costs the columns that change, mostly one.
#[tactic(auto, using(crate::proofs::Walks::walk_back, crate::proofs::Walks::walk_step, crate::proofs::Walks::stepped_none, crate::proofs::Walks::moved_none, crate::proofs::Walks::advanced_one, crate::proofs::Walks::advanced_more))]
fn advance(columns: &mut [Column], place: &mut [u32], moduli: &[u32])
    requires { IsWalk moduli.now place.old columns.old }
    ensures columns { columns.new ≡ stepped columns.old }
    ensures place { place.new ≡ moved moduli.now columns.old place.old }
{
    let Some((column, outer)) = columns.split_first_mut() else {
        return;
    };
    if column.left > 0 {
        column.left -= 1;
        add_within(place, moduli, &column.step);
        return;
    }
    column.left = column.last;
    add_within(place, moduli, &column.back);
    advance(outer, place, moduli);
}

/// Writes the moduli of an array, and answers its size.
#[tactic(auto, using(crate::proofs::Walks::moduli_none, crate::proofs::Walks::moduli_more))]
fn write_moduli(array: &[u32], moduli: &mut [u32]) -> u32
    requires entries { AllByRecursion IsEntry array.now }
    requires few { size array.now ≤ max_points }
    requires room { length array.now ≤ length moduli.old }
    ensures size { result ≡ size array.now }
    ensures moduli { moduli.new ≡ moduli_of array.now ++ drop (length array.now) moduli.old }
{
    let Some((entry, array)) = array.split_first() else {
        return 1;
    };
    let Some((modulus, moduli)) = moduli.split_first_mut() else {
        return 1;
    };
    let size = *entry * write_moduli(array, moduli);
    *modulus = size;
    size
}

/// Writes a vector times a factor, modulo an array and each entry times the size of what is after it, and answers the array's size.
#[tactic(auto, using(crate::proofs::Walks::residues_none, crate::proofs::Walks::residues_more))]
fn write_residues(array: &[u32], vector: &[i32], factor: i64, places: &mut [u32]) -> u32
    requires entries { AllByRecursion IsEntry array.now }
    requires few { size array.now ≤ max_points }
    requires vector { AllByRecursion IsVectorEntry vector.now }
    requires same { length vector.now ≡ length array.now }
    requires factor { nat_abs factor ≤ max_points }
    requires room { length array.now ≤ length places.old }
    ensures size { result ≡ size array.now }
    ensures places { places.new ≡ residues array.now (times factor vector.now) ++ drop (length array.now) places.old }
{
    let Some((entry, array)) = array.split_first() else {
        return 1;
    };
    let Some((number, vector)) = vector.split_first() else {
        return 1;
    };
    let Some((place, places)) = places.split_first_mut() else {
        return 1;
    };
    let behind = write_residues(array, vector, factor, places);
    *place = reduced(times_factor(*number, factor), *entry) * behind;
    *entry * behind
}

/// A column at the first index of a dimension.
fn column_of(array: &[u32], vector: &[i32], entry: u32) -> Column
    requires array { IsShape array.now }
    requires vector { IsVector vector.now }
    requires same { length vector.now ≡ length array.now }
    requires entry { IsEntry entry }
    ensures { result ≡ column_at array.now vector.now entry (entry - 1) }
{
    let mut step = [0; 12];
    write_residues(array, vector, 1, &mut step);
    let mut back = [0; 12];
    write_residues(array, vector, 1 - i64::from(entry), &mut back);
    Column {
        last: entry - 1,
        left: entry - 1,
        step,
        back,
    }
}

/// Writes the columns of a matrix at the first point of a shape, the innermost first.
#[tactic(auto, using(crate::proofs::Walks::columns_none, crate::proofs::Walks::columns_last))]
fn write_columns(array: &[u32], vectors: &[IntVec], shape: &[u32], columns: &mut [Column])
    requires array { IsShape array.now }
    requires vectors { AllByRecursion IsVector vectors.now }
    requires even { AllByRecursion (λ c. length c ≡ length array.now) vectors.now }
    requires shape { AllByRecursion IsEntry shape.now }
    requires same { length vectors.now ≡ length shape.now }
    requires room { length shape.now ≤ length columns.old }
    ensures { columns.new ≡ columns_on array.now vectors.now shape.now (drop (length shape.now) columns.old) }
{
    let Some((vector, vectors)) = vectors.split_last() else {
        return;
    };
    let Some((entry, shape)) = shape.split_last() else {
        return;
    };
    let Some((column, columns)) = columns.split_first_mut() else {
        return;
    };
    *column = column_of(array, vector.as_slice(), *entry);
    write_columns(array, vectors, shape, columns);
}

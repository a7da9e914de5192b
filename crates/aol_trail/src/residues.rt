//! Places kept modulo an array, each index times the size of the dimensions behind.

ghost use Rattle.std.specs.Prelude.{◌≡◌, ◌+◌, ◌*◌, ◌^◌, ◌<◌, ◌≤◌, ◌==◌, ◌+ℤ◌, ◌*ℤ◌, ◌++◌, ℕ, pos, length, nat_abs, drop, sum, true};
ghost use Rattle.std.specs.List.{list_all, AllByRecursion};
ghost use Rattle.aol_shape.specs.Shape.{IsEntry, size, max_points};
ghost use Rattle.aol_shape.specs.Vectors.{IsVector, IsVectorEntry, wrapped, plus_columns};
ghost use Rattle.aol_tiler.specs.Makers.{IsIndex};
ghost use Rattle.aol_tiler.specs.Sums.{entry_plus};
ghost use Rattle.aol_tiler.specs.Tiler.{integers};
ghost use Rattle.aol_tiler.specs.Walk.{added, plus_within, AreWithin, moduli_of, residues};
ghost use Rattle.aol_trail.specs.Further.{HasRoom};

use aol_shape::IntVec;

/// A number modulo another, from 0 up.
fn reduced(number: i64, modulus: u32) -> u32
    requires { 0 < modulus }
    ensures value { result ≡ wrapped number modulus }
    ensures within { result < modulus }
{
    number.rem_euclid(i64::from(modulus)) as u32
}

/// A number plus an entry of a column times the column's index.
fn plus_product(sum: i64, entry: i32, index: u32) -> i64
    requires sum { nat_abs sum ≤ 2 ^ 60 }
    requires entry { IsVectorEntry entry }
    requires index { IsIndex index }
    ensures value { result ≡ sum +ℤ (pos index *ℤ entry) }
    ensures bound { nat_abs result ≤ nat_abs sum + 2 ^ 53 }
{
    sum + i64::from(index) * i64::from(entry)
}

/// Entry `k` of a sum: a number, plus that entry of each column times the column's index.
fn entry_at(sum: i64, columns: &[IntVec], indices: &[u32], k: usize) -> i64
    requires small { nat_abs sum + length columns.now * 2 ^ 53 ≤ 2 ^ 60 }
    requires indices { AllByRecursion IsIndex indices.now }
    requires long { AllByRecursion (λ c. k < length c) columns.now }
    ensures sum { result ≡ entry_plus sum columns.now (integers indices.now) k }
    ensures bound { nat_abs result ≤ nat_abs sum + length columns.now * 2 ^ 53 }
{
    match (columns.split_first(), indices.split_first()) {
        (Some((column, columns)), Some((index, indices))) => {
            let sum = plus_product(sum, column.as_slice()[k], *index);
            entry_at(sum, columns, indices, k)
        }
        _ => sum,
    }
}

/// Writes the moduli of an array, and answers its size.
#[tactic(auto, using(crate::proofs::Places::moduli_none, crate::proofs::Places::moduli_more))]
pub fn write_moduli(array: &[u32], moduli: &mut [u32]) -> u32
    requires entries { AllByRecursion IsEntry array.now }
    requires few { size array.now ≤ max_points }
    requires room { length array.now ≤ length moduli.old }
    ensures size { result ≡ size array.now }
    ensures moduli { moduli.new ≡ moduli_of array.now ++ drop (length array.now) moduli.old }
{
    let Some((entry, array)) = array.split_first() else {
        return 1;
    };
    let Some((modulus, moduli)) = moduli.split_first_mut() else {
        return 1;
    };
    let size = *entry * write_moduli(array, moduli);
    *modulus = size;
    size
}

/// Writes the residues of a vector plus columns times indices, from entry `k` on, and answers the size of these dimensions.
pub fn write_residues(
    array: &[u32],
    start: &[i32],
    columns: &[IntVec],
    indices: &[u32],
    k: usize,
    places: &mut [u32],
) -> u32
    requires entries { AllByRecursion IsEntry array.now }
    requires few { size array.now ≤ max_points }
    requires start { AllByRecursion IsVectorEntry start.now }
    requires columns { length columns.now ≤ 12 }
    requires even { list_all (λ c. length c == length start.now) columns.now ≡ true }
    requires indices { AllByRecursion IsIndex indices.now }
    requires same { k + length array.now ≡ length start.now }
    requires room { length array.now ≤ length places.old }
    ensures size { result ≡ size array.now }
    ensures places { places.new ≡ residues array.now (drop k (plus_columns start.now columns.now (integers indices.now))) ++ drop (length array.now) places.old }
{
    let Some((entry, array)) = array.split_first() else {
        return 1;
    };
    let Some((place, places)) = places.split_first_mut() else {
        return 1;
    };
    let behind = write_residues(array, start, columns, indices, k + 1, places);
    let number = entry_at(i64::from(start[k]), columns, indices, k);
    *place = reduced(number, *entry) * behind;
    *entry * behind
}

/// Two numbers added, modulo a third that is no less than either.
fn added(entry: u32, more: u32, modulus: u32) -> u32
    requires entry { entry ≤ modulus }
    requires more { more ≤ modulus }
    requires modulus { modulus ≤ max_points }
    ensures value { result ≡ added entry more modulus }
    ensures within { result ≤ modulus }
{
    let sum = entry + more;
    if sum >= modulus { sum - modulus } else { sum }
}

/// The sum of a place and a step, entry by entry within the moduli.
pub fn total(place: &[u32], moduli: &[u32], step: &[u32]) -> u32
    requires place { AreWithin place.now moduli.now }
    requires step { AreWithin step.now moduli.now }
    requires small { AllByRecursion (λ m. m ≤ max_points) moduli.now }
    requires place_long { length place.now ≡ length moduli.now }
    requires step_long { length step.now ≡ length moduli.now }
    requires sum { sum (plus_within place.now moduli.now step.now) < 2 ^ 32 }
    ensures { result ≡ sum (plus_within place.now moduli.now step.now) }
{
    let Some((entry, place)) = place.split_first() else {
        return 0;
    };
    let Some((modulus, moduli)) = moduli.split_first() else {
        return 0;
    };
    let Some((more, step)) = step.split_first() else {
        return 0;
    };
    added(*entry, *more, *modulus) + total(place, moduli, step)
}

/// Adds a step to a place, entry by entry within the moduli.
#[tactic(auto, using(crate::proofs::Places::plus_none, crate::proofs::Places::plus_none_moduli, crate::proofs::Places::plus_none_step, crate::proofs::Places::plus_more))]
pub fn add_within(place: &mut [u32], moduli: &[u32], step: &[u32])
    requires place { AreWithin place.old moduli.now }
    requires step { AreWithin step.now moduli.now }
    requires small { AllByRecursion (λ m. m ≤ max_points) moduli.now }
    ensures { place.new ≡ plus_within place.old moduli.now step.now }
{
    let Some((entry, place)) = place.split_first_mut() else {
        return;
    };
    let Some((modulus, moduli)) = moduli.split_first() else {
        return;
    };
    let Some((more, step)) = step.split_first() else {
        return;
    };
    *entry = added(*entry, *more, *modulus);
    add_within(place, moduli, step);
}

/// The lesser of two numbers.
fn lesser(a: u32, b: u32) -> u32
    ensures first { result ≤ a }
    ensures second { result ≤ b }
{
    if a < b { a } else { b }
}

/// How often a stride can be added to a number with the sum staying below a modulus; at most so often.
fn room_below(number: u32, modulus: u32, stride: u32, most: u32) -> u32
    ensures most { result ≤ most }
    ensures room { (i : ℕ) → 0 < i → i ≤ result → number + i * stride < modulus }
{
    if number >= modulus {
        return 0;
    }
    if stride == 0 {
        return most;
    }
    lesser(most, (modulus - 1 - number) / stride)
}

/// How often a step can be added to the sum of an offset and a place with no entry coming to its modulus; at most so often.
pub fn room(offset: &[u32], moduli: &[u32], place: &[u32], step: &[u32], most: u32) -> u32
    requires offset { AreWithin offset.now moduli.now }
    requires place { AreWithin place.now moduli.now }
    requires small { AllByRecursion (λ m. m ≤ max_points) moduli.now }
    ensures most { result ≤ most }
    ensures room { (i : ℕ) → 0 < i → i ≤ result → HasRoom i (plus_within offset.now moduli.now place.now) moduli.now step.now }
{
    let Some((entry, offset)) = offset.split_first() else {
        return most;
    };
    let Some((modulus, moduli)) = moduli.split_first() else {
        return most;
    };
    let Some((more, place)) = place.split_first() else {
        return 0;
    };
    let Some((stride, step)) = step.split_first() else {
        return most;
    };
    let later = room(offset, moduli, place, step, most);
    room_below(added(*entry, *more, *modulus), *modulus, *stride, later)
}

/// The sum of some numbers.
pub fn sum_of(numbers: &[u32]) -> u32
    requires { sum numbers.now < 2 ^ 32 }
    ensures { result ≡ sum numbers.now }
{
    match numbers.split_first() {
        None => 0,
        Some((number, later)) => *number + sum_of(later),
    }
}

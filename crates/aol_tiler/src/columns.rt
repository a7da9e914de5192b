ghost use Rattle.std.specs.Prelude.{◌≡◌, ◌+◌, ◌*◌, ◌^◌, ◌<◌, ◌≤◌, ◌==◌, ◌+ℤ◌, ◌*ℤ◌, length, nat_abs, map, true, [], ◌∷◌, IfSome, IfNone};
ghost use Rattle.std.specs.List.{list_all, AllByRecursion};
ghost use Rattle.aol_shape.specs.Vectors.{IsVector, IsVectorEntry, plus_columns};
ghost use Rattle.aol_tiler.specs.Makers.{MakesVector, Extends};
ghost use Rattle.aol_shape.specs.Shape.{IsEntry};
ghost use Rattle.aol_tiler.specs.Tiler.{scaled};
ghost use Rattle.aol_tiler.specs.Sums.{entry_plus};

use crate::tiler::{IntMat, TilerRefused};

/// The zero vector of the greatest rank.
pub const ZEROS: [i32; 12] = [0; 12];

use aol_shape::IntVec;
use std::alloc::Global;

/// A number plus an entry of a column times the column's number.
#[tactic(auto, using(crate::proofs::Entries::to_z_back))]
fn plus_wide_product(sum: i128, entry: i32, number: i32) -> i128
    requires sum { nat_abs sum ≤ 2 ^ 70 }
    requires entry { IsVectorEntry entry }
    requires number { IsVectorEntry number }
    ensures value { result ≡ sum +ℤ (number *ℤ entry) }
    ensures bound { nat_abs result ≤ nat_abs sum + 2 ^ 62 }
{
    sum + i128::from(number) * i128::from(entry)
}

/// Entry `k` of a sum: a number, plus that entry of each column times the column's number.
fn wide_entry_at(sum: i128, columns: &[IntVec], numbers: &[i32], k: usize) -> i128
    requires small { nat_abs sum + length columns.now * 2 ^ 62 ≤ 2 ^ 70 }
    requires numbers { AllByRecursion IsVectorEntry numbers.now }
    requires long { AllByRecursion (λ c. k < length c) columns.now }
    ensures sum { result ≡ entry_plus sum columns.now numbers.now k }
    ensures bound { nat_abs result ≤ nat_abs sum + length columns.now * 2 ^ 62 }
{
    match (columns.split_first(), numbers.split_first()) {
        (Some((column, columns)), Some((number, numbers))) => {
            let sum = plus_wide_product(sum, column.as_slice()[k], *number);
            wide_entry_at(sum, columns, numbers, k)
        }
        _ => sum,
    }
}

/// A number as an entry of a vector, where it is within the limits.
fn narrowed(number: i128) -> Option<i32>
    ensures some { IfSome result (λ z. (z ≡ number) × IsVectorEntry number) }
    ensures none { IfNone result (¬ IsVectorEntry number) }
{
    if (-2147483647..=2147483647).contains(&number) {
        Some(number as i32)
    } else {
        None
    }
}

/// A vector plus each column times its number.
///
/// `place` is the number of the first entry among those of the whole tiler.
#[tactic(auto, using(crate::proofs::Narrowed::narrowed_none, crate::proofs::Narrowed::narrowed_more, crate::proofs::Narrowed::narrowed_out, crate::proofs::Narrowed::narrowed_all))]
pub fn combined(
    alloc: Global,
    start: &[i32],
    columns: &[IntVec],
    numbers: &[i32],
    place: u32,
) -> Result<IntVec, TilerRefused>
    requires start { IsVector start.now }
    requires few { length columns.now ≤ 12 }
    requires numbers { AllByRecursion IsVectorEntry numbers.now }
    requires even { list_all (λ c. length c == length start.now) columns.now ≡ true }
    requires place { place < 2 ^ 31 }
    ensures { MakesVector place result (plus_columns start.now columns.now numbers.now) }
{
    let mut entries = [0; 12];
    for (k, entry) in start.iter().enumerate() {
        let sum = wide_entry_at(i128::from(*entry), columns, numbers, k);
        let Some(entry) = narrowed(sum) else {
            return Err(TilerRefused::Entry(place + k as u32));
        };
        entries[k] = entry;
    }
    match IntVec::new(alloc, &entries[..start.len()]) {
        Some(vector) => Ok(vector),
        None => unreachable!(),
    }
}

/// Pushes a vector plus each column times its number, and answers the number of the entry after it.
#[tactic(auto, using(crate::proofs::Extends::extends_one, crate::proofs::Extends::extends_out))]
fn push_combined(
    alloc: Global,
    made: &mut IntMat,
    start: &[i32],
    columns: &[IntVec],
    numbers: &[i32],
    place: u32,
) -> Result<u32, TilerRefused>
    requires start { IsVector start.now }
    requires few { length columns.now ≤ 12 }
    requires numbers { AllByRecursion IsVectorEntry numbers.now }
    requires even { list_all (λ c. length c == length start.now) columns.now ≡ true }
    requires place { place < 2 ^ 31 }
    ensures { Extends result made.old made.new place (plus_columns start.now columns.now numbers.now ∷ []) }
{
    let vector = combined(alloc, start, columns, numbers, place)?;
    made.push(vector)?;
    Ok(place + start.len() as u32)
}

/// Pushes the columns as they are, and answers the number of the entry after them.
#[tactic(auto, using(crate::proofs::Extends::extends_none, crate::proofs::Extends::extends_then, crate::proofs::Extends::extends_stops))]
pub fn push_copies(
    alloc: Global,
    made: &mut IntMat,
    columns: &[IntVec],
    place: u32,
) -> Result<u32, TilerRefused>
    requires place { place + 12 * length columns.now < 2 ^ 31 }
    ensures { Extends result made.old made.new place columns.now }
{
    match columns.split_first() {
        None => Ok(place),
        Some((column, columns)) => {
            let place = push_combined(alloc, made, column.as_slice(), &[], &[], place)?;
            push_copies(alloc, made, columns, place)
        }
    }
}

/// Pushes what a matrix with these columns makes of each vector, and answers the number of the entry after them.
#[tactic(auto, using(crate::proofs::Extends::extends_none, crate::proofs::Extends::extends_then, crate::proofs::Extends::extends_stops))]
pub fn push_mapped(
    alloc: Global,
    made: &mut IntMat,
    zeros: &[i32],
    columns: &[IntVec],
    vectors: &[IntVec],
    place: u32,
) -> Result<u32, TilerRefused>
    requires zeros { IsVector zeros.now }
    requires few { length columns.now ≤ 12 }
    requires even { list_all (λ c. length c == length zeros.now) columns.now ≡ true }
    requires place { place + 12 * length vectors.now < 2 ^ 31 }
    ensures { Extends result made.old made.new place (map (plus_columns zeros.now columns.now) vectors.now) }
{
    match vectors.split_first() {
        None => Ok(place),
        Some((vector, vectors)) => {
            let place = push_combined(alloc, made, zeros, columns, vector.as_slice(), place)?;
            push_mapped(alloc, made, zeros, columns, vectors, place)
        }
    }
}

/// Pushes each column times its factor, and answers the number of the entry after them.
#[tactic(auto, using(crate::proofs::Extends::extends_none, crate::proofs::Extends::extends_then, crate::proofs::Extends::extends_stops))]
pub fn push_scaled(
    alloc: Global,
    made: &mut IntMat,
    columns: &[IntVec],
    factors: &[u32],
    place: u32,
) -> Result<u32, TilerRefused>
    requires same { length factors.now ≡ length columns.now }
    requires factors { AllByRecursion IsEntry factors.now }
    requires place { place + 12 * length columns.now < 2 ^ 31 }
    ensures { Extends result made.old made.new place (scaled columns.now factors.now) }
{
    match (columns.split_first(), factors.split_first()) {
        (Some((column, rest)), Some((factor, factors))) => {
            let zeros = &ZEROS[..column.as_slice().len()];
            let place = push_combined(alloc, made, zeros, &columns[..1], &[*factor as i32], place)?;
            push_scaled(alloc, made, rest, factors, place)
        }
        _ => Ok(place),
    }
}

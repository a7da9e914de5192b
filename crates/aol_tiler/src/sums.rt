ghost use Rattle.std.specs.Prelude.{◌≡◌, ◌+◌, ◌*◌, ◌^◌, ◌<◌, ◌≤◌, ◌==◌, ◌+ℤ◌, ◌*ℤ◌, pos, length, nat_abs};
ghost use Rattle.std.specs.List.{list_all, AllByRecursion};
ghost use Rattle.aol_shape.specs.Vectors.{IsVectorEntry, wrapped};
ghost use Rattle.aol_tiler.specs.Tiler.{integers};
ghost use Rattle.aol_tiler.specs.Makers.{IsIndex};
ghost use Rattle.aol_tiler.specs.Sums.{entry_plus};

use aol_shape::IntVec;

/// Whether each column has so many entries.
pub fn have_length(columns: &[IntVec], rank: usize) -> bool
    ensures { result ≡ list_all (λ c. length c == rank) columns.now }
{
    columns.iter().all(|column| column.as_slice().len() == rank)
}

/// A number modulo another, from 0 up.
pub fn reduced(number: i64, modulus: u32) -> u32
    requires { 0 < modulus }
    ensures value { result ≡ wrapped number modulus }
    ensures within { result < modulus }
{
    number.rem_euclid(i64::from(modulus)) as u32
}

/// A number plus an entry of a column times the column's index.
fn plus_product(sum: i64, entry: i32, index: u32) -> i64
    requires sum { nat_abs sum ≤ 2 ^ 60 }
    requires entry { IsVectorEntry entry }
    requires index { IsIndex index }
    ensures value { result ≡ sum +ℤ (pos index *ℤ entry) }
    ensures bound { nat_abs result ≤ nat_abs sum + 2 ^ 53 }
{
    sum + i64::from(index) * i64::from(entry)
}

/// Entry `k` of a sum: a number, plus that entry of each column times the column's index.
pub fn entry_at(sum: i64, columns: &[IntVec], indices: &[u32], k: usize) -> i64
    requires small { nat_abs sum + length columns.now * 2 ^ 53 ≤ 2 ^ 60 }
    requires indices { AllByRecursion IsIndex indices.now }
    requires long { AllByRecursion (λ c. k < length c) columns.now }
    ensures sum { result ≡ entry_plus sum columns.now (integers indices.now) k }
    ensures bound { nat_abs result ≤ nat_abs sum + length columns.now * 2 ^ 53 }
{
    match (columns.split_first(), indices.split_first()) {
        (Some((column, columns)), Some((index, indices))) => {
            let sum = plus_product(sum, column.as_slice()[k], *index);
            entry_at(sum, columns, indices, k)
        }
        _ => sum,
    }
}

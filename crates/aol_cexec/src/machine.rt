ghost use Rattle.std.specs.Prelude.{◌≡◌, ℤ, pos, slice_get};
ghost use Rattle.aol_csyn.specs.Meaning.{applied, changed, changed_at, entry, table_entry};
ghost use Rattle.aol_csyn.specs.Stored.{tables_of};
ghost use Rattle.aol_cexec.specs.Machine.{Leads};

use aol_csyn::{COp, Table};
use aol_shape::Items;

/// The two arrays, and the variables of the step that runs.
#[derive(Drop)]
pub(crate) struct Machine {
    pub(crate) v: Items<i64>,
    pub(crate) f: Items<i64>,
    pub(crate) vars: Items<i64>,
}

/// The entry at a place, where there is one.
pub(crate) fn number_at(xs: &[i64], place: usize) -> Option<i64>
    ensures { result ≡ slice_get xs.now place }
{
    xs.get(place).copied()
}

/// The entry at a number, where there is one.
pub(crate) fn entry_at(xs: &[i64], at: i64) -> Option<i64>
    ensures { result ≡ entry xs.now at }
{
    if at < 0 {
        None
    } else {
        number_at(xs, at as usize)
    }
}

/// The entry of a table at a number, where there is one.
pub(crate) fn table_entry_at(tables: &[Table], t: u32, at: i64) -> Option<i64>
    ensures { result ≡ table_entry (tables_of tables.now) t at }
{
    match tables.get(t as usize) {
        Some(table) => entry_at(table.nums.as_slice(), at),
        None => None,
    }
}

/// Puts a number at a place, or answers false where there is no such place.
pub(crate) fn put_at(xs: &mut Items<i64>, place: usize, number: i64) -> bool
    ensures { Leads (changed xs.old place number) result xs.new }
{
    if place >= xs.len() {
        return false;
    }
    xs.set(place, number);
    true
}

/// Puts a number at an index, or answers false where there is none.
pub(crate) fn put_entry(xs: &mut Items<i64>, at: i64, number: i64) -> bool
    ensures { Leads (changed_at xs.old at number) result xs.new }
{
    if at < 0 {
        return false;
    }
    put_at(xs, at as usize, number)
}

/// An operator at two numbers, where it isn't stuck.
pub(crate) fn apply(op: COp, left: i64, right: i64) -> Option<i64>
    ensures { result ≡ applied op left right }
{
    match op {
        COp::Add => left.checked_add(right),
        COp::Sub => left.checked_sub(right),
        COp::Mul => left.checked_mul(right),
        COp::Div => left.checked_div(right),
        COp::Rem => left.checked_rem(right),
        COp::Lt => Some(i64::from(left < right)),
        COp::Le => Some(i64::from(left <= right)),
        COp::Eq => Some(i64::from(left == right)),
    }
}

//! What shares put is what the field has in the end, also where two threads put.
ghost use Rattle.std.specs.Prelude.{◌≡◌, ℕ, ◌+◌, ◌*◌, ◌<◌, length, get_or, IfOk, All};
ghost use Rattle.aol_scatter.specs.Cells.{AreDistinct, AreApart};

use aol_scatter::{Field, Share, rests_are_shared, shares_are_sent};
use aol_shape::{Items, NoMemory};
use std::alloc::Global;
use std::thread::{Threads, join_mut};

#[test]
fn two_cells_of_four(rt: HostRuntime) -> Result<(), NoMemory> {
    let listed = Items::from_slice(rt.alloc(), &[3, 1])?;
    let field = Field::filled(rt.alloc(), 4, 0u64)?;
    let mut rest = field.begin();
    let mut share = rest.claim(listed);
    share.put(0, 7);
    share.put(1, 8);
    let listed = rest.settle(share);
    let field = rest.finish();
    assert_eq!(rt; listed.as_slice(), [3, 1].as_slice());
    for (k, want) in [(0, 0), (1, 8), (2, 0), (3, 7)] {
        assert!(rt; k < field.len());
        assert_eq!(rt; field.get(k), want, "cell {k}");
    }
    Ok(())
}

/// The numbers `first`, `first + 2` and so on, 500 of them.
fn every_second(alloc: Global, first: u32) -> Result<Items<u32>, NoMemory>
    requires { first < 2 }
    ensures { IfOk result (λ it. (length it ≡ 500) × ((j d : ℕ) → j < 500 → get_or it j d ≡ 2 * j + first)) }
{
    let mut numbers = Items::new(alloc);
    let mut j = 0;
    while j < 500 {
        numbers.push(2 * j + first)?;
        j += 1;
    }
    Ok(numbers)
}

/// Puts the cells' numbers, where the share has `first`, `first + 2` and so on, or their negatives.
fn put_numbers(share: &mut Share<i64>, first: u32)
    requires { (length share.old.cells ≡ 500) × (first < 2) }
    ensures { (share.new.name ≡ share.old.name) × (share.new.cells ≡ share.old.cells) }
{
    let mut j = 0;
    while j < 500 {
        let number = i64::from(2 * j + first);
        share.put(j, if first == 0 { number } else { -number });
        j += 1;
    }
}

fn put_both<R: Threads>(rt: &R, evens: &mut Share<i64>, odds: &mut Share<i64>)
    requires { (length evens.old.cells ≡ 500) × (length odds.old.cells ≡ 500) }
    ensures evens { (evens.new.name ≡ evens.old.name) × (evens.new.cells ≡ evens.old.cells) }
    ensures odds { (odds.new.name ≡ odds.old.name) × (odds.new.cells ≡ odds.old.cells) }
{
    join_mut(
        rt,
        &mut || put_numbers(evens, 0),
        &mut || put_numbers(odds, 1),
    );
}

/// Lends the field to two threads.
fn lent_to_two<R: Threads>(
    rt: &R,
    field: Field<i64>,
    evens: Items<u32>,
    odds: Items<u32>,
) -> Field<i64>
    requires long { (length evens ≡ 500) × (length odds ≡ 500) }
    requires distinct { AreDistinct evens × AreDistinct odds }
    requires within { All (λ k. k < length field) evens × All (λ k. k < length field) odds }
    requires apart { AreApart evens odds }
    ensures { length result ≡ length field }
{
    let mut rest = field.begin();
    let mut one = rest.claim(evens);
    let mut two = rest.claim(odds);
    put_both(rt, &mut one, &mut two);
    let _evens = rest.settle(one);
    let _odds = rest.settle(two);
    rest.finish()
}

#[test]
fn even_and_odd_cells(rt: HostRuntime) -> Result<(), NoMemory> {
    let evens = every_second(rt.alloc(), 0)?;
    let odds = every_second(rt.alloc(), 1)?;
    let field = Field::filled(rt.alloc(), 1000, 0)?;
    let field = lent_to_two(&rt, field, evens, odds);
    shares_are_sent::<i64>();
    rests_are_shared::<i64>();
    for k in 0..1000u32 {
        assert!(rt; k < field.len());
        let number = i64::from(k);
        let want = if k % 2 == 0 { number } else { -number };
        assert_eq!(rt; field.get(k), want, "cell {k}");
    }
    Ok(())
}

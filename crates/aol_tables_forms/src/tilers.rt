ghost use Rattle.aol_tiler.specs.Makers.{IsIndex};

use crate::made::{shape, tiler};
use aol_shape::Shape;
use aol_tiler::{Tiler, TilerRefused, Walker};
use std::alloc::Global;
use std::test::Fail;

/// The address at one repetition index and one pattern index, where the tiler fits.
#[tactic(auto, using(crate::proofs::Tried::addressed_line))]
fn address_at(tiler: &Tiler, array: &Shape, line: &Shape, r: u32, i: u32) -> Option<u32>
    requires repetition { IsIndex r }
    requires element { IsIndex i }
{
    if tiler.fits(array, line, line) && line.as_slice().len() == 1 {
        return Some(tiler.address(array, &[r], &[i]));
    }
    None
}

/// The first entry of a vector, or 0.
fn first(entries: &[i32]) -> i32 {
    match entries.first() {
        Some(entry) => *entry,
        None => 0,
    }
}

/// The first entries of the origin and of the columns, paving before fitting: four of them.
fn four_of(made: &Tiler) -> [i32; 4] {
    let mut four = [first(made.origin.as_slice()), 0, 0, 0];
    let mut at = 1;
    for columns in [&made.paving, &made.fitting] {
        for column in columns.as_slice() {
            if at < 4 {
                four[at] = first(column.as_slice());
                at += 1;
            }
        }
    }
    four
}

/// A tiler over a line: its origin, its column of paving and its column of fitting.
fn on_line(alloc: Global, entries: [i32; 3]) -> Result<Tiler, Fail> {
    let [origin, paving, fitting] = entries;
    tiler(alloc, &[origin], &[paving], &[fitting])
}

/// The tiler over the pattern of another, where both fit.
fn composed(
    alloc: Global,
    outer: &Tiler,
    inner: &Tiler,
    line: &Shape,
) -> Result<[i32; 4], TilerRefused> {
    if !outer.fits(line, line, line) {
        return Err(TilerRefused::NoMemory);
    }
    if !inner.fits(line, line, line) {
        return Err(TilerRefused::NoMemory);
    }
    if line.as_slice().len() != 1 {
        return Err(TilerRefused::NoMemory);
    }
    let made = Tiler::compose(alloc, outer, inner)?;
    Ok(four_of(&made))
}

/// The tiler at the repetitions of another over its space, where both fit.
fn substituted(
    alloc: Global,
    outer: &Tiler,
    by: &Tiler,
    line: &Shape,
) -> Result<[i32; 4], TilerRefused> {
    if !outer.fits(line, line, line) {
        return Err(TilerRefused::NoMemory);
    }
    if !by.fits(line, line, line) {
        return Err(TilerRefused::NoMemory);
    }
    if line.as_slice().len() != 1 {
        return Err(TilerRefused::NoMemory);
    }
    let made = outer.substituted(alloc, by)?;
    Ok(four_of(&made))
}

/// The tiler in blocks, where it fits.
fn blocked(alloc: Global, tiler: &Tiler, line: &Shape) -> Result<[i32; 4], TilerRefused> {
    if !tiler.fits(line, line, line) {
        return Err(TilerRefused::NoMemory);
    }
    if line.as_slice().len() != 1 {
        return Err(TilerRefused::NoMemory);
    }
    let made = tiler.blocked(alloc, line)?;
    Ok(four_of(&made))
}

/// What two tilers over lines of three make: composed, substituted, and the first in blocks of three.
fn made_of(
    alloc: Global,
    outer: [i32; 3],
    inner: [i32; 3],
) -> Result<[Result<[i32; 4], TilerRefused>; 3], Fail> {
    let line = shape(alloc, &[3])?;
    let outer = on_line(alloc, outer)?;
    let inner = on_line(alloc, inner)?;
    Ok([
        composed(alloc, &outer, &inner, &line),
        substituted(alloc, &outer, &inner, &line),
        blocked(alloc, &outer, &line),
    ])
}

/// What a walker gives in five steps, where the tiler fits.
fn walked(
    tiler: &Tiler,
    array: &Shape,
    space: &Shape,
    pattern: &Shape,
) -> Option<[Option<u32>; 5]> {
    if !tiler.fits(array, space, pattern) {
        return None;
    }
    let mut walker = Walker::start(tiler, array, space, pattern);
    let (first, second) = (walker.next(), walker.next());
    let (third, fourth) = (walker.next(), walker.next());
    Some([first, second, third, fourth, walker.next()])
}

/// The walk over a plane with one repetition of three elements.
fn walked_on_plane(alloc: Global) -> Result<Option<[Option<u32>; 5]>, Fail> {
    let array = shape(alloc, &[5, 3])?;
    let space = shape(alloc, &[1])?;
    let pattern = shape(alloc, &[3])?;
    let plane = tiler(alloc, &[7, -1], &[2, 4], &[-6, 10])?;
    Ok(walked(&plane, &array, &space, &pattern))
}

/// The same of a tiler and an array by their entries.
fn address_of(
    alloc: Global,
    origin: &[i32],
    paving: &[i32],
    fitting: &[i32],
    array: &[u32],
    r: u32,
    i: u32,
) -> Result<Option<u32>, Fail>
    requires repetition { IsIndex r }
    requires element { IsIndex i }
{
    let line = shape(alloc, &[4194304])?;
    let array = shape(alloc, array)?;
    let tiler = tiler(alloc, origin, paving, fitting)?;
    Ok(address_at(&tiler, &array, &line, r, i))
}

#[test]
fn addresses_wrap(rt: HostRuntime) -> Result<(), Fail> {
    let alloc = rt.alloc();
    let most = 2147483647;
    let back = address_of(alloc, &[-9], &[5], &[-3], &[4], 2, 1)?;
    assert_eq!(rt; back, Some(2));
    let first = address_of(alloc, &[-9], &[5], &[-3], &[4], 0, 0)?;
    assert_eq!(rt; first, Some(3));
    let plane = address_of(alloc, &[7, -1], &[2, 4], &[-6, 10], &[5, 3], 1, 2)?;
    assert_eq!(rt; plane, Some(8));
    let far = address_of(alloc, &[-most], &[most], &[-most], &[7], 4194303, 4194303)?;
    assert_eq!(rt; far, Some(6));
    Ok(())
}

#[test]
fn tilers_are_made_of_tilers(rt: HostRuntime) -> Result<(), Fail> {
    let alloc = rt.alloc();
    let [composed, substituted, blocked] = made_of(alloc, [1, 4, 1], [2, 1, 1])?;
    assert_eq!(rt; composed, Ok([3, 4, 1, 1]));
    assert_eq!(rt; substituted, Ok([9, 4, 4, 1]));
    assert_eq!(rt; blocked, Ok([1, 12, 4, 1]));
    let [refused, _, _] = made_of(alloc, [1, 4, 2147483647], [2, 1, 1])?;
    assert_eq!(rt; refused, Err(TilerRefused::Entry(0)));
    Ok(())
}

#[test]
fn both_shapes_joined_have_a_tiler(rt: HostRuntime) -> Result<(), Fail> {
    let alloc = rt.alloc();
    let scalar = shape(alloc, &[])?;
    let line = shape(alloc, &[3])?;
    if scalar.as_slice().len() + line.as_slice().len() <= 12 {
        let inner = Tiler::inner(alloc, &scalar, &line)?;
        assert_eq!(rt; four_of(&inner), [0, 1, 0, 0]);
    }
    Ok(())
}

#[test]
fn walkers_go_pair_by_pair(rt: HostRuntime) -> Result<(), Fail> {
    let walked = walked_on_plane(rt.alloc())?;
    assert_eq!(rt; walked, Some([Some(8), Some(3), Some(1), None, None]));
    Ok(())
}

//! Marks of the points that pairs write, and the first pair whose point an earlier one has.

ghost use Rattle.std.specs.Prelude.{◌≡◌, ◌<◌, [], ℕ, length, false, IfOk, IsTrue, slice_get, slice_index_or, Some, None, option_map};
ghost use Rattle.std.specs.List.{AllByRecursion};
ghost use Rattle.aol_shape.specs.Shape.{size, point_at};
ghost use Rattle.aol_flat.specs.Targets.{Writing, earlier_writing};
ghost use Rattle.aol_assign.specs.Pairs.{FitsIn, member_writings, all_writings};
ghost use Rattle.aol_assign.specs.Marks.{AreMarks, MarksOn, IsEarliest, repeat_of, told_as};

use crate::apart::writes_apart;
use crate::pairs::{Member, point_of};
use aol_flat::Writer;
use aol_shape::{NoMemory, Point, Shape};
use aol_tiler::Walker;
use std::alloc::{AllocError, Global};

/// Two pairs that write one point.
#[derive(Drop)]
pub struct Repeat {
    pub first: Writer,
    pub second: Writer,
    pub point: Point,
}

/// A pair by its number, with the address that it writes.
#[derive(Clone, Copy)]
pub struct Hit {
    pub number: u64,
    pub address: u32,
}

/// So many marks, none of which is set.
pub fn unmarked(alloc: Global, count: usize) -> Result<Vec<bool>, AllocError>
    ensures many { IfOk result (λ v. length v.items ≡ count) }
    ensures none { IfOk result (λ v. (k : ℕ) → slice_index_or v.items k false ≡ false) }
{
    let marks = vec![in alloc; false; count]?;
    Ok(marks)
}

/// Marks the points that a member writes; it stops at the first pair whose point is marked.
fn mark(array: &Shape, member: &Member, marks: &mut [bool]) -> Option<Hit>
    requires fits { FitsIn array.now member.now }
    requires room { length marks.old ≡ size array.now }
    ensures { MarksOn array.now (member_writings array.now member.now) marks.old marks.new result }
{
    let mut walker = Walker::start(member.tiler, array, member.space, member.pattern);
    let mut number = 0;
    while let Some(address) = walker.next() {
        if marks[address as usize] {
            return Some(Hit { number, address });
        }
        marks[address as usize] = true;
        number += 1;
    }
    None
}

/// The number of the first pair of a member that writes the point with this rank.
fn found(array: &Shape, member: &Member, x: u32) -> Option<u64>
    requires fits { FitsIn array.now member.now }
    requires within { x < size array.now }
    ensures { IsEarliest (member_writings array.now member.now) (point_at array.now x) result }
{
    let mut walker = Walker::start(member.tiler, array, member.space, member.pattern);
    let mut number = 0;
    while let Some(address) = walker.next() {
        if address == x {
            return Some(number);
        }
        number += 1;
    }
    None
}

/// The first pair of all members that writes the point with this rank.
fn earliest(alloc: Global, array: &Shape, members: &[Member], x: u32) -> Option<Writer>
    requires fits { AllByRecursion (FitsIn array.now) members.now }
    requires within { x < size array.now }
    ensures { result ≡ option_map (λ (w : Writing). w.0) (earlier_writing (all_writings array.now members.now) (point_at array.now x)) }
{
    for member in members {
        if let Some(number) = found(array, member, x) {
            return Some(member.writer(alloc, number));
        }
    }
    None
}

/// The first pair whose point an earlier one has, where no point is marked yet.
fn first_repeat(
    alloc: Global,
    array: &Shape,
    members: &[Member],
    marks: &mut [bool],
) -> Option<Repeat>
    requires fits { AllByRecursion (FitsIn array.now) members.now }
    requires room { length marks.old ≡ size array.now }
    requires none { AreMarks array.now [] marks.old }
    ensures { result ≡ repeat_of (all_writings array.now members.now) }
{
    for member in members {
        if let Some(hit) = mark(array, member, marks) {
            return told(alloc, array, members, member, hit);
        }
    }
    None
}

/// Whether there is one member alone, whose pairs surely write different points.
fn are_apart(array: &Shape, members: &[Member]) -> bool
    requires { AllByRecursion (FitsIn array.now) members.now }
    ensures { IsTrue result → repeat_of (all_writings array.now members.now) ≡ None }
{
    if members.len() != 1 {
        return false;
    }
    let member = &members[0];
    writes_apart(array, member)
}

/// The first pair whose point an earlier one has, with that earlier one.
///
/// No point is marked where a tiler alone writes the array, and its columns count in mixed radix.
pub fn repeat_among(
    alloc: Global,
    array: &Shape,
    members: &[Member],
) -> Result<Option<Repeat>, NoMemory>
    requires { AllByRecursion (FitsIn array.now) members.now }
    ensures { IfOk result (λ r. r ≡ repeat_of (all_writings array.now members.now)) }
{
    if members.is_empty() {
        return Ok(None);
    }
    if are_apart(array, members) {
        return Ok(None);
    }
    let mut marks = unmarked(alloc, array.size() as usize)?;
    Ok(first_repeat(alloc, array, members, &mut marks))
}

/// A pair of a member, with the first pair of all that has its point.
fn told(
    alloc: Global,
    array: &Shape,
    members: &[Member],
    member: &Member,
    hit: Hit,
) -> Option<Repeat>
    requires fits { AllByRecursion (FitsIn array.now) members.now }
    requires own { FitsIn array.now member.now }
    requires within { hit.address < size array.now }
    requires pair { hit.number < length (member_writings array.now member.now) }
    ensures { (w : Writing) → slice_get (member_writings array.now member.now) hit.number ≡ Some w → result ≡ told_as (earlier_writing (all_writings array.now members.now) (point_at array.now hit.address)) w.0 (point_at array.now hit.address) }
{
    let first = earliest(alloc, array, members, hit.address)?;
    Some(Repeat {
        first,
        second: member.writer(alloc, hit.number),
        point: point_of(alloc, array, u64::from(hit.address)),
    })
}

//! One entry over the space of its leaf: each point is marked by the worker on which a pair places it.

ghost use Rattle.std.specs.Prelude.{◌≡◌, ◌<◌, ◌≤◌, ◌==◌, ◌&&◌, true, length, position, replicate, IfOk};
ghost use Rattle.aol_shape.specs.Shape.{IsShape, size, point_at};
ghost use Rattle.aol_tiler.specs.Tiler.{Fits, fits};
ghost use Rattle.aol_allocate.specs.Marks.{MarksAll, MarksSpace, PlacesSpace};

use crate::cause::PlaceCause;
use crate::fault::PlaceFault;
use crate::limits::MAX_WORKERS;
use aol_model_types::Entry;
use aol_shape::{Items, MAX_RANK, Point, Shape, unrank_into};
use aol_tiler::Walker;
use std::alloc::{AllocError, Global};

/// The mark of a point on which nothing is placed: no worker has this number.
const UNPLACED: u8 = 255;

/// Whether both tilers are over their arrays.
fn tilers_fit(entry: &Entry, space: &Shape) -> bool
    ensures { result ≡ fits entry.now.from space.now entry.now.space entry.now.pattern && fits entry.now.to entry.now.processors entry.now.space entry.now.pattern }
{
    entry.from.fits(space, &entry.space, &entry.pattern)
        && entry
            .to
            .fits(&entry.processors, &entry.space, &entry.pattern)
}

/// Marks each point that a pair places, pair by pair, up to the first whose point is marked: its rank.
fn mark_all(entry: &Entry, space: &Shape, workers: u32, marks: &mut [u8]) -> Option<u32>
    requires from { Fits entry.now.from space.now entry.now.space entry.now.pattern }
    requires to { Fits entry.now.to entry.now.processors entry.now.space entry.now.pattern }
    requires some { 1 ≤ workers }
    requires bound { workers ≤ MAX_WORKERS }
    requires shape { IsShape space.now }
    requires empty { marks.old ≡ replicate (size space.now) UNPLACED }
    ensures { MarksAll entry.now workers space.now result marks.new }
{
    let mut from = Walker::start(&entry.from, space, &entry.space, &entry.pattern);
    let mut to = Walker::start(&entry.to, &entry.processors, &entry.space, &entry.pattern);
    while let Some(point) = from.next() {
        let Some(processor) = to.next() else {
            return None;
        };
        let mark = &mut marks[point as usize];
        if *mark != UNPLACED {
            return Some(point);
        }
        *mark = (processor % workers) as u8;
    }
    None
}

/// The first point that is not marked.
fn first_unplaced(marks: &[u8]) -> Option<usize>
    ensures { result ≡ position (λ mark. mark == UNPLACED) marks.now }
{
    marks.iter().position(|mark| *mark == UNPLACED)
}

/// The point of a space with this rank.
fn point_of(alloc: Global, space: &Shape, rank: u32) -> Point
    requires { rank < size space.now }
    ensures { result ≡ point_at space.now rank }
{
    let mut indices = [0; MAX_RANK];
    let indices = &mut indices[..space.as_slice().len()];
    unrank_into(space, rank, indices);
    match Point::new(alloc, indices) {
        Some(point) => point,
        None => unreachable!(),
    }
}

/// Marks that say of each point that nothing is placed there.
fn no_marks(alloc: Global, count: u32) -> Result<Vec<u8>, AllocError>
    ensures { IfOk result (λ marks. marks.items ≡ replicate count UNPLACED) }
{
    let mut marks = Vec::new(alloc);
    marks.resize(count as usize, UNPLACED)?;
    Ok(marks)
}

/// Marks all points of a space, or tells why the entry doesn't place them.
fn mark_space(
    alloc: Global,
    entry: &Entry,
    space: &Shape,
    workers: u32,
    marks: &mut [u8],
) -> Option<PlaceCause>
    requires shape { IsShape space.now }
    requires some { 1 ≤ workers }
    requires bound { workers ≤ MAX_WORKERS }
    requires empty { marks.old ≡ replicate (size space.now) UNPLACED }
    ensures { MarksSpace entry.now workers space.now result marks.new }
{
    if !tilers_fit(entry, space) {
        return Some(PlaceCause::Shape);
    }
    if let Some(rank) = mark_all(entry, space, workers, marks) {
        return Some(PlaceCause::Twice(point_of(alloc, space, rank)));
    }
    let Some(rank) = first_unplaced(marks) else {
        return None;
    };
    Some(PlaceCause::Unplaced(point_of(alloc, space, rank as u32)))
}

/// The worker of each point of a leaf's space as the entry places it, or why it doesn't.
///
/// Each pair of a repetition and a pattern element of the entry places one point. It takes one step for each pair and
/// one for each point.
pub fn place_space(
    alloc: Global,
    entry: &Entry,
    space: &Shape,
    workers: u32,
) -> Result<Items<u8>, PlaceFault>
    requires shape { IsShape space.now }
    requires some { 1 ≤ workers }
    requires bound { workers ≤ MAX_WORKERS }
    ensures { PlacesSpace entry.now workers space.now result }
{
    let mut marks = no_marks(alloc, space.size())?;
    match mark_space(alloc, entry, space, workers, marks.as_mut_slice()) {
        Some(cause) => Err(PlaceFault::Cause(cause)),
        None => Ok(Items::from_vec(marks)),
    }
}

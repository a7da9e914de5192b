//! The placement of all instances of a model.

ghost use Rattle.std.specs.Prelude.{◌≡◌, ◌≤◌, ◌<◌, ◌++◌, ℕ, List, length, map, None, Some, Err, IfOk, OnOk};
ghost use Rattle.aol_shape.specs.Lists.{numbers_below};
ghost use Rattle.aol_flat.specs.Instance.{leaves};
ghost use Rattle.aol_allocate.specs.declared.cause.PlaceCause.{PlaceCause};
ghost use Rattle.aol_allocate.specs.Placement.{IsPlacement, even_worker, first_cause, workers_of};
ghost use Rattle.aol_allocate.specs.Tables.{row_workers, rows_workers};

use crate::cause::PlaceRefused;
use crate::limits::MAX_WORKERS;
use crate::paths::leaf_numbers;
use crate::placed::Placed;
use crate::table::{Places, Row, no_rows, place_entries};
use aol_flat::Flat;
use aol_model_types::Entry;
use aol_shape::Items;
use std::alloc::{AllocError, Global};

/// The worker of the instance with this rank among so many.
fn worker_at(rank: u32, count: u32, workers: u32) -> u8
    requires rank { rank < count }
    requires workers { workers ≤ MAX_WORKERS }
    ensures { result ≡ even_worker workers count rank }
{
    let worker = u64::from(rank) * u64::from(workers) / u64::from(count);
    worker as u8
}

/// Shares so many instances out evenly, in order.
fn push_evenly(of_instance: &mut Vec<u8>, count: u32, workers: u32) -> Result<(), AllocError>
    requires { workers ≤ MAX_WORKERS }
    ensures { OnOk result (of_instance.new.items ≡ of_instance.old.items ++ map (even_worker workers count) (numbers_below count)) }
{
    for rank in 0..count {
        of_instance.push(worker_at(rank, count, workers))?;
    }
    Ok(())
}

/// Appends the workers of a leaf's instances: those of its row, or else they are shared out evenly.
fn push_leaf(
    of_instance: &mut Vec<u8>,
    row: &Row,
    count: u32,
    workers: u32,
) -> Result<(), AllocError>
    requires { workers ≤ MAX_WORKERS }
    ensures { OnOk result (of_instance.new.items ≡ of_instance.old.items ++ row_workers workers count row.now) }
{
    match row {
        Some(placed) => of_instance.extend_from_slice(placed.as_slice()),
        None => push_evenly(of_instance, count, workers),
    }
}

/// The workers of all instances, leaf by leaf.
fn all_workers(
    alloc: Global,
    flat: &Flat,
    rows: &[Row],
    workers: u32,
) -> Result<Items<u8>, AllocError>
    requires bound { workers ≤ MAX_WORKERS }
    requires many { length rows.now ≡ length (leaves flat.now.model) }
    ensures { IfOk result (λ of_instance. of_instance ≡ rows_workers workers (leaves flat.now.model) rows.now) }
{
    let mut of_instance = Vec::with_capacity(alloc, flat.instances() as usize)?;
    for number in 0..flat.leaves() {
        let count = flat.leaf(number).count;
        push_leaf(&mut of_instance, &rows[number as usize], count, workers)?;
    }
    Ok(Items::from_vec(of_instance))
}

/// Places each instance of a laid out model on one of the workers, which are from 1 to 64.
///
/// Each pair of a repetition and a pattern element of an entry places one point of the leaf's space on a processor,
/// whose rank modulo the number of workers is the worker. Instances of a leaf that no entry names, copies too, are
/// shared out evenly within their leaf. `Entry` tells the first entry that has a cause, and its first cause in the
/// order of `PlaceCause`.
pub fn allocate(
    alloc: Global,
    flat: &Flat,
    entries: &Items<Entry>,
    workers: u32,
) -> Result<Placed, PlaceRefused>
    requires some { 1 ≤ workers }
    requires bound { workers ≤ MAX_WORKERS }
    ensures causes { OnOk result (first_cause flat.now.model entries.now ≡ None) }
    ensures number { IfOk result (λ placed. placed.workers ≡ workers) }
    ensures of_instance { IfOk result (λ placed. placed.of_instance ≡ workers_of flat.now.model entries.now workers) }
    ensures placement { IfOk result (λ placed. IsPlacement flat.now.model placed.of_instance placed.workers) }
    ensures refused { (entry : ℕ) (cause : PlaceCause) → result ≡ Err (PlaceRefused.Entry entry cause) → first_cause flat.now.model entries.now ≡ Some (entry, cause) }
{
    // What is laid out is sound: `model` says so.
    let _model = flat.model();
    let numbers = leaf_numbers(alloc, flat)?;
    let mut rows = no_rows(alloc, flat)?;
    let places = Places {
        alloc,
        flat,
        numbers: &numbers,
        workers,
    };
    place_entries(places, entries.as_slice(), &mut rows)?;
    let of_instance = all_workers(alloc, flat, rows.as_slice(), workers)?;
    Ok(Placed::new(of_instance, workers))
}

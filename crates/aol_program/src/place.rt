//! The lines of a placement.

ghost use Rattle.std.specs.Prelude.{◌≡◌, ◌++◌, ◌∷◌, ◌+◌, ◌<◌, ◌≤◌, ◌^◌, length, take, drop, flat_map, decimal, string_bytes, OnOk, IfOk};
ghost use Rattle.aol_flat.specs.Instance.{instances};
ghost use Rattle.aol_program.specs.Placed.{worker_text, place_lines};
ghost use Rattle.aol_program.specs.Checked.{cause_words};
ghost use Rattle.aol_program.specs.Made.{IsPlacedFor, IsPlaceReply};
ghost use Rattle.aol_lines.specs.Reply.{refusal, reply, reply_of};
ghost use Rattle.aol_program.specs.Words.{IsWorkers};

use aol_allocate::{PlaceCause, PlaceRefused, Placed, allocate};
use aol_flat::Flat;
use aol_lines::{Reply, StatusKind, Word, push_number, push_text, refusal};
use aol_model::Entry;
use aol_shape::{Items, NoMemory};
use std::alloc::Global;

/// Adds the workers of so many instances from one on, each after a blank.
fn push_workers(text: &mut String, placed: &Placed, base: u32, count: u32) -> Result<(), NoMemory>
    requires within { base + count ≤ length placed.now.of_instance }
    requires few { base + count < 2 ^ 32 }
    ensures { OnOk result (string_bytes text.new ≡ string_bytes text.old ++ flat_map worker_text (take count (drop base placed.now.of_instance))) }
{
    for instance in 0..count {
        push_text(text, " ")?;
        push_number(text, placed.worker_of(base + instance))?;
    }
    Ok(())
}

/// A line for each leaf: its path, and then the worker of each of its instances.
fn lines_of(alloc: Global, flat: &Flat, placed: &Placed) -> Result<Reply, NoMemory>
    requires placed { length placed.now.of_instance ≡ length (instances flat.now.model) }
    requires few { length placed.now.of_instance < 2 ^ 32 }
    ensures { IfOk result (λ r. reply_of r ≡ reply StatusKind.Done (place_lines flat.now.model placed.now.of_instance)) }
{
    let mut text = String::new(alloc);
    for number in 0..flat.leaves() {
        let leaf = flat.leaf(number);
        push_text(&mut text, leaf.path.as_str())?;
        push_workers(&mut text, placed, leaf.base, leaf.count)?;
        push_text(&mut text, "\n")?;
    }
    Ok(Reply {
        status: StatusKind::Done,
        text,
    })
}

/// The refusal for an entry that places nothing: its number and the cause.
fn entry_reply(alloc: Global, entry: u32, cause: &PlaceCause) -> Result<Reply, NoMemory>
    ensures { IfOk result (λ r. reply_of r ≡ refusal StatusKind.Allocate (decimal entry ∷ cause_words cause.now)) }
{
    match cause {
        PlaceCause::NoLeaf => refusal(
            alloc,
            StatusKind::Allocate,
            &[Word::Number(entry), Word::Text("no-leaf")],
        ),
        PlaceCause::Shape => refusal(
            alloc,
            StatusKind::Allocate,
            &[Word::Number(entry), Word::Text("shape")],
        ),
        PlaceCause::Twice(point) => refusal(
            alloc,
            StatusKind::Allocate,
            &[
                Word::Number(entry),
                Word::Text("twice"),
                Word::Point(point.as_slice()),
            ],
        ),
        PlaceCause::Unplaced(point) => refusal(
            alloc,
            StatusKind::Allocate,
            &[
                Word::Number(entry),
                Word::Text("unplaced"),
                Word::Point(point.as_slice()),
            ],
        ),
    }
}

/// The workers of the instances by a job's entries; or the refusal of an entry.
pub fn placed_or_refused(
    alloc: Global,
    flat: &Flat,
    entries: &Items<Entry>,
    workers: u32,
) -> Result<Result<Placed, Reply>, NoMemory>
    requires { IsWorkers workers }
    ensures { IfOk result (IsPlacedFor flat.now.model entries.now workers) }
{
    match allocate(alloc, flat, entries, workers) {
        Ok(placed) => Ok(Ok(placed)),
        Err(PlaceRefused::Entry { entry, cause }) => {
            let reply = entry_reply(alloc, entry, &cause)?;
            Ok(Err(reply))
        }
        Err(PlaceRefused::NoMemory) => Err(NoMemory),
    }
}

/// The reply to a placement of a model that is laid out.
pub fn place_reply(
    alloc: Global,
    flat: &Flat,
    entries: &Items<Entry>,
    workers: u32,
) -> Result<Reply, NoMemory>
    requires { IsWorkers workers }
    ensures { IfOk result (λ r. IsPlaceReply flat.now.model entries.now workers (reply_of r)) }
{
    let _model = flat.model();
    let outcome = placed_or_refused(alloc, flat, entries, workers)?;
    match outcome {
        Ok(placed) => lines_of(alloc, flat, &placed),
        Err(reply) => Ok(reply),
    }
}

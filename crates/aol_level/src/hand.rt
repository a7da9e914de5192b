//! What a worker needs to run instances one after another: cursors over what they read, and buffers.

ghost use Rattle.std.specs.Prelude.{◌≡◌, ◌+◌, ◌<◌, ◌≤◌, ◌^◌, ◌∷◌, ◌++◌, [], length, take, All, IfOk, OnOk};
ghost use Rattle.aol_flat.specs.Accept.{IsFlat};
ghost use Rattle.aol_flat.specs.Instance.{instances, leaves};
ghost use Rattle.aol_flat.specs.LeafCursor.{reads_each, writes_each};
ghost use Rattle.aol_flat.specs.Level.{AreReadsOf};
ghost use Rattle.aol_flat.specs.Net.{Net, IsNetOf, reads_at, writes_at};
ghost use Rattle.aol_level.specs.Made.{AreCursors, AreMade, IsHand, IsLeafOf};
ghost use Rattle.aol_level.specs.Parts.{AreInstances, AreCellsOf, ArePut, CanTakeAll, puts_at};
ghost use Rattle.aol_level.specs.Puts.{CanTake, put_from};

use crate::finding::leaf_of;
use crate::instance::{run_copy, run_elementary};
use crate::kept::Kept;
use crate::outputs::Ready;
use aol_flat::{Flat, LeafKind, LeafReads, Read};
use aol_model_types::Task;
use aol_scatter::{Rest, Share};
use aol_shape::NoMemory;
use std::alloc::Global;

/// A cursor over the reads of each leaf, a buffer for those of one instance and for their numbers, and the leaf of the last one.
#[derive(Drop)]
pub struct Hand<'a> {
    pub cursors: Vec<LeafReads<'a>>,
    pub taken: Vec<Read>,
    pub nums: Vec<i64>,
    pub leaf: u32,
}

/// Adds a cursor.
fn push<'a>(cursors: &mut Vec<LeafReads<'a>>, cursor: LeafReads<'a>) -> Result<(), NoMemory>
    ensures { OnOk result (cursors.new.items ≡ cursors.old.items ++ cursor.entry ∷ []) }
{
    match cursors.push(cursor) {
        Ok(()) => Ok(()),
        Err(_) => Err(NoMemory),
    }
}

impl<'a> Hand<'a> {
    /// Cursors at the first instances, with buffers for the instances of all leaves.
    pub fn of(alloc: Global, flat: &'a Flat) -> Result<Hand<'a>, NoMemory>
        ensures { IfOk result (IsHand flat.now) }
    {
        let mut cursors = Vec::with_capacity(alloc, flat.leaves() as usize)?;
        let mut most = 0;
        for leaf in 0..flat.leaves() {
            let cursor = flat.reads(alloc, leaf)?;
            most = most.max(cursor.many());
            push(&mut cursors, cursor)?;
        }
        let taken = vec![in alloc; Read::Const(0); most as usize]?;
        let nums = vec![in alloc; 0i64; most as usize]?;
        Ok(Hand {
            cursors,
            taken,
            nums,
            leaf: 0,
        })
    }
}

/// Puts what an instance of the leaf reads into the front of a buffer. It answers how many reads they are.
fn read_on(
    flat: &Flat,
    leaf: u32,
    instance: u32,
    cursors: &mut [LeafReads<'_>],
    taken: &mut [Read],
) -> usize
    requires leaf { IsLeafOf flat.now.model instance leaf }
    requires cursors { AreCursors flat.now cursors.old }
    requires room { reads_each flat.now.model leaf ≤ length taken.old }
    ensures cursors { AreCursors flat.now cursors.new }
    ensures many { result ≡ reads_each flat.now.model leaf }
    ensures reads { AreReadsOf flat.now instance (take result taken.new) }
{
    let number = instance - flat.leaf(leaf).base;
    let cursor = &mut cursors[leaf as usize];
    let many = cursor.many() as usize;
    cursor.of(number, &mut taken[..many]);
    many
}

/// Runs the instance of a leaf that reads this, whose cells stand in its worker's share from a place on. It answers how
/// many cells it writes.
fn run_on(
    flat: &Flat,
    ready: &[Option<Ready>],
    leaf: u32,
    instance: u32,
    rest: &Rest<Kept>,
    reads: &[Read],
    nums: &mut [i64],
    share: &mut Share<Kept>,
    place: u32,
    worker: u32,
) -> u32
    requires ready { AreMade flat.now.model.tasks ready.now }
    requires leaf { IsLeafOf flat.now.model instance leaf }
    requires reads { AreReadsOf flat.now instance reads.now }
    requires many { length reads.now ≡ reads_each flat.now.model leaf }
    requires buffer { length reads.now ≤ length nums.old }
    requires held { All (CanTake rest.now.cells) reads.now }
    requires room { place + writes_each flat.now.model leaf ≤ length share.old.cells }
    requires few { length share.old.cells < 2 ^ 32 }
    ensures many { result ≡ writes_each flat.now.model leaf }
    ensures same { (share.new.name ≡ share.old.name) × (share.new.cells ≡ share.old.cells) }
    ensures values { (net : Net) → IsNetOf flat.now net → share.new.values ≡ put_from share.old.values place (puts_at net rest.now.cells worker instance) }
{
    let model = flat.model();
    match flat.leaf(leaf).kind {
        LeafKind::Copy => {
            run_copy(rest, reads[0], share, place, worker);
            1
        }
        LeafKind::Elementary(task) => {
            let (Task::Elementary(elementary), Some(ready)) = (
                &model.tasks.as_slice()[task as usize],
                &ready[task as usize],
            ) else {
                return 0;
            };
            run_elementary(rest, reads, nums, share, place, worker, elementary, ready);
            ready.count
        }
    }
}

/// Runs an instance, whose cells stand in its worker's share from a place on. It answers how many cells it writes.
fn run_instance(
    flat: &Flat,
    ready: &[Option<Ready>],
    hand: &mut Hand<'_>,
    instance: u32,
    rest: &Rest<Kept>,
    share: &mut Share<Kept>,
    place: u32,
    worker: u32,
) -> u32
    requires ready { AreMade flat.now.model.tasks ready.now }
    requires hand { IsHand flat.now hand.old }
    requires instance { instance < length (instances flat.now.model) }
    requires net { (net : Net) × IsNetOf flat.now net }
    requires held { (net : Net) → IsNetOf flat.now net → All (CanTake rest.now.cells) (reads_at net instance) }
    requires room { (net : Net) → IsNetOf flat.now net → place + length (writes_at net instance) ≤ length share.old.cells }
    requires few { length share.old.cells < 2 ^ 32 }
    ensures hand { IsHand flat.now hand.new }
    ensures many { (net : Net) → IsNetOf flat.now net → result ≡ length (writes_at net instance) }
    ensures same { (share.new.name ≡ share.old.name) × (share.new.cells ≡ share.old.cells) }
    ensures values { (net : Net) → IsNetOf flat.now net → share.new.values ≡ put_from share.old.values place (puts_at net rest.now.cells worker instance) }
{
    let _model = flat.model();
    let leaf = leaf_of(flat, hand.leaf, instance);
    hand.leaf = leaf;
    let many = read_on(
        flat,
        leaf,
        instance,
        hand.cursors.as_mut_slice(),
        hand.taken.as_mut_slice(),
    );
    let reads = &hand.taken.as_slice()[..many];
    run_on(
        flat,
        ready,
        leaf,
        instance,
        rest,
        reads,
        hand.nums.as_mut_slice(),
        share,
        place,
        worker,
    )
}

/// Runs instances one after another, whose cells are those of their worker's share.
pub fn run_all(
    flat: &Flat,
    ready: &[Option<Ready>],
    hand: &mut Hand<'_>,
    numbers: &[u32],
    rest: &Rest<Kept>,
    share: &mut Share<Kept>,
    worker: u32,
)
    requires ready { AreMade flat.now.model.tasks ready.now }
    requires hand { IsHand flat.now hand.old }
    requires within { AreInstances flat.now numbers.now }
    requires net { (net : Net) × IsNetOf flat.now net }
    requires reads { CanTakeAll flat.now rest.now.cells numbers.now }
    requires cells { AreCellsOf flat.now numbers.now share.old.cells }
    requires as_many { length share.old.values ≡ length share.old.cells }
    requires few { length share.old.cells < 2 ^ 32 }
    ensures hand { IsHand flat.now hand.new }
    ensures same { (share.new.name ≡ share.old.name) × (share.new.cells ≡ share.old.cells) }
    ensures values { ArePut flat.now rest.now.cells worker numbers.now share.new.values }
{
    let _model = flat.model();
    let mut place = 0;
    for number in numbers {
        place += run_instance(flat, ready, hand, *number, rest, share, place, worker);
    }
}

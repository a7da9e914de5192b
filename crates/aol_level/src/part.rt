//! The instances of one worker in a level, from what they write to what they have put.

ghost use Rattle.std.specs.Prelude.{◌≡◌, ◌<◌, ℕ, All, length, slice_index_or};
ghost use Rattle.aol_flat.specs.Net.{Net, IsNetOf};
ghost use Rattle.aol_level.specs.Made.{AreMade};
ghost use Rattle.aol_level.specs.Parts.{CanWork, IsDone};

use crate::gate::Gate;
use crate::hand::{Hand, run_all};
use crate::kept::Kept;
use crate::outputs::Ready;
use aol_flat::Flat;
use aol_scatter::{Rest, Share};
use aol_shape::Items;
use std::thread::{self, Threads};

/// The instances of a worker in a level, and the hand by which they run.
#[derive(Drop)]
pub struct Part<'a, 'b> {
    pub hand: Hand<'a>,
    pub instances: &'b [u32],
    pub worker: u32,
}

/// The same with the cells that they write.
#[derive(Drop)]
pub struct Plan<'a, 'b> {
    pub part: Part<'a, 'b>,
    pub cells: Items<u32>,
}

/// The same with these cells claimed.
pub struct Job<'a, 'b> {
    pub part: Part<'a, 'b>,
    pub share: Share<Kept>,
}

/// Passes the gate and runs the instances of a job.
fn work<G: Gate>(
    gate: &G,
    level: u32,
    flat: &Flat,
    ready: &[Option<Ready>],
    rest: &Rest<Kept>,
    job: &mut Job<'_, '_>,
)
    requires ready { AreMade flat.now.model.tasks ready.now }
    requires net { (net : Net) × IsNetOf flat.now net }
    requires can { CanWork flat.now rest.now.cells job.old }
    ensures { IsDone flat.now rest.now.cells job.old job.new }
{
    let worker = job.part.worker;
    let instances = job.part.instances;
    gate.pass(level, worker);
    run_all(
        flat,
        ready,
        &mut job.part.hand,
        instances,
        rest,
        &mut job.share,
        worker,
    );
}

/// Runs all jobs of a level, each on a thread of its own; a single one takes no thread.
pub fn run_jobs<R: Threads + Sync, G: Gate>(
    rt: &R,
    gate: &G,
    level: u32,
    flat: &Flat,
    ready: &[Option<Ready>],
    rest: &Rest<Kept>,
    jobs: &mut [Job<'_, '_>],
)
    requires ready { AreMade flat.now.model.tasks ready.now }
    requires net { (net : Net) × IsNetOf flat.now net }
    requires can { All (CanWork flat.now rest.now.cells) jobs.old }
    ensures { (k : ℕ) (d : _) → k < length jobs.old → IsDone flat.now rest.now.cells (slice_index_or jobs.old k d) (slice_index_or jobs.new k d) }
{
    if jobs.is_empty() {
        return;
    }
    if jobs.len() == 1 {
        work(gate, level, flat, ready, rest, &mut jobs[0]);
        return;
    }
    let threads = jobs.len();
    thread::for_each_mut(
        rt,
        jobs,
        threads,
        &|_, job|
            requires { AreMade flat.now.model.tasks ready.now × ((net : Net) × IsNetOf flat.now net) × CanWork flat.now rest.now.cells job.now }
            ensures { IsDone flat.entry.now rest.entry.now.cells job.entry.now job.exit.now }
        { work(gate, level, flat, ready, rest, job) },
    );
}

//! One instance of a run: it takes all that it reads, and then puts what it gives into its cells.

ghost use Rattle.std.specs.Prelude.{◌≡◌, ◌+◌, ◌<◌, ◌≤◌, ◌^◌, [], ◌∷◌, map, length, All};
ghost use Rattle.aol_flat.specs.InstanceValue.{instance_outputs};
ghost use Rattle.aol_level.specs.Puts.{CanTake, IsReady, elements, kept_by, put_from, value_held};

use crate::kept::Kept;
use crate::outputs::{Ready, put_elementary, take_inputs, value_taken};
use aol_flat::Read;
use aol_model_types::Elementary;
use aol_scatter::{Rest, Share};

/// Runs an instance of an elementary task, whose cells stand in its worker's share from a place on.
///
/// `nums` is a buffer with room for what the instance reads.
pub fn run_elementary(
    rest: &Rest<Kept>,
    reads: &[Read],
    nums: &mut [i64],
    share: &mut Share<Kept>,
    place: u32,
    worker: u32,
    task: &Elementary,
    ready: &Ready,
)
    requires buffer { length reads.now ≤ length nums.old }
    requires held { All (CanTake rest.now.cells) reads.now }
    requires ready { IsReady task.now ready.now }
    requires outs { length task.now.outs < 2 ^ 32 }
    requires room { place + elements task.now.outs ≤ length share.old.cells }
    requires few { length share.old.cells < 2 ^ 32 }
    ensures same { (share.new.name ≡ share.old.name) × (share.new.cells ≡ share.old.cells) }
    ensures values { share.new.values ≡ put_from share.old.values place (map (kept_by worker) (instance_outputs ready.now.number task.now (map (value_held rest.now.cells) reads.now))) }
    ensures buffer { length nums.new ≡ length nums.old }
{
    let fault = take_inputs(rest, reads, nums);
    let taken = &nums[..reads.len()];
    put_elementary(share, place, worker, task, ready, fault, taken);
}

/// Runs a copy: it passes on what it reads.
pub fn run_copy(rest: &Rest<Kept>, read: Read, share: &mut Share<Kept>, place: u32, worker: u32)
    requires held { CanTake rest.now.cells read }
    requires room { place < length share.old.cells }
    ensures same { (share.new.name ≡ share.old.name) × (share.new.cells ≡ share.old.cells) }
    ensures values { share.new.values ≡ put_from share.old.values place (map (kept_by worker) (value_held rest.now.cells read ∷ [])) }
{
    let val = value_taken(rest, read);
    share.put(place, Kept { val, worker });
}

//! The main inputs in the first cells of a run's memory.

ghost use Rattle.std.specs.Prelude.{◌≡◌, ◌+◌, ◌<◌, ◌≤◌, ◌^◌, map, length, OnOk, Some};
ghost use Rattle.aol_flat.specs.Net.{flat_inputs};
ghost use Rattle.aol_level.specs.Puts.{put_from};
ghost use Rattle.aol_level.specs.Round.{AllHeld};
ghost use Rattle.aol_runner.specs.Run.{fresh};
ghost use Rattle.aol_runner.specs.Through.{AreOpen, number_kept};

use crate::order::numbers;
use aol_expr_tree::Val;
use aol_level::Kept;
use aol_model_types::InputArray;
use aol_scatter::{Rest, Share};
use aol_shape::{Items, NoMemory};
use std::alloc::Global;

/// How many numbers some arrays have.
pub fn numbers_in(inputs: &[InputArray]) -> u32
    requires { length (flat_inputs inputs.now) < 2 ^ 32 }
    ensures { result ≡ length (flat_inputs inputs.now) }
{
    let mut count = 0;
    for input in inputs {
        count += input.nums.len() as u32;
    }
    count
}

/// Puts numbers into a share, from a place on.
fn put_numbers(share: &mut Share<Kept>, place: u32, nums: &[i64])
    requires room { place + length nums.now ≤ length share.old.cells }
    requires few { length share.old.cells < 2 ^ 32 }
    ensures same { (share.new.name ≡ share.old.name) × (share.new.cells ≡ share.old.cells) }
    ensures values { share.new.values ≡ put_from share.old.values place (map number_kept nums.now) }
{
    for (x, num) in nums.iter().enumerate() {
        let kept = Kept {
            val: Val::Num(*num),
            worker: 0,
        };
        share.put(place + x as u32, kept);
    }
}

/// Puts the numbers of some arrays into a share, array by array.
fn put_arrays(share: &mut Share<Kept>, inputs: &[InputArray])
    requires room { length (flat_inputs inputs.now) ≤ length share.old.cells }
    requires few { length share.old.cells < 2 ^ 32 }
    ensures same { (share.new.name ≡ share.old.name) × (share.new.cells ≡ share.old.cells) }
    ensures values { share.new.values ≡ put_from share.old.values 0 (map number_kept (flat_inputs inputs.now)) }
{
    let mut place = 0;
    for input in inputs {
        put_numbers(share, place, input.nums.as_slice());
        place += input.nums.len() as u32;
    }
}

/// Puts the main inputs into the first cells of a fresh memory.
pub fn put_inputs(
    alloc: Global,
    rest: &mut Rest<Kept>,
    inputs: &[InputArray],
) -> Result<(), NoMemory>
    requires room { length (flat_inputs inputs.now) ≤ length rest.old.cells }
    requires fresh { rest.old.cells ≡ map Some (fresh (length rest.old.cells)) }
    ensures name { rest.new.name ≡ rest.old.name }
    ensures cells { length rest.new.cells ≡ length rest.old.cells }
    ensures whole { AllHeld rest.new.cells }
    ensures open { OnOk result (AreOpen inputs.now rest.new.cells) }
{
    let _cells = rest.len();
    let count = numbers_in(inputs);
    let cells = numbers(alloc, count)?;
    let mut share = rest.claim(Items::from_vec(cells));
    put_arrays(&mut share, inputs);
    let _cells = rest.settle(share);
    Ok(())
}

//! The instances of a level, taken apart by their workers.

ghost use Rattle.std.specs.Prelude.{◌≡◌, ◌<◌, ◌≤◌, ◌++◌, ◌∷◌, [], ℕ, List, flat_map, length, take, slice_index, All, IfOk, OnOk};
ghost use Rattle.aol_flat.specs.Instance.{instances};
ghost use Rattle.aol_level.specs.Made.{IsHand, IsListing};
ghost use Rattle.aol_level.specs.Parts.{AreInstances, IsPlan};

use crate::hand::Hand;
use crate::listing::{Listing, cells_of};
use crate::part::{Part, Plan};
use aol_allocate::Placed;
use aol_flat::Flat;
use aol_shape::{Items, NoMemory};
use std::alloc::Global;

/// How many instances from the first on are all of its worker.
fn count_of(placed: &Placed, numbers: &[u32], worker: u32) -> usize
    requires within { All (λ j. j < length placed.now.of_instance) numbers.now }
    requires some { 0 < length numbers.now }
    requires first { slice_index placed.now.of_instance (slice_index numbers.now 0) ≡ worker }
    ensures some { 0 < result }
    ensures within { result ≤ length numbers.now }
    ensures same { All (λ j. slice_index placed.now.of_instance j ≡ worker) (take result numbers.now) }
{
    for (place, number) in numbers.iter().enumerate() {
        if placed.worker_of(*number) != worker {
            return place;
        }
    }
    numbers.len()
}

/// A hand that no part has, or a new one.
fn take_hand<'a>(
    alloc: Global,
    flat: &'a Flat,
    hands: &mut Vec<Hand<'a>>,
) -> Result<Hand<'a>, NoMemory>
    requires { All (IsHand flat.now) hands.old.items }
    ensures hands { All (IsHand flat.now) hands.new.items }
    ensures hand { IfOk result (IsHand flat.now) }
{
    match hands.pop() {
        Some(hand) => Ok(hand),
        None => Hand::of(alloc, flat),
    }
}

/// The part of a worker with these instances, and the cells that they write.
fn plan_of<'a, 'b>(
    alloc: Global,
    flat: &'a Flat,
    listing: &mut Listing<'a>,
    hands: &mut Vec<Hand<'a>>,
    numbers: &'b [u32],
    worker: u32,
) -> Result<Plan<'a, 'b>, NoMemory>
    requires numbers { AreInstances flat.now numbers.now }
    requires listing { IsListing flat.now listing.old }
    requires hands { All (IsHand flat.now) hands.old.items }
    ensures listing { IsListing flat.now listing.new }
    ensures hands { All (IsHand flat.now) hands.new.items }
    ensures worker { IfOk result (λ plan. plan.part.worker ≡ worker) }
    ensures instances { IfOk result (λ plan. plan.part.instances.now ≡ numbers.now) }
    ensures plan { (workers : List ℕ) → All (λ j. slice_index workers j ≡ worker) numbers.now → IfOk result (IsPlan flat.now workers) }
{
    let cells = cells_of(alloc, flat, listing, numbers)?;
    if u32::try_from(cells.len()).is_err() {
        return Err(NoMemory);
    }
    let hand = take_hand(alloc, flat, hands)?;
    Ok(Plan {
        part: Part {
            hand,
            instances: numbers,
            worker,
        },
        cells: Items::from_vec(cells),
    })
}

/// Adds a plan.
fn push<'a, 'b>(plans: &mut Vec<Plan<'a, 'b>>, plan: Plan<'a, 'b>) -> Result<(), NoMemory>
    ensures { OnOk result (plans.new.items ≡ plans.old.items ++ plan.entry ∷ []) }
{
    match plans.push(plan) {
        Ok(()) => Ok(()),
        Err(_) => Err(NoMemory),
    }
}

/// The instances of a level taken apart by workers, with the cells that those of each write.
pub fn plan_all<'a, 'b>(
    alloc: Global,
    flat: &'a Flat,
    listing: &mut Listing<'a>,
    hands: &mut Vec<Hand<'a>>,
    placed: &Placed,
    at_once: &'b [u32],
) -> Result<Vec<Plan<'a, 'b>>, NoMemory>
    requires within { AreInstances flat.now at_once.now }
    requires placed { length placed.now.of_instance ≡ length (instances flat.now.model) }
    requires listing { IsListing flat.now listing.old }
    requires hands { All (IsHand flat.now) hands.old.items }
    ensures listing { IsListing flat.now listing.new }
    ensures hands { All (IsHand flat.now) hands.new.items }
    ensures all { IfOk result (λ plans. flat_map (λ p. p.part.instances.now) plans.items ≡ at_once.now) }
    ensures each { IfOk result (λ plans. All (IsPlan flat.now placed.now.of_instance) plans.items) }
{
    let mut plans = Vec::new(alloc);
    let mut left = at_once;
    while let Some(first) = left.first() {
        let worker = placed.worker_of(*first);
        let (now, after) = left.split_at(count_of(placed, left, worker));
        let plan = plan_of(alloc, flat, listing, hands, now, worker)?;
        push(&mut plans, plan)?;
        left = after;
    }
    Ok(plans)
}

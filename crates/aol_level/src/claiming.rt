//! The cells of the parts of a level, claimed before they run and settled after.

ghost use Rattle.std.specs.Prelude.{◌≡◌, ℕ, map, length, All, AllPairs, Contains, Some, IfOk, OnOk, OnErr};
ghost use Rattle.aol_flat.specs.Laid.{Laid};
ghost use Rattle.aol_scatter.specs.Cells.{AreApart, cell};
ghost use Rattle.aol_level.specs.Claims.{CanClaim, without_all};
ghost use Rattle.aol_level.specs.Made.{IsHand};

use crate::hand::Hand;
use crate::kept::Kept;
use crate::part::{Job, Plan};
use aol_scatter::Rest;
use aol_shape::NoMemory;
use std::alloc::Global;

/// Claims the cells of each part. Where memory is wanting, none is claimed.
pub fn claim_all<'a, 'b>(
    alloc: Global,
    rest: &mut Rest<Kept>,
    plans: Vec<Plan<'a, 'b>>,
) -> Result<Vec<Job<'a, 'b>>, NoMemory>
    requires { CanClaim rest.old.cells (map (λ p. p.cells) plans.items) }
    ensures parts { IfOk result (λ jobs. map (λ j. j.part) jobs.items ≡ map (λ p. p.part) plans.entry.items) }
    ensures shares { IfOk result (λ jobs. map (λ j. j.share.cells) jobs.items ≡ map (λ p. p.cells) plans.entry.items) }
    ensures names { IfOk result (λ jobs. All (λ j. j.share.name ≡ rest.old.name) jobs.items) }
    ensures as_many { IfOk result (λ jobs. All (λ j. length j.share.values ≡ length j.share.cells) jobs.items) }
    ensures cells { OnOk result (rest.new.cells ≡ without_all (map (λ p. p.cells) plans.entry.items) rest.old.cells) }
    ensures name { rest.new.name ≡ rest.old.name }
    ensures refused { OnErr result (rest.new ≡ rest.old) }
{
    let mut jobs = Vec::with_capacity(alloc, plans.len())?;
    for plan in plans {
        let Plan { part, cells } = plan;
        let share = rest.claim(cells);
        match jobs.push(Job { part, share }) {
            Ok(()) => (),
            Err(back) => {
                let Job { part: _, share } = back.value;
                let _cells = rest.settle(share);
                unreachable!()
            }
        }
    }
    Ok(jobs)
}

/// Keeps a hand, where there is room for it.
fn keep<'a>(hands: &mut Vec<Hand<'a>>, hand: Hand<'a>)
    ensures { (f : Laid) → All (IsHand f) hands.old.items → IsHand f hand.entry → All (IsHand f) hands.new.items }
{
    let _ = hands.push(hand);
}

/// Settles the shares of jobs that have no cell in common, and keeps their hands where there is room.
pub fn settle_all<'a, 'b>(rest: &mut Rest<Kept>, hands: &mut Vec<Hand<'a>>, jobs: Vec<Job<'a, 'b>>)
    requires names { All (λ j. j.share.name ≡ rest.old.name) jobs.items }
    requires apart { AllPairs (λ i j. AreApart i.share.cells j.share.cells) jobs.items }
    ensures name { rest.new.name ≡ rest.old.name }
    ensures values { All (λ j. map (λ k. cell rest.new.cells k) j.share.cells ≡ map Some j.share.values) jobs.entry.items }
    ensures others { (k : ℕ) → All (λ j. ¬ Contains j.share.cells k) jobs.entry.items → cell rest.new.cells k ≡ cell rest.old.cells k }
    ensures len { length rest.new.cells ≡ length rest.old.cells }
    ensures hands { (f : Laid) → All (IsHand f) hands.old.items → All (λ j. IsHand f j.part.hand) jobs.entry.items → All (IsHand f) hands.new.items }
{
    let mut jobs = jobs;
    while let Some(job) = jobs.pop() {
        let Job { part, share } = job;
        let _cells = rest.settle(share);
        keep(hands, part.hand);
    }
    jobs.destroy_empty();
}

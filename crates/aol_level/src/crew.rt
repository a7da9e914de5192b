//! The workers of a run.

ghost use Rattle.std.specs.Prelude.{◌≡◌, length, IfOk, OnOk};
ghost use Rattle.aol_flat.specs.Instance.{instances};
ghost use Rattle.aol_level.specs.Round.{AllHeld, CanRunAtOnce, IsAfter};

use crate::claiming::{claim_all, settle_all};
use crate::gate::Gate;
use crate::hand::Hand;
use crate::kept::Kept;
use crate::listing::Listing;
use crate::outputs::Ready;
use crate::part::run_jobs;
use crate::planning::plan_all;
use crate::ready::ready_tasks;
use aol_allocate::Placed;
use aol_flat::Flat;
use aol_scatter::Rest;
use aol_shape::NoMemory;
use std::alloc::Global;
use std::marker::{Model, Sync};
use std::thread::Threads;

/// The workers of a run, with their buffers and the tasks of the leaves made ready.
///
/// Contracts see it as the model that is laid out and how many workers there are.
#[derive(Drop)]
pub struct Crew<'a> {
    flat: &'a Flat,
    workers: u32,
    ready: Vec<Option<Ready>>,
    listing: Listing<'a>,
    hands: Vec<Hand<'a>>,
}

impl<'a> Model for Crew<'a> {
    ghost use Rattle.std.specs.Prelude.{All};
    ghost use Rattle.aol_level.specs.Round.{CrewOf};
    ghost use Rattle.aol_level.specs.Made.{AreMade, IsHand, IsListing};
    ghost use Rattle.std.specs.Coded.{codes};
    ghost use Rattle.aol_model_types.specs.contracts.document.Model as model_row;

    ghost Value = { CrewOf };

    ghost coded = { Prim.hlevel (codes, model_row.the_row.coded) };

    ghost view = { λ c. record { flat = c.flat.now; workers = c.workers } };

    ghost invariant = { λ c. AreMade c.flat.now.model.tasks c.ready.items × IsListing c.flat.now c.listing × All (IsHand c.flat.now) c.hands.items };
}

impl<'a> Crew<'a> {
    /// So many workers for a model that is laid out, from 1 to 64.
    pub fn of(alloc: Global, flat: &'a Flat, workers: u32) -> Result<Crew<'a>, NoMemory>
        ensures { IfOk result (λ crew. crew ≡ record { flat = flat.now; workers = workers }) }
    {
        let ready = ready_tasks(alloc, flat.model().tasks.as_slice())?;
        let listing = Listing::of(alloc, flat)?;
        let hands = Vec::with_capacity(alloc, workers as usize)?;
        Ok(Crew {
            flat,
            workers,
            ready,
            listing,
            hands,
        })
    }

    /// Runs some instances at once: those of a level, worker by worker, and those of one worker in order of their numbers.
    ///
    /// Each worker with an instance among them passes the gate once, claims the cells that its instances write, and runs
    /// them. Every cell is held before and after. Where memory is wanting, none of the instances has run.
    pub fn run_level<R: Threads + Sync, G: Gate>(
        &mut self,
        rt: &R,
        alloc: Global,
        rest: &mut Rest<Kept>,
        level: u32,
        at_once: &[u32],
        placed: &Placed,
        gate: &G,
    ) -> Result<(), NoMemory>
        requires whole { AllHeld rest.old.cells }
        requires cells { length rest.old.cells ≡ length self.old.flat.cells }
        requires workers { placed.now.workers ≡ self.old.workers }
        requires placed { length placed.now.of_instance ≡ length (instances self.old.flat.model) }
        requires at_once { CanRunAtOnce self.old.flat placed.now.of_instance at_once.now }
        ensures crew { self.new ≡ self.old }
        ensures name { rest.new.name ≡ rest.old.name }
        ensures cells { length rest.new.cells ≡ length rest.old.cells }
        ensures whole { AllHeld rest.new.cells }
        ensures after { OnOk result (IsAfter self.old.flat placed.now.of_instance at_once.now rest.old.cells rest.new.cells) }
    {
        let flat = self.flat;
        let _model = flat.model();
        let plans = plan_all(
            alloc,
            flat,
            &mut self.listing,
            &mut self.hands,
            placed,
            at_once,
        )?;
        let mut jobs = claim_all(alloc, rest, plans)?;
        let ready = self.ready.as_slice();
        run_jobs(rt, gate, level, flat, ready, rest, jobs.as_mut_slice());
        settle_all(rest, &mut self.hands, jobs);
        Ok(())
    }
}

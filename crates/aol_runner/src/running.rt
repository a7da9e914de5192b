//! A whole run: the inputs go into the memory, the levels run one after another, and the outputs are taken out.

ghost use Rattle.std.specs.Prelude.{◌≡◌, List, Some, map, length, IfOk, OnOk};
ghost use Rattle.aol_model_types.specs.declared.job.InputArray.{InputArray};
ghost use Rattle.aol_allocate.specs.Placement.{IsPlacement};
ghost use Rattle.aol_flat.specs.Accept.{IsAccepted};
ghost use Rattle.aol_flat.specs.InstanceNeed.{AreLevelsOf, level_count};
ghost use Rattle.aol_flat.specs.Net.{AreMainInputs};
ghost use Rattle.aol_level.specs.Round.{AllHeld};
ghost use Rattle.aol_runner.specs.Order.{order_of};
ghost use Rattle.aol_runner.specs.Outputs.{AreOutputs};
ghost use Rattle.aol_runner.specs.Run.{IsRunField, fresh};
ghost use Rattle.aol_runner.specs.Through.{AreOpen, AreThrough};

use crate::opening::{numbers_in, put_inputs};
use crate::order::Order;
use crate::outputs::{Outputs, take_outputs};
use aol_allocate::Placed;
use aol_depend::Levels;
use aol_flat::Flat;
use aol_level::{Crew, Gate, Kept};
use aol_model_types::InputArray;
use aol_scatter::{Field, Rest};
use aol_shape::{Items, NoMemory};
use std::alloc::Global;
use std::marker::Sync;
use std::thread::Threads;

/// Runs the levels one after another.
fn run_levels<R: Threads + Sync, G: Gate>(
    rt: &R,
    alloc: Global,
    flat: &Flat,
    crew: &mut Crew,
    rest: &mut Rest<Kept>,
    order: &Order,
    levels: &Levels,
    placed: &Placed,
    gate: &G,
) -> Result<(), NoMemory>
    requires accepted { IsAccepted flat.now.model }
    requires levels { AreLevelsOf flat.now.model levels.now }
    requires placement { IsPlacement flat.now.model placed.now.of_instance placed.now.workers }
    requires order { order.now ≡ order_of levels.now placed.now.of_instance placed.now.workers (level_count levels.now) }
    requires crew { crew.old ≡ record { flat = flat.now; workers = placed.now.workers } }
    requires whole { AllHeld rest.old.cells }
    requires cells { length rest.old.cells ≡ length flat.now.cells }
    ensures name { rest.new.name ≡ rest.old.name }
    ensures cells { length rest.new.cells ≡ length rest.old.cells }
    ensures whole { AllHeld rest.new.cells }
    ensures through { OnOk result ((inputs : List InputArray) → AreOpen inputs rest.old.cells → AreThrough flat.now levels.now placed.now.of_instance inputs (level_count levels.now) rest.new.cells) }
{
    let _model = flat.model();
    for level in 0..levels.count() {
        crew.run_level(rt, alloc, rest, level, order.level(level), placed, gate)?;
    }
    Ok(())
}

/// Puts the inputs into a fresh memory, and runs the levels.
fn run_inputs<R: Threads + Sync, G: Gate>(
    rt: &R,
    alloc: Global,
    flat: &Flat,
    rest: &mut Rest<Kept>,
    order: &Order,
    levels: &Levels,
    placed: &Placed,
    inputs: &[InputArray],
    gate: &G,
) -> Result<(), NoMemory>
    requires accepted { IsAccepted flat.now.model }
    requires levels { AreLevelsOf flat.now.model levels.now }
    requires placement { IsPlacement flat.now.model placed.now.of_instance placed.now.workers }
    requires inputs { AreMainInputs flat.now.model inputs.now }
    requires order { order.now ≡ order_of levels.now placed.now.of_instance placed.now.workers (level_count levels.now) }
    requires fresh { rest.old.cells ≡ map Some (fresh (length flat.now.cells)) }
    ensures name { rest.new.name ≡ rest.old.name }
    ensures cells { length rest.new.cells ≡ length rest.old.cells }
    ensures whole { AllHeld rest.new.cells }
    ensures through { OnOk result (AreThrough flat.now levels.now placed.now.of_instance inputs.now (level_count levels.now) rest.new.cells) }
{
    let _model = flat.model();
    put_inputs(alloc, rest, inputs)?;
    let mut crew = Crew::of(alloc, flat, placed.workers())?;
    run_levels(
        rt, alloc, flat, &mut crew, rest, order, levels, placed, gate,
    )
}

/// Runs an accepted model with its levels on the workers of a placement.
///
/// The inputs are the main inputs in port order, and the memory has a cell for each of the model's, all 0 and of worker
/// 0. It answers the main outputs of every solution, and the memory that every schedule leaves, in which each written
/// cell has the worker of the instance that writes it. Each worker with an instance in a level passes the gate once there.
pub fn run<R: Threads + Sync, G: Gate>(
    rt: &R,
    alloc: Global,
    flat: &Flat,
    levels: &Levels,
    placed: &Placed,
    inputs: &Items<InputArray>,
    memory: Field<Kept>,
    gate: &G,
) -> Result<(Outputs, Field<Kept>), NoMemory>
    requires accepted { IsAccepted flat.now.model }
    requires levels { AreLevelsOf flat.now.model levels.now }
    requires placement { IsPlacement flat.now.model placed.now.of_instance placed.now.workers }
    requires inputs { AreMainInputs flat.now.model inputs.now }
    requires memory { memory ≡ fresh (length flat.now.cells) }
    ensures outputs { IfOk result (λ r. AreOutputs flat.now.model inputs.now r.0.ports) }
    ensures memory { IfOk result (λ r. IsRunField flat.now placed.now.of_instance inputs.now r.1) }
{
    let model = flat.model();
    let _cells = flat.cells();
    let order = Order::of(alloc, levels.list(), levels.count(), placed)?;
    let mut rest = memory.begin();
    let ran = run_inputs(
        rt,
        alloc,
        flat,
        &mut rest,
        &order,
        levels,
        placed,
        inputs.as_slice(),
        gate,
    );
    let memory = rest.finish();
    ran?;
    let first = numbers_in(inputs.as_slice());
    let outputs = take_outputs(alloc, &memory, first, model)?;
    Ok((outputs, memory))
}

ghost use Rattle.std.specs.Prelude.{◌≡◌, ◌≤◌, ◌<◌, length, replicate, pos, IfOk, OnOk, Some, None};
ghost use Rattle.aol_csyn.specs.Form.{IsWellFormed};
ghost use Rattle.aol_csyn.specs.Meaning.{arrays_of, level_run, worker_run};
ghost use Rattle.aol_csyn.specs.Stored.{program_of};
ghost use Rattle.aol_cexec.specs.Exec.{EndsWith, IsStuckAt, IsStuckIn, opened, worker_at, workers_in};
ghost use Rattle.aol_cexec.specs.Machine.{arrays_held, state_of};
ghost use Rattle.aol_cexec.specs.Refusals.{IfStuck};

use crate::machine::Machine;
use crate::order::Order;
use crate::run::run_stmts;
use aol_csyn::{CProgram, CStep};
use aol_shape::Items;
use std::alloc::{AllocError, Global};
use thiserror::Error;

/// The two arrays after a run.
#[derive(Drop)]
pub struct Arrays {
    pub v: Items<i64>,
    pub f: Items<i64>,
}

/// Why a run came to no end.
#[derive(Clone, Copy, Debug, PartialEq, Eq, Error)]
pub enum ExecRefused {
    /// The step of this level and worker.
    #[error("stuck {level} {worker}")]
    Stuck { level: u32, worker: u32 },
    #[error("no memory")]
    NoMemory,
}

impl From<AllocError> for ExecRefused {
    ghost use Rattle.std.specs.Prelude.{◌≡◌};
    ghost use Rattle.aol_cexec.specs.declared.exec.ExecRefused.{ExecRefused};

    ghost from_gives = { λ _ r. r ≡ ExecRefused.NoMemory };

    fn from(_: AllocError) -> ExecRefused {
        ExecRefused::NoMemory
    }
}

/// So many 0.
fn zeros(alloc: Global, count: usize) -> Result<Items<i64>, AllocError>
    ensures { IfOk result (λ xs. xs ≡ replicate count (pos 0)) }
{
    let numbers = vec![in alloc; 0i64; count]?;
    Ok(Items::from_vec(numbers))
}

/// The arrays before the first step.
fn open(alloc: Global, cells: u32, memory: &[i64]) -> Result<Machine, AllocError>
    requires { length memory.now ≤ cells }
    ensures { IfOk result (λ m. arrays_of (state_of m) ≡ opened cells memory.now) }
{
    let mut v = Items::from_slice(alloc, memory)?;
    v.append(zeros(alloc, cells as usize - memory.len())?)?;
    let f = zeros(alloc, cells as usize)?;
    let vars = Items::new(alloc);
    Ok(Machine { v, f, vars })
}

/// The worker that runs at a place of the order.
fn worker_of(order: Order, workers: u32, place: u32) -> u32
    requires { place < workers }
    ensures { result ≡ worker_at order workers place }
{
    match order {
        Order::Up => place,
        Order::Down => workers - 1 - place,
    }
}

/// Runs the step of a level and a worker.
fn run_worker(
    alloc: Global,
    program: &CProgram,
    machine: &mut Machine,
    level: u32,
    worker: u32,
) -> Result<(), ExecRefused>
    ensures ran { OnOk result (worker_run (program_of program.now) level worker (arrays_of (state_of machine.old)) ≡ Some (arrays_of (state_of machine.new))) }
    ensures stuck { IfStuck result (λ l w. (l ≡ level) × (w ≡ worker) × (worker_run (program_of program.now) level worker (arrays_of (state_of machine.old)) ≡ None)) }
{
    let place = u64::from(level) * u64::from(program.workers) + u64::from(worker);
    let Some(step) = program.steps.get(place as usize) else {
        return Err(ExecRefused::Stuck { level, worker });
    };
    machine.vars = zeros(alloc, step.vars as usize)?;
    if run_stmts(program.tables.as_slice(), machine, step.body.as_slice()) {
        Ok(())
    } else {
        Err(ExecRefused::Stuck { level, worker })
    }
}

/// Runs a level, by its workers in the order given.
fn run_level(
    alloc: Global,
    program: &CProgram,
    machine: &mut Machine,
    level: u32,
    order: Order,
) -> Result<(), ExecRefused>
    ensures ran { OnOk result (level_run (program_of program.now) level (workers_in order program.now.workers) (arrays_of (state_of machine.old)) ≡ Some (arrays_of (state_of machine.new))) }
    ensures stuck { IfStuck result (λ l w. (l ≡ level) × IsStuckIn (program_of program.now) order level w (arrays_of (state_of machine.old))) }
{
    for place in 0..program.workers {
        let worker = worker_of(order, program.workers, place);
        run_worker(alloc, program, machine, level, worker)?;
    }
    Ok(())
}

/// The two arrays after a run from V with the numbers in `memory` and then 0, and F with 0.
///
/// `memory` has at most as many numbers as the program has cells. `Stuck` comes exactly where the
/// run in this order is stuck, and names the first step that is; a run has one answer
/// (`run_is_decided`).
pub fn exec_c(
    alloc: Global,
    program: &CProgram,
    memory: &[i64],
    order: Order,
) -> Result<Arrays, ExecRefused>
    requires formed { IsWellFormed (program_of program.now) }
    requires room { length memory.now ≤ program.now.cells }
    ensures ends { IfOk result (λ a. EndsWith (program_of program.now) order (opened program.now.cells memory.now) (arrays_held a)) }
    ensures stuck { IfStuck result (λ level worker. IsStuckAt (program_of program.now) order (opened program.now.cells memory.now) level worker) }
{
    let mut machine = open(alloc, program.cells, memory)?;
    for level in 0..program.levels {
        run_level(alloc, program, &mut machine, level, order)?;
    }
    let Machine { v, f, vars: _ } = machine;
    Ok(Arrays { v, f })
}

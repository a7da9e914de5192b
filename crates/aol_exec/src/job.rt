use aol_cexec::Order;
use aol_csyn::CProgram;
use aol_model_types::Place;
use aol_shape::{Items, LimitName, NoMemory};
use std::alloc::AllocError;

/// What `exec` is asked: to run a program from V with these numbers and then 0, in this order.
#[derive(Drop)]
pub struct ExecJob {
    pub program: CProgram,
    pub memory: Items<i64>,
    pub order: Order,
}

/// Why there are no final arrays.
#[derive(Drop)]
pub enum JobRefused {
    /// The first place of the walk that has the wrong form. In a program's text its byte is the line, counted from 1.
    Grammar(Place),
    /// The program at this place passes this limit.
    Limit(Place, LimitName),
    /// There are more numbers than the program has cells.
    LongMemory,
    /// The step of this level and worker is the first that is stuck.
    Stuck { level: u32, worker: u32 },
    NoMemory,
}

impl From<AllocError> for JobRefused {
    ghost use Rattle.std.specs.Prelude.{◌≡◌};
    ghost use Rattle.aol_exec.specs.declared.job.JobRefused.{JobRefused};

    ghost from_gives = { λ _ e. e ≡ JobRefused.NoMemory };

    fn from(_: AllocError) -> JobRefused {
        JobRefused::NoMemory
    }
}

impl From<NoMemory> for JobRefused {
    ghost use Rattle.std.specs.Prelude.{◌≡◌};
    ghost use Rattle.aol_exec.specs.declared.job.JobRefused.{JobRefused};

    ghost from_gives = { λ _ e. e ≡ JobRefused.NoMemory };

    fn from(_: NoMemory) -> JobRefused {
        JobRefused::NoMemory
    }
}

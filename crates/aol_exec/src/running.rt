//! A job that is run.

ghost use Rattle.std.specs.Prelude.{◌≡◌, OnOk, IfOk, IfErr};
ghost use Rattle.aol_csyn.specs.Form.{IsWellFormed};
ghost use Rattle.aol_csyn.specs.Stored.{program_of};
ghost use Rattle.aol_cexec.specs.Exec.{EndsWith};
ghost use Rattle.aol_cexec.specs.Machine.{arrays_held};
ghost use Rattle.aol_exec.specs.Answer.{JobAnswers, Runs, first_limit, opening};
ghost use Rattle.aol_exec.specs.Results.{IfAnswered, IfCause, job_of};

use crate::job::{ExecJob, JobRefused};
use crate::lines::lines_of;
use aol_cexec::{Arrays, ExecRefused, MAX_CELLS, MAX_WORK, c_work, exec_c};
use aol_csyn::CProgram;
use aol_model_types::{Key, Path};
use aol_shape::LimitName;
use std::alloc::Global;

/// The first limit that a program passes, where it passes one.
fn limit_passed(program: &CProgram) -> Option<LimitName>
    requires { IsWellFormed (program_of program.now) }
    ensures { result ≡ first_limit (program_of program.now) }
{
    if program.cells > MAX_CELLS {
        Some(LimitName::Cells)
    } else if c_work(program) > MAX_WORK {
        Some(LimitName::Work)
    } else {
        None
    }
}

/// What stops a job before it runs, if anything does.
fn admit(alloc: Global, job: &ExecJob) -> Result<(), JobRefused>
    requires { IsWellFormed (program_of job.now.program) }
    ensures runs { OnOk result (Runs (job_of job.now)) }
    ensures refused { IfErr result (λ e. IfCause e (JobAnswers (job_of job.now))) }
{
    if let Some(name) = limit_passed(&job.program) {
        let place = Path::top(alloc).to_key(Key::KProgram).place();
        return Err(JobRefused::Limit(place, name));
    }
    if job.memory.len() > job.program.cells as usize {
        return Err(JobRefused::LongMemory);
    }
    Ok(())
}

/// The arrays after the run.
fn final_arrays(alloc: Global, job: &ExecJob) -> Result<Arrays, JobRefused>
    requires formed { IsWellFormed (program_of job.now.program) }
    requires runs { Runs (job_of job.now) }
    ensures ends { IfOk result (λ a. let j = job_of job.now in EndsWith j.program j.order (opening j) (arrays_held a)) }
    ensures refused { IfErr result (λ e. IfCause e (JobAnswers (job_of job.now))) }
{
    match exec_c(alloc, &job.program, job.memory.as_slice(), job.order) {
        Ok(arrays) => Ok(arrays),
        Err(ExecRefused::Stuck { level, worker }) => Err(JobRefused::Stuck { level, worker }),
        Err(ExecRefused::NoMemory) => Err(JobRefused::NoMemory),
    }
}

/// The lines of the two arrays after a job's run, or what stops it.
///
/// In this order: `Limit` where the program has too many cells or too much work, `LongMemory`
/// where there are more numbers than cells, and `Stuck` where its run is stuck.
pub fn run_job(alloc: Global, job: &ExecJob) -> Result<String, JobRefused>
    requires { IsWellFormed (program_of job.now.program) }
    ensures { IfAnswered result (JobAnswers (job_of job.now)) }
{
    admit(alloc, job)?;
    let arrays = final_arrays(alloc, job)?;
    let text = lines_of(alloc, &arrays)?;
    Ok(text)
}

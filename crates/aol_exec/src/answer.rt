ghost use Rattle.serde_json.specs.View.{view};
ghost use Rattle.aol_exec.specs.Answer.{Answers};
ghost use Rattle.aol_exec.specs.Results.{IfAnswered};

use crate::job::JobRefused;
use crate::reading::exec_job;
use crate::running::run_job;
use serde_json::Value;
use std::alloc::Global;

/// What the command `exec` answers to a tree: the lines of V and F after the run that it asks for,
/// or why there are none.
///
/// Each tree has one answer (`exec_is_decided`), so each refusal comes exactly where its cause
/// holds and none before it does: `Grammar` at the first wrong place, `Limit` of the cells and then
/// of the work, `LongMemory`, `Stuck`.
pub fn exec_answer(alloc: Global, tree: &Value) -> Result<String, JobRefused>
    ensures { IfAnswered result (Answers (view tree.now)) }
{
    let job = exec_job(alloc, tree)?;
    run_job(alloc, &job)
}

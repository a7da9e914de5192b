//! The work of the command `exec`: a job read from a JSON tree, run, and answered with the lines of its two arrays.
//!
//! Read `specs/Job.antt` and `specs/Answer.antt` first, then `answer::exec_answer`.
//!
//! ```text
//! exec_answer(alloc, &tree)      // "V 1 2 3\nF 0 0 0\n", or why there are no such lines
//! ```
#![tactic(auto)]

mod answer;
mod job;
mod laws;
mod lines;
mod reading;
mod running;

pub use answer::exec_answer;
pub use job::{ExecJob, JobRefused};
pub use laws::exec_is_decided;
pub use reading::exec_job;
pub use running::run_job;

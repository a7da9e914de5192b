//! What is told of a list of steps of which one isn't kept.
//!
//! The line has the number of the step and the cause. Read `specs/StepsReply.antt` first, then `step_reply`.
//!
//! ```text
//! match transform(alloc, first, job.transform.as_slice()) {
//!     Ok(made) => ..,
//!     Err(refused) => step_reply(alloc, &refused),
//! }
//! ```
#![tactic(auto)]

mod ending;
mod laws;
mod told;

pub use laws::{kept_steps_have_no_reply, steps_have_one_reply, steps_make_one_model};
pub use told::step_reply;

//! Lists of proposed steps: each is made, tested to keep the model before it, and taken or refused.
//!
//! Read `specs/Steps.antt` first, then `transform`.
//!
//! ```text
//! // the model that all steps of a job make, or the first step that isn't kept
//! transform(alloc, flat, writers, job.transform.as_slice())
//! ```
#![tactic(auto)]

mod cause;
mod laws;
mod step;
mod steps;

pub use cause::{StepCause, StepsRefused};
pub use laws::kept_steps_agree;
pub use steps::{Transformed, transform};

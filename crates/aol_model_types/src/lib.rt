//! The types of a document, its model and its job, and the definitions of reading them, writing them and of their rules.
//!
//! Read `src/task.rt` and `src/job.rt` for the types, `specs/Rules.antt` for the rules, and `specs/Reading.antt` for the
//! walk of a document. The crates `aol_document` and `aol_rules` meet these definitions.
//!
//! ```text
//! place.write_to(&mut text)                      // "$.model.tasks[0].out[0].shape@3"
//! ```
#![tactic(auto)]

mod document;
mod duplicate;
mod job;
pub mod limits;
mod place;
pub mod rules;
mod shared;
mod status;
mod task;

pub use document::{DocRefused, Document, Misfit, Model};
pub use job::{Entry, FuseArgs, InputArray, Job, PaveArgs, Pick, Step};
pub use place::{Key, Path, Place, PlaceStep};
pub use shared::{documents_are_shared, types_are_shared};
pub use status::limit_text;
pub use task::{Compound, Copied, Elementary, Hook, OutPort, Part, Plain, Repeated, Task, TilerOn};

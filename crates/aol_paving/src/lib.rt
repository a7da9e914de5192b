//! A change of paving: of a repetition of repetitions, blocks of the outer level move into the inner one.
//!
//! Read `specs/Crossings.antt` and `specs/Pave.antt` first, then `pave`. `proofs/Sound.antt` shows that the paved model of
//! a sound one is sound, and `proofs/Examples.antt` has worked examples.
//!
//! ```text
//! // two blocks of four windows each become one block of eight
//! pave(alloc, &flat, &name, &one, &two)
//! ```
#![tactic(auto)]

mod crossing;
mod laws;
mod model;
mod step;
mod tilers;

pub use crossing::Crossing;
pub use laws::{paved_keeps_tasks, paved_leaves};
pub use model::paved;
pub use step::{pave, paved_flat};

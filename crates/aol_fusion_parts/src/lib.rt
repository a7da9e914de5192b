//! Fusion: two repetitions, joined in a compound, become one of a block of the first and one run of the second.
//!
//! Read `specs/Fuse.antt` first, then `fused`. `specs/Made.antt` and `specs/Whole.antt` have the new tasks, and
//! `specs/Changed.antt` the compound that has them.
//!
//! ```text
//! // the two parts of the compound `name` as one repetition
//! fused(alloc, &model, &name, &args)
//! ```
#![tactic(auto)]

mod block;
mod compound;
mod copies;
mod joined;
mod laws;
mod model;
mod once;
mod pair;
mod ports;
mod whole;

pub use laws::fused_keeps_tasks;
pub use model::fused;
pub use ports::{FusedNames, FusedPorts};
pub use whole::Inside;

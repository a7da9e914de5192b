//! The placement of instances on workers.
//!
//! Read `specs/Placement.antt` first, then `allocate`. An entry of a document places the points of one leaf's space on
//! processors; instances of all other leaves are shared out evenly.
//!
//! ```text
//! let placed = allocate(alloc, &flat, &job.allocate, 4)?;   // or the first entry that has a cause
//! placed.worker_of(0)                                       // the worker of the first instance, below 4
//! ```
#![tactic(auto)]

mod cause;
mod fault;
mod instances;
mod laws;
mod limits;
mod marks;
mod paths;
mod placed;
mod shared;
mod table;

pub use cause::{PlaceCause, PlaceRefused};
pub use instances::allocate;
pub use laws::{entries_place_once, workers_are_a_placement};
pub use limits::MAX_WORKERS;
pub use placed::Placed;
pub use shared::types_are_shared;

//! Levels: which instances need which, and how many come before each.
//!
//! An instance needs another where it reads a cell that the other writes. Its level is 0 where it needs none, and else
//! one more than the greatest level among those that it needs. Read `aol_flat`'s `specs/Level.antt` first, then `levels`.
//!
//! ```text
//! let levels = levels(alloc, &flat, writers.list())?;   // or the first instance of a loop
//! levels.level_of(0)                                    // the level of the first instance
//! levels.count()                                        // one more than the greatest level
//! ```
#![tactic(auto)]

mod find;
mod gather;
mod in_order;
mod level_list;
mod main_reads;
mod needs;
mod refused;
mod search;
mod shared;

pub use find::levels;
pub use level_list::Levels;
pub use refused::DependRefused;
pub use shared::types_are_shared;

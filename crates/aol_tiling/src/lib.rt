//! Tiling: a repetition becomes a repetition of blocks, each a repetition of the old inner task.
//!
//! Read `specs/Tile.antt` first, then `tile`. `proofs/Sound.antt` shows that the tiled model of a sound one is
//! sound, and `proofs/Examples.antt` has worked examples.
//!
//! ```text
//! // ten repetitions in five blocks of two
//! tile(alloc, &flat, &name, &five, &two)
//! ```
#![tactic(auto)]

mod laws;
mod model;
mod step;

pub use laws::{tiled_keeps_tasks, tiled_leaves};
pub use model::tiled;
pub use step::{tile, tiled_flat};

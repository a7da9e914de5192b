//! Tilers, which say the element of an array that a repetition's pattern element is.
//!
//! Read `specs/Tiler.antt` first, then `Tiler::address`. A `Walker` gives all addresses in order and multiplies nothing.
//!
//! ```text
//! // (origin={-1},paving={{1}},fitting={{1}}) over an array {8}: windows of three around each element
//! tiler.address(&array, &[0], &[0])              // 7: the window of repetition 0 begins at the last element
//! ```
#![tactic(auto)]

mod columns;
mod laws;
mod shared;
mod sums;
mod tiler;
mod units;
mod walker;

pub use laws::{blocks_are_repetitions, compositions_are_points};
pub use shared::types_are_shared;
pub use tiler::{IntMat, Tiler, TilerRefused};
pub use walker::Walker;

//! The rules on shapes and names of a model, tested in the order of the walk.
//!
//! ```text
//! shapes_agree(alloc, &model)                    // Err(Misfit { place, rule: 3 }): an expression names what isn't there
//! ```
#![tactic(auto)]

mod agree;

pub use agree::shapes_agree;

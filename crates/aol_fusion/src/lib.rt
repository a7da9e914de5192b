//! Fusion as a step: the fused model laid out.
//!
//! Read `specs/Fuse.antt` of `aol_fusion_parts` first, then `fused_flat`. `aol_fusion_rules` has the law that the fused
//! model of a sound one is sound.
//!
//! ```text
//! // the two parts of the compound `name` as one repetition
//! fused_flat(alloc, &flat, &name, &args)
//! ```
#![tactic(auto)]

mod laws;
mod model;
mod step;

pub use laws::old_numbers_are_told;
pub use model::fused_model;
pub use step::fused_flat;

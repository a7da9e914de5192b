//! Laws on the whole model that a fusion makes: it keeps the rules, and is as one that was read.
//!
//! Read `specs/Sound.antt`. `proofs/ChangedKept.antt` shows it of the changed compound.
#![tactic(auto)]

mod laws;

pub use laws::fused_is_sound;

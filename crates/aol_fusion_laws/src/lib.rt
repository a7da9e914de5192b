//! Laws on the new tasks of a fusion: they keep the rules of a model.
//!
//! Read `specs/Rules.antt`.
#![tactic(auto)]

mod laws;

pub use laws::{block_keeps_rules, once_keeps_rules, pair_keeps_rules, whole_keeps_rules};

//! The steps of a program in the emitted subset of C: loops over instances whose statements are alike.
//!
//! Read `specs/Effect.antt` first, then `lower_group`. A group is some instances of one leaf, whose entries and cells stand
//! one instance after another in the tables. Its loop sets the two places of each instance and runs its statements.
#![tactic(auto)]

mod group;

pub use group::{Group, lower_group};

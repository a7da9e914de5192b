//! Links between the repetitions of one task.
//!
//! Read `specs/Links.antt` first, then `Interlink::before` and `Interlink::choice`.
//!
//! ```text
//! // distance {1} over a space {3}: repetition 2 takes from repetition 1, and 0 from the default
//! link.before(&space, &[2], &mut found)          // true, and found is [1]
//! link.before(&space, &[0], &mut found)          // false; link.choice(&space, &[0]) says which choice stands in
//! ```
#![tactic(auto)]

mod link;
mod shared;
mod steps;

pub use link::{Choice, Fallback, Interlink, When};
pub use shared::types_are_shared;

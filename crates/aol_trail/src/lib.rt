//! Trails: from the elements of a port, through tilers, to the cells where they are stored.
//!
//! Read `specs/Trail.antt` first, then `Trail::cell`. A trail is made once; then it goes from one instance to another,
//! and an element costs a few additions for each tiler on its way.
#![tactic(auto)]

mod level;
mod residues;
mod stretch;
mod trail;

pub use level::Level;
pub use stretch::Stretch;
pub use trail::{Home, Trail};

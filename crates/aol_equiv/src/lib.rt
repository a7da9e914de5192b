//! Whether a changed model keeps the old one: each read of the new model ends where the old one does.
//!
//! It compares two models that are laid out and knows of no step that made one of the other. Read `specs/Answers.antt`
//! first, then `keeps`.
#![tactic(auto)]

mod before;
mod calls;
mod compare;
mod leads;
mod lost;
mod made;
mod places;
mod resolve;
mod table;

pub use calls::keeps;
pub use lost::Lost;

//! The document written as a JSON tree.
//!
//! Read the clauses of `value_of` first; their words are in `aol_model_types`. An object is made member by member, in one
//! map that the writers of its members are lent.
//!
//! ```text
//! value_of(alloc, &document.model, &document.job)?       // its tree, which is read as the same document
//! ```
#![tactic(auto)]

mod writing;

pub use writing::{tree_of, value_of};

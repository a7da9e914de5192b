//! The document read from its JSON tree.
//!
//! Read the clauses of `document_of` first; their words are in `aol_model_types`. While a value is read, `Trail` holds
//! the steps to it, and a place is made of them only where a fault is found.
//!
//! ```text
//! document_of(alloc, &tree)?                     // the document, or the first place at which the tree is none
//! ```
#![tactic(auto)]

mod reading;

pub use reading::document_of;

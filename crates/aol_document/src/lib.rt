//! The document read from its JSON tree, and written as one.
//!
//! All of it stands in the three crates below and is handed on from here.
//!
//! ```text
//! let document = document_of(alloc, &tree)?;     // the document, or the first place at which the tree is none
//! value_of(alloc, &document.model, &document.job)?       // its tree, which is read as the same document
//! ```
#![tactic(auto)]

pub use aol_document_laws::{documents_are_read_again, read_trees_are_held, reading_shows};
pub use aol_document_reading::document_of;
pub use aol_document_writing::{tree_of, value_of};

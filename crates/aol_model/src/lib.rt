//! The document: its model and its job, read from JSON, written to it, and tested by its rules.
//!
//! All of it stands in the crates below and is handed on from here.
//!
//! ```text
//! let document = document_of(alloc, &tree)?;     // the document that a JSON tree stands for
//! shapes_agree(alloc, &document.model)           // Ok: the rules on shapes and names hold
//! ```
#![tactic(auto)]

pub use aol_document::{
    document_of, documents_are_read_again, read_trees_are_held, reading_shows, tree_of, value_of,
};
pub use aol_model_types::{
    Compound, Copied, DocRefused, Document, Elementary, Entry, FuseArgs, Hook, InputArray, Job,
    Key, Misfit, Model, OutPort, Part, Path, PaveArgs, Pick, Place, PlaceStep, Plain, Repeated,
    Step, Task, TilerOn, documents_are_shared, limit_text, types_are_shared,
};
pub use aol_rules::shapes_agree;

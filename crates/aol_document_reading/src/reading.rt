//! Readers of a document's tree, one for each form.

mod forms;
mod from_tree;
mod job;
mod ports;
mod repeated;
mod tasks;
mod texts;
mod trail;
mod whole;

pub use whole::document_of;

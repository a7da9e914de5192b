//! Writers of a document's tree, one for each form.

mod job;
mod ports;
mod repeated;
mod tasks;
mod to_tree;
mod whole;

pub use whole::{tree_of, value_of};

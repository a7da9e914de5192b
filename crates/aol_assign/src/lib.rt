//! Single assignment of a model that is laid out: the one writer of each cell, or the first point that is written
//! twice or is read and not given.
//!
//! Read `specs/Answers.antt` first.
#![tactic(auto)]

mod apart;
mod calls;
mod holes;
mod laws;
mod marks;
mod pairs;
mod reads;
mod refused;
mod targets;
mod tasks;
mod twice;
mod writer_list;

pub use calls::{assign, writers};
pub use laws::{cells_have_one_writer, given_by_cells, instances_differ};
pub use refused::AssignRefused;
pub use writer_list::Writers;

//! Laws of documents: what is written is read again, and what is read stands for a document that can be written.
//!
//! It holds laws alone, over the definitions of `aol_model_types`: each function has a law as its clause, and no body.
//!
//! ```text
//! documents_are_read_again()                     // a document that was read is written as a tree that is read as the same
//! ```
#![tactic(auto)]

mod laws;
mod whole;

pub use laws::documents_are_read_again;
pub use whole::{read_trees_are_held, reading_shows};

//! The lines of the program: a status with its word, and the words of each refusal of a model that is laid out.
//!
//! A line is its first word and then each further word after a blank. What is told of an instance, of an element that is
//! read or of a point that is written twice is added to a text word by word, so that a longer line can hold it too. Read
//! `specs/Refused.antt` first, then `twice_reply`.
//!
//! ```text
//! let words = [Word::Place(&place), Word::Limit(name)];
//! let reply = refusal(alloc, StatusKind::Limit, &words)?;
//! ```
#![tactic(auto)]

mod instance;
mod line;
mod refused;
mod reply;
mod status;
mod tasks;
mod text;

pub use instance::{instance_name, leaf_with, push_point};
pub use line::{Word, begun, ended, push_words, refusal};
pub use refused::{cycle_reply, push_port, push_reading, push_twice, twice_reply, unwritten_reply};
pub use reply::{Reply, written};
pub use status::StatusKind;
pub use tasks::{input, main_task, name_of, output};
pub use text::{push_integer, push_number, push_shape, push_text};

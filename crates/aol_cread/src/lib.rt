//! The text of a program of the emitted subset of C, read.
//!
//! Read `specs/Wrong.antt` first, then `read::read_c`. The text is read line by line: `reading` takes a line apart, and
//! `building` adds it to what is known of the program.
#![tactic(auto)]

mod building;
mod bytes;
mod expr;
mod line;
mod read;
mod reading;

pub use read::{ReadCRefused, read_c};

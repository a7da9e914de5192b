//! The program as a function: what the words of a call ask for, answered for the bytes that a source gives.
//!
//! `aol` does all of it over a source and a sink that are handed in. Its clause says how each call ends, by the
//! definitions in `specs/Answered.antt`; read these first. `accept` decides alone whether bytes are a document whose
//! model is accepted.
//!
//! ```text
//! let status = aol(&rt, alloc, words.as_slice(), &mut source, &mut sink, &NoGate);
//! ```
#![tactic(auto)]

mod accepted;
mod accepting;
mod check;
mod exec;
mod fault;
mod inputs;
mod laws;
mod made;
mod place;
mod print;
mod printed;
mod program;
mod refusing;
mod reply;
mod status;
mod words;

pub use accepting::{Accepted, Refusal, accept};
pub use aol_lines::StatusKind;
pub use laws::{
    accepted_have_no_cause, accepted_is_not_refused, there_is_one_refusal, there_is_one_reply,
};
pub use program::aol;
pub use status::{Ran, Status};

//! The statements of one instance of a model in the emitted subset of C.
//!
//! Read `specs/Effect.antt` first, then `lower_instance`. An instance reads its values through a table of entries and writes
//! through a table of cells, from places that stand in variables. Where what it reads is held, its statements are never
//! stuck, put V and F of its own cells and nothing else, and leave there what the instance gives: a number beside 0, or 0
//! beside the mark of a fault.
#![tactic(auto)]

mod copying;
mod element;
mod instance;
mod layout;
mod point;
mod ports;
mod puts;
mod rooms;

pub use copying::lower_copy;
pub use instance::lower_instance;
pub use layout::{CELLS, HELD, INSTANCE, RANK, READS, REST, Tables, VALUE};
pub use rooms::variables;

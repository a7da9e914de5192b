//! Texts of shapes, vectors and tilers.
//!
//! Read `specs/Text.antt` first, the grammars; then `read_tiler`, whose refusal says where a text stops being one.
//!
//! ```text
//! read_shape(alloc, "{2048,2049}")               // Err(Limit(6, Points)): the entry that passes it begins at byte 6
//! read_tiler(alloc, "(origin={0},paving={{1}})") // Err(At(24)): some tiler's text begins with these 24 bytes
//! ```
#![tactic(auto)]

mod laws;
mod lexeme;
mod matrix;
mod number;
mod recognizer;
mod refused;
mod tiler;
mod vector;
mod writing;

pub use laws::{
    shapes_are_read_again, shapes_are_read_right, shapes_have_one_reading, tilers_are_read_again,
    tilers_are_read_right, tilers_have_one_reading, vectors_are_read_again, vectors_are_read_right,
    vectors_have_one_reading,
};
pub use refused::VslRefused;
pub use tiler::read_tiler;
pub use vector::{read_shape, read_vector};
pub use writing::{write_shape, write_tiler, write_vector};

//! Laws of the texts of expressions: what is written is read again, a text has one reading, and reading is the grammar.
//!
//! It holds laws alone, over the definitions of `aol_expr_tree`: each function has a law as its clause, and no body.
//!
//! ```text
//! expressions_are_read_right()                   // what reading answers is right by the grammar, for every text
//! ```
#![tactic(auto)]

mod laws;

pub use laws::{
    expressions_are_read_again, expressions_are_read_right, expressions_are_spelled,
    expressions_have_one_reading,
};

//! The texts of expressions, read and written; trees, values and laws are handed on from the crates below.
//!
//! Start at `read_expr` and `write_expr`. `reading` goes over a text byte by byte and changes one state in place; its
//! steps are in `operands`, `words`, `brackets` and `operators`.
#![tactic(auto)]

mod brackets;
mod operands;
mod operators;
mod reading;
mod text;
mod words;
mod writing;

pub use aol_eval::{Resolved, eval};
pub use aol_expr_grammar::{
    expressions_are_read_again, expressions_are_read_right, expressions_are_spelled,
    expressions_have_one_reading,
};
pub use aol_expr_tree::{
    Expr, ExprNode, ExprOp, ExprRefused, Kind, Port, Site, Val, Width, names_ok, types_are_shared,
    work,
};
pub use text::read_expr;
pub use writing::write_expr;

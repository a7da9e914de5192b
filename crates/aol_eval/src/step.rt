use aol_expr_tree::ExprOp;
use aol_shape::{Items, Shape};

/// A node of an expression whose names are resolved.
#[derive(Drop)]
pub(crate) enum Step {
    Num(i64),
    /// `$k`.
    Index(u32),
    /// A variable: how many sums stand between it and its own.
    Var(u32),
    /// A port: its shape, if there is such a port, and how many numbers stand before its pattern.
    Read(Option<Shape>, usize, Items<Step>),
    Bin(ExprOp, Box<Step>, Box<Step>),
    If(Box<Step>, Box<Step>, Box<Step>),
    Sum(u32, Box<Step>),
}

use aol_expr_tree::Val;

/// A cell's value, and the worker that wrote it.
#[derive(Clone, Copy, Debug, PartialEq, Eq)]
pub struct Kept {
    pub val: Val,
    pub worker: u32,
}

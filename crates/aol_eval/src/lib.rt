//! The values of expressions: at one point, or of an expression whose names have become places, at many.
//!
//! Read `eval` first, whose value is that of `aol_expr_tree`'s `specs/Meaning.antt`, then `Resolved`.
//!
//! A small expression whose sums are short is compiled to a program of at most 128 operations (`compile`), which runs
//! without recursion (`program`); where an operation is a fault, the steps are evaluated instead (`run`), and tell which
//! fault is the first.
//!
//! In longer sums `Resolved` computes up to 128 terms at once, in lanes (`lanes`, `columns`). A read whose indices stay or go
//! up by one from lane to lane is checked once for all lanes, and goes on by one step in memory (`lines`). Where some
//! lane may be a fault, the terms are computed one by one (`run`), so that the fault that is told is the first. Products of
//! two such reads are added as they are multiplied (`products`).
#![tactic(auto)]

mod arithmetic;
mod columns;
mod compile;
mod evaluate;
mod inputs;
mod lanes;
mod lines;
mod pattern;
mod place;
mod products;
mod program;
mod resolution;
mod resolve;
mod run;
mod shared;
mod step;
mod vars;

pub use evaluate::eval;
pub use resolution::Resolved;
pub use shared::types_are_shared;

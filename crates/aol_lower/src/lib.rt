//! Expressions of elementary tasks as statements of the emitted subset of C.
//!
//! Read `specs/Effect.antt` first, then `lower_expr`. `specs/Lowered.antt` has the statements; `laws` says that they leave
//! the value of the expression. Variable 0 holds the fault, variable 1 the place of the instance's first read, and the
//! variables from 2 on the output point.
//!
//! Each operator is tested by comparisons and divisions before it is applied, so that no statement is stuck. Statements
//! after a fault are left out.
#![tactic(auto)]

mod comparison;
mod element;
mod faults;
mod laws;
mod lower;
mod operators;
pub mod parts;
mod reads;
mod scope;
mod space;
mod widths;

pub use faults::lower_first_fault;
pub use laws::lowered_leaves_the_value;
pub use lower::{lower_expr, lower_fitted};
pub use parts::kind_number;
pub use reads::Reads;
pub use space::room;
pub use widths::lower_widths;

//! The expressions of elementary tasks as trees: their names, their values, their work, and how they are read as definitions.
//!
//! Read `specs/Tree.antt` and `specs/Meaning.antt` first, then `names_ok`; the crate `aol_eval` evaluates. The types of
//! `reader`, and what they are made of, hold what a text says so far; the crate `aol_expr` reads and writes with them.
#![tactic(auto)]

mod byte;
mod copy;
mod cost;
mod decimal;
mod expr;
mod letters;
mod names;
mod node;
mod op;
mod part;
mod port;
mod reader;
mod shared;
mod stack;
mod value;

pub use byte::{Byte, byte_of};
pub use cost::work;
pub use decimal::{Decimal, MAX_TERMS};
pub use expr::{Expr, ExprRefused, expr_of};
pub use letters::{Keyword, Letters};
pub use names::{Bound, names_ok};
pub use node::ExprNode;
pub use op::ExprOp;
pub use part::{Part, Small};
pub use port::Port;
pub use reader::{Bracket, Held, Left, Level, Mode, Numeral, Reader, Waiting};
pub use shared::types_are_shared;
pub use stack::Stack;
pub use value::{Kind, Site, Val, Width};

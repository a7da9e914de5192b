//! The emitted subset of C: its programs, which of them are well formed, what they do, and their text.
//!
//! Read `specs/Tree.antt` and `specs/Meaning.antt` first. Clauses speak of a program as a tree, apart from how it is
//! stored; `write_c` writes its text. `laws` has the laws of the definitions.
#![tactic(auto)]

mod laws;
mod program;
mod writing;

pub use laws::{programs_have_one_text, statements_follow_one_another, steps_change_what_they_put};
pub use program::{CExpr, COp, CProgram, CStep, CStmt, Table};
pub use writing::write_c;

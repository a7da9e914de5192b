//! Programs of the emitted subset of C: read from their text, run in one order of their workers, and how much work a
//! run has at most.
//!
//! Read `specs/Exec.antt` first, then `exec::exec_c`. What a program does is said in `aol_csyn`.
#![tactic(auto)]

mod exec;
mod laws;
mod machine;
mod order;
mod run;
mod work;

pub use aol_cread::{ReadCRefused, read_c};
pub use exec::{Arrays, ExecRefused, exec_c};
pub use laws::run_is_decided;
pub use order::Order;
pub use work::{MAX_CELLS, MAX_WORK, c_work};

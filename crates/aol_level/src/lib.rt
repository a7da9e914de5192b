//! The instances of one level, run by workers that share one memory.
//!
//! `Crew::run_level` takes some instances that do not depend on one another, worker by worker, and does four things:
//!
//! 1. It takes them apart by their workers, and lists the cells that those of each worker write (`planning`, `listing`).
//! 2. It claims the cells of each worker as its share of the memory (`claiming`). A cell that no share has can be read by
//!    every worker.
//! 3. It runs the workers, each on a thread of its own (`part`). A worker passes the gate, and then runs its instances one
//!    after another (`hand`): an instance takes all that it reads, and puts what it gives into its worker's share
//!    (`instance`, `outputs`). A single worker takes no thread.
//! 4. It settles the shares, so that every cell can be read again.
//!
//! Afterwards each cell that one of the instances writes holds what this instance gives there for what it read before, and
//! its worker; every other cell is as it was. Where memory is wanting, it answers `NoMemory`, and no instance has run. There
//! is no lock: no cell is written by two workers, and none is read while a worker may write it.
//!
//! The instances need not be those of one level: it is enough that no two write one cell, and none reads what another
//! writes (`CanRunAtOnce` of `specs/Round.antt`). The crate above shows this of each level.
//!
//! Read `specs/Round.antt` first: what the cells hold after some instances have run at once. Then `specs/Puts.antt`: what
//! an instance takes from the cells that are not lent, and what it puts into its worker's share; `specs/Made.antt`: what
//! the workers have made before the first level; `specs/Claims.antt` and `specs/Parts.antt`: claims and what a worker has
//! done.
//!
//! ```text
//! let mut crew = Crew::of(alloc, &flat, placed.workers())?;
//! crew.run_level(rt, alloc, &mut rest, 0, order.level(0), &placed, &NoGate)?;
//! ```
#![tactic(auto)]

mod claiming;
mod crew;
mod finding;
mod gate;
mod hand;
mod instance;
mod kept;
mod listing;
mod outputs;
mod part;
mod planning;
mod ready;

pub use crew::Crew;
pub use gate::{Gate, NoGate};
pub use kept::Kept;

//! What all transformations of a model share: new names, the list of tasks with new ones before the changed one, the
//! limits of a step, the repetition over one block, and the map from new instances to old ones.
//!
//! Read `specs/Change.antt` first, then `specs/Blocks.antt`. `new_name`, `block_task` and `changed_model` make the parts
//! of a step's model, and `laid_out` lays it out. That a changed model is sound follows from `proofs/ChangedChecks.antt`
//! and `proofs/ChangedRead.antt`, where the new tasks keep the rules.
//!
//! ```text
//! new_name(alloc, &model, &[], &name)            // "Ten_1" for "Ten", where no task is called so
//! ```
#![tactic(auto)]

mod blocks;
mod laid;
mod list;
mod names;
mod refused;
mod remap;
mod tasks;
mod unblocked;

pub use blocks::{block_task, joined_shape, scalar};
pub use laid::laid_out;
pub use list::{changed_model, put_back};
pub use names::new_name;
pub use refused::StepRefused;
pub use remap::Remap;
pub use tasks::{
    Side, has_port, input_shape, inputs_of, output_shape, port_shape, push_copies, shape_of,
    task_named,
};
pub use unblocked::old_numbers;

//! The hierarchy of a model: its nodes, leaves and instances, the model laid out, and the equations of its elements.
//!
//! `flatten` lays a model out, or tells the first limit of the hierarchy that it passes. Read `specs/Node.antt` and
//! `specs/Instance.antt` first, then `flatten`. What an elementary instance computes is in `inputs_hold` and
//! `output_value`; the laws of solutions are functions that do nothing.
#![tactic(auto)]

mod below;
mod cells;
mod copies;
mod counts;
mod cursor;
mod feed;
mod flat;
mod follow;
mod instance;
mod laws;
mod leaf;
mod leaf_cursor;
pub mod limits;
mod nodes;
mod numbers;
mod place;
mod points;
mod refused;
mod route;
mod run;
mod shared;
mod spot;
mod stores;
mod tables;
mod view;
mod visit;
mod walk;

pub use flat::{Flat, flatten};
pub use instance::{inputs_hold, output_value};
pub use laws::{
    accepted_has_no_cycle, accepted_solutions_agree, acyclic_is_grounded, agreeing_is_numbered,
    agreeing_is_wired, agreeing_levels_are_acyclic, cycles_are_needs, elementary_main_is_solved,
    elements_are_listed, followed_homes, following_moves, instance_cycles_are_real,
    kept_models_agree, kept_outputs_agree, kept_sound_agree, levels_are_acyclic, main_ports_differ,
    read_values_agree, readings_are_reads, settled_is_solution, solution_exists, solutions_agree,
    sound_is_real, sound_sources_are_found, sources_are_right, twice_is_found,
};
pub use leaf::{Leaf, LeafKind};
pub use leaf_cursor::{LeafReads, LeafWrites};
pub use nodes::{LeafSpot, NodeRow};
pub use refused::FlatRefused;
pub use shared::types_are_shared;
pub use view::{End, Read, Reader, Writer};

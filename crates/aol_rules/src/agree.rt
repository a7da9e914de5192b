//! The rules on shapes and names, tested in the order of the walk.

mod compound;
mod elementary;
mod model;
mod names;
mod ports;
mod repeated;
mod tasks;
mod walk;

pub use model::shapes_agree;

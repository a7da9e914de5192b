//! What every layer of the flow stands on: lists, names, limits, short vectors, and the shapes of arrays with their points.
//!
//! Points of a shape are numbered from 0 in row-major order, the last index fastest; the number is the point's rank.
//! Read `specs/Shape.antt` first, then `ranks::rank_of`. `Shape`, `Point` and `IntVec` are kept inline, so making one
//! takes no memory.
//!
//! ```text
//! let shape = Shape::new(rt.alloc(), &[2, 3]);   // two rows of three
//! rank_of(&shape, &[1, 2])                       // 5: the last of its six points
//! ```
#![tactic(auto)]

mod int_vec;
mod laws;
mod letters;
mod limit;
mod memory;
mod name;
mod point;
mod ranks;
mod shape;
mod shared;

pub use int_vec::IntVec;
pub use laws::ranks_correspond;
pub use letters::{is_blank, is_digit, is_letter, is_name, is_name_byte, is_same, is_word};
pub use limit::{LimitName, MAX_DIGITS, MAX_NAME, MAX_POINTS, MAX_RANK, MAX_VECTOR_ENTRY};
pub use memory::NoMemory;
pub use name::{Name, are_same};
pub use point::Point;
pub use ranks::{next_point, rank_of, unrank_into};
pub use shape::{Shape, ShapeRefused, joined};
pub use shared::{lists_are_sent, lists_are_shared, types_are_shared};
pub use sqlite_items::Items;

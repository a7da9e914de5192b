//! One block of memory, lent as disjoint scattered shares while all its other cells can be read.
//!
//! A `Field` is a list of values. `Field::begin` makes a `Rest` of it, from which `Rest::claim` takes a `Share`: any
//! cells, in an order of its own. The owner of a share writes its cells, on whatever thread, and whoever has a `&` to
//! the rest reads the cells that no share has. `Rest::settle` puts a share's cells back, and `Rest::finish` gives the
//! field again. A put or a get is one access to memory, with no lock and no search, and only `Field::filled` takes
//! memory: which cells a share has is known to the proofs, and written down nowhere.
//!
//! The pointers are in `part`, behind safe signatures; `lending` is safe code above it.
#![tactic(auto)]

mod lending;
mod part;
mod sent;

pub use lending::{Field, Rest, Share};
#[doc(hidden)]
pub use part::{Base, Deed, Part};
pub use sent::{
    fields_are_sent, fields_are_shared, rests_are_sent, rests_are_shared, shares_are_sent,
    shares_are_shared,
};

ghost use Rattle.std.specs.Prelude.{◌≡◌};
ghost use Rattle.aol_allocate.specs.declared.cause.PlaceRefused.TheVariants.{NoMemory};

use aol_shape::{NoMemory, Point};
use std::alloc::AllocError;

/// Why an entry places nothing.
#[derive(Drop)]
pub enum PlaceCause {
    /// No elementary leaf has the path, or an earlier entry names it.
    NoLeaf,
    /// The leaf's space is no shape, or a tiler isn't over its array.
    Shape,
    /// The point of the first pair whose point an earlier pair has placed.
    Twice(Point),
    /// The first point that no pair places.
    Unplaced(Point),
}

/// Why nothing is placed: the first entry that has a cause, by its number, and its first cause.
#[derive(Drop)]
pub enum PlaceRefused {
    Entry { entry: u32, cause: PlaceCause },
    NoMemory,
}

impl From<AllocError> for PlaceRefused {
    ghost from_gives = { λ _ e. e ≡ NoMemory };

    fn from(_: AllocError) -> PlaceRefused {
        PlaceRefused::NoMemory
    }
}

impl From<NoMemory> for PlaceRefused {
    ghost from_gives = { λ _ e. e ≡ NoMemory };

    fn from(_: NoMemory) -> PlaceRefused {
        PlaceRefused::NoMemory
    }
}

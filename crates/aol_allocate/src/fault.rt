ghost use Rattle.std.specs.Prelude.{◌≡◌};
ghost use Rattle.aol_allocate.specs.declared.fault.PlaceFault.TheVariants.{NoMemory};

use crate::cause::PlaceCause;
use aol_shape::NoMemory;
use std::alloc::AllocError;

/// Why one entry places nothing.
#[derive(Drop)]
pub enum PlaceFault {
    Cause(PlaceCause),
    NoMemory,
}

impl From<AllocError> for PlaceFault {
    ghost from_gives = { λ _ e. e ≡ NoMemory };

    fn from(_: AllocError) -> PlaceFault {
        PlaceFault::NoMemory
    }
}

impl From<NoMemory> for PlaceFault {
    ghost from_gives = { λ _ e. e ≡ NoMemory };

    fn from(_: NoMemory) -> PlaceFault {
        PlaceFault::NoMemory
    }
}

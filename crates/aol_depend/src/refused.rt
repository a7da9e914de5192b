ghost use Rattle.std.specs.Prelude.{◌≡◌};
ghost use Rattle.aol_depend.specs.declared.refused.DependRefused.TheVariants.{NoMemory};

use aol_shape::NoMemory;
use std::alloc::AllocError;

/// Why the instances of a model have no levels: some need one another in a circle, and this is the first that has none.
#[derive(Clone, Copy, Debug, PartialEq, Eq)]
pub enum DependRefused {
    Cycle { instance: u32 },
    NoMemory,
}

impl From<AllocError> for DependRefused {
    ghost from_gives = { λ _ e. e ≡ NoMemory };

    fn from(_: AllocError) -> DependRefused {
        DependRefused::NoMemory
    }
}

impl From<NoMemory> for DependRefused {
    ghost from_gives = { λ _ e. e ≡ NoMemory };

    fn from(_: NoMemory) -> DependRefused {
        DependRefused::NoMemory
    }
}

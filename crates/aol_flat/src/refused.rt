ghost use Rattle.std.specs.Prelude.{◌≡◌};
ghost use Rattle.aol_flat.specs.declared.refused.FlatRefused.TheVariants.{NoMemory};

use aol_shape::{LimitName, Name, NoMemory};
use std::alloc::AllocError;

/// Why a model isn't laid out: the path of a node at which the model passes a limit, and that limit.
#[derive(Drop)]
pub enum FlatRefused {
    Limit(Name, LimitName),
    NoMemory,
}

impl From<AllocError> for FlatRefused {
    ghost from_gives = { λ _ e. e ≡ NoMemory };

    fn from(_: AllocError) -> FlatRefused {
        FlatRefused::NoMemory
    }
}

impl From<NoMemory> for FlatRefused {
    ghost from_gives = { λ _ e. e ≡ NoMemory };

    fn from(_: NoMemory) -> FlatRefused {
        FlatRefused::NoMemory
    }
}

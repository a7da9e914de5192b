ghost use Rattle.std.specs.Prelude.{◌≡◌};
ghost use Rattle.aol_equiv.specs.declared.lost.Lost.TheVariants.{NoMemory};

use aol_flat::{End, Reader};
use aol_shape::NoMemory;
use std::alloc::AllocError;

/// The first read of a new model that isn't kept: who reads, the port and the point by its rank, and where it had to end.
///
/// `required` is the end of the same read in the old model, told by an instance of the old model.
#[derive(Drop)]
pub enum Lost {
    Element {
        reader: Reader,
        port: u32,
        point: u32,
        required: End,
    },
    NoMemory,
}

impl From<AllocError> for Lost {
    ghost from_gives = { λ _ e. e ≡ NoMemory };

    fn from(_: AllocError) -> Lost {
        Lost::NoMemory
    }
}

impl From<NoMemory> for Lost {
    ghost from_gives = { λ _ e. e ≡ NoMemory };

    fn from(_: NoMemory) -> Lost {
        Lost::NoMemory
    }
}

ghost use Rattle.std.specs.Prelude.{◌≡◌};
ghost use Rattle.aol_assign.specs.declared.refused.AssignRefused.TheVariants.{NoMemory};

use aol_flat::{Reader, Writer};
use aol_shape::{Name, NoMemory, Point};
use std::alloc::AllocError;

/// Why a model isn't one of single assignment, or what is read in it and not given.
///
/// `Twice`: two pairs of tilers or reshapes write one point of a target: the path of its node, its part where it is one
/// of a part, its port and the point, with the two. `Unwritten`: who reads the element that isn't given, by port and rank.
#[derive(Drop)]
pub enum AssignRefused {
    Twice {
        path: Name,
        part: Option<Name>,
        port: Name,
        point: Point,
        first: Writer,
        second: Writer,
    },
    Unwritten {
        reader: Reader,
        port: u32,
        point: u32,
    },
    NoMemory,
}

impl From<AllocError> for AssignRefused {
    ghost from_gives = { λ _ e. e ≡ NoMemory };

    fn from(_: AllocError) -> AssignRefused {
        AssignRefused::NoMemory
    }
}

impl From<NoMemory> for AssignRefused {
    ghost from_gives = { λ _ e. e ≡ NoMemory };

    fn from(_: NoMemory) -> AssignRefused {
        AssignRefused::NoMemory
    }
}

ghost use Rattle.std.specs.Prelude.{◌≡◌};
ghost use Rattle.aol_change.specs.declared.refused.StepRefused.TheVariants.{NoMemory};

use aol_shape::LimitName;
use std::alloc::AllocError;

/// Why a proposed step has no result: the first cause of its list, or want of memory.
#[derive(Clone, Copy, Debug, PartialEq, Eq)]
pub enum StepRefused {
    NotRepeated,
    NotTwoLevels,
    NotJoined,
    HasLinks,
    Rank,
    Limit(LimitName),
    NoMemory,
}

impl From<AllocError> for StepRefused {
    ghost from_gives = { λ _ e. e ≡ NoMemory };

    fn from(_: AllocError) -> StepRefused {
        StepRefused::NoMemory
    }
}

impl From<aol_shape::NoMemory> for StepRefused {
    ghost from_gives = { λ _ e. e ≡ NoMemory };

    fn from(_: aol_shape::NoMemory) -> StepRefused {
        StepRefused::NoMemory
    }
}

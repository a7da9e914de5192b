ghost use Rattle.std.specs.Prelude.{◌≡◌};
ghost use Rattle.aol_model_types.specs.declared.document.DocRefused.TheVariants.{NoMemory};

use crate::job::Job;
use crate::place::Place;
use crate::task::Task;
use aol_shape::{Items, LimitName, Name, NoMemory};
use std::alloc::{AllocError, AllocFailed};

#[derive(Drop)]
pub struct Model {
    pub tasks: Items<Task>,
    pub main: Name,
}

#[derive(Drop)]
pub struct Document {
    pub model: Model,
    pub job: Job,
}

/// Why a tree is no document.
#[derive(Drop)]
pub enum DocRefused {
    Grammar(Place),
    Limit(Place, LimitName),
    NoMemory,
}

/// The first place at which a rule on shapes and names fails.
#[derive(Drop)]
pub struct Misfit {
    pub place: Place,
    pub rule: u32,
}

impl From<AllocError> for DocRefused {
    ghost from_gives = { λ _ e. e ≡ NoMemory };

    fn from(_: AllocError) -> DocRefused {
        DocRefused::NoMemory
    }
}

impl<T: Drop> From<AllocFailed<T>> for DocRefused {
    ghost from_gives = { λ _ e. e ≡ NoMemory };

    fn from(_: AllocFailed<T>) -> DocRefused {
        DocRefused::NoMemory
    }
}

impl From<NoMemory> for DocRefused {
    ghost from_gives = { λ _ e. e ≡ NoMemory };

    fn from(_: NoMemory) -> DocRefused {
        DocRefused::NoMemory
    }
}

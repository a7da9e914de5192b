use aol_shape::Items;
use std::marker::Model;

/// The worker of each instance.
///
/// Contracts see it as the list of workers, instance by instance, and how many workers there are.
#[derive(Drop)]
pub struct Placed {
    of_instance: Items<u8>,
    workers: u32,
}

impl Model for Placed {
    ghost use Rattle.std.specs.Prelude.{◌<◌};
    ghost use Rattle.std.specs.List.{AllByRecursion};
    ghost use Rattle.std.specs.Coded.{codes};
    ghost use Rattle.aol_allocate.specs.Workers.{InstanceWorkers};

    ghost Value = { InstanceWorkers };

    ghost coded = { Prim.hlevel codes };

    ghost view = { λ p. record { of_instance = p.of_instance; workers = p.workers } };

    ghost invariant = { λ p. AllByRecursion (λ w. w < p.workers) p.of_instance };
}

impl Placed {
    ghost use Rattle.std.specs.Prelude.{◌≡◌, ◌<◌, length, slice_get, Some};
    ghost use Rattle.std.specs.List.{AllByRecursion};

    /// The placement with these workers of instances.
    pub(crate) fn new(of_instance: Items<u8>, workers: u32) -> Placed
        requires { AllByRecursion (λ w. w < workers) of_instance }
        ensures of_instance { result.of_instance ≡ of_instance }
        ensures workers { result.workers ≡ workers }
    {
        Placed {
            of_instance,
            workers,
        }
    }

    /// The worker of the instance with this number.
    pub fn worker_of(&self, instance: u32) -> u32
        requires { instance < length self.now.of_instance }
        ensures worker { slice_get self.now.of_instance instance ≡ Some result }
        ensures below { result < self.now.workers }
    {
        u32::from(self.of_instance.as_slice()[instance as usize])
    }

    /// How many workers there are.
    pub fn workers(&self) -> u32
        ensures { result ≡ self.now.workers }
    {
        self.workers
    }
}

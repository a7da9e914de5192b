//! The level of each instance.

ghost use Rattle.std.specs.Prelude.{◌≡◌, ◌<◌, ◌+◌, ◌^◌, ℕ, fold, max, length, slice_get, Some, IfOk};
ghost use Rattle.aol_flat.specs.InstanceNeed.{level_count};
ghost use Rattle.aol_depend.specs.Needs.{AreWithin, HaveLevels, IsFirstCircling};

use crate::needs::Needs;
use crate::refused::DependRefused;
use crate::search::Search;
use std::alloc::Global;

/// The levels of all instances, in order, and how many levels there are.
#[derive(Drop)]
pub struct Levels {
    list: Vec<u32>,
    count: u32,
}

impl std::marker::Model for Levels {
    ghost use Rattle.std.specs.Prelude.{◌≡◌, ◌<◌, ℕ, List, length};
    ghost use Rattle.std.specs.Coded.{codes};
    ghost use Rattle.aol_flat.specs.InstanceNeed.{level_count};

    ghost Value = { List ℕ };

    ghost coded = { Prim.hlevel codes };

    ghost view = { λ l. l.list.items };

    ghost invariant = { λ l. l.count ≡ level_count l.list.items };
}

/// The greatest of some numbers.
fn greatest(numbers: &[u32]) -> u32
    ensures { result ≡ fold max 0 numbers.now }
{
    let mut greatest = 0;
    for number in numbers {
        greatest = (*number).max(greatest);
    }
    greatest
}

/// The levels that a search finds for the instances that each instance needs.
pub fn levels_of(alloc: Global, needs: &Needs) -> Result<Levels, DependRefused>
    requires { AreWithin needs.now }
    ensures levels { IfOk result (HaveLevels needs.now) }
    ensures cycle { (j : ℕ) → result ≡ Err (DependRefused.Cycle j) → IsFirstCircling needs.now j }
{
    let mut search = Search::new(alloc, needs)?;
    search.run(needs)?;
    match search.first_doomed(needs) {
        Some(instance) => Err(DependRefused::Cycle { instance }),
        None => Ok(Levels::of(search.levels)),
    }
}

impl Levels {
    /// These levels.
    pub fn of(list: Vec<u32>) -> Levels
        requires { fold max 0 list.items + 1 < 2 ^ 32 }
        ensures { result ≡ list.items }
    {
        let count = greatest(list.as_slice()) + 1;
        Levels { list, count }
    }

    /// The level of an instance.
    pub fn level_of(&self, instance: u32) -> u32
        requires { instance < length self.now }
        ensures { slice_get self.now instance ≡ Some result }
    {
        self.list[instance as usize]
    }

    /// One more than the greatest level.
    pub fn count(&self) -> u32
        ensures { result ≡ level_count self.now }
    {
        self.count
    }

    /// The levels of all instances, in order.
    pub fn list(&self) -> &[u32]
        ensures { result.now ≡ self.now }
    {
        self.list.as_slice()
    }
}

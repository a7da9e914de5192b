//! Where names stand in a list: an index that is made where memory allows.

ghost use Rattle.std.specs.Prelude.{◌≡◌, ℕ, List, ◌++◌, ◌∷◌, [], map, OnOk, IfOk, IfSome, if◌then◌else◌, option_and_then, is_some};
ghost use Rattle.std.specs.Str.{bytes_eq};
ghost use Rattle.std.specs.List.{slice_get};
ghost use Rattle.std.specs.Option.{option_copied};
ghost use Rattle.aol_rules.specs.Names.{group, below, Finds};

use aol_shape::Name;
use std::alloc::{AllocError, Global};
use std::collections::BTreeMap;

/// What stands in a list by its name.
pub trait Named {
    ghost name: { Self → List ℕ };

    fn name(&self) -> &str
        ensures { result.now ≡ name self.now };
}

/// Adds a place to those of a name.
fn add(
    alloc: Global,
    places: &mut BTreeMap<String, Vec<usize>>,
    name: &str,
    place: usize,
) -> Result<(), AllocError>
    ensures { OnOk result ((q : _) → group q places.new ≡ group q places.old ++ (if bytes_eq q name.now then place ∷ [] else [])) }
{
    let key = String::from_str(alloc, name)?;
    places.entry(key)?.or_default().push(place)?;
    Ok(())
}

/// The places of each name in a list.
fn places_of<T: Named>(
    alloc: Global,
    list: &[T],
) -> Result<BTreeMap<String, Vec<usize>>, AllocError>
    ensures { IfOk result (λ m. Finds (map T.name list.now) m) }
{
    let mut places: BTreeMap<String, Vec<usize>> = BTreeMap::new(alloc);
    for (place, member) in list.iter().enumerate() {
        add(alloc, &mut places, member.name(), place)?;
    }
    Ok(places)
}

/// The places of each name in a list of names.
#[derive(Drop)]
pub struct Index {
    pub places: BTreeMap<String, Vec<usize>>,
}

impl Index {
    /// The index over the names in a list; none where memory is wanting.
    pub fn of<T: Named>(alloc: Global, list: &[T]) -> Option<Index>
        ensures { IfSome result (λ i. Finds (map T.name list.now) i.places) }
    {
        match places_of(alloc, list) {
            Ok(places) => Some(Index { places }),
            Err(_) => None,
        }
    }

    /// The places of a name, in order.
    pub fn places(&self, name: &Name) -> &[usize]
        ensures { result.now ≡ group name.now self.now.places }
    {
        match self.places.get(name.as_str()) {
            None => &[],
            Some(places) => places.as_slice(),
        }
    }

    /// The first place of a name.
    pub fn first(&self, name: &Name) -> Option<usize>
        ensures { result ≡ slice_get (group name.now self.now.places) 0 }
    {
        self.places(name).first().copied()
    }

    /// Whether one of the first places of a list has the name.
    pub fn is_within(&self, count: usize, name: &Name) -> bool
        ensures { result ≡ is_some (below count (slice_get (group name.now self.now.places) 0)) }
    {
        match self.first(name) {
            None => false,
            Some(place) => place < count,
        }
    }

    /// The member of a list at the first place of a name.
    pub fn member<'a, T>(&self, list: &'a [T], name: &Name) -> Option<&'a T>
        ensures { option_copied result ≡ option_and_then (slice_get list.now) (slice_get (group name.now self.now.places) 0) }
    {
        list.get(self.first(name)?)
    }
}

//! The numbers of the elementary leaves by their paths.

ghost use Rattle.std.specs.Prelude.{◌≡◌, ◌&&◌, ℕ, List, Some, OnOk, IfOk, if◌then◌else◌};
ghost use Rattle.std.specs.Str.{bytes_eq};
ghost use Rattle.std.specs.BTreeMap.{get_by_text};
ghost use Rattle.aol_allocate.specs.Placement.{leaf_number};
ghost use Rattle.aol_allocate.specs.Tables.{FindsLeaves, is_elementary};

use aol_flat::{Flat, Leaf, LeafKind};
use aol_shape::Name;
use std::alloc::{AllocError, Global};
use std::collections::BTreeMap;

/// Gives a path its number, in place of the one that it has.
fn set(
    alloc: Global,
    numbers: &mut BTreeMap<String, u32>,
    path: &str,
    number: u32,
) -> Result<(), AllocError>
    ensures { OnOk result ((q : List ℕ) → get_by_text numbers.new q ≡ (if bytes_eq q path.now then Some number else get_by_text numbers.old q)) }
{
    let key = String::from_str(alloc, path)?;
    numbers.insert(key, number)?;
    Ok(())
}

/// Gives the path of an elementary leaf the leaf's number; a copy's path is left out.
fn set_leaf(
    alloc: Global,
    numbers: &mut BTreeMap<String, u32>,
    leaf: &Leaf,
    number: u32,
) -> Result<(), AllocError>
    ensures { OnOk result ((q : List ℕ) → get_by_text numbers.new q ≡ (if is_elementary leaf.now.kind && bytes_eq q leaf.now.path then Some number else get_by_text numbers.old q)) }
{
    match leaf.kind {
        LeafKind::Elementary(_) => set(alloc, numbers, leaf.path.as_str(), number),
        LeafKind::Copy => Ok(()),
    }
}

/// The numbers of the elementary leaves by their paths. It takes `n log n` steps for `n` leaves.
pub fn leaf_numbers(alloc: Global, flat: &Flat) -> Result<BTreeMap<String, u32>, AllocError>
    ensures { IfOk result (λ m. FindsLeaves flat.now.model m) }
{
    let mut numbers: BTreeMap<String, u32> = BTreeMap::new(alloc);
    let mut at = flat.leaves();
    while at > 0 {
        at -= 1;
        set_leaf(alloc, &mut numbers, flat.leaf(at), at)?;
    }
    Ok(numbers)
}

/// The number of the elementary leaf with this path.
pub fn number_of(numbers: &BTreeMap<String, u32>, path: &Name) -> Option<u32>
    ensures { (m : _) → FindsLeaves m numbers.now → result ≡ leaf_number m path.now }
{
    numbers.get(path.as_str()).copied()
}

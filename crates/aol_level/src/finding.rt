//! The leaf of an instance.

ghost use Rattle.std.specs.Prelude.{◌<◌, length, true};
ghost use Rattle.std.specs.Bool.{OnTrue};
ghost use Rattle.aol_flat.specs.Instance.{instances, leaves};
ghost use Rattle.aol_level.specs.Made.{IsLeafOf};

use aol_flat::Flat;

/// Whether the leaf has the instance.
fn has_instance(flat: &Flat, leaf: u32, instance: u32) -> bool
    requires { leaf < length (leaves flat.now.model) }
    ensures { OnTrue result (IsLeafOf flat.now.model instance leaf) }
{
    let row = flat.leaf(leaf);
    row.base <= instance && instance - row.base < row.count
}

/// The leaf of an instance, by halves over the leaves.
fn search(flat: &Flat, instance: u32) -> u32
    requires { instance < length (instances flat.now.model) }
    ensures { IsLeafOf flat.now.model instance result }
{
    let mut low = 0;
    let mut high = flat.leaves();
    while high - low > 1 {
        let middle = low + (high - low) / 2;
        if flat.leaf(middle).base <= instance {
            low = middle;
        } else {
            high = middle;
        }
    }
    low
}

/// The leaf of an instance. Where the one that is guessed has it, this takes no search.
pub fn leaf_of(flat: &Flat, guess: u32, instance: u32) -> u32
    requires { instance < length (instances flat.now.model) }
    ensures { IsLeafOf flat.now.model instance result }
{
    if guess < flat.leaves() && has_instance(flat, guess, instance) {
        return guess;
    }
    search(flat, instance)
}

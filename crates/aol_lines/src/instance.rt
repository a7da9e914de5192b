//! How an instance is written.

ghost use Rattle.std.specs.Prelude.{◌≡◌, ◌++◌, ◌<◌, ◌≤◌, map, length, string_bytes, OnOk, IfOk};
ghost use Rattle.std.specs.List.{join_with_byte};
ghost use Rattle.std.specs.Fmt.{decimal};
ghost use Rattle.aol_shape.specs.Shape.{size, point_at};
ghost use Rattle.aol_vsl.specs.Text.{shape_text};
ghost use Rattle.aol_flat.specs.Instance.{instances};
ghost use Rattle.aol_lines.specs.Instance.{instance_text, IsInLeaf};

use crate::text::{push_number, push_text};
use aol_flat::Flat;
use aol_shape::NoMemory;
use std::alloc::Global;

/// Adds the indices of the point with this rank in a space of so many points, with commas between them.
fn push_indices(text: &mut String, space: &[u32], points: u32, rank: u32) -> Result<(), NoMemory>
    requires points { points ≡ size space.now }
    requires some { 1 ≤ points }
    ensures { OnOk result (string_bytes text.new ≡ string_bytes text.old ++ join_with_byte 44 (map decimal (point_at space.now rank))) }
{
    let Some((entry, inner)) = space.split_first() else {
        return Ok(());
    };
    let below = points / *entry;
    push_number(text, rank / below)?;
    if inner.is_empty() {
        return Ok(());
    }
    push_text(text, ",")?;
    push_indices(text, inner, below, rank % below)
}

/// Adds the point with this rank in a space of so many points.
pub fn push_point(text: &mut String, space: &[u32], points: u32, rank: u32) -> Result<(), NoMemory>
    requires points { points ≡ size space.now }
    requires some { 1 ≤ points }
    ensures { OnOk result (string_bytes text.new ≡ string_bytes text.old ++ shape_text (point_at space.now rank)) }
{
    push_text(text, "{")?;
    push_indices(text, space, points, rank)?;
    push_text(text, "}")
}

/// The number of the leaf that has the instance with this number.
pub fn leaf_with(flat: &Flat, number: u32) -> u32
    requires { number < length (instances flat.now.model) }
    ensures { IsInLeaf flat.now.model number result }
{
    for leaf in 0..flat.leaves() {
        let row = flat.leaf(leaf);
        if number - row.base < row.count {
            return leaf;
        }
    }
    unreachable!()
}

/// The instance with this number: its leaf's path and its indices.
pub fn instance_name(alloc: Global, flat: &Flat, number: u32) -> Result<String, NoMemory>
    requires { number < length (instances flat.now.model) }
    ensures { IfOk result (λ text. string_bytes text ≡ instance_text flat.now.model number) }
{
    let leaf = flat.leaf(leaf_with(flat, number));
    let mut text = String::from_str(alloc, leaf.path.as_str())?;
    push_point(
        &mut text,
        leaf.space.as_slice(),
        leaf.count,
        number - leaf.base,
    )?;
    Ok(text)
}

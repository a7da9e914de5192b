//! Which arrays are stored by themselves: the main ports, the inputs that no plain link feeds, and the outputs that are handed up nowhere.

ghost use Rattle.std.specs.Prelude.{◌≡◌, ◌==◌, List, ℕ, is_none};
ghost use Rattle.std.specs.List.{list_any, position_or_len};
ghost use Rattle.aol_model_types.specs.declared.task.Part.{Part};
ghost use Rattle.aol_shape.specs.Lists.{same};
ghost use Rattle.aol_flat.specs.Home.{is_part_end, link_into_part, link_up, tiler_at};
ghost use Rattle.aol_flat.specs.Stored.{stored_by};

use aol_model_types::{Compound, Hook, Part, Repeated, Task};
use aol_shape::{Name, is_same};

/// How a node stands in the node above: the task there, and the number of the part. At the root `root` is set, and the others say nothing.
#[derive(Clone, Copy)]
pub struct Stand<'a> {
    pub root: bool,
    pub above: &'a Task,
    pub part: u32,
}

/// Whether a part has this name.
fn any_named(parts: &[Part], name: &Name) -> bool
    ensures { result ≡ list_any (λ (p : Part). same p.name name.now) parts.now }
{
    parts
        .iter()
        .any(|part| is_same(part.name.as_str(), name.as_str()))
}

/// Whether the first part of this name has that number.
fn is_numbered(parts: &[Part], number: usize, name: &Name) -> bool
    ensures { result ≡ (position_or_len (λ (p : Part). same p.name name.now) parts.now == number) }
{
    match parts.get(number) {
        Some(part) => {
            is_same(part.name.as_str(), name.as_str()) && !any_named(&parts[..number], name)
        }
        None => number == parts.len() && !any_named(parts, name),
    }
}

/// Whether the end of a link is this port of the part with that number.
fn is_part_end(task: &Compound, number: u32, port: &Name, end: &Hook) -> bool
    ensures { result ≡ is_part_end task.now number port.now end.now }
{
    match &end.part {
        None => false,
        Some(name) => {
            is_same(end.port.as_str(), port.as_str())
                && is_numbered(task.parts.as_slice(), number as usize, name)
        }
    }
}

/// Whether no plain link leads into this input of the part with that number.
fn is_unfed(task: &Compound, number: u32, port: &Name) -> bool
    ensures { result ≡ is_none (link_into_part task.now number port.now) }
{
    for link in task.links.as_slice() {
        if is_part_end(task, number, port, &link.to) {
            return false;
        }
    }
    true
}

/// Whether no plain link hands this output of the part with that number up.
fn is_kept(task: &Compound, number: u32, port: &Name) -> bool
    ensures { result ≡ is_none (link_up task.now number port.now) }
{
    for link in task.links.as_slice() {
        if is_part_end(task, number, port, &link.from) && link.to.part.is_none() {
            return false;
        }
    }
    true
}

/// Whether no tiler is at this inner port.
fn is_untiled(task: &Repeated, inner: &Name) -> bool
    ensures { result ≡ is_none (tiler_at task.now inner.now) }
{
    for tiler in task.tilers.as_slice() {
        if is_same(tiler.inner.as_str(), inner.as_str()) {
            return false;
        }
    }
    true
}

/// Whether the array at an input or an output of a node that stands so is stored by itself.
pub fn stores(stand: Stand, input: bool, port: &Name) -> bool
    ensures { result ≡ stored_by stand.entry.root stand.entry.above.now stand.entry.part input port.now }
{
    if stand.root {
        return true;
    }
    match stand.above {
        Task::Elementary(_) => false,
        Task::Compound(task) => {
            if input {
                is_unfed(task, stand.part, port)
            } else {
                is_kept(task, stand.part, port)
            }
        }
        Task::Repeated(task) => !input && is_untiled(task, port),
    }
}

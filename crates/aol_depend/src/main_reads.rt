//! Leaves that read main inputs alone.

ghost use Rattle.std.specs.Prelude.{◌≡◌, ◌<◌, ◌^◌, ℕ, [], length, slice_get, IsTrue, IfSome, Some, None};
ghost use Rattle.std.specs.List.{position};
ghost use Rattle.aol_shape.specs.Lists.{same};
ghost use Rattle.aol_expr_tree.specs.declared.port.Port.{Port};
ghost use Rattle.aol_model_types.specs.Rules.{inputs_of};
ghost use Rattle.aol_flat.specs.Accept.{IsFlat};
ghost use Rattle.aol_flat.specs.Feed.{HasTask};
ghost use Rattle.aol_flat.specs.Instance.{leaves};
ghost use Rattle.aol_flat.specs.Laid.{main_input_elements};
ghost use Rattle.aol_flat.specs.Node.{nodes};
ghost use Rattle.aol_flat.specs.Place.{elements_of};
ghost use Rattle.aol_flat.specs.Tasks.{part_number};
ghost use Rattle.aol_depend.specs.Gather.{AreEntries};
ghost use Rattle.aol_depend.specs.MainReads.{IsInto, IsOwnLink, IsTilerInto, LeadsToMain, ReadsMainInputs, AreBare};

use aol_expr_tree::Port;
use aol_flat::{Flat, LeafKind};
use aol_model_types::{Compound, Hook, Part, Plain, Repeated, Task, TilerOn};
use aol_shape::{Name, are_same};

/// A leaf with fewer instances is read at once, as looking its ports up could take longer.
const FEW_INSTANCES: u32 = 64;

/// The task of a node.
fn task_of(flat: &Flat, number: u32) -> &Task
    requires { number < length (nodes flat.now.model) }
    ensures task { HasTask flat.now.model number result.now }
    ensures flat { IsFlat flat.now }
{
    &flat.model().tasks.as_slice()[flat.row(number).task as usize]
}

/// The inputs of a task.
fn inputs_of(task: &Task) -> &[Port]
    ensures { result.now ≡ inputs_of task.now }
{
    match task {
        Task::Elementary(task) => task.ins.as_slice(),
        Task::Compound(task) => task.ins.as_slice(),
        Task::Repeated(task) => task.ins.as_slice(),
    }
}

/// The number of the first part with this name.
fn place_of_part(parts: &[Part], name: &Name) -> Option<usize>
    ensures { result ≡ position (λ p. same p.name name.now) parts.now }
{
    parts.iter().position(|part| are_same(&part.name, name))
}

/// Whether the first part with this name is part `k`.
fn is_part(task: &Compound, k: u32, name: &Name) -> bool
    ensures { IsTrue result → part_number task.now name.now ≡ k }
{
    match place_of_part(task.parts.as_slice(), name) {
        None => false,
        Some(number) => number == k as usize,
    }
}

/// Whether an end of a link is at this port of part `k`.
fn is_into(task: &Compound, k: u32, port: &Name, end: &Hook) -> bool
    ensures { IsTrue result → IsInto task.now k port.now end.now }
{
    match &end.part {
        None => false,
        Some(name) => are_same(&end.port, port) && is_part(task, k, name),
    }
}

/// A link from an own input into this port of part `k`.
fn own_link<'a>(task: &'a Compound, k: u32, port: &Name) -> Option<&'a Plain>
    ensures { IfSome result (λ link. IsOwnLink task.now k port.now link.now) }
{
    for link in task.links.as_slice() {
        if link.from.part.is_none() && is_into(task, k, port, &link.to) {
            return Some(link);
        }
    }
    None
}

/// The tiler at this inner port.
fn tiler_into<'a>(task: &'a Repeated, inner: &Name) -> Option<&'a TilerOn>
    ensures { IfSome result (λ on. IsTilerInto task.now inner.now on.now) }
{
    for on in task.tilers.as_slice() {
        if are_same(&on.inner, inner) {
            return Some(on);
        }
    }
    None
}

/// Whether the elements of an input of a node come from main inputs, by tilers and links from own inputs.
fn leads_to_main(flat: &Flat, number: u32, port: &Name) -> bool
    requires { number < length (nodes flat.now.model) }
    ensures { IsTrue result → LeadsToMain flat.now.model number port.now }
{
    flat.model();
    let row = flat.row(number);
    if number == 0 {
        return true;
    }
    match task_of(flat, row.up) {
        Task::Elementary(_) => false,
        Task::Compound(task) => match own_link(task, row.part, port) {
            None => false,
            Some(link) => leads_to_main(flat, row.up, &link.from.port),
        },
        Task::Repeated(task) => match tiler_into(task, port) {
            None => false,
            Some(on) => leads_to_main(flat, row.up, &on.outer),
        },
    }
}

/// Whether all inputs of a node do.
fn all_lead_to_main(flat: &Flat, node: u32, ports: &[Port]) -> bool
    requires { node < length (nodes flat.now.model) }
    ensures { IsTrue result → (k : ℕ) (p : Port) → slice_get ports.now k ≡ Some p → LeadsToMain flat.now.model node p.name }
{
    for port in ports {
        if !leads_to_main(flat, node, &port.name) {
            return false;
        }
    }
    true
}

/// Whether all that the instances of a leaf read comes from main inputs.
pub fn reads_main(flat: &Flat, leaf: u32) -> bool
    requires { leaf < length (leaves flat.now.model) }
    ensures { IsTrue result → ReadsMainInputs flat.now leaf }
{
    let row = flat.leaf(leaf);
    if row.count < FEW_INSTANCES {
        return false;
    }
    let LeafKind::Elementary(_) = row.kind else {
        return false;
    };
    let node = flat.leaf_spot(leaf).node;
    all_lead_to_main(flat, node, inputs_of(task_of(flat, node)))
}

/// How many elements some ports have.
fn element_count(ports: &[Port]) -> u32
    requires { length (elements_of [] ports.now) < 2 ^ 32 }
    ensures { result ≡ length (elements_of [] ports.now) }
{
    let mut count = 0;
    for port in ports {
        count += port.shape.size();
    }
    count
}

/// How many elements the main inputs have; there is a node.
fn main_input_count(flat: &Flat) -> u32
    requires { 0 < length (nodes flat.now.model) }
    ensures { result ≡ length (main_input_elements flat.now.model) }
{
    flat.model();
    let _row = flat.row(0);
    let _cells = flat.cells();
    element_count(inputs_of(task_of(flat, 0)))
}

/// Whether the cell has no writer.
fn is_bare(writer_of: &[Option<u32>], cell: u32) -> bool
    requires { cell < length writer_of.now }
    ensures { IsTrue result → slice_get writer_of.now cell ≡ Some None }
{
    match writer_of[cell as usize] {
        None => true,
        Some(_) => false,
    }
}

/// Whether no cell of a main input has a writer; there is a leaf.
pub fn are_bare(flat: &Flat, writer_of: &[Option<u32>]) -> bool
    requires some { 0 < length (leaves flat.now.model) }
    requires entries { AreEntries flat.now writer_of.now }
    ensures { IsTrue result → AreBare flat.now writer_of.now }
{
    flat.model();
    let _spot = flat.leaf_spot(0);
    for cell in 0..main_input_count(flat) {
        if !is_bare(writer_of, cell) {
            return false;
        }
    }
    true
}

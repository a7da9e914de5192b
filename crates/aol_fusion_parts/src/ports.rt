//! The ports of a fusion's tasks, and their names.

ghost use Rattle.std.specs.Prelude.{◌≡◌, ◌+◌, ◌<◌, ◌≤◌, ◌^◌, ◌++◌, length, map, IfOk, OnOk};
ghost use Rattle.std.specs.Option.{option_copied};
ghost use Rattle.aol_change.specs.Blocks.{outputs_in};
ghost use Rattle.aol_fusion_parts.specs.Ports.{port_name, renamed, port_number, name_among, sources, tiled_ports, picked_ports, unpicked_ports, unjoined_ports};

use crate::copies::copy_port;
use crate::joined::{is_joined, is_picked, is_source, tiler_at};
use aol_change::{Side, push_copies};
use aol_expr_tree::Port;
use aol_model_types::{Compound, FuseArgs, OutPort, Pick, Repeated, Task};
use aol_shape::{Items, Name, NoMemory, are_same};
use std::alloc::Global;

/// The names of the four new tasks.
#[derive(Drop)]
pub struct FusedNames {
    pub block: Name,
    pub once: Name,
    pub pair: Name,
    pub whole: Name,
}

/// The ports by which they are made.
#[derive(Drop)]
pub struct FusedPorts {
    pub first_ins: Items<Port>,
    pub first_outs: Items<Port>,
    pub used_outs: Items<Port>,
    pub second_ins: Items<Port>,
    pub picked_ins: Items<Port>,
    pub free_ins: Items<Port>,
    pub second_outs: Items<Port>,
    pub unjoined: Items<Port>,
}

/// The name of the input or output of this number.
pub fn port_name(alloc: Global, side: Side, number: usize) -> Result<Name, NoMemory>
    ensures { IfOk result (λ n. n ≡ port_name side number) }
{
    match side {
        Side::Inputs => {
            let text = format!(in alloc; "i{}", number)?;
            Ok(Name::from_string(text))
        }
        Side::Outputs => {
            let text = format!(in alloc; "o{}", number)?;
            Ok(Name::from_string(text))
        }
    }
}

/// Pushes ports with such names, numbered on.
pub fn push_renamed(
    alloc: Global,
    side: Side,
    ports: &[Port],
    made: &mut Items<Port>,
) -> Result<(), NoMemory>
    ensures { OnOk result (made.new ≡ made.old ++ renamed side (length made.old) ports.now) }
{
    for port in ports {
        let name = port_name(alloc, side, made.len())?;
        let shape = port.shape.copy();
        made.push(Port { name, shape })?;
    }
    Ok(())
}

/// The number of the first port of this name.
fn port_number(ports: &[Port], name: &Name) -> usize
    ensures number { result ≡ port_number ports.now name.now }
    ensures within { result ≤ length ports.now }
{
    let mut number = 0;
    for port in ports {
        if are_same(&port.name, name) {
            return number;
        }
        number += 1;
    }
    number
}

/// The new name of a port that is one of these, behind others.
pub fn name_among(
    alloc: Global,
    side: Side,
    before: &[Port],
    ports: &[Port],
    name: &Name,
) -> Result<Name, NoMemory>
    requires { length before.now + length ports.now < 2 ^ 64 }
    ensures { IfOk result (λ n. n ≡ name_among side (length before.now) ports.now name.now) }
{
    port_name(alloc, side, before.len() + port_number(ports, name))
}

/// Pushes the ports of outputs.
fn push_out_ports(alloc: Global, outs: &[OutPort], made: &mut Items<Port>) -> Result<(), NoMemory>
    ensures { OnOk result (made.new ≡ made.old ++ map (λ o. o.port) outs.now) }
{
    for out in outs {
        made.push(copy_port(alloc, &out.port)?)?;
    }
    Ok(())
}

/// Pushes the outputs of a task, where it is there.
pub fn push_outputs(
    alloc: Global,
    task: Option<&Task>,
    made: &mut Items<Port>,
) -> Result<(), NoMemory>
    ensures { OnOk result (made.new ≡ made.old ++ outputs_in (option_copied task.entry)) }
{
    match task {
        Some(Task::Elementary(task)) => push_out_ports(alloc, task.outs.as_slice(), made),
        Some(Task::Compound(task)) => push_copies(alloc, task.outs.as_slice(), made),
        Some(Task::Repeated(task)) => push_copies(alloc, task.outs.as_slice(), made),
        None => Ok(()),
    }
}

/// Pushes the outputs that a pick is from.
pub fn push_sources(
    alloc: Global,
    picks: &[Pick],
    outs: &[Port],
    made: &mut Items<Port>,
) -> Result<(), NoMemory>
    ensures { OnOk result (made.new ≡ made.old ++ sources picks.now outs.now) }
{
    for port in outs {
        if is_source(picks, &port.name) {
            made.push(copy_port(alloc, port)?)?;
        }
    }
    Ok(())
}

/// Pushes the inner outputs of a repetition that have a tiler.
pub fn push_tiled(
    alloc: Global,
    two: &Repeated,
    outs: &[Port],
    made: &mut Items<Port>,
) -> Result<(), NoMemory>
    ensures { OnOk result (made.new ≡ made.old ++ tiled_ports two.now outs.now) }
{
    for port in outs {
        if tiler_at(two, &port.name).is_some() {
            made.push(copy_port(alloc, port)?)?;
        }
    }
    Ok(())
}

/// Pushes the inner inputs that are picked, and those that aren't.
pub fn push_picked(
    alloc: Global,
    args: &FuseArgs,
    compound: &Compound,
    two: &Repeated,
    ins: &[Port],
    picked: &mut Items<Port>,
    free: &mut Items<Port>,
) -> Result<(), NoMemory>
    ensures picked { OnOk result (picked.new ≡ picked.old ++ picked_ports args.now compound.now two.now ins.now) }
    ensures free { OnOk result (free.new ≡ free.old ++ unpicked_ports args.now compound.now two.now ins.now) }
{
    for port in ins {
        let copy = copy_port(alloc, port)?;
        if is_picked(args, compound, two, &port.name) {
            picked.push(copy)?;
        } else {
            free.push(copy)?;
        }
    }
    Ok(())
}

/// Pushes the inputs of the second repetition that aren't joined.
pub fn push_unjoined(
    alloc: Global,
    args: &FuseArgs,
    compound: &Compound,
    ins: &[Port],
    made: &mut Items<Port>,
) -> Result<(), NoMemory>
    ensures { OnOk result (made.new ≡ made.old ++ unjoined_ports args.now compound.now ins.now) }
{
    for port in ins {
        if !is_joined(args, compound, &port.name) {
            made.push(copy_port(alloc, port)?)?;
        }
    }
    Ok(())
}

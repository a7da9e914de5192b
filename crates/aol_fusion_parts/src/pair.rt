//! A block and one run, side by side.

ghost use Rattle.std.specs.Prelude.{◌≡◌, ◌++◌, [], ◌∷◌, length, codes, IfOk, OnOk};
ghost use Rattle.aol_change.specs.Made.{IsWithin};
ghost use Rattle.aol_fusion_parts.specs.Joined.{pick_to};
ghost use Rattle.aol_fusion_parts.specs.Made.{own_end, part_end, links_in, links_out, pick_link, pick_links, pair_links, filled_pair, pair_of_both, pair_limit};
ghost use Rattle.aol_fusion_parts.specs.Ports.{port_name, renamed};
ghost use Rattle.aol_fusion_parts.specs.Room.{IsEmptyCompound};

use crate::block::count_ports;
use crate::joined::pick_to;
use crate::ports::{FusedNames, port_name, push_renamed};
use aol_change::{Side, StepRefused, push_copies};
use aol_expr_tree::Port;
use aol_model_types::{Compound, Hook, Part, Pick, Plain};
use aol_shape::{Items, Name, NoMemory};
use std::alloc::Global;

/// An own end of the pair.
fn own_end(alloc: Global, side: Side, number: usize) -> Result<Hook, NoMemory>
    ensures { IfOk result (λ h. h ≡ own_end (port_name side number)) }
{
    let port = port_name(alloc, side, number)?;
    Ok(Hook { part: None, port })
}

/// An end at one of its parts.
fn part_end(alloc: Global, part: &str, port: &Name) -> Result<Hook, NoMemory>
    ensures { IfOk result (λ h. h ≡ part_end part.now port.now) }
{
    let part = Name::from_str(alloc, part)?;
    let port = port.copy(alloc)?;
    Ok(Hook {
        part: Some(part),
        port,
    })
}

/// Pushes links from own inputs to ports of a part, numbered on.
fn push_links_in(
    alloc: Global,
    part: &str,
    ports: &[Port],
    links: &mut Items<Plain>,
) -> Result<(), NoMemory>
    ensures { OnOk result (links.new ≡ links.old ++ links_in part.now (length links.old) ports.now) }
{
    for port in ports {
        let from = own_end(alloc, Side::Inputs, links.len())?;
        let to = part_end(alloc, part, &port.name)?;
        links.push(Plain { from, to })?;
    }
    Ok(())
}

/// Pushes the link from the block to an input of the run, where it has a pick.
fn push_pick_link(
    alloc: Global,
    picks: &[Pick],
    port: &Port,
    links: &mut Items<Plain>,
) -> Result<(), NoMemory>
    ensures { OnOk result (links.new ≡ links.old ++ pick_link port.now.name (pick_to picks.now port.now.name)) }
{
    match pick_to(picks, &port.name) {
        Some(pick) => {
            let from = part_end(alloc, "first", &pick.from)?;
            let to = part_end(alloc, "second", &port.name)?;
            links.push(Plain { from, to })?;
            Ok(())
        }
        None => Ok(()),
    }
}

/// Pushes those of all these inputs.
fn push_pick_links(
    alloc: Global,
    picks: &[Pick],
    ports: &[Port],
    links: &mut Items<Plain>,
) -> Result<(), NoMemory>
    ensures { OnOk result (links.new ≡ links.old ++ pick_links picks.now ports.now) }
{
    for port in ports {
        push_pick_link(alloc, picks, port, links)?;
    }
    Ok(())
}

/// Pushes links from outputs of the run to own outputs.
fn push_links_out(alloc: Global, ports: &[Port], links: &mut Items<Plain>) -> Result<(), NoMemory>
    ensures { OnOk result (links.new ≡ links.old ++ links_out 0 ports.now) }
{
    let mut number = 0;
    for port in ports {
        let from = part_end(alloc, "second", &port.name)?;
        let to = own_end(alloc, Side::Outputs, number)?;
        links.push(Plain { from, to })?;
        number += 1;
    }
    Ok(())
}

/// Puts all links of the pair into an empty list.
#[tactic(auto, using(crate::proofs::Parts::length_links_in))]
fn fill_links(
    alloc: Global,
    picks: &[Pick],
    block: &[Port],
    picked: &[Port],
    free: &[Port],
    outs: &[Port],
    links: &mut Items<Plain>,
) -> Result<(), NoMemory>
    requires { links.old ≡ [] }
    ensures { OnOk result (links.new ≡ pair_links picks.now block.now picked.now free.now outs.now) }
{
    push_links_in(alloc, "first", block, links)?;
    push_links_in(alloc, "second", free, links)?;
    push_pick_links(alloc, picks, picked, links)?;
    push_links_out(alloc, outs, links)
}

/// Pushes a part.
fn push_part(
    alloc: Global,
    name: &str,
    task: &Name,
    parts: &mut Items<Part>,
) -> Result<(), NoMemory>
    ensures { OnOk result (parts.new ≡ parts.old ++ record { name = name.now; task = task.now } ∷ []) }
{
    let name = Name::from_str(alloc, name)?;
    let task = task.copy(alloc)?;
    parts.push(Part { name, task })?;
    Ok(())
}

/// Pushes own inputs of the pair: for those of the block, and for those of the run that aren't picked.
fn push_own_inputs(
    alloc: Global,
    block: &[Port],
    free: &[Port],
    made: &mut Items<Port>,
) -> Result<(), NoMemory>
    requires { made.old ≡ [] }
    ensures { OnOk result (made.new ≡ renamed Side.Inputs 0 (block.now ++ free.now)) }
{
    let mut both = Items::new(alloc);
    push_copies(alloc, block, &mut both)?;
    push_copies(alloc, free, &mut both)?;
    push_renamed(alloc, Side::Inputs, both.as_slice(), made)
}

/// Gives the pair its ports, parts and links.
fn fill_pair(
    alloc: Global,
    names: &FusedNames,
    picks: &[Pick],
    block: &[Port],
    picked: &[Port],
    free: &[Port],
    outs: &[Port],
    made: &mut Compound,
) -> Result<(), StepRefused>
    requires { IsEmptyCompound made.old }
    ensures made { OnOk result (made.new ≡ filled_pair names.now picks.now block.now picked.now free.now outs.now made.old) }
    ensures limit { IsWithin result (pair_limit block.now free.now outs.now) }
{
    push_own_inputs(alloc, block, free, &mut made.ins)?;
    push_renamed(alloc, Side::Outputs, outs, &mut made.outs)?;
    count_ports(made.ins.as_slice(), made.outs.as_slice())?;
    push_part(alloc, "first", &names.block, &mut made.parts)?;
    push_part(alloc, "second", &names.once, &mut made.parts)?;
    fill_links(alloc, picks, block, picked, free, outs, &mut made.links)?;
    Ok(())
}

/// The block and the run, side by side, by the inputs of the block, those of the run that are picked and those that
/// aren't, and its outputs.
pub fn pair_of_both(
    alloc: Global,
    names: &FusedNames,
    picks: &[Pick],
    block: &[Port],
    picked: &[Port],
    free: &[Port],
    outs: &[Port],
) -> Result<Compound, StepRefused>
    ensures made { IfOk result (λ c. c ≡ pair_of_both names.now picks.now block.now picked.now free.now outs.now) }
    ensures limit { IsWithin result (pair_limit block.now free.now outs.now) }
{
    let mut made = Compound {
        name: names.pair.copy(alloc)?,
        ins: Items::new(alloc),
        outs: Items::new(alloc),
        parts: Items::new(alloc),
        links: Items::new(alloc),
        reshapes: Items::new(alloc),
    };
    fill_pair(alloc, names, picks, block, picked, free, outs, &mut made)?;
    Ok(made)
}

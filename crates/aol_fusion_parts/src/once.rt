//! One run of the second repetition.

ghost use Rattle.std.specs.Prelude.{◌≡◌, ◌++◌, [], map, IfOk, OnOk};
ghost use Rattle.std.specs.Option.{option_copied};
ghost use Rattle.aol_shape.specs.Lists.{first_some};
ghost use Rattle.aol_change.specs.Made.{IsWithin};
ghost use Rattle.aol_fusion_parts.specs.Joined.{pick_to};
ghost use Rattle.aol_fusion_parts.specs.Made.{source_shape, once_shape, once_port, once_tiling, once_tiler, tiler_over_space, once_port_limit, filled_once, once_of_second, once_limit};
ghost use Rattle.aol_fusion_parts.specs.Room.{IsEmptyRepetition};

use crate::block::{count_ports, tiler_over_space};
use crate::copies::copy_tiler;
use crate::joined::pick_to;
use aol_change::{StepRefused, joined_shape, push_copies, scalar, shape_of};
use aol_expr_tree::Port;
use aol_model_types::{Pick, Repeated, TilerOn};
use aol_shape::{Items, Name, NoMemory, Shape};
use aol_tiler::Tiler;
use std::alloc::Global;

/// The shape of the output that a pick is from, or else a scalar's.
fn source_shape(alloc: Global, sources: &[Port], pick: &Pick) -> Shape
    ensures { result ≡ source_shape sources.now pick.now }
{
    match shape_of(sources, &pick.from) {
        Some(shape) => shape.copy(),
        None => scalar(alloc),
    }
}

/// The shape of an input of the run: a block of the output that its pick is from, or else its own.
fn once_shape(
    alloc: Global,
    block: &Shape,
    sources: &[Port],
    pick: Option<&Pick>,
    own: &Shape,
) -> Result<Shape, StepRefused>
    ensures made { IfOk result (λ s. s ≡ once_shape block.now sources.now (option_copied pick.entry) own.now) }
    ensures limit { IsWithin result (once_port_limit block.now sources.now (option_copied pick.entry)) }
{
    match pick {
        Some(pick) => joined_shape(block, &source_shape(alloc, sources, pick)),
        None => Ok(own.copy()),
    }
}

/// An input of the run.
fn once_port(
    alloc: Global,
    block: &Shape,
    sources: &[Port],
    picks: &[Pick],
    port: &Port,
) -> Result<Port, StepRefused>
    ensures made { IfOk result (λ p. p ≡ once_port block.now sources.now picks.now port.now) }
    ensures limit { IsWithin result (once_port_limit block.now sources.now (pick_to picks.now port.now.name)) }
{
    let pick = pick_to(picks, &port.name);
    let shape = once_shape(alloc, block, sources, pick, &port.shape)?;
    let name = port.name.copy(alloc)?;
    Ok(Port { name, shape })
}

/// Pushes the inputs of the run.
fn push_once(
    alloc: Global,
    block: &Shape,
    sources: &[Port],
    picks: &[Pick],
    ports: &[Port],
    made: &mut Items<Port>,
) -> Result<(), StepRefused>
    ensures made { OnOk result (made.new ≡ made.old ++ map (once_port block.now sources.now picks.now) ports.now) }
    ensures limit { IsWithin result (first_some (map (λ v. once_port_limit block.now sources.now (pick_to picks.now v.name)) ports.now)) }
{
    for port in ports {
        let input = once_port(alloc, block, sources, picks, port)?;
        made.push(input)?;
    }
    Ok(())
}

/// The tiler on an input of the run: that of its pick, or else the one that takes all.
fn once_tiling(alloc: Global, pick: Option<&Pick>, own: &Shape) -> Result<Tiler, NoMemory>
    ensures { IfOk result (λ t. t ≡ once_tiling (option_copied pick.entry) own.now) }
{
    match pick {
        Some(pick) => copy_tiler(alloc, &pick.tiler),
        None => {
            let _entries = own.as_slice();
            match Tiler::inner(alloc, &scalar(alloc), own) {
                Ok(tiler) => Ok(tiler),
                Err(_) => Err(NoMemory),
            }
        }
    }
}

/// The same with its ports.
fn once_tiler(alloc: Global, picks: &[Pick], port: &Port) -> Result<TilerOn, NoMemory>
    ensures { IfOk result (λ o. o ≡ once_tiler picks.now port.now) }
{
    let tiler = once_tiling(alloc, pick_to(picks, &port.name), &port.shape)?;
    Ok(TilerOn {
        outer: port.name.copy(alloc)?,
        inner: port.name.copy(alloc)?,
        tiler,
    })
}

/// Pushes the tilers on the inputs of the run.
fn push_once_tilers(
    alloc: Global,
    picks: &[Pick],
    ports: &[Port],
    made: &mut Items<TilerOn>,
) -> Result<(), NoMemory>
    ensures { OnOk result (made.new ≡ made.old ++ map (once_tiler picks.now) ports.now) }
{
    for port in ports {
        made.push(once_tiler(alloc, picks, port)?)?;
    }
    Ok(())
}

/// Pushes the tilers that take all of a port.
fn push_own_tilers(alloc: Global, ports: &[Port], made: &mut Items<TilerOn>) -> Result<(), NoMemory>
    ensures { OnOk result (made.new ≡ made.old ++ map (tiler_over_space []) ports.now) }
{
    for port in ports {
        let _entries = port.shape.as_slice();
        made.push(tiler_over_space(alloc, &scalar(alloc), port)?)?;
    }
    Ok(())
}

/// Gives one run its ports and tilers.
fn fill_once(
    alloc: Global,
    block: &Shape,
    sources: &[Port],
    picks: &[Pick],
    ins: &[Port],
    outs: &[Port],
    made: &mut Repeated,
) -> Result<(), StepRefused>
    requires { IsEmptyRepetition made.old }
    ensures made { OnOk result (made.new ≡ filled_once block.now sources.now picks.now ins.now outs.now made.old) }
    ensures limit { IsWithin result (once_limit block.now sources.now picks.now ins.now outs.now) }
{
    push_once(alloc, block, sources, picks, ins, &mut made.ins)?;
    push_copies(alloc, outs, &mut made.outs)?;
    count_ports(made.ins.as_slice(), made.outs.as_slice())?;
    push_once_tilers(alloc, picks, ins, &mut made.tilers)?;
    push_own_tilers(alloc, outs, &mut made.tilers)?;
    Ok(())
}

/// One run of the second repetition, with these inner ports.
pub fn once_of_second(
    alloc: Global,
    name: &Name,
    task: &Name,
    block: &Shape,
    sources: &[Port],
    picks: &[Pick],
    ins: &[Port],
    outs: &[Port],
) -> Result<Repeated, StepRefused>
    ensures made { IfOk result (λ t. t ≡ once_of_second name.now task.now block.now sources.now picks.now ins.now outs.now) }
    ensures limit { IsWithin result (once_limit block.now sources.now picks.now ins.now outs.now) }
{
    let mut made = Repeated {
        name: name.copy(alloc)?,
        ins: Items::new(alloc),
        outs: Items::new(alloc),
        space: scalar(alloc),
        task: task.copy(alloc)?,
        tilers: Items::new(alloc),
        links: Items::new(alloc),
    };
    fill_once(alloc, block, sources, picks, ins, outs, &mut made)?;
    Ok(made)
}

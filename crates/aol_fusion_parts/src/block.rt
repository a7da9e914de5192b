//! The repetition over one block of the first one.

ghost use Rattle.std.specs.Prelude.{◌≡◌, ◌++◌, map, IfOk, OnOk};
ghost use Rattle.std.specs.List.{AllByRecursion};
ghost use Rattle.aol_change.specs.Change.{joined_limit, ports_limit};
ghost use Rattle.aol_change.specs.Made.{IsWithin};
ghost use Rattle.aol_fusion_parts.specs.Made.{over_space, tiler_over_space, filled_block, block_of_first, over_limit, block_limit};
ghost use Rattle.aol_fusion_parts.specs.Room.{HasPlace, IsEmptyRepetition};

use aol_change::{StepRefused, joined_shape};
use aol_expr_tree::Port;
use aol_model_types::limits::MAX_PORTS;
use aol_model_types::{Repeated, TilerOn};
use aol_shape::{Items, LimitName, Name, NoMemory, Shape};
use aol_tiler::Tiler;
use std::alloc::Global;

/// Tells where a task has too many ports.
pub fn count_ports(ins: &[Port], outs: &[Port]) -> Result<(), StepRefused>
    ensures { IsWithin result (ports_limit ins.now outs.now) }
{
    if ins.len() > MAX_PORTS || outs.len() > MAX_PORTS - ins.len() {
        return Err(StepRefused::Limit(LimitName::Ports));
    }
    Ok(())
}

/// An inner port over a whole block.
fn over_space(alloc: Global, block: &Shape, port: &Port) -> Result<Port, StepRefused>
    ensures made { IfOk result (λ p. p ≡ over_space block.now port.now) }
    ensures limit { IsWithin result (joined_limit block.now port.now.shape) }
{
    let shape = joined_shape(block, &port.shape)?;
    let name = port.name.copy(alloc)?;
    Ok(Port { name, shape })
}

/// Pushes inner ports over a whole block.
fn push_over(
    alloc: Global,
    block: &Shape,
    ports: &[Port],
    made: &mut Items<Port>,
) -> Result<(), StepRefused>
    ensures made { OnOk result (made.new ≡ made.old ++ map (over_space block.now) ports.now) }
    ensures limit { IsWithin result (over_limit block.now ports.now) }
{
    for port in ports {
        let over = over_space(alloc, block, port)?;
        made.push(over)?;
    }
    Ok(())
}

/// The tiler from a port over a space to the inner port.
pub fn tiler_over_space(alloc: Global, space: &Shape, port: &Port) -> Result<TilerOn, NoMemory>
    requires { HasPlace space.now port.now }
    ensures { IfOk result (λ o. o ≡ tiler_over_space space.now port.now) }
{
    let Ok(tiler) = Tiler::inner(alloc, space, &port.shape) else {
        return Err(NoMemory);
    };
    Ok(TilerOn {
        outer: port.name.copy(alloc)?,
        inner: port.name.copy(alloc)?,
        tiler,
    })
}

/// Pushes the tilers from ports over a space to the inner ports.
fn push_over_tilers(
    alloc: Global,
    space: &Shape,
    ports: &[Port],
    made: &mut Items<TilerOn>,
) -> Result<(), NoMemory>
    requires { AllByRecursion (HasPlace space.now) ports.now }
    ensures { OnOk result (made.new ≡ made.old ++ map (tiler_over_space space.now) ports.now) }
{
    for port in ports {
        made.push(tiler_over_space(alloc, space, port)?)?;
    }
    Ok(())
}

/// Gives a repetition over one block its ports and tilers.
#[tactic(auto, using(crate::proofs::Parts::have_place))]
fn fill_block(
    alloc: Global,
    block: &Shape,
    ins: &[Port],
    outs: &[Port],
    made: &mut Repeated,
) -> Result<(), StepRefused>
    requires { IsEmptyRepetition made.old }
    ensures made { OnOk result (made.new ≡ filled_block block.now ins.now outs.now made.old) }
    ensures limit { IsWithin result (block_limit block.now ins.now outs.now) }
{
    push_over(alloc, block, ins, &mut made.ins)?;
    push_over(alloc, block, outs, &mut made.outs)?;
    count_ports(made.ins.as_slice(), made.outs.as_slice())?;
    push_over_tilers(alloc, block, ins, &mut made.tilers)?;
    push_over_tilers(alloc, block, outs, &mut made.tilers)?;
    Ok(())
}

/// The repetition over one block of the first one, with these inner ports.
pub fn block_of_first(
    alloc: Global,
    name: &Name,
    block: &Shape,
    task: &Name,
    ins: &[Port],
    outs: &[Port],
) -> Result<Repeated, StepRefused>
    ensures made { IfOk result (λ t. t ≡ block_of_first name.now block.now task.now ins.now outs.now) }
    ensures limit { IsWithin result (block_limit block.now ins.now outs.now) }
{
    let mut made = Repeated {
        name: name.copy(alloc)?,
        ins: Items::new(alloc),
        outs: Items::new(alloc),
        space: block.copy(),
        task: task.copy(alloc)?,
        tilers: Items::new(alloc),
        links: Items::new(alloc),
    };
    fill_block(alloc, block, ins, outs, &mut made)?;
    Ok(made)
}

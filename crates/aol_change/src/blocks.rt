//! The repetition over one block of the space of another.

ghost use Rattle.std.specs.Prelude.{◌≡◌, ◌+◌, ◌++◌, ◌≤◌, [], ◌∷◌, length, map, IfOk, OnOk};
ghost use Rattle.std.specs.List.{AllByRecursion};
ghost use Rattle.std.specs.Option.{option_copied};
ghost use Rattle.aol_model_types.specs.declared.task.TilerOn.{TilerOn};
ghost use Rattle.aol_change.specs.Change.{joined_limit};
ghost use Rattle.aol_change.specs.Blocks.{shape_in, port_over, tiler_over, ports_over, tilers_on, ports_on, shapes_limit, block_task, block_limit, filled_block, tilers_limit, IsEmptyBlock, HasRoom};
ghost use Rattle.aol_change.specs.Made.{IsWithin};

use crate::refused::StepRefused;
use crate::tasks::{Side, has_port, port_shape, task_named};
use aol_expr_tree::Port;
use aol_model_types::limits::MAX_PORTS;
use aol_model_types::{Model, Repeated, Task, TilerOn};
use aol_shape::{Items, LimitName, Name, NoMemory, Shape, ShapeRefused, joined};
use aol_tiler::{Tiler, TilerRefused};
use std::alloc::Global;

/// The shape of a scalar.
pub fn scalar(alloc: Global) -> Shape
    ensures { result ≡ [] }
{
    match Shape::new(alloc, &[]) {
        Some(shape) => shape,
        None => unreachable!(),
    }
}

/// The shape of a port of the inner task, or else a scalar's.
fn shape_in(alloc: Global, inner: Option<&Task>, name: &Name) -> Shape
    ensures { result ≡ shape_in (option_copied inner.entry) name.now }
{
    match port_shape(inner, name) {
        Some(shape) => shape.copy(),
        None => scalar(alloc),
    }
}

/// Both shapes as one.
#[tactic(auto, using(crate::proofs::Limits::joined_ok, crate::proofs::Limits::joined_rank, crate::proofs::Limits::joined_points))]
pub fn joined_shape(block: &Shape, shape: &Shape) -> Result<Shape, StepRefused>
    ensures made { IfOk result (λ s. s ≡ block.now ++ shape.now) }
    ensures limit { IsWithin result (joined_limit block.now shape.now) }
{
    match joined(block, shape) {
        Ok(both) => Ok(both),
        Err(ShapeRefused::Rank) => Err(StepRefused::Limit(LimitName::Rank)),
        Err(ShapeRefused::Points) => Err(StepRefused::Limit(LimitName::Points)),
    }
}

/// A port of the inner task over the whole block.
fn port_over(
    alloc: Global,
    inner: Option<&Task>,
    block: &Shape,
    name: &Name,
) -> Result<Port, StepRefused>
    ensures made { IfOk result (λ p. p ≡ port_over (option_copied inner.entry) block.now name.now) }
    ensures limit { IsWithin result (joined_limit block.now (shape_in (option_copied inner.entry) name.now)) }
{
    let shape = joined_shape(block, &shape_in(alloc, inner, name))?;
    let name = name.copy(alloc)?;
    Ok(Port { name, shape })
}

/// Pushes the port that a tiler gives, where it is on a port of this side.
fn push_port(
    alloc: Global,
    inner: Option<&Task>,
    side: Side,
    block: &Shape,
    tiler: &TilerOn,
    ports: &mut Items<Port>,
) -> Result<(), StepRefused>
    ensures made { OnOk result (ports.new ≡ ports.old ++ ports_over (option_copied inner.entry) block.now (tilers_on (ports_on side (option_copied inner.entry)) (tiler.now ∷ []))) }
    ensures limit { IsWithin result (shapes_limit (option_copied inner.entry) block.now (tilers_on (ports_on side (option_copied inner.entry)) (tiler.now ∷ []))) }
{
    if has_port(inner, side, &tiler.inner) {
        let port = port_over(alloc, inner, block, &tiler.inner)?;
        ports.push(port)?;
    }
    Ok(())
}

/// Pushes the ports that the tilers on ports of this side give.
fn push_ports(
    alloc: Global,
    inner: Option<&Task>,
    side: Side,
    block: &Shape,
    tilers: &[TilerOn],
    ports: &mut Items<Port>,
) -> Result<(), StepRefused>
    ensures made { OnOk result (ports.new ≡ ports.old ++ ports_over (option_copied inner.entry) block.now (tilers_on (ports_on side (option_copied inner.entry)) tilers.now)) }
    ensures limit { IsWithin result (shapes_limit (option_copied inner.entry) block.now (tilers_on (ports_on side (option_copied inner.entry)) tilers.now)) }
{
    for tiler in tilers {
        push_port(alloc, inner, side, block, tiler, ports)?;
    }
    Ok(())
}

/// The tiler from a port over the block to the inner port.
fn tiler_over(
    alloc: Global,
    inner: Option<&Task>,
    block: &Shape,
    name: &Name,
) -> Result<TilerOn, NoMemory>
    requires { length block.now + length (shape_in (option_copied inner) name.now) ≤ 12 }
    ensures { IfOk result (λ o. o ≡ tiler_over (option_copied inner.entry) block.now name.now) }
{
    let Ok(tiler) = Tiler::inner(alloc, block, &shape_in(alloc, inner, name)) else {
        return Err(NoMemory);
    };
    Ok(TilerOn {
        outer: name.copy(alloc)?,
        inner: name.copy(alloc)?,
        tiler,
    })
}

/// Pushes the tilers from the ports over the block to the inner ports.
fn push_tilers(
    alloc: Global,
    inner: Option<&Task>,
    block: &Shape,
    tilers: &[TilerOn],
    made: &mut Items<TilerOn>,
) -> Result<(), NoMemory>
    requires { AllByRecursion (HasRoom (option_copied inner) block.now) tilers.now }
    ensures { OnOk result (made.new ≡ made.old ++ map (λ o. tiler_over (option_copied inner.entry) block.now o.inner) tilers.now) }
{
    for tiler in tilers {
        made.push(tiler_over(alloc, inner, block, &tiler.inner)?)?;
    }
    Ok(())
}

/// Gives a repetition over one block its ports and tilers.
#[tactic(auto, using(crate::proofs::Room::has_room))]
fn fill_block(
    alloc: Global,
    inner: Option<&Task>,
    tilers: &[TilerOn],
    block: &Shape,
    made: &mut Repeated,
) -> Result<(), StepRefused>
    requires { IsEmptyBlock made.old }
    ensures made { OnOk result (made.new ≡ filled_block (option_copied inner.entry) tilers.now block.now made.old) }
    ensures limit { IsWithin result (tilers_limit (option_copied inner.entry) tilers.now block.now) }
{
    push_ports(alloc, inner, Side::Inputs, block, tilers, &mut made.ins)?;
    push_ports(alloc, inner, Side::Outputs, block, tilers, &mut made.outs)?;
    if made.ins.len() > MAX_PORTS || made.outs.len() > MAX_PORTS - made.ins.len() {
        return Err(StepRefused::Limit(LimitName::Ports));
    }
    let _entries = block.as_slice();
    push_tilers(alloc, inner, block, tilers, &mut made.tilers)?;
    Ok(())
}

/// The repetition over one block of the space of another, under a name.
///
/// It has a port for each tiler of the old one, over the whole block. `Limit` tells `rank` or `points` of a port's
/// shape, inputs before outputs, and then `ports`.
pub fn block_task(
    alloc: Global,
    model: &Model,
    task: &Repeated,
    block: &Shape,
    name: &Name,
) -> Result<Repeated, StepRefused>
    ensures made { IfOk result (λ t. t ≡ block_task model.now task.now block.now name.now) }
    ensures limit { IsWithin result (block_limit model.now task.now block.now) }
{
    let inner = task_named(model.tasks.as_slice(), &task.task);
    let mut made = Repeated {
        name: name.copy(alloc)?,
        ins: Items::new(alloc),
        outs: Items::new(alloc),
        space: block.copy(),
        task: task.task.copy(alloc)?,
        tilers: Items::new(alloc),
        links: Items::new(alloc),
    };
    match fill_block(alloc, inner, task.tilers.as_slice(), block, &mut made) {
        Ok(()) => Ok(made),
        Err(error) => Err(error),
    }
}

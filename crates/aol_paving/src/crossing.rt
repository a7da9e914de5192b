//! Ports that lead through both levels.

ghost use Rattle.std.specs.Prelude.{◌≡◌, ◌++◌, [], ◌∷◌, map, IfOk, OnOk};
ghost use Rattle.std.specs.Option.{option_copied};
ghost use Rattle.aol_flat.specs.Home.{tiler_at};
ghost use Rattle.aol_change.specs.Blocks.{inputs_in, outputs_in};
ghost use Rattle.aol_paving.specs.Crossings.{crossings};

use crate::tilers::copied;
use aol_expr_tree::Port;
use aol_model_types::{OutPort, Repeated, Task, TilerOn};
use aol_shape::{Items, Name, NoMemory, are_same};
use std::alloc::Global;

/// A port of the innermost task, and the tilers on the way to it through the outer and the inner repetition.
#[derive(Drop)]
pub struct Crossing {
    pub port: Port,
    pub outer: TilerOn,
    pub inner: TilerOn,
}

/// The tiler of a repetition on an inner port.
fn tiler_at<'a>(task: &'a Repeated, inner: &Name) -> Option<&'a TilerOn>
    ensures { option_copied result ≡ tiler_at task.now inner.now }
{
    task.tilers
        .as_slice()
        .iter()
        .find(|tiler| are_same(&tiler.inner, inner))
}

/// An equal tiler on equal ports.
fn copied_on(alloc: Global, tiler: &TilerOn) -> Result<TilerOn, NoMemory>
    ensures { IfOk result (λ t. t ≡ tiler.now) }
{
    let by = copied(alloc, &tiler.tiler)?;
    Ok(TilerOn {
        outer: tiler.outer.copy(alloc)?,
        inner: tiler.inner.copy(alloc)?,
        tiler: by,
    })
}

/// A port with the tilers on the way to it.
fn with_tilers(
    alloc: Global,
    port: &Port,
    outer: &TilerOn,
    inner: &TilerOn,
) -> Result<Crossing, NoMemory>
    ensures { IfOk result (λ c. c ≡ record { port = port.now; outer = outer.now; inner = inner.now }) }
{
    let outer = copied_on(alloc, outer)?;
    let inner = copied_on(alloc, inner)?;
    let name = port.name.copy(alloc)?;
    let shape = port.shape.copy();
    Ok(Crossing {
        port: Port { name, shape },
        outer,
        inner,
    })
}

/// Pushes a port of the innermost task with the tilers on the way to it, where both levels have one.
fn push_crossing(
    alloc: Global,
    task: &Repeated,
    inner: &Repeated,
    port: &Port,
    into: &mut Items<Crossing>,
) -> Result<(), NoMemory>
    ensures { OnOk result (into.new ≡ into.old ++ crossings task.now inner.now (port.now ∷ [])) }
{
    let Some(below) = tiler_at(inner, &port.name) else {
        return Ok(());
    };
    let Some(above) = tiler_at(task, &below.outer) else {
        return Ok(());
    };
    let crossing = with_tilers(alloc, port, above, below)?;
    into.push(crossing)?;
    Ok(())
}

/// Pushes those of these ports that have tilers at both levels.
fn push_ports(
    alloc: Global,
    task: &Repeated,
    inner: &Repeated,
    ports: &[Port],
    into: &mut Items<Crossing>,
) -> Result<(), NoMemory>
    ensures { OnOk result (into.new ≡ into.old ++ crossings task.now inner.now ports.now) }
{
    for port in ports {
        push_crossing(alloc, task, inner, port, into)?;
    }
    Ok(())
}

/// Pushes those of these outputs that have tilers at both levels.
fn push_outs(
    alloc: Global,
    task: &Repeated,
    inner: &Repeated,
    outs: &[OutPort],
    into: &mut Items<Crossing>,
) -> Result<(), NoMemory>
    ensures { OnOk result (into.new ≡ into.old ++ crossings task.now inner.now (map (λ o. o.port) outs.now)) }
{
    for out in outs {
        push_crossing(alloc, task, inner, &out.port, into)?;
    }
    Ok(())
}

/// Pushes the inputs of the innermost task that have tilers at both levels.
pub fn push_inputs(
    alloc: Global,
    task: &Repeated,
    inner: &Repeated,
    innermost: Option<&Task>,
    into: &mut Items<Crossing>,
) -> Result<(), NoMemory>
    ensures { OnOk result (into.new ≡ into.old ++ crossings task.now inner.now (inputs_in (option_copied innermost.entry))) }
{
    match innermost {
        None => Ok(()),
        Some(Task::Elementary(of)) => push_ports(alloc, task, inner, of.ins.as_slice(), into),
        Some(Task::Compound(of)) => push_ports(alloc, task, inner, of.ins.as_slice(), into),
        Some(Task::Repeated(of)) => push_ports(alloc, task, inner, of.ins.as_slice(), into),
    }
}

/// Pushes its outputs that have tilers at both levels.
pub fn push_outputs(
    alloc: Global,
    task: &Repeated,
    inner: &Repeated,
    innermost: Option<&Task>,
    into: &mut Items<Crossing>,
) -> Result<(), NoMemory>
    ensures { OnOk result (into.new ≡ into.old ++ crossings task.now inner.now (outputs_in (option_copied innermost.entry))) }
{
    match innermost {
        None => Ok(()),
        Some(Task::Elementary(of)) => push_outs(alloc, task, inner, of.outs.as_slice(), into),
        Some(Task::Compound(of)) => push_ports(alloc, task, inner, of.outs.as_slice(), into),
        Some(Task::Repeated(of)) => push_ports(alloc, task, inner, of.outs.as_slice(), into),
    }
}

//! The fused repetition.

ghost use Rattle.std.specs.Prelude.{◌≡◌, ◌+◌, ◌<◌, ◌^◌, ◌++◌, [], length, IfOk, OnOk};
ghost use Rattle.std.specs.List.{AllByRecursion};
ghost use Rattle.std.specs.Option.{option_copied};
ghost use Rattle.aol_tiler.specs.Makers.{AreSubstitutable};
ghost use Rattle.aol_tiler.specs.Tiler.{substituted};
ghost use Rattle.aol_flat.specs.Home.{tiler_at};
ghost use Rattle.aol_change.specs.Change.{tiler_limit};
ghost use Rattle.aol_change.specs.Made.{IsWithin};
ghost use Rattle.aol_fusion_parts.specs.Ports.{renamed};
ghost use Rattle.aol_fusion_parts.specs.Room.{CanPlace, IsEmptyRepetition};
ghost use Rattle.aol_fusion_parts.specs.Whole.{moved_tiler, moved_tilers, placed_tiler, placed_tilers, placed_limit, all_placed_limit, whole_tilers, filled_whole, fused_repetition, whole_limit};

use crate::block::count_ports;
use crate::copies::copy_tiler;
use crate::joined::tiler_at;
use crate::ports::{name_among, port_name, push_renamed};
use aol_change::{Side, StepRefused, push_copies};
use aol_expr_tree::Port;
use aol_model_types::{Repeated, TilerOn};
use aol_shape::{Items, LimitName, Name, NoMemory};
use aol_tiler::{Tiler, TilerRefused};
use std::alloc::Global;

/// A tiler at the repetitions that another gives.
fn substituted(alloc: Global, tiler: &Tiler, by: &Tiler) -> Result<Tiler, StepRefused>
    requires { AreSubstitutable tiler.now by.now }
    ensures made { IfOk result (λ t. t ≡ substituted tiler.now by.now) }
    ensures limit { IsWithin result (tiler_limit (substituted tiler.now by.now)) }
{
    match tiler.substituted(alloc, by) {
        Ok(tiler) => Ok(tiler),
        Err(TilerRefused::Entry(_)) => Err(StepRefused::Limit(LimitName::Entry)),
        Err(TilerRefused::NoMemory) => Err(StepRefused::NoMemory),
    }
}

/// Pushes the tiler of the first repetition on an inner input, on the new ports, at the repetitions that the proposed
/// tiler gives.
fn push_placed_at(
    alloc: Global,
    one: &Repeated,
    by: &Tiler,
    number: usize,
    port: &Port,
    made: &mut Items<TilerOn>,
) -> Result<(), StepRefused>
    requires { CanPlace one.now by.now port.now }
    ensures made { OnOk result (made.new ≡ made.old ++ placed_tiler by.now one.now.ins number (tiler_at one.now port.now.name)) }
    ensures limit { IsWithin result (placed_limit by.now (tiler_at one.now port.now.name)) }
{
    match tiler_at(one, &port.name) {
        Some(on) => {
            let tiler = substituted(alloc, &on.tiler, by)?;
            let outer = name_among(alloc, Side::Inputs, &[], one.ins.as_slice(), &on.outer)?;
            let inner = port_name(alloc, Side::Inputs, number)?;
            made.push(TilerOn {
                outer,
                inner,
                tiler,
            })?;
            Ok(())
        }
        None => Ok(()),
    }
}

/// Pushes those on all these inner inputs.
fn push_placed(
    alloc: Global,
    one: &Repeated,
    by: &Tiler,
    ports: &[Port],
    made: &mut Items<TilerOn>,
) -> Result<(), StepRefused>
    requires { AllByRecursion (CanPlace one.now by.now) ports.now }
    ensures made { OnOk result (made.new ≡ made.old ++ placed_tilers one.now by.now 0 ports.now) }
    ensures limit { IsWithin result (all_placed_limit one.now by.now ports.now) }
{
    let mut number = 0;
    for port in ports {
        push_placed_at(alloc, one, by, number, port, made)?;
        number += 1;
    }
    Ok(())
}

/// The ports of one side: the old ones outside, those before them, and the inner ones before.
#[derive(Clone, Copy)]
struct Places<'a> {
    side: Side,
    before: &'a [Port],
    outer: &'a [Port],
}

/// Pushes the tiler on an inner port, on the new ports.
fn push_moved_at(
    alloc: Global,
    two: &Repeated,
    at: Places,
    number: usize,
    port: &Port,
    made: &mut Items<TilerOn>,
) -> Result<(), NoMemory>
    requires { length at.before.now + length at.outer.now < 2 ^ 64 }
    ensures { OnOk result (made.new ≡ made.old ++ moved_tiler at.entry.side (length at.entry.before.now) at.entry.outer.now number (tiler_at two.now port.now.name)) }
{
    match tiler_at(two, &port.name) {
        Some(on) => {
            let tiler = copy_tiler(alloc, &on.tiler)?;
            let outer = name_among(alloc, at.side, at.before, at.outer, &on.outer)?;
            let inner = port_name(alloc, at.side, number)?;
            made.push(TilerOn {
                outer,
                inner,
                tiler,
            })?;
            Ok(())
        }
        None => Ok(()),
    }
}

/// Pushes those on all these inner ports, numbered behind others.
fn push_moved(
    alloc: Global,
    two: &Repeated,
    at: Places,
    first: &[Port],
    ports: &[Port],
    made: &mut Items<TilerOn>,
) -> Result<(), NoMemory>
    requires outside { length at.before.now + length at.outer.now < 2 ^ 64 }
    requires inside { length first.now + length ports.now < 2 ^ 64 }
    ensures { OnOk result (made.new ≡ made.old ++ moved_tilers two.now at.entry.side (length at.entry.before.now) at.entry.outer.now (length first.now) ports.now) }
{
    let mut number = first.len();
    for port in ports {
        push_moved_at(alloc, two, at, number, port, made)?;
        number += 1;
    }
    Ok(())
}

/// The inner ports that the fused repetition's tilers are on.
#[derive(Clone, Copy)]
pub struct Inside<'a> {
    pub block: &'a [Port],
    pub free: &'a [Port],
    pub outs: &'a [Port],
}

/// Pushes all tilers of the fused repetition.
fn push_tilers(
    alloc: Global,
    one: &Repeated,
    two: &Repeated,
    by: &Tiler,
    unjoined: &[Port],
    inside: Inside,
    made: &mut Items<TilerOn>,
) -> Result<(), StepRefused>
    requires place { AllByRecursion (CanPlace one.now by.now) inside.block.now }
    requires few { length one.now.ins + length unjoined.now < 2 ^ 64 }
    requires few_inside { length inside.block.now + length inside.free.now < 2 ^ 64 }
    ensures made { OnOk result (made.new ≡ made.old ++ whole_tilers one.now two.now by.now unjoined.now inside.entry.block.now inside.entry.free.now inside.entry.outs.now) }
    ensures limit { IsWithin result (all_placed_limit one.now by.now inside.entry.block.now) }
{
    push_placed(alloc, one, by, inside.block, made)?;
    let ins = Places {
        side: Side::Inputs,
        before: one.ins.as_slice(),
        outer: unjoined,
    };
    push_moved(alloc, two, ins, inside.block, inside.free, made)?;
    let outs = Places {
        side: Side::Outputs,
        before: &[],
        outer: two.outs.as_slice(),
    };
    push_moved(alloc, two, outs, &[], inside.outs, made)?;
    Ok(())
}

/// Pushes the inputs of the fused repetition: for those of the first one, and for those of the second that aren't joined.
fn push_inputs(
    alloc: Global,
    one: &Repeated,
    unjoined: &[Port],
    made: &mut Items<Port>,
) -> Result<(), NoMemory>
    requires { made.old ≡ [] }
    ensures { OnOk result (made.new ≡ renamed Side.Inputs 0 (one.now.ins ++ unjoined.now)) }
{
    let mut both = Items::new(alloc);
    push_copies(alloc, one.ins.as_slice(), &mut both)?;
    push_copies(alloc, unjoined, &mut both)?;
    push_renamed(alloc, Side::Inputs, both.as_slice(), made)
}

/// Gives the fused repetition its ports and tilers.
fn fill_whole(
    alloc: Global,
    one: &Repeated,
    two: &Repeated,
    by: &Tiler,
    unjoined: &[Port],
    inside: Inside,
    made: &mut Repeated,
) -> Result<(), StepRefused>
    requires empty { IsEmptyRepetition made.old }
    requires place { AllByRecursion (CanPlace one.now by.now) inside.block.now }
    requires few { length one.now.ins + length unjoined.now < 2 ^ 64 }
    requires few_inside { length inside.block.now + length inside.free.now < 2 ^ 64 }
    ensures made { OnOk result (made.new ≡ filled_whole one.now two.now by.now unjoined.now inside.entry.block.now inside.entry.free.now inside.entry.outs.now made.old) }
    ensures limit { IsWithin result (whole_limit one.now two.now by.now unjoined.now inside.entry.block.now) }
{
    push_inputs(alloc, one, unjoined, &mut made.ins)?;
    push_renamed(alloc, Side::Outputs, two.outs.as_slice(), &mut made.outs)?;
    count_ports(made.ins.as_slice(), made.outs.as_slice())?;
    push_tilers(alloc, one, two, by, unjoined, inside, &mut made.tilers)?;
    Ok(())
}

/// The fused repetition, each a task of the pair's name.
pub fn fused_repetition(
    alloc: Global,
    name: &Name,
    pair: &Name,
    one: &Repeated,
    two: &Repeated,
    by: &Tiler,
    unjoined: &[Port],
    inside: Inside,
) -> Result<Repeated, StepRefused>
    requires place { AllByRecursion (CanPlace one.now by.now) inside.block.now }
    requires few { length one.now.ins + length unjoined.now < 2 ^ 64 }
    requires few_inside { length inside.block.now + length inside.free.now < 2 ^ 64 }
    ensures made { IfOk result (λ t. t ≡ fused_repetition name.now pair.now one.now two.now by.now unjoined.now inside.entry.block.now inside.entry.free.now inside.entry.outs.now) }
    ensures limit { IsWithin result (whole_limit one.now two.now by.now unjoined.now inside.entry.block.now) }
{
    let mut made = Repeated {
        name: name.copy(alloc)?,
        ins: Items::new(alloc),
        outs: Items::new(alloc),
        space: two.space.copy(),
        task: pair.copy(alloc)?,
        tilers: Items::new(alloc),
        links: Items::new(alloc),
    };
    fill_whole(alloc, one, two, by, unjoined, inside, &mut made)?;
    Ok(made)
}

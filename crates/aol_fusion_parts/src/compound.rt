//! The compound of two fused parts.

ghost use Rattle.std.specs.Prelude.{◌≡◌, ◌+◌, ◌<◌, ◌^◌, ◌++◌, ◌||◌, [], not, length, map, flat_map, IfOk, OnOk};
ghost use Rattle.std.specs.List.{list_all};
ghost use Rattle.aol_fusion_parts.specs.Changed.{first_goes, changed_from, moved_to, second_to, changed_to, plain_to, copied_to, changed_link, changed_reshape, changed_part, filled_compound, fused_compound};
ghost use Rattle.aol_fusion_parts.specs.Joined.{is_end_of};
ghost use Rattle.aol_fusion_parts.specs.Room.{IsEmptyCompound};

use crate::copies::{copy_hook, copy_part, copy_reshape};
use crate::joined::{is_end_of, is_joint};
use crate::ports::name_among;
use aol_change::{Side, push_copies};
use aol_expr_tree::Port;
use aol_model_types::{Compound, Copied, FuseArgs, Hook, Part, Plain, Repeated};
use aol_shape::{Items, Name, NoMemory, are_same};
use std::alloc::Global;

/// Whether all plain links from the first part go to the second.
fn are_links_joint(args: &FuseArgs, links: &[Plain]) -> bool
    ensures { result ≡ list_all (λ l. not (is_end_of args.now.first l.from) || is_end_of args.now.second l.to) links.now }
{
    links.iter().all(|link| !is_end_of(&link.from, &args.first)
        || is_end_of(&link.to, &args.second))
}

/// Whether no reshape is from the first part.
fn is_no_reshape_from(args: &FuseArgs, reshapes: &[Copied]) -> bool
    ensures { result ≡ list_all (λ r. not (is_end_of args.now.first r.from)) reshapes.now }
{
    reshapes
        .iter()
        .all(|reshape| !is_end_of(&reshape.from, &args.first))
}

/// Whether the first part goes: all plain links and reshapes from it are plain links to the second.
pub fn first_goes(args: &FuseArgs, compound: &Compound) -> bool
    ensures { result ≡ first_goes args.now compound.now }
{
    are_links_joint(args, compound.links.as_slice())
        && is_no_reshape_from(args, compound.reshapes.as_slice())
}

/// What the links of the compound are changed by.
#[derive(Clone, Copy)]
struct Changing<'a> {
    args: &'a FuseArgs,
    one: &'a Repeated,
    two: &'a Repeated,
    unjoined: &'a [Port],
    goes: bool,
}

/// Where a link begins: at the second part, at the fused repetition's port.
fn changed_from(alloc: Global, by: Changing, end: &Hook) -> Result<Hook, NoMemory>
    ensures { IfOk result (λ h. h ≡ changed_from by.entry.args.now by.entry.two.now end.now) }
{
    if is_end_of(end, &by.args.second) {
        let outs = by.two.outs.as_slice();
        let mut made = copy_hook(alloc, end)?;
        made.port = name_among(alloc, Side::Outputs, &[], outs, &end.port)?;
        return Ok(made);
    }
    copy_hook(alloc, end)
}

/// Where a link ends that isn't at the first part: at the second part, at the fused repetition's port.
fn moved_to(alloc: Global, by: Changing, end: &Hook) -> Result<Hook, NoMemory>
    requires { length by.one.now.ins + length by.unjoined.now < 2 ^ 64 }
    ensures { IfOk result (λ h. h ≡ moved_to by.entry.args.now by.entry.one.now by.entry.unjoined.now end.now) }
{
    if is_end_of(end, &by.args.second) {
        let ins = by.one.ins.as_slice();
        let mut made = copy_hook(alloc, end)?;
        made.port = name_among(alloc, Side::Inputs, ins, by.unjoined, &end.port)?;
        return Ok(made);
    }
    copy_hook(alloc, end)
}

/// The fused repetition's port for one of the first part.
fn second_to(alloc: Global, by: Changing, end: &Hook) -> Result<Hook, NoMemory>
    ensures { IfOk result (λ h. h ≡ second_to by.entry.args.now by.entry.one.now end.now) }
{
    let port = name_among(alloc, Side::Inputs, &[], by.one.ins.as_slice(), &end.port)?;
    let part = by.args.second.copy(alloc)?;
    Ok(Hook {
        part: Some(part),
        port,
    })
}

/// Pushes where a link ends: at an input of the first part, where that part stays, and then at the fused repetition's
/// port for it; else where it did.
fn push_ends(
    alloc: Global,
    by: Changing,
    end: &Hook,
    ends: &mut Items<Hook>,
) -> Result<(), NoMemory>
    requires { length by.one.now.ins + length by.unjoined.now < 2 ^ 64 }
    ensures { OnOk result (ends.new ≡ ends.old ++ changed_to by.entry.args.now by.entry.one.now by.entry.unjoined.now by.entry.goes end.now) }
{
    if is_end_of(end, &by.args.first) {
        if !by.goes {
            ends.push(copy_hook(alloc, end)?)?;
        }
        ends.push(second_to(alloc, by, end)?)?;
        return Ok(());
    }
    ends.push(moved_to(alloc, by, end)?)?;
    Ok(())
}

/// Pushes plain links from one end to others.
fn push_plain(
    alloc: Global,
    by: Changing,
    from: &Hook,
    ends: &[Hook],
    made: &mut Items<Plain>,
) -> Result<(), NoMemory>
    ensures { OnOk result (made.new ≡ made.old ++ map (plain_to (changed_from by.entry.args.now by.entry.two.now from.now)) ends.now) }
{
    for end in ends {
        let from = changed_from(alloc, by, from)?;
        let to = copy_hook(alloc, end)?;
        made.push(Plain { from, to })?;
    }
    Ok(())
}

/// Pushes the links in place of one: none where it joins the two parts.
fn push_link(
    alloc: Global,
    by: Changing,
    link: &Plain,
    made: &mut Items<Plain>,
) -> Result<(), NoMemory>
    requires { length by.one.now.ins + length by.unjoined.now < 2 ^ 64 }
    ensures { OnOk result (made.new ≡ made.old ++ changed_link by.entry.args.now by.entry.one.now by.entry.two.now by.entry.unjoined.now by.entry.goes link.now) }
{
    if is_joint(by.args, link) {
        return Ok(());
    }
    let mut ends = Items::new(alloc);
    push_ends(alloc, by, &link.to, &mut ends)?;
    push_plain(alloc, by, &link.from, ends.as_slice(), made)
}

/// Pushes those in place of all.
fn push_links(
    alloc: Global,
    by: Changing,
    links: &[Plain],
    made: &mut Items<Plain>,
) -> Result<(), NoMemory>
    requires { length by.one.now.ins + length by.unjoined.now < 2 ^ 64 }
    ensures { OnOk result (made.new ≡ made.old ++ flat_map (changed_link by.entry.args.now by.entry.one.now by.entry.two.now by.entry.unjoined.now by.entry.goes) links.now) }
{
    for link in links {
        push_link(alloc, by, link, made)?;
    }
    Ok(())
}

/// Pushes equal reshapes from one end to others.
fn push_copied(
    alloc: Global,
    by: Changing,
    reshape: &Copied,
    ends: &[Hook],
    made: &mut Items<Copied>,
) -> Result<(), NoMemory>
    ensures { OnOk result (made.new ≡ made.old ++ map (copied_to (changed_from by.entry.args.now by.entry.two.now reshape.now.from) reshape.now.by) ends.now) }
{
    for end in ends {
        let from = changed_from(alloc, by, &reshape.from)?;
        let to = copy_hook(alloc, end)?;
        let by = copy_reshape(alloc, &reshape.by)?;
        made.push(Copied { from, to, by })?;
    }
    Ok(())
}

/// Pushes the reshapes in place of one.
fn push_reshape(
    alloc: Global,
    by: Changing,
    reshape: &Copied,
    made: &mut Items<Copied>,
) -> Result<(), NoMemory>
    requires { length by.one.now.ins + length by.unjoined.now < 2 ^ 64 }
    ensures { OnOk result (made.new ≡ made.old ++ changed_reshape by.entry.args.now by.entry.one.now by.entry.two.now by.entry.unjoined.now by.entry.goes reshape.now) }
{
    let mut ends = Items::new(alloc);
    push_ends(alloc, by, &reshape.to, &mut ends)?;
    push_copied(alloc, by, reshape, ends.as_slice(), made)
}

/// Pushes those in place of all.
fn push_reshapes(
    alloc: Global,
    by: Changing,
    reshapes: &[Copied],
    made: &mut Items<Copied>,
) -> Result<(), NoMemory>
    requires { length by.one.now.ins + length by.unjoined.now < 2 ^ 64 }
    ensures { OnOk result (made.new ≡ made.old ++ flat_map (changed_reshape by.entry.args.now by.entry.one.now by.entry.two.now by.entry.unjoined.now by.entry.goes) reshapes.now) }
{
    for reshape in reshapes {
        push_reshape(alloc, by, reshape, made)?;
    }
    Ok(())
}

/// Pushes the part in place of one: the fused repetition at the second, and none at the first where that goes.
fn push_part(
    alloc: Global,
    by: Changing,
    whole: &Name,
    part: &Part,
    made: &mut Items<Part>,
) -> Result<(), NoMemory>
    ensures { OnOk result (made.new ≡ made.old ++ changed_part by.entry.args.now whole.now by.entry.goes part.now) }
{
    if are_same(&part.name, &by.args.second) {
        let name = part.name.copy(alloc)?;
        let task = whole.copy(alloc)?;
        made.push(Part { name, task })?;
        return Ok(());
    }
    if are_same(&part.name, &by.args.first) && by.goes {
        return Ok(());
    }
    made.push(copy_part(alloc, part)?)?;
    Ok(())
}

/// Pushes those in place of all.
fn push_parts(
    alloc: Global,
    by: Changing,
    whole: &Name,
    parts: &[Part],
    made: &mut Items<Part>,
) -> Result<(), NoMemory>
    ensures { OnOk result (made.new ≡ made.old ++ flat_map (changed_part by.entry.args.now whole.now by.entry.goes) parts.now) }
{
    for part in parts {
        push_part(alloc, by, whole, part, made)?;
    }
    Ok(())
}

/// Gives the changed compound its members.
fn fill_compound(
    alloc: Global,
    by: Changing,
    compound: &Compound,
    whole: &Name,
    made: &mut Compound,
) -> Result<(), NoMemory>
    requires empty { IsEmptyCompound made.old }
    requires few { length by.one.now.ins + length by.unjoined.now < 2 ^ 64 }
    requires goes { by.goes ≡ first_goes by.args.now compound.now }
    ensures { OnOk result (made.new ≡ filled_compound by.entry.args.now compound.now by.entry.one.now by.entry.two.now by.entry.unjoined.now whole.now made.old) }
{
    push_copies(alloc, compound.ins.as_slice(), &mut made.ins)?;
    push_copies(alloc, compound.outs.as_slice(), &mut made.outs)?;
    push_parts(alloc, by, whole, compound.parts.as_slice(), &mut made.parts)?;
    push_links(alloc, by, compound.links.as_slice(), &mut made.links)?;
    push_reshapes(alloc, by, compound.reshapes.as_slice(), &mut made.reshapes)
}

/// The compound with the fused repetition at its second part.
pub fn fused_compound(
    alloc: Global,
    args: &FuseArgs,
    compound: &Compound,
    one: &Repeated,
    two: &Repeated,
    unjoined: &[Port],
    whole: &Name,
) -> Result<Compound, NoMemory>
    requires { length one.now.ins + length unjoined.now < 2 ^ 64 }
    ensures { IfOk result (λ c. c ≡ fused_compound args.now compound.now one.now two.now unjoined.now whole.now) }
{
    let by = Changing {
        args,
        one,
        two,
        unjoined,
        goes: first_goes(args, compound),
    };
    let mut made = Compound {
        name: compound.name.copy(alloc)?,
        ins: Items::new(alloc),
        outs: Items::new(alloc),
        parts: Items::new(alloc),
        links: Items::new(alloc),
        reshapes: Items::new(alloc),
    };
    fill_compound(alloc, by, compound, whole, &mut made)?;
    Ok(made)
}

//! Whether two parts are joined, and whether a proposal to fuse them is well formed.

ghost use Rattle.std.specs.Prelude.{◌≡◌, ◌==◌, ◌++◌, [], is_some, count_by, length};
ghost use Rattle.std.specs.List.{find, list_all, list_any};
ghost use Rattle.std.specs.Option.{option_copied};
ghost use Rattle.aol_shape.specs.Lists.{same};
ghost use Rattle.aol_tiler.specs.Tiler.{fits};
ghost use Rattle.aol_model_types.specs.Rules.{part_named};
ghost use Rattle.aol_flat.specs.Home.{tiler_at};
ghost use Rattle.aol_fusion_parts.specs.Joined.{task_of_part, is_end_of, is_joint, are_joined, is_joined, is_picked, pick_to, is_source, is_picked_once, fits_block, pick_fits, is_well_formed};

use aol_change::{shape_of, task_named};
use aol_expr_tree::Port;
use aol_model_types::{Compound, FuseArgs, Hook, Part, Pick, Plain, Repeated, Task, TilerOn};
use aol_shape::{IntVec, Name, Shape, are_same};
use aol_tiler::Tiler;

/// Whether an end is at the part of this name.
pub fn is_end_of(end: &Hook, part: &Name) -> bool
    ensures { result ≡ is_end_of part.now end.now }
{
    match &end.part {
        Some(name) => are_same(name, part),
        None => false,
    }
}

/// Whether a plain link goes from the first part to the second.
pub fn is_joint(args: &FuseArgs, link: &Plain) -> bool
    ensures { result ≡ is_joint args.now link.now }
{
    is_end_of(&link.from, &args.first) && is_end_of(&link.to, &args.second)
}

/// Whether one of the links does.
fn has_joint(args: &FuseArgs, links: &[Plain]) -> bool
    ensures { result ≡ list_any (is_joint args.now) links.now }
{
    links.iter().any(|link| is_joint(args, link))
}

/// The first part of this name.
pub fn part_named<'a>(parts: &'a [Part], name: &Name) -> Option<&'a Part>
    ensures { option_copied result ≡ find (λ p. same p.name name.now) parts.now }
{
    parts.iter().find(|part| are_same(&part.name, name))
}

/// Whether the compound has a part of this name.
fn has_part(compound: &Compound, name: &Name) -> bool
    ensures { result ≡ is_some (part_named compound.now name.now) }
{
    part_named(compound.parts.as_slice(), name).is_some()
}

/// Whether the compound has both parts, they are two, and a plain link goes from the first to the second.
pub fn are_joined(compound: &Compound, args: &FuseArgs) -> bool
    ensures { result ≡ are_joined compound.now args.now }
{
    has_part(compound, &args.first)
        && has_part(compound, &args.second)
        && !are_same(&args.first, &args.second)
        && has_joint(args, compound.links.as_slice())
}

/// The task of the part of this name.
pub fn task_of_part<'a>(tasks: &'a [Task], compound: &Compound, name: &Name) -> Option<&'a Task>
    ensures { option_copied result ≡ task_of_part tasks.now compound.now name.now }
{
    let part = part_named(compound.parts.as_slice(), name)?;
    task_named(tasks, &part.task)
}

/// Whether an input of the second part takes from the first one.
pub fn is_joined(args: &FuseArgs, compound: &Compound, name: &Name) -> bool
    ensures { result ≡ is_joined args.now compound.now name.now }
{
    let links = compound.links.as_slice();
    links.iter().any(|link| is_joint(args, link) && are_same(&link.to.port, name))
}

/// The first tiler on an inner port.
pub fn tiler_at<'a>(task: &'a Repeated, name: &Name) -> Option<&'a TilerOn>
    ensures { option_copied result ≡ tiler_at task.now name.now }
{
    let tilers = task.tilers.as_slice();
    tilers.iter().find(|tiler| are_same(&tiler.inner, name))
}

/// Whether the tiler on an inner input of the second repetition is on a joined input.
pub fn is_picked(args: &FuseArgs, compound: &Compound, two: &Repeated, name: &Name) -> bool
    ensures { result ≡ is_picked args.now compound.now two.now name.now }
{
    match tiler_at(two, name) {
        Some(tiler) => is_joined(args, compound, &tiler.outer),
        None => false,
    }
}

/// The first pick of an inner input.
pub fn pick_to<'a>(picks: &'a [Pick], name: &Name) -> Option<&'a Pick>
    ensures { option_copied result ≡ pick_to picks.now name.now }
{
    picks.iter().find(|pick| are_same(&pick.to, name))
}

/// Whether a pick is from an output.
pub fn is_source(picks: &[Pick], name: &Name) -> bool
    ensures { result ≡ is_source picks.now name.now }
{
    picks.iter().any(|pick| are_same(&pick.from, name))
}

/// How many picks an inner input has.
fn count_picks(picks: &[Pick], name: &Name) -> usize
    ensures { result ≡ count_by (λ p. same p.to name.now) picks.now }
{
    picks.iter().filter(|pick| are_same(&pick.to, name)).count()
}

/// Whether an inner input has one pick where it is picked, and else none.
fn is_picked_once(args: &FuseArgs, compound: &Compound, two: &Repeated, port: &Port) -> bool
    ensures { result ≡ is_picked_once args.now compound.now two.now port.now }
{
    let count = count_picks(args.picks.as_slice(), &port.name);
    if is_picked(args, compound, two, &port.name) {
        count == 1
    } else {
        count == 0
    }
}

/// Whether all inner inputs have.
fn are_picked_once(args: &FuseArgs, compound: &Compound, two: &Repeated, ports: &[Port]) -> bool
    ensures { result ≡ list_all (is_picked_once args.now compound.now two.now) ports.now }
{
    ports
        .iter()
        .all(|port| is_picked_once(args, compound, two, port))
}

/// Whether all columns have this length.
fn have_length(columns: &[IntVec], rank: usize) -> bool
    ensures { result ≡ list_all (λ c. length c == rank) columns.now }
{
    columns.iter().all(|column| column.as_slice().len() == rank)
}

/// How many entries two shapes have together.
#[tactic(auto, using(crate::proofs::Parts::joined_length))]
fn joined_rank(first: &Shape, second: &Shape) -> usize
    ensures { result ≡ length (first.now ++ second.now) }
{
    first.as_slice().len() + second.as_slice().len()
}

/// Whether a tiler leads from a block of an array to another, without paving.
fn leads(tiler: &Tiler, block: &Shape, from: &Shape, to: &Shape) -> bool
    ensures { result ≡ fits tiler.now (block.now ++ from.now) [] to.now }
{
    let rank = joined_rank(block, from);
    tiler.origin.as_slice().len() == rank
        && have_length(tiler.paving.as_slice(), rank)
        && have_length(tiler.fitting.as_slice(), rank)
        && tiler.paving.is_empty()
        && tiler.fitting.len() == to.as_slice().len()
}

/// Whether the tiler of a pick leads from a block of its output to its input, where both are there.
fn pick_fits(args: &FuseArgs, outs: &[Port], ins: &[Port], pick: &Pick) -> bool
    ensures { result ≡ pick_fits args.now outs.now ins.now pick.now }
{
    let Some(from) = shape_of(outs, &pick.from) else {
        return false;
    };
    let Some(to) = shape_of(ins, &pick.to) else {
        return false;
    };
    leads(&pick.tiler, &args.block, from, to)
}

/// Whether those of all picks do.
fn do_picks_fit(args: &FuseArgs, outs: &[Port], ins: &[Port]) -> bool
    ensures { result ≡ list_all (pick_fits args.now outs.now ins.now) args.now.picks }
{
    let picks = args.picks.as_slice();
    picks.iter().all(|pick| pick_fits(args, outs, ins, pick))
}

/// Whether a proposal is well formed, by the outputs of the first inner task and the inputs of the second.
pub fn is_well_formed(
    args: &FuseArgs,
    compound: &Compound,
    one: &Repeated,
    two: &Repeated,
    outs: &[Port],
    ins: &[Port],
) -> bool
    ensures { result ≡ is_well_formed args.now compound.now one.now two.now outs.now ins.now }
{
    !args.picks.is_empty()
        && are_picked_once(args, compound, two, ins)
        && args.tiler.fits(&one.space, &two.space, &args.block)
        && do_picks_fit(args, outs, ins)
}

//! For each instance of a model with a repetition in blocks, the number of the old instance.

ghost use Rattle.std.specs.List.{AllByRecursion};
ghost use Rattle.std.specs.Prelude.{◌≡◌, ◌+◌, ◌*◌, ◌%◌, ◌^◌, ◌<◌, ◌≤◌, ◌++◌, length, take, drop, Some, IfOk, OnOk};
ghost use Rattle.aol_shape.specs.Lists.{numbers_from, numbers_below};
ghost use Rattle.aol_shape.specs.Shape.{size, IsEntry};
ghost use Rattle.aol_model_types.specs.declared.task.Task.TheVariants as tasks;
ghost use Rattle.aol_model_types.specs.Rules.{task_named};
ghost use Rattle.aol_flat.specs.Instance.{leaves};
ghost use Rattle.aol_flat.specs.Node.{nodes};
ghost use Rattle.aol_change.specs.Change.{unblocked};
ghost use Rattle.aol_change.specs.Unblocked.{unblocked_rank, numbers_in_block, numbers_in_blocks, numbers_in_tasks, old_numbers};
ghost use Rattle.aol_change.specs.UnblockedParts.{IsEntriesBefore, HaveRank, PushesLeaf};

use crate::remap::Remap;
use crate::tasks::name_of;
use aol_flat::Flat;
use aol_model_types::Repeated;
use aol_shape::{Items, Name, NoMemory, Shape, are_same, rank_of, unrank_into};
use std::alloc::{AllocError, Global};

/// The space of a repetition, that of its blocks and that of one block.
#[derive(Clone, Copy)]
struct Blocks<'a> {
    space: &'a Shape,
    outer: &'a Shape,
    block: &'a Shape,
}

/// How many entries stand before those of the task of this name around a node, where the node is below that task.
fn entries_before(flat: &Flat, name: &Name, node: u32) -> Option<u32>
    requires { node < length (nodes flat.now.model) }
    ensures { IsEntriesBefore flat.now.model name.now node result }
{
    if node == 0 {
        return None;
    }
    let up = flat.row(node).up;
    let above = flat.row(up);
    let task = &flat.model().tasks.as_slice()[above.task as usize];
    if are_same(name_of(task), name) {
        return Some(above.around);
    }
    entries_before(flat, name, up)
}

/// One index of the repetition at a position inside a block.
fn unblocked_index(entry: u32, many: u32, number: u32, position: u32) -> u32
    requires { 0 < entry }
    ensures { result ≡ (many * number + position) % entry }
{
    ((many as u64 * number as u64 + position as u64) % entry as u64) as u32
}

/// Puts the indices of the repetition at a position inside a block in the place of those of the block.
fn unblock(space: &[u32], block: &[u32], position: &[u32], at: &mut [u32])
    requires entries { AllByRecursion IsEntry space.now }
    requires block { length block.now ≡ length space.now }
    requires position { length position.now ≡ length space.now }
    requires at { length at.old ≡ length space.now }
    ensures { at.new ≡ unblocked space.now block.now at.old position.now }
{
    let Some((entry, space)) = space.split_first() else {
        return;
    };
    let Some((many, block)) = block.split_first() else {
        return;
    };
    let Some((position, positions)) = position.split_first() else {
        return;
    };
    let Some((number, numbers)) = at.split_first_mut() else {
        return;
    };
    *number = unblocked_index(*entry, *many, *number, *position);
    unblock(space, block, positions, numbers);
}

/// The rank of the repetition at a position inside a block, by the ranks of the block and of the position.
fn unblocked_rank(by: Blocks, number: u32, position: u32) -> u32
    requires rank { HaveRank by.space.now by.outer.now by.block.now }
    requires number { number < size by.outer.now }
    requires position { position < size by.block.now }
    ensures rank { result ≡ unblocked_rank by.entry.space.now by.entry.outer.now by.entry.block.now number position }
    ensures within { result < size by.entry.space.now }
{
    let rank = by.space.as_slice().len();
    let mut numbers = [0u32; 12];
    let at = &mut numbers[..rank];
    let mut positions = [0u32; 12];
    let inside = &mut positions[..rank];
    unrank_into(by.outer, number, at);
    unrank_into(by.block, position, inside);
    unblock(by.space.as_slice(), by.block.as_slice(), inside, at);
    rank_of(by.space, at)
}

/// Pushes so many numbers, one after another.
fn push_numbers(first: u32, count: u32, into: &mut Vec<u32>) -> Result<(), AllocError>
    requires { first + count < 2 ^ 32 }
    ensures { OnOk result (into.new.items ≡ into.old.items ++ numbers_from first count) }
{
    for after in 0..count {
        into.push(first + after)?;
    }
    Ok(())
}

/// Pushes the old numbers of the instances inside one block.
fn push_block(
    by: Blocks,
    first: u32,
    each: u32,
    number: u32,
    into: &mut Vec<u32>,
) -> Result<(), AllocError>
    requires rank { HaveRank by.space.now by.outer.now by.block.now }
    requires number { number < size by.outer.now }
    requires few { first + size by.space.now * each < 2 ^ 32 }
    ensures { OnOk result (into.new.items ≡ into.old.items ++ numbers_in_block by.entry.space.now by.entry.outer.now by.entry.block.now first each number) }
{
    for position in 0..by.block.size() {
        let repetition = unblocked_rank(by, number, position);
        push_numbers(first + repetition * each, each, into)?;
    }
    Ok(())
}

/// Pushes those inside all blocks of an instance of the task.
fn push_blocks(by: Blocks, first: u32, each: u32, into: &mut Vec<u32>) -> Result<(), AllocError>
    requires rank { HaveRank by.space.now by.outer.now by.block.now }
    requires few { first + size by.space.now * each < 2 ^ 32 }
    ensures { OnOk result (into.new.items ≡ into.old.items ++ numbers_in_blocks by.entry.space.now by.entry.outer.now by.entry.block.now first each) }
{
    for number in 0..by.outer.size() {
        push_block(by, first, each, number, into)?;
    }
    Ok(())
}

/// Pushes those of so many instances of the task.
fn push_tasks(
    by: Blocks,
    many: u32,
    first: u32,
    each: u32,
    into: &mut Vec<u32>,
) -> Result<(), AllocError>
    requires rank { HaveRank by.space.now by.outer.now by.block.now }
    requires few { first + many * (size by.space.now * each) < 2 ^ 32 }
    ensures { OnOk result (into.new.items ≡ into.old.items ++ numbers_in_tasks by.entry.space.now by.entry.outer.now by.entry.block.now many first each) }
{
    for number in 0..many {
        let step = by.space.size() * each;
        push_blocks(by, first + number * step, each, into)?;
    }
    Ok(())
}

/// How many points a space has.
fn points_of(space: &[u32]) -> u32
    requires some { 0 < size space.now }
    requires few { size space.now < 2 ^ 32 }
    ensures { result ≡ size space.now }
{
    let mut points = 1;
    for entry in space {
        points *= *entry;
    }
    points
}

/// How many points the entries before so many of a space have, and those after them.
#[tactic(auto, using(crate::proofs::Factors::take_some, crate::proofs::Factors::take_few, crate::proofs::Factors::drop_some, crate::proofs::Factors::drop_few, crate::proofs::Factors::drop_twice))]
fn points_beside(space: &[u32], before: usize, many: usize) -> (u32, u32)
    requires within { before + many ≤ length space.now }
    requires some { 0 < size space.now }
    requires few { size space.now < 2 ^ 32 }
    ensures before { result.0 ≡ size (take before space.now) }
    ensures after { result.1 ≡ size (drop (before + many) space.now) }
{
    let (around, own) = space.split_at(before);
    let (_own, below) = own.split_at(many);
    (points_of(around), points_of(below))
}

/// Pushes the old numbers of the instances of a leaf.
fn push_leaf(
    old: &Flat,
    task: &Repeated,
    outer: &Shape,
    block: &Shape,
    leaf: u32,
    into: &mut Vec<u32>,
) -> Result<(), AllocError>
    requires leaf { leaf < length (leaves old.now.model) }
    requires found { task_named old.now.model.tasks task.now.name ≡ Some (tasks.Repeated task.now) }
    requires rank { HaveRank task.now.space outer.now block.now }
    ensures { PushesLeaf old.now.model task.now outer.now block.now leaf into.old.items into.new.items result }
{
    let _model = old.model();
    let _count = old.instances();
    let row = old.leaf(leaf);
    match entries_before(old, &task.name, old.leaf_spot(leaf).node) {
        None => push_numbers(row.base, row.count, into),
        Some(before) => {
            let rank = task.space.as_slice().len();
            let by = Blocks {
                space: &task.space,
                outer,
                block,
            };
            let (many, each) = points_beside(row.space.as_slice(), before as usize, rank);
            push_tasks(by, many, row.base, each, into)
        }
    }
}

/// For each instance of the model with this repetition in blocks, the number of the old instance.
///
/// The space of the repetition gives way to that of the blocks and that of one block, and the repetition at a position
/// inside a block is taken modulo the old space. Linear in the instances.
pub fn old_numbers(
    alloc: Global,
    old: &Flat,
    task: &Repeated,
    outer: &Shape,
    block: &Shape,
) -> Result<Remap, NoMemory>
    requires found { task_named old.now.model.tasks task.now.name ≡ Some (tasks.Repeated task.now) }
    requires rank { HaveRank task.now.space outer.now block.now }
    ensures { IfOk result (λ map. map.old_of ≡ old_numbers old.now.model task.now outer.now block.now) }
{
    let mut old_of = Vec::new(alloc);
    for leaf in 0..old.leaves() {
        push_leaf(old, task, outer, block, leaf, &mut old_of)?;
    }
    Ok(Remap {
        old_of: Items::from_vec(old_of),
    })
}

//! Brackets: how they open, go on to their next argument, and close.

ghost use Rattle.std.specs.Prelude.{◌≡◌, ◌∷◌, IfOk, OnOk, MatchOption, [], option_map};
ghost use Rattle.aol_expr_tree.specs.declared.reader.Bracket.TheVariants.{Indices};
ghost use Rattle.aol_expr_tree.specs.declared.reader.Mode.TheVariants.{FirstIndex, Operand, Whole};
ghost use Rattle.aol_expr_tree.specs.Reading.{grouped, has_room, inside, opened, next_argument, closed, braced, unindexed, left, continued};
ghost use Rattle.aol_expr.specs.States.{in_mode, level_of};

use crate::operators::group;
use aol_expr_tree::{Bracket, Held, Level, Mode, Part, Waiting};
use aol_shape::NoMemory;
use std::alloc::Global;
use std::mem;

/// The most brackets that are open at one byte.
const MAX_BRACKETS: usize = 100;

/// Whether there is room for one more bracket.
pub(crate) fn has_room(held: &Held) -> bool
    ensures { result ≡ has_room held.now }
{
    held.levels.len() < MAX_BRACKETS
}

/// One more bracket is open, inside sums with so many terms.
#[tactic(auto, unfolding(aol_expr_tree::specs::Reading::inside))]
pub(crate) fn enter(held: &mut Held, bracket: Bracket, around: u32) -> Result<(), NoMemory>
    ensures { OnOk result (held.new ≡ inside held.old bracket around) }
{
    let waiting = mem::replace(&mut held.waiting, Waiting::nothing());
    let level = Level {
        bracket,
        waiting,
        around: held.around,
    };
    held.around = around;
    held.levels.push(level)?;
    Ok(())
}

/// A bracket is opened before an operand, where there is room.
#[tactic(auto, unfolding(aol_expr_tree::specs::Reading::opened))]
pub(crate) fn open(held: &mut Held, bracket: Bracket) -> Result<Option<Mode>, NoMemory>
    ensures { IfOk result (λ m. in_mode held.new m ≡ opened held.old bracket Operand) }
{
    if !has_room(held) {
        drop(bracket);
        return Ok(None);
    }
    let around = held.around;
    enter(held, bracket, around)?;
    Ok(Some(Mode::Operand))
}

/// The indices of a port begin, where there is room.
#[tactic(auto, unfolding(aol_expr_tree::specs::Reading::opened))]
pub(crate) fn open_indices(held: &mut Held, read: Part) -> Result<Option<Mode>, NoMemory>
    ensures { IfOk result (λ m. in_mode held.new m ≡ opened held.old (Indices read) FirstIndex) }
{
    if !has_room(held) {
        drop(read);
        return Ok(None);
    }
    let around = held.around;
    enter(held, Bracket::Indices(read), around)?;
    Ok(Some(Mode::FirstIndex))
}

/// The bracket after whose argument a comma stands.
#[tactic(auto, unfolding(aol_expr_tree::specs::Reading::next_argument))]
fn next_argument(bracket: Bracket, part: Part) -> Result<Option<Bracket>, NoMemory>
    ensures { IfOk result (λ k. k ≡ next_argument bracket part) }
{
    match bracket {
        Bracket::Indices(read) => Ok(Some(Bracket::Indices(read.with_index(part)?))),
        Bracket::First(op) => Ok(Some(Bracket::Second(op, part))),
        Bracket::Condition => Ok(Some(Bracket::Chosen(part))),
        Bracket::Chosen(condition) => Ok(Some(Bracket::Other(condition, part))),
        _ => Ok(None),
    }
}

/// What a bracket says that `)` closes after its last argument.
#[tactic(auto, unfolding(aol_expr_tree::specs::Reading::closed))]
fn closed(alloc: Global, bracket: Bracket, part: Part) -> Result<Option<Part>, NoMemory>
    ensures { IfOk result (λ p. p ≡ closed bracket part) }
{
    match bracket {
        Bracket::Parens => Ok(Some(part)),
        Bracket::Second(op, left) => Ok(Some(Part::operator(alloc, op, left, part)?)),
        Bracket::Other(condition, then) => Ok(Some(Part::choice(alloc, condition, then, part)?)),
        Bracket::Term(name, terms) => Ok(Some(Part::sum(alloc, name, terms, part)?)),
        _ => Ok(None),
    }
}

/// What a bracket says that `}` closes after its last argument.
#[tactic(auto, unfolding(aol_expr_tree::specs::Reading::braced))]
fn braced(bracket: Bracket, part: Part) -> Result<Option<Part>, NoMemory>
    ensures { IfOk result (λ p. p ≡ braced bracket part) }
{
    match bracket {
        Bracket::Indices(read) => Ok(Some(read.with_index(part)?)),
        _ => Ok(None),
    }
}

/// What a bracket says that `}` closes at once.
fn unindexed(bracket: Bracket) -> Option<Part>
    ensures { result ≡ unindexed bracket }
{
    match bracket {
        Bracket::Indices(read) => Some(read),
        _ => None,
    }
}

/// A whole operand, where there is one.
fn whole(part: Option<Part>) -> Option<Mode>
    ensures { result ≡ option_map Whole part }
{
    match part {
        Some(part) => Some(Mode::Whole(part)),
        None => None,
    }
}

/// Leaves the innermost bracket.
fn leave(held: &mut Held) -> Option<Bracket>
    ensures levels { MatchOption result (held.old.levels ≡ []) (λ k. held.old.levels ≡ level_of k held.new ∷ held.new.levels) }
    ensures place { held.new.place ≡ held.old.place }
    ensures passed { held.new.passed ≡ held.old.passed }
{
    let Level {
        bracket,
        waiting,
        around,
    } = held.levels.pop()?;
    held.waiting = waiting;
    held.around = around;
    Some(bracket)
}

/// On to the next argument of the innermost bracket.
#[tactic(auto, unfolding(aol_expr_tree::specs::Reading::continued, aol_expr_tree::specs::Reading::inside))]
pub(crate) fn go_on(held: &mut Held, alloc: Global, part: Part) -> Result<Option<Mode>, NoMemory>
    ensures { IfOk result (λ m. in_mode held.new m ≡ continued held.old (grouped held.old.waiting part) held.old.levels) }
{
    let around = held.around;
    let part = group(&mut held.waiting, alloc, part)?;
    let Some(bracket) = leave(held) else {
        return Ok(None);
    };
    match next_argument(bracket, part)? {
        Some(bracket) => {
            enter(held, bracket, around)?;
            Ok(Some(Mode::Operand))
        }
        None => Ok(None),
    }
}

/// On after the innermost bracket, which `)` closes.
#[tactic(auto, unfolding(aol_expr_tree::specs::Reading::left))]
pub(crate) fn close(held: &mut Held, alloc: Global, part: Part) -> Result<Option<Mode>, NoMemory>
    ensures { IfOk result (λ m. in_mode held.new m ≡ left held.old (λ k. closed k (grouped held.old.waiting part)) held.old.levels) }
{
    let part = group(&mut held.waiting, alloc, part)?;
    match leave(held) {
        Some(bracket) => Ok(whole(closed(alloc, bracket, part)?)),
        None => Ok(None),
    }
}

/// On after the innermost bracket, which `}` closes.
#[tactic(auto, unfolding(aol_expr_tree::specs::Reading::left))]
pub(crate) fn close_brace(
    held: &mut Held,
    alloc: Global,
    part: Part,
) -> Result<Option<Mode>, NoMemory>
    ensures { IfOk result (λ m. in_mode held.new m ≡ left held.old (λ k. braced k (grouped held.old.waiting part)) held.old.levels) }
{
    let part = group(&mut held.waiting, alloc, part)?;
    match leave(held) {
        Some(bracket) => Ok(whole(braced(bracket, part)?)),
        None => Ok(None),
    }
}

/// On after the innermost bracket, which `}` closes at once.
#[tactic(auto, unfolding(aol_expr_tree::specs::Reading::left))]
pub(crate) fn close_empty(held: &mut Held) -> Option<Mode>
    ensures { in_mode held.new result ≡ left held.old unindexed held.old.levels }
{
    match leave(held) {
        Some(bracket) => whole(unindexed(bracket)),
        None => None,
    }
}

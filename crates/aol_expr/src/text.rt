ghost use Rattle.std.specs.Prelude.{◌+◌, ◌<◌, ◌^◌, length, IfOk};
ghost use Rattle.aol_expr_tree.specs.Reading.{expr_reading, reading_from, ending, answered, finished};
ghost use Rattle.aol_expr_tree.specs.Answers.{Gives, IsRight};
ghost use Rattle.aol_expr_tree.specs.Tree.{IsExpr};

use crate::reading::{finish, run, start};
use aol_expr_tree::{Expr, ExprRefused, Part, Reader, Small, expr_of};
use aol_shape::{LimitName, NoMemory};
use std::alloc::Global;

/// The expression that a text spells: `At` with the length of the longest front with which a text
/// goes on, or `Limit` with the byte and the name of the first limit that is passed. Numbers and
/// bounds of sums are tested from left to right, then the nodes of the tree, then its depth.
pub fn read_expr(alloc: Global, text: &str) -> Result<Expr, ExprRefused>
    requires { length text.now < 2 ^ 32 }
    ensures read { Gives result (expr_reading text.now) }
    ensures right { IsRight text.now result }
    ensures limits { IfOk result IsExpr }
{
    read_within_limits(alloc, text)
}

/// The expression that a text spells. A tree that is read is spelled, so it is one.
fn read_within_limits(alloc: Global, text: &str) -> Result<Expr, ExprRefused>
    requires { length text.now < 2 ^ 32 }
    ensures read { Gives result (expr_reading text.now) }
    ensures limits { IfOk result IsExpr }
{
    let tree = read_tree(alloc, text)?;
    Ok(expr_of(tree.into_node()))
}

/// The tree that a text spells.
#[tactic(auto, unfolding(aol_expr_tree::specs::Reading::expr_reading))]
fn read_tree(alloc: Global, text: &str) -> Result<Small, ExprRefused>
    requires { length text.now < 2 ^ 32 }
    ensures { Gives result (expr_reading text.now) }
{
    let mut reader = start(alloc);
    read_from(&mut reader, alloc, text.as_bytes())
}

/// What a text answers from here on.
fn read_from(reader: &mut Reader, alloc: Global, bytes: &[u8]) -> Result<Small, ExprRefused>
    requires { reader.old.held.place + length bytes.now < 2 ^ 32 }
    ensures { Gives result (reading_from reader.old.held.place reader.old bytes.now) }
{
    match run(reader, alloc, bytes) {
        Ok(()) => ended(reader, alloc),
        Err(refused) => Err(refused),
    }
}

/// What a text answers that ends here.
fn ended(reader: &mut Reader, alloc: Global) -> Result<Small, ExprRefused>
    ensures { Gives result (ending reader.old.held.place (finished reader.old)) }
{
    let place = reader.held.place;
    match finish(reader, alloc) {
        Ok(Some((passed, part))) => answered(passed, part),
        Ok(None) => Err(ExprRefused::At(place)),
        Err(NoMemory) => Err(ExprRefused::NoMemory),
    }
}

/// What a text answers that says this.
#[tactic(auto, unfolding(aol_expr_tree::specs::Reading::answered))]
fn answered(passed: Option<(u32, LimitName)>, part: Part) -> Result<Small, ExprRefused>
    ensures { Gives result (answered passed part) }
{
    if let Some((start, name)) = passed {
        return Err(ExprRefused::Limit(start, name));
    }
    match part {
        Part::Kept(tree) => Ok(tree),
        Part::Forgotten(count) if count <= 10_000 => Err(ExprRefused::Limit(0, LimitName::Depth)),
        Part::Forgotten(_) => Err(ExprRefused::Limit(0, LimitName::Expression)),
    }
}

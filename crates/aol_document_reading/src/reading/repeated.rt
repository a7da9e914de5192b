ghost use Rattle.std.specs.Prelude.{◌≡◌, ◌+◌, ◌≤◌, ◌<◌, ◌^◌, ◌↔◌, [], ◌∷◌, Option, length, IfOk, true};
ghost use Rattle.std.specs.List.{AllByRecursion};
ghost use Rattle.serde_json.specs.View.{view};
ghost use Rattle.aol_link.specs.Types.{IsFallback, IsChoice, IsInterlink};
ghost use Rattle.aol_model_types.specs.Answers.{Gives};
ghost use Rattle.aol_model_types.specs.Reading.{tiler_on_at, tiled_at, fallback_at, dimension_at, side_at, choice_at, choices_at, default_at, interlink_at, member_at, truth_at};
ghost use Rattle.aol_model_types.specs.Types.{IsTilerOn, IsReadTask};
ghost use Rattle.aol_link.specs.declared.link.When.TheVariants.{Always};
ghost use Rattle.aol_model_types.specs.declared.place.Key.TheVariants.{KModulo};
ghost use Rattle.aol_document_reading.specs.Parts.{interlink_by_parts, repeated_by_parts};
ghost use Rattle.aol_document_reading.specs.Trails.{steps_of};

use crate::reading::forms::{
    filled_elements_of, integer_of, is_null, member_of, need, object_of, text_of, truth_of,
};
use crate::reading::from_tree::{FromTree, Reader};
use crate::reading::texts::same_text;
use crate::reading::trail::Trail;
use aol_link::{Choice, Fallback, Interlink, When};
use aol_model_types::limits::MAX_CHOICES;
use aol_model_types::{DocRefused, Key, Repeated, Task, TilerOn};
use aol_shape::{Items, LimitName, NoMemory};
use serde_json::Value;
use std::alloc::Global;

impl FromTree for TilerOn {
    ghost reading = { λ later. tiler_on_at };

    ghost guarantees = { IsTilerOn };

    ghost depth = { 1 };

    fn from_tree(reader: Reader, at: &Trail<'_>, tree: &Value) -> Result<TilerOn, DocRefused> {
        object_of(at, tree, &[Key::KOuter, Key::KInner, Key::KTiler], &[])?;
        Ok(TilerOn {
            outer: reader.member(at, tree, Key::KOuter)?,
            inner: reader.member(at, tree, Key::KInner)?,
            tiler: reader.member(at, tree, Key::KTiler)?,
        })
    }
}

/// An outer input with a tiler.
fn tiled_of(reader: Reader, at: &Trail<'_>, tree: &Value) -> Result<Fallback, DocRefused>
    requires { length (steps_of at.now) < 12 }
    ensures read { Gives result (tiled_at (steps_of at.now) (view tree.now)) }
    ensures types { IfOk result IsFallback }
{
    object_of(at, tree, &[Key::KOuter, Key::KTiler], &[])?;
    let outer = reader.member(at, tree, Key::KOuter)?;
    let tiler = reader.member(at, tree, Key::KTiler)?;
    Ok(Fallback::Tiled { outer, tiler })
}

impl FromTree for Fallback {
    ghost reading = { λ later. fallback_at };

    ghost guarantees = { IsFallback };

    ghost depth = { 1 };

    fn from_tree(reader: Reader, at: &Trail<'_>, tree: &Value) -> Result<Fallback, DocRefused> {
        if tree.is_object() {
            return tiled_of(reader, at, tree);
        }
        let number = integer_of(at, tree)?;
        Ok(Fallback::Number(number))
    }
}

/// A dimension, or none.
fn dimension_of(at: &Trail<'_>, tree: &Value) -> Result<Option<u32>, DocRefused>
    requires { length (steps_of at.now) ≤ 12 }
    ensures { Gives result (dimension_at (steps_of at.now) (view tree.now)) }
{
    if is_null(tree) {
        return Ok(None);
    }
    let number = integer_of(at, tree)?;
    if number < 0 || number > 11 {
        return Err(DocRefused::Grammar(at.place()));
    }
    Ok(Some(number as u32))
}

/// The repetitions that a choice is for: the side of its dimension, or all where it has none.
fn side_of(dimension: Option<u32>, at: &Trail<'_>, tree: &Value) -> Result<When, DocRefused>
    requires { length (steps_of at.now) ≤ 12 }
    ensures { Gives result (side_at dimension (steps_of at.now) (view tree.now)) }
{
    let Some(dimension) = dimension else {
        need(at, is_null(tree))?;
        return Ok(When::Always);
    };
    let side = text_of(at, tree)?;
    if same_text(side, "low") {
        Ok(When::Low(dimension))
    } else if same_text(side, "high") {
        Ok(When::High(dimension))
    } else {
        Err(DocRefused::Grammar(at.place()))
    }
}

impl FromTree for Choice {
    ghost reading = { λ later. choice_at };

    ghost guarantees = { IsChoice };

    ghost depth = { 2 };

    fn from_tree(reader: Reader, at: &Trail<'_>, tree: &Value) -> Result<Choice, DocRefused> {
        object_of(at, tree, &[Key::KDimension, Key::KSide, Key::KValue], &[])?;
        let dimension = member_of(at, tree, Key::KDimension)?;
        let dimension = dimension_of(&Trail::Key(at, Key::KDimension), dimension)?;
        let side = member_of(at, tree, Key::KSide)?;
        let when = side_of(dimension, &Trail::Key(at, Key::KSide), side)?;
        let take = reader.member(at, tree, Key::KValue)?;
        Ok(Choice { when, take })
    }
}

/// The choices of a default.
fn choices_of(reader: Reader, at: &Trail<'_>, tree: &Value) -> Result<Items<Choice>, DocRefused>
    requires { length (steps_of at.now) + 3 ≤ 12 }
    ensures read { Gives result (choices_at (steps_of at.now) (view tree.now)) }
    ensures types { IfOk result (λ cs. AllByRecursion IsChoice cs) }
    ensures few { IfOk result (λ cs. (1 ≤ length cs) × (length cs < 2 ^ 32)) }
{
    let trees = filled_elements_of(at, tree)?;
    if trees.len() > MAX_CHOICES {
        return Err(DocRefused::Limit(at.place(), LimitName::Choices));
    }
    let choices = reader.elements(at, trees)?;
    Ok(Items::from_vec(choices))
}

/// The one choice of a default of version 1.
fn one_choice(alloc: Global, take: Fallback) -> Result<Items<Choice>, NoMemory>
    ensures { IfOk result (λ cs. cs ≡ record { when = Always; take = take } ∷ []) }
{
    let when = When::Always;
    let mut choices = Items::new(alloc);
    choices.push(Choice { when, take })?;
    Ok(choices)
}

/// What stands in for repetitions outside the space: nothing where the link wraps.
fn default_of(
    reader: Reader,
    wraps: bool,
    at: &Trail<'_>,
    tree: &Value,
) -> Result<Items<Choice>, DocRefused>
    requires { length (steps_of at.now) + 3 ≤ 12 }
    ensures read { Gives result (default_at reader.later wraps (steps_of at.now) (view tree.now)) }
    ensures types { IfOk result (λ cs. AllByRecursion IsChoice cs) }
    ensures few { IfOk result (λ cs. length cs < 2 ^ 32) }
    ensures wraps { IfOk result (λ cs. (wraps ≡ true) ↔ (cs ≡ [])) }
{
    if wraps {
        need(at, is_null(tree))?;
        return Ok(Items::new(reader.alloc));
    }
    if reader.later {
        return choices_of(reader, at, tree);
    }
    let take = Fallback::from_tree(reader, at, tree)?;
    let choices = one_choice(reader.alloc, take)?;
    Ok(choices)
}

/// Whether a link wraps.
fn wraps(at: &Trail<'_>, tree: &Value) -> Result<bool, DocRefused>
    requires { length (steps_of at.now) < 12 }
    ensures { Gives result (member_at (steps_of at.now) (view tree.now) KModulo truth_at) }
{
    let modulo = member_of(at, tree, Key::KModulo)?;
    truth_of(&Trail::Key(at, Key::KModulo), modulo)
}

/// A link between repetitions.
fn interlink_of(reader: Reader, at: &Trail<'_>, tree: &Value) -> Result<Interlink, DocRefused>
    requires { length (steps_of at.now) + 4 ≤ 12 }
    ensures read { Gives result (interlink_by_parts reader.later (steps_of at.now) (view tree.now)) }
    ensures types { IfOk result IsInterlink }
{
    let keys = [
        Key::KFrom,
        Key::KTo,
        Key::KDistance,
        Key::KModulo,
        Key::KDefault,
    ];
    object_of(at, tree, &keys, &[])?;
    let ends = reader.three(at, tree, (Key::KFrom, Key::KTo, Key::KDistance))?;
    let wrap = wraps(at, tree)?;
    let default = member_of(at, tree, Key::KDefault)?;
    let rest = default_of(reader, wrap, &Trail::Key(at, Key::KDefault), default)?;
    let (from, to, distance) = ends;
    Ok(Interlink {
        from,
        to,
        distance,
        wrap,
        rest,
    })
}

impl FromTree for Interlink {
    ghost reading = { λ later. interlink_at later };

    ghost guarantees = { IsInterlink };

    ghost depth = { 4 };

    fn from_tree(reader: Reader, at: &Trail<'_>, tree: &Value) -> Result<Interlink, DocRefused> {
        interlink_of(reader, at, tree)
    }
}

/// A task at each point of a space.
pub(super) fn repeated_of(reader: Reader, at: &Trail<'_>, tree: &Value) -> Result<Task, DocRefused>
    requires { length (steps_of at.now) + 6 ≤ 12 }
    ensures read { Gives result (repeated_by_parts reader.later (steps_of at.now) (view tree.now)) }
    ensures types { IfOk result IsReadTask }
{
    let keys = [
        Key::KKind,
        Key::KName,
        Key::KIn,
        Key::KOut,
        Key::KSpace,
        Key::KTask,
        Key::KTilers,
        Key::KLinks,
    ];
    object_of(at, tree, &keys, &[])?;
    let head = reader.head(at, tree)?;
    let inner = reader.two(at, tree, Key::KSpace, Key::KTask)?;
    let joins = reader.two(at, tree, Key::KTilers, Key::KLinks)?;
    let (name, ins, outs) = head;
    let (space, task) = inner;
    let (tilers, links) = joins;
    Ok(Task::Repeated(Repeated {
        name,
        ins: Items::from_vec(ins),
        outs: Items::from_vec(outs),
        space,
        task,
        tilers,
        links,
    }))
}

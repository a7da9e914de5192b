ghost use Rattle.std.specs.Prelude.{◌≡◌, ◌≤◌, ◌<◌, ◌^◌, length, map, true, IfOk};
ghost use Rattle.std.specs.List.{list_any};
ghost use Rattle.serde_json.specs.View.{view};
ghost use Rattle.aol_shape.specs.Lists.{same};
ghost use Rattle.aol_shape.specs.Texts.{is_name};
ghost use Rattle.aol_shape.specs.Shape.{IsShape};
ghost use Rattle.aol_shape.specs.Vectors.{IsVector};
ghost use Rattle.aol_tiler.specs.Tiler.{IsTiler};
ghost use Rattle.aol_expr_tree.specs.Tree.{IsExpr};
ghost use Rattle.aol_model_types.specs.Answers.{Gives, lent, text_refusal, expr_refusal};
ghost use Rattle.aol_model_types.specs.Reading.{kind_at, name_at, text_at, shape_at, vector_at, tiler_at, expr_at};
ghost use Rattle.aol_document_reading.specs.Trails.{steps_of};

use crate::reading::forms::{member_of, need, text_of};
use crate::reading::from_tree::{FromTree, Reader};
use crate::reading::trail::Trail;
use aol_expr::{Expr, ExprRefused, read_expr};
use aol_model_types::{DocRefused, Key};
use aol_shape::{IntVec, Name, Shape, is_name};
use aol_tiler::Tiler;
use aol_vsl::{VslRefused, read_shape, read_tiler, read_vector};
use serde_json::Value;

/// Whether the texts are equal.
pub(super) fn same_text(first: &str, second: &str) -> bool
    ensures { result ≡ same first.now second.now }
{
    first == second
}

/// Whether the kind equals one of these.
fn is_one_of(kind: &str, kinds: &[&str]) -> bool
    ensures { result ≡ list_any (λ k. same kind.now k.now) kinds.now }
{
    kinds.iter().any(|one| same_text(kind, one))
}

/// Whether the kind is among these texts.
fn is_among(kind: &str, kinds: &[&str]) -> bool
    ensures { result ≡ list_any (same kind.now) (map (λ k. k.now) kinds.now) }
{
    is_one_of(kind, kinds)
}

/// The kind of an object that has one, which is one of these.
pub(super) fn kind_of<'a>(
    at: &Trail<'_>,
    tree: &'a Value,
    kinds: &[&str],
) -> Result<&'a str, DocRefused>
    requires { length (steps_of at.now) < 12 }
    ensures { Gives (lent result) (kind_at (map (λ k. k.now) kinds.now) (steps_of at.now) (view tree.now)) }
{
    let kind = member_of(at, tree, Key::KKind)?;
    let at = Trail::Key(at, Key::KKind);
    let kind = text_of(&at, kind)?;
    need(&at, is_among(kind, kinds))?;
    Ok(kind)
}

/// The text at this place, short enough that each of its bytes has a number.
fn short_text_of<'a>(at: &Trail<'_>, tree: &'a Value) -> Result<&'a str, DocRefused>
    requires { length (steps_of at.now) ≤ 12 }
    ensures read { Gives (lent result) (text_at (steps_of at.now) (view tree.now)) }
    ensures short { IfOk result (λ text. length text.now < 2 ^ 32) }
{
    let text = text_of(at, tree)?;
    if text.len() > 4294967295 {
        return Err(DocRefused::NoMemory);
    }
    Ok(text)
}

/// The refusal of a text at this place.
fn text_refused(at: &Trail<'_>, refused: VslRefused) -> DocRefused
    requires { length (steps_of at.now) ≤ 12 }
    ensures { result ≡ text_refusal (steps_of at.now) refused }
{
    match refused {
        VslRefused::At(byte) => DocRefused::Grammar(at.byte(byte)),
        VslRefused::Limit(byte, passed) => DocRefused::Limit(at.byte(byte), passed),
        VslRefused::NoMemory => DocRefused::NoMemory,
    }
}

/// The refusal of an expression at this place.
fn expr_refused(at: &Trail<'_>, refused: ExprRefused) -> DocRefused
    requires { length (steps_of at.now) ≤ 12 }
    ensures { result ≡ expr_refusal (steps_of at.now) refused }
{
    match refused {
        ExprRefused::At(byte) => DocRefused::Grammar(at.byte(byte)),
        ExprRefused::Limit(byte, passed) => DocRefused::Limit(at.byte(byte), passed),
        ExprRefused::NoMemory => DocRefused::NoMemory,
    }
}

impl FromTree for Name {
    ghost reading = { λ later. name_at };

    ghost guarantees = { λ name. is_name name ≡ true };

    ghost depth = { 0 };

    fn from_tree(reader: Reader, at: &Trail<'_>, tree: &Value) -> Result<Name, DocRefused> {
        let text = text_of(at, tree)?;
        need(at, is_name(text))?;
        Ok(Name::from_str(reader.alloc, text)?)
    }
}

impl FromTree for Shape {
    ghost reading = { λ later. shape_at };

    ghost guarantees = { IsShape };

    ghost depth = { 0 };

    fn from_tree(reader: Reader, at: &Trail<'_>, tree: &Value) -> Result<Shape, DocRefused> {
        match read_shape(reader.alloc, short_text_of(at, tree)?) {
            Ok(shape) => Ok(shape),
            Err(refused) => Err(text_refused(at, refused)),
        }
    }
}

impl FromTree for IntVec {
    ghost reading = { λ later. vector_at };

    ghost guarantees = { IsVector };

    ghost depth = { 0 };

    fn from_tree(reader: Reader, at: &Trail<'_>, tree: &Value) -> Result<IntVec, DocRefused> {
        match read_vector(reader.alloc, short_text_of(at, tree)?) {
            Ok(vector) => Ok(vector),
            Err(refused) => Err(text_refused(at, refused)),
        }
    }
}

impl FromTree for Tiler {
    ghost reading = { λ later. tiler_at };

    ghost guarantees = { IsTiler };

    ghost depth = { 0 };

    fn from_tree(reader: Reader, at: &Trail<'_>, tree: &Value) -> Result<Tiler, DocRefused> {
        match read_tiler(reader.alloc, short_text_of(at, tree)?) {
            Ok(tiler) => Ok(tiler),
            Err(refused) => Err(text_refused(at, refused)),
        }
    }
}

impl FromTree for Expr {
    ghost reading = { λ later. expr_at };

    ghost guarantees = { IsExpr };

    ghost depth = { 0 };

    fn from_tree(reader: Reader, at: &Trail<'_>, tree: &Value) -> Result<Expr, DocRefused> {
        match read_expr(reader.alloc, short_text_of(at, tree)?) {
            Ok(expr) => Ok(expr),
            Err(refused) => Err(expr_refused(at, refused)),
        }
    }
}

ghost use Rattle.std.specs.Prelude.{◌≡◌, IfOk};
ghost use Rattle.serde_json.specs.Data.{string, put};
ghost use Rattle.serde_json.specs.View.{view, members_view};
ghost use Rattle.aol_model_types.specs.Places.{key_text};
ghost use Rattle.aol_document_writing.specs.Written.{AreWritten};
ghost use Rattle.aol_model_types.specs.Trees.{IsWritten};
ghost use Rattle.aol_model_types.specs.Writing.{list_tree, integer_tree, shape_tree, tiler_tree};
ghost use Rattle.aol_vsl.specs.Text.{vector_text};
ghost use Rattle.aol_expr_tree.specs.Writing.{expr_text};

use aol_expr::{Expr, write_expr};
use aol_model_types::Key;
use aol_shape::{IntVec, Items, Name, NoMemory, Shape};
use aol_tiler::Tiler;
use aol_vsl::{write_shape, write_tiler, write_vector};
use serde_json::{Map, Value, push, put};
use std::alloc::Global;

/// A value for which one tree stands.
pub(super) trait ToTree {
    ghost use Rattle.serde_json.specs.Data.{Data};

    ghost tree: { Self → Data };

    fn to_tree(&self, alloc: Global) -> Result<Value, NoMemory>
        ensures tree { IfOk result (λ v. view v ≡ tree self.now) }
        ensures written { IfOk result (λ v. IsWritten (view v)) };
}

/// A text.
pub(super) fn text_of(alloc: Global, text: &str) -> Result<Value, NoMemory>
    ensures tree { IfOk result (λ v. view v ≡ string text.now) }
    ensures written { IfOk result (λ v. IsWritten (view v)) }
{
    Ok(Value::try_from_str(alloc, text)?)
}

/// A text that was made for the tree.
fn text_tree(text: Name) -> Value
    ensures tree { view result ≡ string text }
    ensures written { IsWritten (view result) }
{
    Value::String(text.into_string())
}

/// Puts a tree in, by its key.
pub(super) fn put_value(
    object: &mut Map<String, Value>,
    alloc: Global,
    key: Key,
    tree: Value,
) -> Result<(), NoMemory>
    requires { IsWritten (view tree) }
    ensures put { IfOk result (λ u. members_view object.new.entries ≡ put (key_text key) (view tree) (members_view object.old.entries)) }
    ensures written { IfOk result (λ u. AreWritten (members_view object.old.entries) → AreWritten (members_view object.new.entries)) }
{
    put(object, alloc, key.text(), tree)?;
    Ok(())
}

/// Puts a text in, by its key.
pub(super) fn put_text(
    object: &mut Map<String, Value>,
    alloc: Global,
    key: Key,
    text: &str,
) -> Result<(), NoMemory>
    ensures put { IfOk result (λ u. members_view object.new.entries ≡ put (key_text key) (string text.now) (members_view object.old.entries)) }
    ensures written { IfOk result (λ u. AreWritten (members_view object.old.entries) → AreWritten (members_view object.new.entries)) }
{
    let tree = text_of(alloc, text)?;
    put_value(object, alloc, key, tree)
}

/// Puts the tree of a value in, by its key.
pub(super) fn put_tree<T: ToTree>(
    object: &mut Map<String, Value>,
    alloc: Global,
    key: Key,
    value: &T,
) -> Result<(), NoMemory>
    ensures put { IfOk result (λ u. members_view object.new.entries ≡ put (key_text key) (T.tree value.now) (members_view object.old.entries)) }
    ensures written { IfOk result (λ u. AreWritten (members_view object.old.entries) → AreWritten (members_view object.new.entries)) }
{
    let tree = value.to_tree(alloc)?;
    put_value(object, alloc, key, tree)
}

/// An array of the trees of these items.
pub(super) fn list_of<T: ToTree>(alloc: Global, items: &[T]) -> Result<Value, NoMemory>
    ensures tree { IfOk result (λ v. view v ≡ list_tree T.tree items.now) }
    ensures written { IfOk result (λ v. IsWritten (view v)) }
{
    let mut trees = Vec::with_capacity(alloc, items.len())?;
    for item in items {
        let tree = item.to_tree(alloc)?;
        push(&mut trees, tree)?;
    }
    Ok(Value::Array(trees))
}

impl<T: ToTree> ToTree for Items<T> {
    ghost tree = { list_tree T.tree };

    fn to_tree(&self, alloc: Global) -> Result<Value, NoMemory> {
        list_of(alloc, self.as_slice())
    }
}

impl ToTree for Name {
    ghost tree = { string };

    fn to_tree(&self, alloc: Global) -> Result<Value, NoMemory> {
        text_of(alloc, self.as_str())
    }
}

impl ToTree for i64 {
    ghost tree = { integer_tree };

    fn to_tree(&self, _alloc: Global) -> Result<Value, NoMemory> {
        Ok(Value::from(*self))
    }
}

impl ToTree for Shape {
    ghost tree = { shape_tree };

    fn to_tree(&self, alloc: Global) -> Result<Value, NoMemory> {
        Ok(text_tree(write_shape(alloc, self)?))
    }
}

impl ToTree for IntVec {
    ghost tree = { λ v. string (vector_text v) };

    fn to_tree(&self, alloc: Global) -> Result<Value, NoMemory> {
        Ok(text_tree(write_vector(alloc, self)?))
    }
}

impl ToTree for Tiler {
    ghost tree = { tiler_tree };

    fn to_tree(&self, alloc: Global) -> Result<Value, NoMemory> {
        Ok(text_tree(write_tiler(alloc, self)?))
    }
}

impl ToTree for Expr {
    ghost tree = { λ e. string (expr_text e) };

    fn to_tree(&self, alloc: Global) -> Result<Value, NoMemory> {
        Ok(text_tree(write_expr(alloc, self)?))
    }
}

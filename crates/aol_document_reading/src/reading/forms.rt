ghost use Rattle.std.specs.Prelude.{◌≡◌, ◌≤◌, length, count_by, IfOk, true};
ghost use Rattle.std.specs.List.{list_all};
ghost use Rattle.serde_json.specs.View.{view};
ghost use Rattle.serde_json.specs.Find.{get};
ghost use Rattle.aol_shape.specs.Numbers.{fits_64};
ghost use Rattle.aol_model_types.specs.Places.{whole, key_text};
ghost use Rattle.aol_model_types.specs.Reading.{text_at, needs, truth_at, integer_at, found, has_key, has_keys, member_count, object_at, list_at, filled_list_at, is_null};
ghost use Rattle.aol_model_types.specs.Answers.{Gives, lent, lent_view, lent_views};
ghost use Rattle.aol_document_reading.specs.Trails.{steps_of};

use crate::reading::trail::Trail;
use aol_model_types::{DocRefused, Key};
use serde_json::Value;

/// The form of the value is right.
pub(super) fn need(at: &Trail<'_>, is_right: bool) -> Result<(), DocRefused>
    requires { length (steps_of at.now) ≤ 12 }
    ensures { Gives result (needs (steps_of at.now) is_right) }
{
    if is_right {
        Ok(())
    } else {
        Err(DocRefused::Grammar(at.place()))
    }
}

/// A text as it stands.
pub(super) fn text_of<'a>(at: &Trail<'_>, tree: &'a Value) -> Result<&'a str, DocRefused>
    requires { length (steps_of at.now) ≤ 12 }
    ensures { Gives (lent result) (text_at (steps_of at.now) (view tree.now)) }
{
    match tree.as_str() {
        Some(text) => Ok(text),
        None => Err(DocRefused::Grammar(at.place())),
    }
}

/// True or false.
pub(super) fn truth_of(at: &Trail<'_>, tree: &Value) -> Result<bool, DocRefused>
    requires { length (steps_of at.now) ≤ 12 }
    ensures { Gives result (truth_at (steps_of at.now) (view tree.now)) }
{
    match tree.as_bool() {
        Some(b) => Ok(b),
        None => Err(DocRefused::Grammar(at.place())),
    }
}

/// A whole number.
pub(super) fn integer_of(at: &Trail<'_>, tree: &Value) -> Result<i64, DocRefused>
    requires { length (steps_of at.now) ≤ 12 }
    ensures read { Gives result (integer_at (steps_of at.now) (view tree.now)) }
    ensures types { IfOk result (λ z. fits_64 z ≡ true) }
{
    match tree.as_i64() {
        Some(z) => Ok(z),
        None => Err(DocRefused::Grammar(at.place())),
    }
}

/// The elements of a list.
#[tactic(auto, using(crate::proofs::Elements::listed))]
pub(super) fn elements_of<'a>(at: &Trail<'_>, tree: &'a Value) -> Result<&'a [Value], DocRefused>
    requires { length (steps_of at.now) ≤ 12 }
    ensures list { Gives (lent_views result) (list_at (steps_of at.now) (view tree.now)) }
{
    match tree.as_array() {
        Some(list) => Ok(list.as_slice()),
        None => Err(DocRefused::Grammar(at.place())),
    }
}

/// The member with this key.
pub(super) fn member_of<'a>(
    at: &Trail<'_>,
    tree: &'a Value,
    key: Key,
) -> Result<&'a Value, DocRefused>
    requires { length (steps_of at.now) ≤ 12 }
    ensures { Gives (lent_view result) (found (steps_of at.now) (get (key_text key) (view tree.now))) }
{
    match tree.get(key.text()) {
        Some(value) => Ok(value),
        None => Err(DocRefused::Grammar(at.place())),
    }
}

/// The value has this key.
pub(super) fn has_key(tree: &Value, key: Key) -> bool
    ensures { result ≡ has_key (view tree.now) key }
{
    tree.get(key.text()).is_some()
}

/// How many of the keys the value has.
fn count_of(tree: &Value, keys: &[Key]) -> usize
    ensures count { result ≡ count_by (has_key (view tree.now)) keys.now }
    ensures most { result ≤ length keys.now }
{
    keys.iter().filter(|key| has_key(tree, **key)).count()
}

/// How many members the value has.
#[tactic(auto, using(crate::proofs::Elements::counted))]
fn members_of(tree: &Value) -> usize
    ensures { result ≡ member_count (view tree.now) }
{
    match tree.as_object() {
        Some(map) => map.len(),
        None => 0,
    }
}

/// The value has all the keys.
fn has_all(tree: &Value, keys: &[Key]) -> bool
    ensures { result ≡ list_all (has_key (view tree.now)) keys.now }
{
    keys.iter().all(|key| has_key(tree, *key))
}

/// The value is an object with these keys, perhaps those, and no others.
fn has_keys(tree: &Value, keys: &[Key], others: &[Key]) -> bool
    ensures { result ≡ has_keys keys.now others.now (view tree.now) }
{
    has_all(tree, keys) && members_of(tree) == keys.len() + count_of(tree, others)
}

/// An object with exactly these keys, and perhaps those.
pub(super) fn object_of(
    at: &Trail<'_>,
    tree: &Value,
    keys: &[Key],
    others: &[Key],
) -> Result<(), DocRefused>
    requires { length (steps_of at.now) ≤ 12 }
    ensures { Gives result (object_at keys.now others.now (steps_of at.now) (view tree.now)) }
{
    need(at, has_keys(tree, keys, others))
}

/// The elements of a list that is not empty.
pub(super) fn filled_elements_of<'a>(
    at: &Trail<'_>,
    tree: &'a Value,
) -> Result<&'a [Value], DocRefused>
    requires { length (steps_of at.now) ≤ 12 }
    ensures list { Gives (lent_views result) (filled_list_at (steps_of at.now) (view tree.now)) }
    ensures filled { IfOk result (λ trees. 1 ≤ length trees.now) }
{
    let trees = elements_of(at, tree)?;
    need(at, !trees.is_empty())?;
    Ok(trees)
}

/// The value is null.
#[tactic(auto, using(crate::proofs::Elements::null_tested))]
pub(super) fn is_null(tree: &Value) -> bool
    ensures { result ≡ is_null (view tree.now) }
{
    tree.is_null()
}

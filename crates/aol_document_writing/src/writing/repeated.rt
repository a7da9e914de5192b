ghost use Rattle.std.specs.Prelude.{◌≡◌, IfOk, if◌then◌else◌};
ghost use Rattle.serde_json.specs.Data.{no_members, null, put};
ghost use Rattle.serde_json.specs.View.{view, members_view};
ghost use Rattle.aol_document_writing.specs.Written.{AreWritten};
ghost use Rattle.aol_model_types.specs.Places.{key_text};
ghost use Rattle.aol_model_types.specs.declared.place.Key.TheVariants.{KDefault};
ghost use Rattle.aol_model_types.specs.Trees.{IsWritten};
ghost use Rattle.aol_model_types.specs.Writing.{members_from, when_members, list_tree, tiler_on_tree, fallback_tree, choice_tree, interlink_tree, task_tree};
ghost use Rattle.aol_model_types.specs.declared.task.Task.TheVariants as tasks;

use crate::writing::to_tree::{ToTree, put_text, put_tree, put_value};
use aol_link::{Choice, Fallback, Interlink, When};
use aol_model_types::{Key, Repeated, TilerOn};
use aol_shape::NoMemory;
use serde_json::{Map, Value};
use std::alloc::Global;

impl ToTree for TilerOn {
    ghost tree = { tiler_on_tree };

    fn to_tree(&self, alloc: Global) -> Result<Value, NoMemory> {
        let mut object = Map::new(alloc);
        put_tree(&mut object, alloc, Key::KOuter, &self.outer)?;
        put_tree(&mut object, alloc, Key::KInner, &self.inner)?;
        put_tree(&mut object, alloc, Key::KTiler, &self.tiler)?;
        Ok(Value::Object(object))
    }
}

impl ToTree for Fallback {
    ghost tree = { fallback_tree };

    fn to_tree(&self, alloc: Global) -> Result<Value, NoMemory> {
        match self {
            Fallback::Number(number) => number.to_tree(alloc),
            Fallback::Tiled { outer, tiler } => {
                let mut object = Map::new(alloc);
                put_tree(&mut object, alloc, Key::KOuter, outer)?;
                put_tree(&mut object, alloc, Key::KTiler, tiler)?;
                Ok(Value::Object(object))
            }
        }
    }
}

/// Puts the dimension and the side of a choice in an object that has no members yet.
fn put_when(object: &mut Map<String, Value>, alloc: Global, when: When) -> Result<(), NoMemory>
    ensures put { IfOk result (λ u. members_view object.old.entries ≡ no_members → members_view object.new.entries ≡ members_from (when_members when)) }
    ensures written { IfOk result (λ u. AreWritten (members_view object.old.entries) → AreWritten (members_view object.new.entries)) }
{
    match when {
        When::Always => {
            put_value(object, alloc, Key::KSide, Value::Null)?;
            put_value(object, alloc, Key::KDimension, Value::Null)
        }
        When::Low(k) => {
            put_text(object, alloc, Key::KSide, "low")?;
            put_value(object, alloc, Key::KDimension, Value::from(k))
        }
        When::High(k) => {
            put_text(object, alloc, Key::KSide, "high")?;
            put_value(object, alloc, Key::KDimension, Value::from(k))
        }
    }
}

impl ToTree for Choice {
    ghost tree = { choice_tree };

    fn to_tree(&self, alloc: Global) -> Result<Value, NoMemory> {
        let mut object = Map::new(alloc);
        put_when(&mut object, alloc, self.when)?;
        put_tree(&mut object, alloc, Key::KValue, &self.take)?;
        Ok(Value::Object(object))
    }
}

/// Puts in what stands in for repetitions outside the space.
fn put_default(
    object: &mut Map<String, Value>,
    alloc: Global,
    link: &Interlink,
) -> Result<(), NoMemory>
    ensures put { IfOk result (λ u. members_view object.new.entries ≡ put (key_text KDefault) (if link.now.wrap then null else list_tree choice_tree link.now.rest) (members_view object.old.entries)) }
    ensures written { IfOk result (λ u. AreWritten (members_view object.old.entries) → AreWritten (members_view object.new.entries)) }
{
    if link.wrap {
        return put_value(object, alloc, Key::KDefault, Value::Null);
    }
    put_tree(object, alloc, Key::KDefault, &link.rest)
}

impl ToTree for Interlink {
    ghost tree = { interlink_tree };

    fn to_tree(&self, alloc: Global) -> Result<Value, NoMemory> {
        let mut object = Map::new(alloc);
        put_default(&mut object, alloc, self)?;
        put_tree(&mut object, alloc, Key::KFrom, &self.from)?;
        put_tree(&mut object, alloc, Key::KTo, &self.to)?;
        put_tree(&mut object, alloc, Key::KDistance, &self.distance)?;
        put_value(&mut object, alloc, Key::KModulo, Value::Bool(self.wrap))?;
        Ok(Value::Object(object))
    }
}

/// One task at each point of a space.
pub(super) fn repeated_of(alloc: Global, task: &Repeated) -> Result<Value, NoMemory>
    ensures tree { IfOk result (λ v. view v ≡ task_tree (tasks.Repeated task.now)) }
    ensures written { IfOk result (λ v. IsWritten (view v)) }
{
    let mut object = Map::new(alloc);
    put_tree(&mut object, alloc, Key::KLinks, &task.links)?;
    put_tree(&mut object, alloc, Key::KTilers, &task.tilers)?;
    put_tree(&mut object, alloc, Key::KTask, &task.task)?;
    put_tree(&mut object, alloc, Key::KSpace, &task.space)?;
    put_tree(&mut object, alloc, Key::KOut, &task.outs)?;
    put_tree(&mut object, alloc, Key::KIn, &task.ins)?;
    put_tree(&mut object, alloc, Key::KName, &task.name)?;
    put_text(&mut object, alloc, Key::KKind, "repeated")?;
    Ok(Value::Object(object))
}

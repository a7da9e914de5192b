ghost use Rattle.std.specs.Prelude.{◌≡◌, [], ◌∷◌, map, IfOk};
ghost use Rattle.serde_json.specs.Data.{string};
ghost use Rattle.serde_json.specs.View.{view};
ghost use Rattle.aol_model_types.specs.Trees.{IsWritten};
ghost use Rattle.aol_model_types.specs.Writing.{at, object_of, shape_tree, input_member, pick_tree, step_tree, entry_tree};
ghost use Rattle.aol_model_types.specs.declared.place.Key.TheVariants.{KKind, KTask, KOuter, KBlock};
ghost use Rattle.aol_model_types.specs.declared.job.Step.TheVariants as step;

use crate::writing::to_tree::{ToTree, put_text, put_tree};
use aol_model_types::{Entry, FuseArgs, InputArray, Key, Pick, Step};
use aol_shape::{Name, NoMemory, Shape};
use serde_json::{Map, Value, put};
use std::alloc::Global;

/// The main inputs by their names, which go in from the last to the first.
pub(super) fn inputs_of(alloc: Global, arrays: &[InputArray]) -> Result<Value, NoMemory>
    ensures tree { IfOk result (λ v. view v ≡ object_of (map input_member arrays.now)) }
    ensures written { IfOk result (λ v. IsWritten (view v)) }
{
    let mut left = arrays;
    let mut object = Map::new(alloc);
    while let Some((array, before)) = left.split_last() {
        let nums = array.nums.to_tree(alloc)?;
        put(&mut object, alloc, array.name.as_str(), nums)?;
        left = before;
    }
    Ok(Value::Object(object))
}

impl ToTree for Pick {
    ghost tree = { pick_tree };

    fn to_tree(&self, alloc: Global) -> Result<Value, NoMemory> {
        let mut object = Map::new(alloc);
        put_tree(&mut object, alloc, Key::KTo, &self.to)?;
        put_tree(&mut object, alloc, Key::KFrom, &self.from)?;
        put_tree(&mut object, alloc, Key::KTiler, &self.tiler)?;
        Ok(Value::Object(object))
    }
}

/// A step of kind tile, pave or skew.
fn blocks_of(
    alloc: Global,
    kind: &str,
    task: &Name,
    outer: &Shape,
    block: &Shape,
) -> Result<Value, NoMemory>
    ensures tree { IfOk result (λ v. view v ≡ object_of (at KKind (string kind.now) ∷ at KTask (string task.now) ∷ at KOuter (shape_tree outer.now) ∷ at KBlock (shape_tree block.now) ∷ [])) }
    ensures written { IfOk result (λ v. IsWritten (view v)) }
{
    let mut object = Map::new(alloc);
    put_text(&mut object, alloc, Key::KKind, kind)?;
    put_tree(&mut object, alloc, Key::KTask, task)?;
    put_tree(&mut object, alloc, Key::KOuter, outer)?;
    put_tree(&mut object, alloc, Key::KBlock, block)?;
    Ok(Value::Object(object))
}

/// A step of kind fuse.
fn fuse_of(alloc: Global, task: &Name, args: &FuseArgs) -> Result<Value, NoMemory>
    ensures tree { IfOk result (λ v. view v ≡ step_tree (step.Fuse task.now args.now)) }
    ensures written { IfOk result (λ v. IsWritten (view v)) }
{
    let mut object = Map::new(alloc);
    put_text(&mut object, alloc, Key::KKind, "fuse")?;
    put_tree(&mut object, alloc, Key::KTask, task)?;
    put_tree(&mut object, alloc, Key::KFirst, &args.first)?;
    put_tree(&mut object, alloc, Key::KSecond, &args.second)?;
    put_tree(&mut object, alloc, Key::KBlock, &args.block)?;
    put_tree(&mut object, alloc, Key::KTiler, &args.tiler)?;
    put_tree(&mut object, alloc, Key::KPicks, &args.picks)?;
    Ok(Value::Object(object))
}

impl ToTree for Step {
    ghost tree = { step_tree };

    fn to_tree(&self, alloc: Global) -> Result<Value, NoMemory> {
        match self {
            Step::Tile { task, outer, block } => blocks_of(alloc, "tile", task, outer, block),
            Step::Pave { task, args } => blocks_of(alloc, "pave", task, &args.outer, &args.block),
            Step::Skew { task, outer, block } => blocks_of(alloc, "skew", task, outer, block),
            Step::Fuse { task, args } => fuse_of(alloc, task, args),
        }
    }
}

impl ToTree for Entry {
    ghost tree = { entry_tree };

    fn to_tree(&self, alloc: Global) -> Result<Value, NoMemory> {
        let mut object = Map::new(alloc);
        put_tree(&mut object, alloc, Key::KLeaf, &self.leaf)?;
        put_tree(&mut object, alloc, Key::KProcessors, &self.processors)?;
        put_tree(&mut object, alloc, Key::KSpace, &self.space)?;
        put_tree(&mut object, alloc, Key::KPattern, &self.pattern)?;
        put_tree(&mut object, alloc, Key::KFrom, &self.from)?;
        put_tree(&mut object, alloc, Key::KTo, &self.to)?;
        Ok(Value::Object(object))
    }
}

ghost use Rattle.std.specs.Prelude.{◌≡◌, ◌++◌, ◌∷◌, string_bytes, IfOk};
ghost use Rattle.serde_json.specs.View.{view};
ghost use Rattle.aol_model_types.specs.Trees.{IsWritten};
ghost use Rattle.aol_model_types.specs.Writing.{hook_tree, part_tree, plain_tree, copied_tree, task_tree};
ghost use Rattle.aol_model_types.specs.declared.task.Task.TheVariants as tasks;

use crate::writing::ports::{input_ports_of, output_ports_of};
use crate::writing::repeated::repeated_of;
use crate::writing::to_tree::{ToTree, put_text, put_tree, put_value};
use aol_model_types::{Compound, Copied, Elementary, Hook, Key, Part, Plain, Task};
use aol_shape::NoMemory;
use serde_json::{Map, Value};
use std::alloc::{AllocError, Global};

/// A name, or two with a dot between.
fn hook_text(alloc: Global, part: &str, port: &str) -> Result<String, AllocError>
    ensures { IfOk result (λ text. string_bytes text ≡ part.now ++ 46 ∷ port.now) }
{
    let mut text = String::from_str(alloc, part)?;
    text.push('.')?;
    text.push_str(port)?;
    Ok(text)
}

impl ToTree for Hook {
    ghost tree = { hook_tree };

    fn to_tree(&self, alloc: Global) -> Result<Value, NoMemory> {
        match &self.part {
            None => self.port.to_tree(alloc),
            Some(part) => {
                let text = hook_text(alloc, part.as_str(), self.port.as_str())?;
                Ok(Value::String(text))
            }
        }
    }
}

impl ToTree for Part {
    ghost tree = { part_tree };

    fn to_tree(&self, alloc: Global) -> Result<Value, NoMemory> {
        let mut object = Map::new(alloc);
        put_tree(&mut object, alloc, Key::KName, &self.name)?;
        put_tree(&mut object, alloc, Key::KTask, &self.task)?;
        Ok(Value::Object(object))
    }
}

impl ToTree for Plain {
    ghost tree = { plain_tree };

    fn to_tree(&self, alloc: Global) -> Result<Value, NoMemory> {
        let mut object = Map::new(alloc);
        put_tree(&mut object, alloc, Key::KFrom, &self.from)?;
        put_tree(&mut object, alloc, Key::KTo, &self.to)?;
        Ok(Value::Object(object))
    }
}

impl ToTree for Copied {
    ghost tree = { copied_tree };

    fn to_tree(&self, alloc: Global) -> Result<Value, NoMemory> {
        let mut object = Map::new(alloc);
        put_tree(&mut object, alloc, Key::KFrom, &self.from)?;
        put_tree(&mut object, alloc, Key::KTo, &self.to)?;
        put_tree(&mut object, alloc, Key::KSpace, &self.by.space)?;
        put_tree(&mut object, alloc, Key::KPattern, &self.by.pattern)?;
        put_tree(&mut object, alloc, Key::KSource, &self.by.source)?;
        put_tree(&mut object, alloc, Key::KTarget, &self.by.target)?;
        Ok(Value::Object(object))
    }
}

/// A task that computes.
fn elementary_of(alloc: Global, task: &Elementary) -> Result<Value, NoMemory>
    ensures tree { IfOk result (λ v. view v ≡ task_tree (tasks.Elementary task.now)) }
    ensures written { IfOk result (λ v. IsWritten (view v)) }
{
    let mut object = Map::new(alloc);
    put_text(&mut object, alloc, Key::KKind, "elementary")?;
    put_tree(&mut object, alloc, Key::KName, &task.name)?;
    let ins = input_ports_of(alloc, task.ins.as_slice(), task.wide_in.as_slice())?;
    put_value(&mut object, alloc, Key::KIn, ins)?;
    let outs = output_ports_of(alloc, task.outs.as_slice(), task.wide_out.as_slice())?;
    put_value(&mut object, alloc, Key::KOut, outs)?;
    Ok(Value::Object(object))
}

/// A graph of tasks.
fn compound_of(alloc: Global, task: &Compound) -> Result<Value, NoMemory>
    ensures tree { IfOk result (λ v. view v ≡ task_tree (tasks.Compound task.now)) }
    ensures written { IfOk result (λ v. IsWritten (view v)) }
{
    let mut object = Map::new(alloc);
    put_text(&mut object, alloc, Key::KKind, "compound")?;
    put_tree(&mut object, alloc, Key::KName, &task.name)?;
    put_tree(&mut object, alloc, Key::KIn, &task.ins)?;
    put_tree(&mut object, alloc, Key::KOut, &task.outs)?;
    put_tree(&mut object, alloc, Key::KParts, &task.parts)?;
    put_tree(&mut object, alloc, Key::KLinks, &task.links)?;
    put_tree(&mut object, alloc, Key::KReshapes, &task.reshapes)?;
    Ok(Value::Object(object))
}

impl ToTree for Task {
    ghost tree = { task_tree };

    fn to_tree(&self, alloc: Global) -> Result<Value, NoMemory> {
        match self {
            Task::Elementary(task) => elementary_of(alloc, task),
            Task::Compound(task) => compound_of(alloc, task),
            Task::Repeated(task) => repeated_of(alloc, task),
        }
    }
}

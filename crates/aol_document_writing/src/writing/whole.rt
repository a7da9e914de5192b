ghost use Rattle.std.specs.Prelude.{◌≡◌, IfOk, true, false, Ok};
ghost use Rattle.serde_json.specs.View.{view};
ghost use Rattle.serde_json.specs.Written.{has_float};
ghost use Rattle.aol_model_types.specs.Readable.{IsReadable};
ghost use Rattle.aol_model_types.specs.Reading.{document_in};
ghost use Rattle.aol_model_types.specs.Trees.{IsWritten, is_tree};
ghost use Rattle.aol_model_types.specs.Writing.{model_tree, document_tree};

use crate::writing::job::inputs_of;
use crate::writing::to_tree::{ToTree, put_tree, put_value};
use aol_model_types::{Job, Key, Model};
use aol_shape::NoMemory;
use serde_json::{Map, Value};
use std::alloc::Global;

impl ToTree for Model {
    ghost tree = { model_tree };

    fn to_tree(&self, alloc: Global) -> Result<Value, NoMemory> {
        let mut object = Map::new(alloc);
        put_tree(&mut object, alloc, Key::KTasks, &self.tasks)?;
        put_tree(&mut object, alloc, Key::KMain, &self.main)?;
        Ok(Value::Object(object))
    }
}

/// The tree of a document.
fn document_of(alloc: Global, model: &Model, job: &Job) -> Result<Value, NoMemory>
    ensures tree { IfOk result (λ v. view v ≡ document_tree model.now job.now) }
    ensures written { IfOk result (λ v. IsWritten (view v)) }
{
    let mut object = Map::new(alloc);
    let input = inputs_of(alloc, job.input.as_slice())?;
    put_value(&mut object, alloc, Key::KInput, input)?;
    put_value(&mut object, alloc, Key::KVersion, Value::from(2u32))?;
    put_tree(&mut object, alloc, Key::KModel, model)?;
    put_tree(&mut object, alloc, Key::KTransform, &job.transform)?;
    put_tree(&mut object, alloc, Key::KAllocate, &job.allocate)?;
    Ok(Value::Object(object))
}

/// The tree of a model and a job as one document, in version 2 and with canonical texts.
///
/// The tree that is made has its keys in byte order, its numbers in 64 bits and no floats.
pub fn tree_of(alloc: Global, model: &Model, job: &Job) -> Result<Value, NoMemory>
    ensures tree { IfOk result (λ v. view v ≡ document_tree model.now job.now) }
    ensures held { IfOk result (λ v. is_tree (view v) ≡ true) }
    ensures whole { IfOk result (λ v. has_float (view v) ≡ false) }
{
    let tree = document_of(alloc, model, job)?;
    Ok(tree)
}

/// The same of a document for whose model and job some trees stand: it is read as the same document.
pub fn value_of(alloc: Global, model: &Model, job: &Job) -> Result<Value, NoMemory>
    requires { IsReadable model.now job.now }
    ensures tree { IfOk result (λ v. view v ≡ document_tree model.now job.now) }
    ensures held { IfOk result (λ v. is_tree (view v) ≡ true) }
    ensures whole { IfOk result (λ v. has_float (view v) ≡ false) }
    ensures again { IfOk result (λ v. document_in (view v) ≡ Ok (record { model = model.now; job = job.now })) }
{
    let tree = tree_of(alloc, model, job)?;
    Ok(tree)
}

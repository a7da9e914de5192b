ghost use Rattle.std.specs.Prelude.{◌≡◌, ◌+◌, ◌≤◌, ◌<◌, [], length, IfOk, true};
ghost use Rattle.std.specs.List.{AllByRecursion};
ghost use Rattle.serde_json.specs.View.{view, members_view};
ghost use Rattle.aol_model_types.specs.Answers.{Gives};
ghost use Rattle.aol_model_types.specs.Reading.{task_at, model_at, array_at, inputs_from, members_list, input_at, member_at, version_at, members_in, document_in};
ghost use Rattle.aol_model_types.specs.declared.place.Key.TheVariants.{KVersion};
ghost use Rattle.aol_model_types.specs.Places.{to_index};
ghost use Rattle.aol_model_types.specs.Readable.{IsReadable};
ghost use Rattle.aol_model_types.specs.Trees.{is_tree};
ghost use Rattle.aol_model_types.specs.Types.{IsCounted, IsReadTask, IsReadModel, IsInputArray, IsJob, IsDocument};
ghost use Rattle.aol_document_reading.specs.Parts.{job_in, members_by_parts};
ghost use Rattle.aol_document_reading.specs.Trails.{steps_of};

use crate::reading::forms::{filled_elements_of, has_key, integer_of, member_of, need, object_of};
use crate::reading::from_tree::{FromTree, Reader};
use crate::reading::repeated::repeated_of;
use crate::reading::tasks::{compound_of, elementary_of};
use crate::reading::texts::{kind_of, same_text};
use crate::reading::trail::Trail;
use aol_model_types::{DocRefused, Document, InputArray, Job, Key, Model, Task};
use aol_shape::{Items, Name, is_name};
use serde_json::{Map, Value};
use std::alloc::Global;

impl FromTree for Task {
    ghost reading = { task_at };

    ghost guarantees = { IsReadTask };

    ghost depth = { 6 };

    fn from_tree(reader: Reader, at: &Trail<'_>, tree: &Value) -> Result<Task, DocRefused> {
        let kind = kind_of(at, tree, &["elementary", "compound", "repeated"])?;
        if same_text(kind, "elementary") {
            elementary_of(reader, at, tree)
        } else if same_text(kind, "compound") {
            compound_of(reader, at, tree)
        } else {
            repeated_of(reader, at, tree)
        }
    }
}

impl FromTree for Model {
    ghost reading = { model_at };

    ghost guarantees = { IsReadModel };

    ghost depth = { 8 };

    fn from_tree(reader: Reader, at: &Trail<'_>, tree: &Value) -> Result<Model, DocRefused> {
        object_of(at, tree, &[Key::KTasks, Key::KMain], &[])?;
        let tasks = member_of(at, tree, Key::KTasks)?;
        let tasks_at = Trail::Key(at, Key::KTasks);
        let tasks = filled_elements_of(&tasks_at, tasks)?;
        let read = reader.elements(&tasks_at, tasks)?;
        let main = reader.member(at, tree, Key::KMain)?;
        Ok(Model {
            tasks: Items::from_vec(read),
            main,
        })
    }
}

/// One main input: its name, and its numbers. It has this number among those at the place.
fn array_of(
    reader: Reader,
    at: &Trail<'_>,
    number: u32,
    name: &str,
    nums: &Value,
) -> Result<InputArray, DocRefused>
    requires { length (steps_of at.now) + 2 ≤ 12 }
    ensures read { Gives result (array_at (to_index (steps_of at.now) number) (name.now, view nums.now)) }
    ensures types { IfOk result IsInputArray }
{
    let at = Trail::Index(&*at, number);
    need(&at, is_name(name))?;
    let nums = Items::from_tree(reader, &at, nums)?;
    let name = Name::from_str(reader.alloc, name)?;
    Ok(InputArray { name, nums })
}

/// The main inputs that the members spell, in byte order of their names.
fn arrays_of(
    reader: Reader,
    at: &Trail<'_>,
    members: &Map<String, Value>,
) -> Result<Items<InputArray>, DocRefused>
    requires { length (steps_of at.now) + 2 ≤ 12 }
    ensures read { Gives result (inputs_from (steps_of at.now) 0 (members_list (members_view members.now.entries))) }
    ensures types { IfOk result (λ xs. AllByRecursion IsInputArray xs × IsCounted xs) }
{
    if members.len() > 4294967295 {
        return Err(DocRefused::NoMemory);
    }
    let mut arrays = Items::new(reader.alloc);
    for (name, nums) in members {
        let array = array_of(reader, &*at, arrays.len() as u32, name.as_str(), nums)?;
        arrays.push(array)?;
    }
    Ok(arrays)
}

/// The main inputs.
fn input_of(reader: Reader, at: &Trail<'_>, tree: &Value) -> Result<Items<InputArray>, DocRefused>
    requires { length (steps_of at.now) + 2 ≤ 12 }
    ensures read { Gives result (input_at (steps_of at.now) (view tree.now)) }
    ensures types { IfOk result (λ xs. AllByRecursion IsInputArray xs × IsCounted xs) }
{
    match tree.as_object() {
        Some(members) => arrays_of(reader, at, members),
        None => Err(DocRefused::Grammar(at.place())),
    }
}

/// The member that says the version, which is 2.
fn version_of(at: &Trail<'_>, tree: &Value) -> Result<(), DocRefused>
    requires { length (steps_of at.now) < 12 }
    ensures { Gives result (member_at (steps_of at.now) (view tree.now) KVersion version_at) }
{
    let version = member_of(at, tree, Key::KVersion)?;
    let at = Trail::Key(&*at, Key::KVersion);
    let version = integer_of(&at, version)?;
    need(&at, version == 2)
}

/// The job of a document.
fn job_of(reader: Reader, at: &Trail<'_>, tree: &Value) -> Result<Job, DocRefused>
    requires { steps_of at.now ≡ [] }
    ensures read { Gives result (job_in (view tree.now)) }
    ensures types { IfOk result IsJob }
{
    let input = member_of(at, tree, Key::KInput)?;
    let input = input_of(reader, &Trail::Key(at, Key::KInput), input)?;
    let transform = reader.member(at, tree, Key::KTransform)?;
    let allocate = reader.member(at, tree, Key::KAllocate)?;
    Ok(Job {
        input,
        transform,
        allocate,
    })
}

/// The members of a document, the model and then the job.
fn parts_of(reader: Reader, at: &Trail<'_>, tree: &Value) -> Result<Document, DocRefused>
    requires { steps_of at.now ≡ [] }
    ensures read { Gives result (members_by_parts reader.later (view tree.now)) }
    ensures types { IfOk result (λ d. IsDocument d.model d.job) }
{
    let model = reader.member(at, tree, Key::KModel)?;
    let job = job_of(reader, at, tree)?;
    Ok(Document { model, job })
}

/// The members of a document.
fn members_of(reader: Reader, at: &Trail<'_>, tree: &Value) -> Result<Document, DocRefused>
    requires { steps_of at.now ≡ [] }
    ensures read { Gives result (members_in reader.later (view tree.now)) }
    ensures types { IfOk result (λ d. IsDocument d.model d.job) }
{
    parts_of(reader, at, tree)
}

/// The document of version 1 or 2.
fn read_document(alloc: Global, top: &Trail<'_>, tree: &Value) -> Result<Document, DocRefused>
    requires { steps_of top.now ≡ [] }
    ensures document { Gives result (document_in (view tree.now)) }
    ensures types { IfOk result (λ d. IsDocument d.model d.job) }
{
    let keys = [Key::KModel, Key::KInput, Key::KTransform, Key::KAllocate];
    object_of(top, tree, &keys, &[Key::KVersion])?;
    let later = has_key(tree, Key::KVersion);
    if later {
        version_of(top, tree)?;
    }
    members_of(Reader { alloc, later }, top, tree)
}

/// The document that a tree stands for, or the first place in the walk at which it stands for none.
///
/// The walk takes an object's form first, then its members in the order of the format's table, and a list's
/// elements in order. Documents of versions 1 and 2 are read; a document with the key `version` is of version 2.
/// Answers `Grammar` where a value, a key or a text there has the wrong form, and `Limit` where it passes a limit.
pub fn document_of(alloc: Global, tree: &Value) -> Result<Document, DocRefused>
    ensures document { Gives result (document_in (view tree.now)) }
    ensures types { IfOk result (λ d. IsDocument d.model d.job) }
    ensures readable { IfOk result (λ d. is_tree (view tree.now) ≡ true → IsReadable d.model d.job) }
{
    let document = read_document(alloc, &Trail::Top(alloc), tree)?;
    Ok(document)
}

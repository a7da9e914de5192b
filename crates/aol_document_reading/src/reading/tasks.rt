ghost use Rattle.std.specs.Prelude.{◌≡◌, ◌+◌, ◌≤◌, ◌<◌, length, Some, IfOk, IfErr, true};
ghost use Rattle.serde_json.specs.View.{view};
ghost use Rattle.aol_shape.specs.Texts.{is_name};
ghost use Rattle.aol_model_types.specs.declared.document.DocRefused.TheVariants as refusals;
ghost use Rattle.aol_model_types.specs.Answers.{Gives};
ghost use Rattle.aol_model_types.specs.Reading.{part_at, plain_at, copied_at, hook_at};
ghost use Rattle.aol_model_types.specs.Types.{IsCopied, IsReadTask};
ghost use Rattle.aol_reshape.specs.Copies.{IsReshape};
ghost use Rattle.aol_document_reading.specs.Parts.{part_end_at, own_end_at, elementary_by_parts, elementary_with, reshape_at, copied_by_parts, compound_by_parts};
ghost use Rattle.aol_document_reading.specs.Trails.{steps_of};

use crate::reading::forms::{need, object_of, text_of};
use crate::reading::from_tree::{FromTree, Reader};
use crate::reading::ports::unzipped;
use crate::reading::trail::Trail;
use aol_expr::{Port, Width};
use aol_model_types::{
    Compound, Copied, DocRefused, Elementary, Hook, Key, OutPort, Part, Plain, Task,
};
use aol_reshape::Reshape;
use aol_shape::{Items, Name, NoMemory, is_name};
use serde_json::Value;
use std::alloc::Global;

/// The task with these ports and their types.
fn elementary(
    alloc: Global,
    name: Name,
    ins: Vec<(Port, Width)>,
    outs: Vec<(OutPort, Width)>,
) -> Result<Task, DocRefused>
    ensures task { IfOk result (λ t. t ≡ elementary_with name ins.items outs.items) }
    ensures memory { IfErr result (λ e. e ≡ refusals.NoMemory) }
{
    let (ins, wide_in) = unzipped(alloc, ins)?;
    let (outs, wide_out) = unzipped(alloc, outs)?;
    Ok(Task::Elementary(Elementary {
        name,
        ins,
        outs,
        wide_in,
        wide_out,
    }))
}

/// A task that computes.
pub(super) fn elementary_of(
    reader: Reader,
    at: &Trail<'_>,
    tree: &Value,
) -> Result<Task, DocRefused>
    requires { length (steps_of at.now) + 3 ≤ 12 }
    ensures read { Gives result (elementary_by_parts (steps_of at.now) (view tree.now)) }
    ensures types { IfOk result IsReadTask }
{
    let keys = [Key::KKind, Key::KName, Key::KIn, Key::KOut];
    object_of(at, tree, &keys, &[])?;
    let head = reader.head(at, tree)?;
    let (name, ins, outs) = head;
    let task = elementary(reader.alloc, name, ins, outs)?;
    Ok(task)
}

impl FromTree for Part {
    ghost reading = { λ later. part_at };

    ghost guarantees = { λ p. is_name p.name ≡ true };

    ghost depth = { 1 };

    fn from_tree(reader: Reader, at: &Trail<'_>, tree: &Value) -> Result<Part, DocRefused> {
        object_of(at, tree, &[Key::KName, Key::KTask], &[])?;
        Ok(Part {
            name: reader.member(at, tree, Key::KName)?,
            task: reader.member(at, tree, Key::KTask)?,
        })
    }
}

/// The port of a part.
fn part_hook(alloc: Global, part: &str, port: &str) -> Result<Hook, NoMemory>
    ensures { IfOk result (λ h. h ≡ record { part = Some part.now; port = port.now }) }
{
    let part = Name::from_str(alloc, part)?;
    let port = Name::from_str(alloc, port)?;
    Ok(Hook {
        part: Some(part),
        port,
    })
}

/// The end at a port of a part.
fn part_end(alloc: Global, at: &Trail<'_>, part: &str, port: &str) -> Result<Hook, DocRefused>
    requires { length (steps_of at.now) ≤ 12 }
    ensures { Gives result (part_end_at (steps_of at.now) part.now port.now) }
{
    need(at, is_name(part) && is_name(port))?;
    let hook = part_hook(alloc, part, port)?;
    Ok(hook)
}

/// The end at a port of the task itself.
fn own_end(alloc: Global, at: &Trail<'_>, port: &str) -> Result<Hook, DocRefused>
    requires { length (steps_of at.now) ≤ 12 }
    ensures { Gives result (own_end_at (steps_of at.now) port.now) }
{
    need(at, is_name(port))?;
    let port = Name::from_str(alloc, port)?;
    Ok(Hook { part: None, port })
}

impl FromTree for Hook {
    ghost reading = { λ later. hook_at };

    ghost guarantees = { λ h. Unit {0} };

    ghost depth = { 0 };

    #[tactic(auto, using(crate::proofs::Hooks::split, crate::proofs::Hooks::unsplit))]
    fn from_tree(reader: Reader, at: &Trail<'_>, tree: &Value) -> Result<Hook, DocRefused> {
        let text = text_of(at, tree)?;
        match text.split_once('.') {
            Some((part, port)) => part_end(reader.alloc, at, part, port),
            None => own_end(reader.alloc, at, text),
        }
    }
}

impl FromTree for Plain {
    ghost reading = { λ later. plain_at };

    ghost guarantees = { λ p. Unit {0} };

    ghost depth = { 1 };

    fn from_tree(reader: Reader, at: &Trail<'_>, tree: &Value) -> Result<Plain, DocRefused> {
        object_of(at, tree, &[Key::KFrom, Key::KTo], &[])?;
        Ok(Plain {
            from: reader.member(at, tree, Key::KFrom)?,
            to: reader.member(at, tree, Key::KTo)?,
        })
    }
}

/// How a reshape copies.
fn reshape_of(reader: Reader, at: &Trail<'_>, tree: &Value) -> Result<Reshape, DocRefused>
    requires { length (steps_of at.now) < 12 }
    ensures read { Gives result (reshape_at (steps_of at.now) (view tree.now)) }
    ensures types { IfOk result IsReshape }
{
    let shapes = reader.two(at, tree, Key::KSpace, Key::KPattern)?;
    let tilers = reader.two(at, tree, Key::KSource, Key::KTarget)?;
    let (space, pattern) = shapes;
    let (source, target) = tilers;
    Ok(Reshape {
        space,
        pattern,
        source,
        target,
    })
}

/// A reshape.
fn copied_of(reader: Reader, at: &Trail<'_>, tree: &Value) -> Result<Copied, DocRefused>
    requires { length (steps_of at.now) < 12 }
    ensures read { Gives result (copied_by_parts (steps_of at.now) (view tree.now)) }
    ensures types { IfOk result IsCopied }
{
    let keys = [
        Key::KFrom,
        Key::KTo,
        Key::KSpace,
        Key::KPattern,
        Key::KSource,
        Key::KTarget,
    ];
    object_of(at, tree, &keys, &[])?;
    let ends = reader.two(at, tree, Key::KFrom, Key::KTo)?;
    let by = reshape_of(reader, at, tree)?;
    let (from, to) = ends;
    Ok(Copied { from, to, by })
}

impl FromTree for Copied {
    ghost reading = { λ later. copied_at };

    ghost guarantees = { IsCopied };

    ghost depth = { 1 };

    fn from_tree(reader: Reader, at: &Trail<'_>, tree: &Value) -> Result<Copied, DocRefused> {
        copied_of(reader, at, tree)
    }
}

/// A graph of tasks.
pub(super) fn compound_of(reader: Reader, at: &Trail<'_>, tree: &Value) -> Result<Task, DocRefused>
    requires { length (steps_of at.now) + 3 ≤ 12 }
    ensures read { Gives result (compound_by_parts (steps_of at.now) (view tree.now)) }
    ensures types { IfOk result IsReadTask }
{
    let keys = [
        Key::KKind,
        Key::KName,
        Key::KIn,
        Key::KOut,
        Key::KParts,
        Key::KLinks,
        Key::KReshapes,
    ];
    object_of(at, tree, &keys, &[])?;
    let head = reader.head(at, tree)?;
    let inner = reader.three(at, tree, (Key::KParts, Key::KLinks, Key::KReshapes))?;
    let (name, ins, outs) = head;
    let (parts, links, reshapes) = inner;
    Ok(Task::Compound(Compound {
        name,
        ins: Items::from_vec(ins),
        outs: Items::from_vec(outs),
        parts,
        links,
        reshapes,
    }))
}

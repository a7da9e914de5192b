//! What is told of a model that is laid out and refused.

ghost use Rattle.std.specs.Prelude.{◌≡◌, ◌<◌, ◌∷◌, ◌++◌, [], codes, length, string_bytes, OnOk, IfOk};
ghost use Rattle.aol_shape.specs.Shape.{size, point_at};
ghost use Rattle.aol_vsl.specs.Text.{shape_text};
ghost use Rattle.aol_flat.specs.Instance.{instances, leaves};
ghost use Rattle.aol_flat.specs.Tasks.{main_outputs};
ghost use Rattle.aol_lines.specs.Instance.{instance_text};
ghost use Rattle.aol_lines.specs.Lent.{lent_text};
ghost use Rattle.aol_lines.specs.Line.{after_blanks};
ghost use Rattle.aol_lines.specs.Refused.{target_text, writer_words, port_words, input_among, reading_words, IsReadBy};
ghost use Rattle.aol_lines.specs.Reply.{refusal, reply_of};

use crate::instance::{instance_name, leaf_with};
use crate::line::{Word, begun, ended, push_words, refusal};
use crate::reply::Reply;
use crate::status::StatusKind;
use crate::tasks::{input, main_task, output};
use crate::text::push_text;
use aol_expr_tree::Port;
use aol_flat::{Flat, LeafKind, Reader, Writer};
use aol_model_types::Model;
use aol_shape::{MAX_RANK, NoMemory, unrank_into};
use std::alloc::Global;

/// The name of a target: its port, after its part and a dot where it is one of a part.
fn target_name(alloc: Global, part: Option<&str>, port: &str) -> Result<String, NoMemory>
    ensures { IfOk result (λ text. string_bytes text ≡ target_text (lent_text part.entry) port.now) }
{
    match part {
        None => Ok(String::from_str(alloc, port)?),
        Some(part) => {
            let mut text = String::from_str(alloc, part)?;
            push_text(&mut text, ".")?;
            push_text(&mut text, port)?;
            Ok(text)
        }
    }
}

/// Adds the words of a point that is written twice, where the target's name is made.
fn push_twice_at<'a>(
    text: &mut String,
    path: &'a str,
    target: &'a str,
    point: &'a [u32],
    first: &'a Writer,
    second: &'a Writer,
) -> Result<(), NoMemory>
    ensures { OnOk result (string_bytes text.new ≡ string_bytes text.old ++ after_blanks (path.now ∷ target.now ∷ shape_text point.now ∷ codes "first" ∷ writer_words first.now (codes "second" ∷ writer_words second.now []))) }
{
    let words = [
        Word::Text(path),
        Word::Text(target),
        Word::Point(point),
        Word::Text("first"),
        Word::Number(first.item),
        Word::Point(first.rep.as_slice()),
        Word::Point(first.pattern.as_slice()),
        Word::Text("second"),
        Word::Number(second.item),
        Word::Point(second.rep.as_slice()),
        Word::Point(second.pattern.as_slice()),
    ];
    push_words(text, &words)
}

/// Adds the words of a point that is written twice: the path of the target's node, the target's part and port, the point,
/// and the first two pairs that write it.
pub fn push_twice(
    text: &mut String,
    alloc: Global,
    path: &str,
    part: Option<&str>,
    port: &str,
    point: &[u32],
    first: &Writer,
    second: &Writer,
) -> Result<(), NoMemory>
    ensures { OnOk result (string_bytes text.new ≡ string_bytes text.old ++ after_blanks (path.now ∷ target_text (lent_text part.entry) port.now ∷ shape_text point.now ∷ codes "first" ∷ writer_words first.now (codes "second" ∷ writer_words second.now []))) }
{
    let target = target_name(alloc, part, port)?;
    push_twice_at(text, path, target.as_str(), point, first, second)
}

/// The refusal for a point that is written twice.
pub fn twice_reply(
    alloc: Global,
    path: &str,
    part: Option<&str>,
    port: &str,
    point: &[u32],
    first: &Writer,
    second: &Writer,
) -> Result<Reply, NoMemory>
    ensures { IfOk result (λ r. reply_of r ≡ refusal StatusKind.Twice (path.now ∷ target_text (lent_text part.entry) port.now ∷ shape_text point.now ∷ codes "first" ∷ writer_words first.now (codes "second" ∷ writer_words second.now []))) }
{
    let mut text = begun(alloc, StatusKind::Twice)?;
    push_twice(&mut text, alloc, path, part, port, point, first, second)?;
    ended(StatusKind::Twice, text)
}

/// The refusal for an instance that needs itself, or one that does.
pub fn cycle_reply(alloc: Global, flat: &Flat, instance: u32) -> Result<Reply, NoMemory>
    requires { instance < length (instances flat.now.model) }
    ensures { IfOk result (λ r. reply_of r ≡ refusal StatusKind.Cycle (instance_text flat.now.model instance ∷ [])) }
{
    let name = instance_name(alloc, flat, instance)?;
    refusal(alloc, StatusKind::Cycle, &[Word::Text(name.as_str())])
}

/// Adds the words of an element of a port: the port's name and the point of this rank.
pub fn push_port(text: &mut String, port: &Port, rank: u32) -> Result<(), NoMemory>
    requires { rank < size port.now.shape }
    ensures { OnOk result (string_bytes text.new ≡ string_bytes text.old ++ after_blanks (port.now.name ∷ shape_text (point_at port.now.shape rank) ∷ [])) }
{
    let mut indices = [0u32; MAX_RANK];
    let length = port.shape.as_slice().len();
    let point = &mut indices[..length];
    unrank_into(&port.shape, rank, point);
    push_words(text, &[Word::Text(port.name.as_str()), Word::Point(point)])
}

/// Adds the words of an element that an instance reads: the port and the point; a copy's input is `from {}`.
fn push_input(
    text: &mut String,
    flat: &Flat,
    instance: u32,
    port: u32,
    point: u32,
) -> Result<(), NoMemory>
    requires { IsReadBy flat.now.model (Reader.Instance instance) port point }
    ensures { OnOk result (string_bytes text.new ≡ string_bytes text.old ++ after_blanks (input_among flat.now.model (leaves flat.now.model) instance port point)) }
{
    let leaf = flat.leaf(leaf_with(flat, instance));
    match leaf.kind {
        LeafKind::Copy => push_words(text, &[Word::Text("from"), Word::Text("{}")]),
        LeafKind::Elementary(number) => {
            let task = &flat.model().tasks.as_slice()[number as usize];
            let Some(read) = input(task, port) else {
                unreachable!()
            };
            push_port(text, read, point)
        }
    }
}

/// Adds the words of an element of a main output.
fn push_output(text: &mut String, model: &Model, port: u32, point: u32) -> Result<(), NoMemory>
    requires { IsReadBy model.now Reader.Main port point }
    ensures { OnOk result (string_bytes text.new ≡ string_bytes text.old ++ after_blanks (port_words (main_outputs model.now) port point)) }
{
    let Some(task) = main_task(model) else {
        unreachable!()
    };
    let Some(read) = output(task, port) else {
        unreachable!()
    };
    push_port(text, read, point)
}

/// Adds the words of an element that is read: who reads it, an instance or `main`, the port's name and the point.
pub fn push_reading(
    text: &mut String,
    alloc: Global,
    flat: &Flat,
    reader: Reader,
    port: u32,
    point: u32,
) -> Result<(), NoMemory>
    requires { IsReadBy flat.now.model reader port point }
    ensures { OnOk result (string_bytes text.new ≡ string_bytes text.old ++ after_blanks (reading_words flat.now.model reader port point)) }
{
    match reader {
        Reader::Instance(instance) => {
            let name = instance_name(alloc, flat, instance)?;
            push_words(text, &[Word::Text(name.as_str())])?;
            push_input(text, flat, instance, port, point)
        }
        Reader::Main => {
            push_words(text, &[Word::Text("main")])?;
            push_output(text, flat.model(), port, point)
        }
    }
}

/// The refusal for an element that is read and not given.
pub fn unwritten_reply(
    alloc: Global,
    flat: &Flat,
    reader: Reader,
    port: u32,
    point: u32,
) -> Result<Reply, NoMemory>
    requires { IsReadBy flat.now.model reader port point }
    ensures { IfOk result (λ r. reply_of r ≡ refusal StatusKind.Unwritten (reading_words flat.now.model reader port point)) }
{
    let mut text = begun(alloc, StatusKind::Unwritten)?;
    push_reading(&mut text, alloc, flat, reader, port, point)?;
    ended(StatusKind::Unwritten, text)
}

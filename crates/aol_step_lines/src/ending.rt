//! Where a read ends.

ghost use Rattle.std.specs.Prelude.{◌≡◌, ◌++◌, string_bytes, OnOk};
ghost use Rattle.aol_flat.specs.Accept.{IsSound};
ghost use Rattle.aol_flat.specs.Instance.{leaves};
ghost use Rattle.aol_flat.specs.Place.{Element};
ghost use Rattle.aol_flat.specs.Keep.{EndsAt};
ghost use Rattle.aol_flat.specs.Tasks.{main_inputs};
ghost use Rattle.aol_lines.specs.Line.{after_blanks};
ghost use Rattle.aol_lines.specs.Refused.{port_words};
ghost use Rattle.aol_step_lines.specs.Words.{end_words, output_among};

use aol_flat::{End, Flat, LeafKind};
use aol_lines::{Word, input, instance_name, leaf_with, main_task, output, push_port, push_words};
use aol_model_types::Model;
use aol_shape::NoMemory;
use std::alloc::Global;

/// Adds the words of an element of a main input: the port and the point.
fn push_main_input(text: &mut String, model: &Model, port: u32, point: u32) -> Result<(), NoMemory>
    requires { (p : Element) × EndsAt model.now p (End.Input port point) }
    ensures { OnOk result (string_bytes text.new ≡ string_bytes text.old ++ after_blanks (port_words (main_inputs model.now) port point)) }
{
    let Some(task) = main_task(model) else {
        unreachable!()
    };
    let Some(read) = input(task, port) else {
        unreachable!()
    };
    push_port(text, read, point)
}

/// Adds the words of an element of an output of an instance: the port and the point.
fn push_made(
    text: &mut String,
    flat: &Flat,
    instance: u32,
    port: u32,
    point: u32,
) -> Result<(), NoMemory>
    requires { (p : Element) × EndsAt flat.now.model p (End.Made instance port point) }
    ensures { OnOk result (string_bytes text.new ≡ string_bytes text.old ++ after_blanks (output_among flat.now.model (leaves flat.now.model) instance port point)) }
{
    let leaf = flat.leaf(leaf_with(flat, instance));
    match leaf.kind {
        LeafKind::Copy => unreachable!(),
        LeafKind::Elementary(number) => {
            let task = &flat.model().tasks.as_slice()[number as usize];
            let Some(made) = output(task, port) else {
                unreachable!()
            };
            push_port(text, made, point)
        }
    }
}

/// Adds the words of an end: a main input, a number, or an output of an instance.
pub fn push_end(text: &mut String, alloc: Global, flat: &Flat, end: End) -> Result<(), NoMemory>
    requires { (p : Element) × EndsAt flat.now.model p end }
    ensures { OnOk result (string_bytes text.new ≡ string_bytes text.old ++ after_blanks (end_words flat.now.model end)) }
{
    match end {
        End::Input { port, point } => {
            push_words(text, &[Word::Text("input")])?;
            push_main_input(text, flat.model(), port, point)
        }
        End::Const(number) => push_words(text, &[Word::Text("constant"), Word::Integer(number)]),
        End::Made {
            instance,
            port,
            point,
        } => {
            let name = instance_name(alloc, flat, instance)?;
            push_words(text, &[Word::Text(name.as_str())])?;
            push_made(text, flat, instance, port, point)
        }
    }
}

//! What is printed of the outputs that a run hands back.

ghost use Rattle.std.specs.Prelude.{◌≡◌, ◌++◌, flat_map, string_bytes, OnOk, IfOk};
ghost use Rattle.aol_flat.specs.InstanceValue.{first_fault};
ghost use Rattle.aol_flat.specs.Printed.{value_text};
ghost use Rattle.aol_program.specs.Outputs.{array_line, values_of, outputs_reply};
ghost use Rattle.aol_lines.specs.Reply.{reply_of};

use crate::fault::fault_reply;
use aol_expr::{Site, Val};
use aol_lines::{Reply, StatusKind, push_integer, push_shape, push_text};
use aol_model::Model;
use aol_runner::OutputArray;
use aol_shape::NoMemory;
use std::alloc::Global;

/// Adds a number after a blank; nothing for a fault.
fn push_value(text: &mut String, value: Val) -> Result<(), NoMemory>
    ensures { OnOk result (string_bytes text.new ≡ string_bytes text.old ++ value_text value) }
{
    match value {
        Val::Num(number) => {
            push_text(text, " ")?;
            push_integer(text, number)
        }
        Val::Bad(_) => Ok(()),
    }
}

/// Adds values, one after another.
fn push_values(text: &mut String, values: &[Val]) -> Result<(), NoMemory>
    ensures { OnOk result (string_bytes text.new ≡ string_bytes text.old ++ flat_map value_text values.now) }
{
    for value in values {
        push_value(text, *value)?;
    }
    Ok(())
}

/// Adds the line of an output.
fn push_array(text: &mut String, output: &OutputArray) -> Result<(), NoMemory>
    ensures { OnOk result (string_bytes text.new ≡ string_bytes text.old ++ array_line output.now) }
{
    push_text(text, output.name.as_str())?;
    push_text(text, " ")?;
    push_shape(text, output.shape.as_slice())?;
    push_values(text, output.vals.as_slice())?;
    push_text(text, "\n")
}

/// A line for each output.
fn lines_of(alloc: Global, outputs: &[OutputArray]) -> Result<String, NoMemory>
    ensures { IfOk result (λ text. string_bytes text ≡ flat_map array_line outputs.now) }
{
    let mut text = String::new(alloc);
    for output in outputs {
        push_array(&mut text, output)?;
    }
    Ok(text)
}

/// The first fault among some values.
fn fault_among(values: &[Val]) -> Option<Site>
    ensures { result ≡ first_fault values.now }
{
    for value in values {
        if let Val::Bad(site) = value {
            return Some(*site);
        }
    }
    None
}

/// The first fault of the outputs, by port and rank.
fn first_fault(outputs: &[OutputArray]) -> Option<Site>
    ensures { result ≡ first_fault (values_of outputs.now) }
{
    for output in outputs {
        if let Some(site) = fault_among(output.vals.as_slice()) {
            return Some(site);
        }
    }
    None
}

/// The first fault of the outputs, or a line for each.
pub fn outputs_reply(
    alloc: Global,
    model: &Model,
    outputs: &[OutputArray],
) -> Result<Reply, NoMemory>
    ensures { IfOk result (λ r. reply_of r ≡ outputs_reply model.now outputs.now) }
{
    match first_fault(outputs) {
        Some(site) => fault_reply(alloc, model, site),
        None => {
            let text = lines_of(alloc, outputs)?;
            Ok(Reply {
                status: StatusKind::Done,
                text,
            })
        }
    }
}

//! The line of a fault.

ghost use Rattle.std.specs.Prelude.{◌≡◌, slice_get, filter, IfOk, [], option_map, unwrap_or, string_bytes};
ghost use Rattle.std.specs.Option.{option_copied};
ghost use Rattle.aol_shape.specs.Shape.{point_at};
ghost use Rattle.aol_vsl.specs.Text.{shape_text};
ghost use Rattle.aol_model_types.specs.Rules.{task_name, outputs_of};
ghost use Rattle.aol_flat.specs.Printed.{kind_text, fault_line};
ghost use Rattle.aol_flat.specs.Tasks.{is_elementary};
ghost use Rattle.aol_lines.specs.Reply.{reply, reply_of};

use aol_expr::{Kind, Port, Site};
use aol_lines::{Reply, StatusKind, Word, name_of, output, push_point, refusal};
use aol_model::{Model, Task};
use aol_shape::NoMemory;
use std::alloc::Global;

/// The word for a kind.
fn word_of(kind: Kind) -> &'static str
    ensures { result.now ≡ kind_text kind }
{
    match kind {
        Kind::Overflow => "overflow",
        Kind::Divide => "divide",
        Kind::Index => "index",
        Kind::Range => "range",
    }
}

/// Whether the task computes.
fn is_elementary(task: &Task) -> bool
    ensures { result ≡ is_elementary task.now }
{
    match task {
        Task::Elementary(_) => true,
        Task::Compound(_) | Task::Repeated(_) => false,
    }
}

/// The task with this number among those that compute.
fn elementary_task(tasks: &[Task], number: u32) -> Option<&Task>
    ensures { option_copied result ≡ slice_get (filter is_elementary tasks.now) number }
{
    let mut left = number;
    for task in tasks {
        if is_elementary(task) {
            if left == 0 {
                return Some(task);
            }
            left -= 1;
        }
    }
    None
}

/// The name of a task, where there is one.
fn task_text(task: Option<&Task>) -> &str
    ensures { result.now ≡ unwrap_or (option_map task_name (option_copied task.entry)) [] }
{
    match task {
        Some(task) => name_of(task).as_str(),
        None => "",
    }
}

/// The output port with this number of a task, where there is one.
fn port_at(task: Option<&Task>, number: u32) -> Option<&Port>
    ensures { option_copied result ≡ slice_get (unwrap_or (option_map outputs_of (option_copied task.entry)) []) number }
{
    match task {
        Some(task) => output(task, number),
        None => None,
    }
}

/// The name of a port, where there is one.
fn port_text(port: Option<&Port>) -> &str
    ensures { result.now ≡ unwrap_or (option_map (λ p. p.name) (option_copied port.entry)) [] }
{
    match port {
        Some(port) => port.name.as_str(),
        None => "",
    }
}

/// The point of a port that has this rank, where there is a port.
fn point_text(alloc: Global, port: Option<&Port>, rank: u32) -> Result<String, NoMemory>
    ensures { IfOk result (λ text. string_bytes text ≡ unwrap_or (option_map (λ p. shape_text (point_at p.shape rank)) (option_copied port.entry)) []) }
{
    let mut text = String::new(alloc);
    if let Some(port) = port {
        let shape = &port.shape;
        push_point(&mut text, shape.as_slice(), shape.size(), rank)?;
    }
    Ok(text)
}

/// The refusal for a fault: its kind, the name of its task, and the name and the point of its port.
pub fn fault_reply(alloc: Global, model: &Model, site: Site) -> Result<Reply, NoMemory>
    ensures { IfOk result (λ r. reply_of r ≡ reply StatusKind.Fault (fault_line model.now site)) }
{
    let task = elementary_task(model.tasks.as_slice(), site.task);
    let port = port_at(task, site.port);
    let point = point_text(alloc, port, site.point)?;
    let words = [
        Word::Text(word_of(site.kind)),
        Word::Text(task_text(task)),
        Word::Text(port_text(port)),
        Word::Text(point.as_str()),
    ];
    refusal(alloc, StatusKind::Fault, &words)
}

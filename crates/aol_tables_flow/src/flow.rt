ghost use Rattle.aol_model_types.specs.Types.{IsReadModel};

use crate::models;
use aol_assign::{AssignRefused, assign};
use aol_depend::{DependRefused, levels};
use aol_flat::{Flat, Reader, Writer, flatten};
use aol_model::{Document, Model, document_of, shapes_agree};
use serde_json::Value;
use std::alloc::{AllocError, Global};
use std::test::Fail;

/// Adds the indices of a point, or a full stop where it has none.
fn push_point(alloc: Global, line: &mut String, indices: &[u32]) -> Result<(), AllocError> {
    for index in indices {
        let text = format!(in alloc; " {index}")?;
        line.push_str(text.as_str())?;
    }
    line.push_str(" .")
}

/// Adds a writer: its tiler or reshape, its repetition and its pattern's point.
fn push_writer(alloc: Global, line: &mut String, writer: &Writer) -> Result<(), AllocError> {
    let text = format!(in alloc; " by {}", writer.item)?;
    line.push_str(text.as_str())?;
    push_point(alloc, line, writer.rep.as_slice())?;
    push_point(alloc, line, writer.pattern.as_slice())
}

/// What is told of a model that isn't one of single assignment, or reads what isn't given.
fn refused_text(alloc: Global, refused: &AssignRefused) -> Result<String, AllocError> {
    match refused {
        AssignRefused::Twice {
            path,
            part,
            port,
            point,
            first,
            second,
        } => {
            let mut line = format!(in alloc; "twice {}", path.as_str())?;
            if let Some(part) = part {
                line.push_str(" ")?;
                line.push_str(part.as_str())?;
            }
            line.push_str(" ")?;
            line.push_str(port.as_str())?;
            push_point(alloc, &mut line, point.as_slice())?;
            push_writer(alloc, &mut line, first)?;
            push_writer(alloc, &mut line, second)?;
            Ok(line)
        }
        AssignRefused::Unwritten {
            reader: Reader::Instance(instance),
            port,
            point,
        } => format!(in alloc; "unwritten {instance} {port} {point}"),
        AssignRefused::Unwritten {
            reader: Reader::Main,
            port,
            point,
        } => format!(in alloc; "unwritten main {port} {point}"),
        AssignRefused::NoMemory => String::from_str(alloc, "memory"),
    }
}

/// The level of each instance, or what refuses the model.
fn told(alloc: Global, flat: &Flat) -> Result<String, AllocError> {
    match assign(alloc, flat) {
        Ok(writers) => match levels(alloc, flat, writers.list()) {
            Ok(found) => {
                let mut line = format!(in alloc;
                    "{} cells, {} levels:",
                    flat.cells(),
                    found.count()
                )?;
                for level in found.list() {
                    let text = format!(in alloc; " {level}")?;
                    line.push_str(text.as_str())?;
                }
                Ok(line)
            }
            Err(DependRefused::Cycle { instance }) => format!(in alloc; "cycle {instance}"),
            Err(DependRefused::NoMemory) => String::from_str(alloc, "memory"),
        },
        Err(refused) => refused_text(alloc, &refused),
    }
}

/// The tree of the document with these tasks and this main task.
fn tree_of(alloc: Global, case: &Case) -> Result<Value, Fail> {
    let text = format!(in alloc;
        "{{\"model\":{{\"tasks\":[{}],\"main\":\"{}\"}},\"input\":{{}},\"transform\":[],\"allocate\":[]}}",
        case.tasks, case.main
    )?;
    Ok(Value::from_str(alloc, text.as_str())?)
}

/// The model of a document, laid out; none where it is refused.
fn flat_of(alloc: Global, model: Model) -> Option<Flat>
    requires { IsReadModel model }
{
    if shapes_agree(alloc, &model).is_err() {
        return None;
    }
    flatten(alloc, model).ok()
}

/// What is told of a case.
fn line(alloc: Global, case: &Case) -> Result<String, Fail> {
    let tree = tree_of(alloc, case)?;
    match document_of(alloc, &tree) {
        Ok(Document { model, .. }) => match flat_of(alloc, model) {
            Some(flat) => Ok(told(alloc, &flat)?),
            None => Ok(String::from_str(alloc, "not laid out")?),
        },
        Err(_) => Ok(String::from_str(alloc, "not read")?),
    }
}

/// The tasks of a model, its main task, and what is expected.
#[derive(Clone, Copy)]
struct Case {
    tasks: &'static str,
    main: &'static str,
    expected: &'static str,
}

const fn tried(tasks: &'static str, main: &'static str, expected: &'static str) -> Case {
    Case {
        tasks,
        main,
        expected,
    }
}

/// Whether a case is as expected.
fn holds(alloc: Global, case: &Case) -> Result<bool, Fail> {
    let found = line(alloc, case)?;
    Ok(found.as_str() == case.expected)
}

#[test]
fn models_are_decided(rt: HostRuntime) -> Result<(), Fail> {
    let cases = [
        // Written twice.
        tried(
            models::SPREAD,
            "Spread",
            "twice / y 2 . by 1 0 . 2 . by 1 1 . 0 .",
        ),
        tried(
            models::PART_TWICE,
            "Twice",
            "twice / p a 1 . by 0 1 . . by 1 0 . .",
        ),
        tried(
            models::OWN_TWICE,
            "Own",
            "twice / y 0 . by 0 0 . . by 1 0 . .",
        ),
        // Read and not given.
        tried(models::GAP, "Gap", "unwritten main 0 1"),
        tried(models::PASS_THREE, "Pass3", "unwritten 3 0 2"),
        tried(models::HOLE_COPIED, "Hole", "unwritten 2 0 0"),
        // In a loop, or after one.
        tried(models::AROUND, "RunW", "cycle 0"),
        tried(models::ITSELF, "RunZ", "cycle 0"),
        tried(models::LOOP, "Loop", "cycle 0"),
        tried(models::COPY_LOOP, "Copies", "cycle 0"),
        tried(models::AFTER_A_LOOP, "After", "cycle 0"),
        tried(models::BEFORE_A_LOOP, "Before", "cycle 1"),
        // Accepted.
        tried(models::PASS_TWO, "Pass2", "15 cells, 2 levels: 0 0 0 1 1 1"),
        tried(models::RUNNING, "Run6", "12 cells, 6 levels: 0 1 2 3 4 5"),
        tried(models::TWO, "Two", "9 cells, 3 levels: 0 1 2 2 1 0"),
        tried(
            models::CHAIN,
            "Chain",
            "20 cells, 2 levels: 0 0 0 0 0 0 0 0 1 1 1 1",
        ),
        tried(models::FLIP, "Flip", "12 cells, 1 levels: 0 0 0 0 0 0"),
    ];
    for case in &cases {
        assert!(rt; holds(rt.alloc(), case)?);
    }
    Ok(())
}

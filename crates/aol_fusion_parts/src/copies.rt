//! Equal values of parts of a task.

ghost use Rattle.std.specs.Prelude.{◌≡◌, ◌++◌, IfOk, OnOk};

use aol_expr_tree::Port;
use aol_model_types::{Copied, Hook, Part};
use aol_reshape::Reshape;
use aol_shape::{IntVec, Items, NoMemory};
use aol_tiler::{IntMat, Tiler};
use std::alloc::Global;

/// Pushes equal columns.
fn push_columns(columns: &[IntVec], copies: &mut IntMat) -> Result<(), NoMemory>
    ensures { OnOk result (copies.new ≡ copies.old ++ columns.now) }
{
    for column in columns {
        copies.push(column.copy())?;
    }
    Ok(())
}

/// An equal tiler.
pub fn copy_tiler(alloc: Global, tiler: &Tiler) -> Result<Tiler, NoMemory>
    ensures { IfOk result (λ t. t ≡ tiler.now) }
{
    let _columns = tiler.paving_columns();
    let mut paving = Items::new(alloc);
    push_columns(tiler.paving.as_slice(), &mut paving)?;
    let mut fitting = Items::new(alloc);
    push_columns(tiler.fitting.as_slice(), &mut fitting)?;
    Ok(Tiler {
        origin: tiler.origin.copy(),
        paving,
        fitting,
    })
}

/// An equal reshape.
pub fn copy_reshape(alloc: Global, reshape: &Reshape) -> Result<Reshape, NoMemory>
    ensures { IfOk result (λ r. r ≡ reshape.now) }
{
    let source = copy_tiler(alloc, &reshape.source)?;
    let target = copy_tiler(alloc, &reshape.target)?;
    Ok(Reshape {
        space: reshape.space.copy(),
        pattern: reshape.pattern.copy(),
        source,
        target,
    })
}

/// An equal port.
pub fn copy_port(alloc: Global, port: &Port) -> Result<Port, NoMemory>
    ensures { IfOk result (λ p. p ≡ port.now) }
{
    Ok(Port {
        name: port.name.copy(alloc)?,
        shape: port.shape.copy(),
    })
}

/// An equal part.
pub fn copy_part(alloc: Global, part: &Part) -> Result<Part, NoMemory>
    ensures { IfOk result (λ p. p ≡ part.now) }
{
    Ok(Part {
        name: part.name.copy(alloc)?,
        task: part.task.copy(alloc)?,
    })
}

/// An equal end.
pub fn copy_hook(alloc: Global, end: &Hook) -> Result<Hook, NoMemory>
    ensures { IfOk result (λ h. h ≡ end.now) }
{
    let port = end.port.copy(alloc)?;
    match &end.part {
        Some(part) => {
            let part = part.copy(alloc)?;
            Ok(Hook {
                part: Some(part),
                port,
            })
        }
        None => Ok(Hook { part: None, port }),
    }
}

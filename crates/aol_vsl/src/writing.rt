//! Canonical texts: no blanks, no leading zeros.

ghost use Rattle.std.specs.Prelude.{◌≡◌, ◌++◌, map, string_bytes, IfOk, OnOk};
ghost use Rattle.aol_vsl.specs.Text.{braced_text, shape_text, vector_text, matrix_text, tiler_text};
ghost use Rattle.aol_vsl.specs.Writing.{separator};

use aol_shape::{IntVec, Name, NoMemory, Shape};
use aol_tiler::Tiler;
use itoa::{Buffer, Integer};
use std::alloc::{AllocError, Global};

/// Appends a comma, but before the first member.
fn append_separator(text: &mut String, before: usize) -> Result<(), AllocError>
    ensures { OnOk result (string_bytes text.new ≡ string_bytes text.old ++ separator before) }
{
    if before > 0 {
        text.push(',')?;
    }
    Ok(())
}

/// Appends the entries in braces.
fn append_entries<I: Integer>(text: &mut String, entries: &[I]) -> Result<(), AllocError>
    ensures { OnOk result (string_bytes text.new ≡ string_bytes text.old ++ braced_text (map I.text entries.now)) }
{
    let mut buffer = Buffer::new();
    text.push('{')?;
    for (before, entry) in entries.iter().enumerate() {
        append_separator(text, before)?;
        text.push_str(buffer.format(*entry))?;
    }
    text.push('}')
}

/// Appends the columns in braces.
fn append_columns(text: &mut String, columns: &[IntVec]) -> Result<(), AllocError>
    ensures { OnOk result (string_bytes text.new ≡ string_bytes text.old ++ matrix_text columns.now) }
{
    text.push('{')?;
    for (before, column) in columns.iter().enumerate() {
        append_separator(text, before)?;
        append_entries(text, column.as_slice())?;
    }
    text.push('}')
}

/// The canonical text of a shape, as `{2,3}`.
pub fn write_shape(alloc: Global, value: &Shape) -> Result<Name, NoMemory>
    ensures { IfOk result (λ text. text ≡ shape_text value.now) }
{
    let mut text = String::new(alloc);
    append_entries(&mut text, value.as_slice())?;
    Name::from_str(alloc, text.as_str())
}

/// The canonical text of a vector, as `{3,-4}`.
pub fn write_vector(alloc: Global, value: &IntVec) -> Result<Name, NoMemory>
    ensures { IfOk result (λ text. text ≡ vector_text value.now) }
{
    let mut text = String::new(alloc);
    append_entries(&mut text, value.as_slice())?;
    Name::from_str(alloc, text.as_str())
}

/// The canonical text of a tiler, as `(origin={0},paving={{1}},fitting={})`; matrices are written by columns.
pub fn write_tiler(alloc: Global, value: &Tiler) -> Result<Name, NoMemory>
    ensures { IfOk result (λ text. text ≡ tiler_text value.now) }
{
    let mut text = String::new(alloc);
    text.push_str("(origin=")?;
    append_entries(&mut text, value.origin.as_slice())?;
    text.push_str(",paving=")?;
    append_columns(&mut text, value.paving.as_slice())?;
    text.push_str(",fitting=")?;
    append_columns(&mut text, value.fitting.as_slice())?;
    text.push_str(")")?;
    Name::from_str(alloc, text.as_str())
}

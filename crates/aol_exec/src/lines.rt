//! The lines of the two arrays.

ghost use Rattle.std.specs.Prelude.{◌≡◌, ◌++◌, flat_map, string_bytes, OnOk, IfOk};
ghost use Rattle.aol_cexec.specs.Machine.{arrays_held};
ghost use Rattle.aol_exec.specs.Lines.{array_line, arrays_lines, entry_text};

use aol_cexec::Arrays;
use itoa::Buffer;
use std::alloc::{AllocError, Global};

/// Adds a number after a blank.
fn push_entry(text: &mut String, number: i64) -> Result<(), AllocError>
    ensures { OnOk result (string_bytes text.new ≡ string_bytes text.old ++ entry_text number) }
{
    let mut buffer = Buffer::new();
    text.push_str(" ")?;
    text.push_str(buffer.format(number))
}

/// Adds numbers, each after a blank.
fn push_entries(text: &mut String, numbers: &[i64]) -> Result<(), AllocError>
    ensures { OnOk result (string_bytes text.new ≡ string_bytes text.old ++ flat_map entry_text numbers.now) }
{
    for number in numbers {
        push_entry(text, *number)?;
    }
    Ok(())
}

/// Adds the line of an array.
fn push_array(text: &mut String, name: &str, numbers: &[i64]) -> Result<(), AllocError>
    ensures { OnOk result (string_bytes text.new ≡ string_bytes text.old ++ array_line name.now numbers.now) }
{
    text.push_str(name)?;
    push_entries(text, numbers)?;
    text.push_str("\n")
}

/// The lines of V and F.
pub(crate) fn lines_of(alloc: Global, arrays: &Arrays) -> Result<String, AllocError>
    ensures { IfOk result (λ text. string_bytes text ≡ arrays_lines (arrays_held arrays.now)) }
{
    let mut text = String::new(alloc);
    push_array(&mut text, "V", arrays.v.as_slice())?;
    push_array(&mut text, "F", arrays.f.as_slice())?;
    Ok(text)
}

//! Texts that grow at their end.

ghost use Rattle.std.specs.Prelude.{◌≡◌, ◌++◌, ◌∷◌, map, string_bytes, OnOk};
ghost use Rattle.std.specs.List.{join_with_byte};
ghost use Rattle.aol_vsl.specs.Text.{shape_text};
ghost use Rattle.std.specs.Fmt.{signed_decimal, decimal};

use aol_shape::NoMemory;
use itoa::Buffer;

/// Adds a text.
pub fn push_text(text: &mut String, more: &str) -> Result<(), NoMemory>
    ensures { OnOk result (string_bytes text.new ≡ string_bytes text.old ++ more.now) }
{
    text.push_str(more)?;
    Ok(())
}

/// Adds the digits of a whole number, after a minus where it is below 0.
pub fn push_integer(text: &mut String, number: i64) -> Result<(), NoMemory>
    ensures { OnOk result (string_bytes text.new ≡ string_bytes text.old ++ signed_decimal number) }
{
    let mut buffer = Buffer::new();
    push_text(text, buffer.format(number))
}

/// Adds the digits of a number.
pub fn push_number(text: &mut String, number: u32) -> Result<(), NoMemory>
    ensures { OnOk result (string_bytes text.new ≡ string_bytes text.old ++ decimal number) }
{
    let mut buffer = Buffer::new();
    push_text(text, buffer.format(number))
}

/// Adds the digits of the number of a member of a list.
pub fn push_count(text: &mut String, number: usize) -> Result<(), NoMemory>
    ensures { OnOk result (string_bytes text.new ≡ string_bytes text.old ++ decimal number) }
{
    let mut buffer = Buffer::new();
    push_text(text, buffer.format(number))
}

/// Adds a shape's or a point's text: its entries with commas between them, in braces.
pub fn push_shape(text: &mut String, entries: &[u32]) -> Result<(), NoMemory>
    ensures { OnOk result (string_bytes text.new ≡ string_bytes text.old ++ shape_text entries.now) }
{
    push_text(text, "{")?;
    push_entries(text, entries)?;
    push_text(text, "}")
}

/// Adds numbers with commas between them.
fn push_entries(text: &mut String, entries: &[u32]) -> Result<(), NoMemory>
    ensures { OnOk result (string_bytes text.new ≡ string_bytes text.old ++ join_with_byte 44 (map decimal entries.now)) }
{
    let Some((first, others)) = entries.split_first() else {
        return Ok(());
    };
    push_number(text, *first)?;
    if others.is_empty() {
        return Ok(());
    }
    push_text(text, ",")?;
    push_entries(text, others)
}

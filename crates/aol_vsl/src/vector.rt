//! Texts of shapes and vectors.

ghost use Rattle.std.specs.Prelude.{◌≡◌, ◌≢◌, ◌<◌, ◌^◌, length, None, IfOk};
ghost use Rattle.aol_shape.specs.Machine.{stuck_at};
ghost use Rattle.aol_shape.specs.Vectors.{IsVector};
ghost use Rattle.aol_shape.specs.Shape.{IsShape};
ghost use Rattle.aol_vsl.specs.Text.{shape_grammar, vector_grammar};
ghost use Rattle.aol_vsl.specs.Reading.{shape_reading, vector_reading, recognizer, vector_goals};
ghost use Rattle.aol_vsl.specs.Answers.{Gives, IsRightBy};

use crate::lexeme::next_lexeme;
use crate::number::{number_of, shape_entry, vector_entry};
use crate::recognizer::vector_stuck;
use crate::refused::VslRefused;
use aol_shape::{IntVec, Shape};
use std::alloc::Global;

/// The vector that a text of the grammar spells.
fn vector_of(alloc: Global, text: &[u8]) -> Result<IntVec, VslRefused>
    requires short { length text.now < 2 ^ 32 }
    requires spelled { stuck_at (recognizer vector_goals) text.now ≡ None }
    ensures read { Gives result (vector_reading text.now) }
    ensures limits { IfOk result IsVector }
    ensures answers { result ≢ Err VslRefused.NoMemory }
{
    let mut entries = [0i32; 12];
    let mut count = 0;
    let mut place = 0;
    while let Some(found) = next_lexeme(text, place) {
        if let Some(number) = number_of(&text[found.start..found.end]) {
            match vector_entry(number, count) {
                Ok(entry) => {
                    entries[count] = entry;
                    count += 1;
                }
                Err(limit) => return Err(VslRefused::Limit(found.start as u32, limit)),
            }
        }
        place = found.end;
    }
    match IntVec::new(alloc, &entries[..count]) {
        Some(vector) => Ok(vector),
        None => unreachable!(),
    }
}

/// The shape that a text of the grammar spells.
fn shape_of(alloc: Global, text: &[u8]) -> Result<Shape, VslRefused>
    requires short { length text.now < 2 ^ 32 }
    requires spelled { stuck_at (recognizer vector_goals) text.now ≡ None }
    ensures read { Gives result (shape_reading text.now) }
    ensures limits { IfOk result IsShape }
    ensures answers { result ≢ Err VslRefused.NoMemory }
{
    let mut entries = [0u32; 12];
    let mut count = 0;
    let mut points = 1;
    let mut place = 0;
    while let Some(found) = next_lexeme(text, place) {
        if let Some(number) = number_of(&text[found.start..found.end]) {
            match shape_entry(number, count, points) {
                Ok(entry) => {
                    entries[count] = entry;
                    count += 1;
                    points *= u64::from(entry);
                }
                Err(limit) => return Err(VslRefused::Limit(found.start as u32, limit)),
            }
        }
        place = found.end;
    }
    match Shape::new(alloc, &entries[..count]) {
        Some(shape) => Ok(shape),
        None => unreachable!(),
    }
}

/// The shape that a text spells.
fn shape_by(alloc: Global, text: &[u8]) -> Result<Shape, VslRefused>
    requires { length text.now < 2 ^ 32 }
    ensures read { Gives result (shape_reading text.now) }
    ensures limits { IfOk result IsShape }
    ensures answers { result ≢ Err VslRefused.NoMemory }
{
    match vector_stuck(text) {
        Some(byte) => Err(VslRefused::At(byte as u32)),
        None => shape_of(alloc, text),
    }
}

/// The vector that a text spells.
fn vector_by(alloc: Global, text: &[u8]) -> Result<IntVec, VslRefused>
    requires { length text.now < 2 ^ 32 }
    ensures read { Gives result (vector_reading text.now) }
    ensures limits { IfOk result IsVector }
    ensures answers { result ≢ Err VslRefused.NoMemory }
{
    match vector_stuck(text) {
        Some(byte) => Err(VslRefused::At(byte as u32)),
        None => vector_of(alloc, text),
    }
}

/// The shape that a text spells, as `{2,3}`: at most 12 entries from 1 to 4,194,304, and at most 4,194,304 points in all.
///
/// Blanks may stand before, between and after numbers and signs, and leading zeros are read. `At(byte)`: the text isn't
/// in the grammar, and `byte` is the length of its longest viable prefix. `Limit(byte, name)`: it is in the grammar, and
/// the first entry that passes a limit begins at `byte`; at one entry `Rank` comes before `Entry`, and `Entry` before
/// `Points`. It takes no memory.
pub fn read_shape(alloc: Global, text: &str) -> Result<Shape, VslRefused>
    requires { length text.now < 2 ^ 32 }
    ensures read { Gives result (shape_reading text.now) }
    ensures right { IsRightBy shape_grammar text.now result }
    ensures limits { IfOk result IsShape }
    ensures answers { result ≢ Err VslRefused.NoMemory }
{
    shape_by(alloc, text.as_bytes())
}

/// The vector that a text spells, as `{3,-4}`: at most 12 entries from -2,147,483,647 to 2,147,483,647.
///
/// Blanks may stand before, between and after numbers and signs, leading zeros are read, and `-0` is 0. `At(byte)`: the
/// text isn't in the grammar, and `byte` is the length of its longest viable prefix. `Limit(byte, name)`: it is in the
/// grammar, and the first entry that passes a limit begins at `byte`; at one entry `Rank` comes before `Entry`. It takes
/// no memory.
pub fn read_vector(alloc: Global, text: &str) -> Result<IntVec, VslRefused>
    requires { length text.now < 2 ^ 32 }
    ensures read { Gives result (vector_reading text.now) }
    ensures right { IsRightBy vector_grammar text.now result }
    ensures limits { IfOk result IsVector }
    ensures answers { result ≢ Err VslRefused.NoMemory }
{
    vector_by(alloc, text.as_bytes())
}

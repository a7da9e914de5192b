ghost use Rattle.std.specs.Prelude.{◌≡◌, ◌+◌, ◌<◌, ◌≤◌, ◌^◌, [], length, None, Some, IfOk, MatchResult};
ghost use Rattle.std.specs.List.{AllByRecursion};
ghost use Rattle.aol_shape.specs.Machine.{stuck_at};
ghost use Rattle.aol_shape.specs.Vectors.{IsVector};
ghost use Rattle.aol_tiler.specs.Tiler.{IsTiler};
ghost use Rattle.aol_vsl.specs.Text.{tiler_grammar, column_limit};
ghost use Rattle.aol_vsl.specs.Reading.{tiler_reading, recognizer, tiler_goals};
ghost use Rattle.aol_vsl.specs.Number.{number_value, lexeme_of, lexemes_at};
ghost use Rattle.aol_vsl.specs.Answers.{Gives, GivesPart, IsRightBy};
ghost use Rattle.aol_vsl.specs.Walk.{begins as begins_with, behind_brace, close_limit, column_walk, matrix_walk, tiler_walk};

use crate::lexeme::{Found, next_lexeme};
use crate::matrix::tiler_stuck;
use crate::number::{column_entry, number_of};
use crate::refused::VslRefused;
use aol_shape::{IntVec, LimitName, MAX_RANK};
use aol_tiler::{IntMat, Tiler};
use std::alloc::Global;

/// Whether a lexeme begins with this byte.
fn begins(text: &[u8], found: Found, byte: u8) -> bool
    requires some { found.start < found.end }
    requires within { found.end ≤ length text.now }
    ensures { result ≡ begins_with byte (lexeme_of text.now found) }
{
    text[found.start] == byte
}

/// The place after the next opening brace.
fn past_brace(text: &[u8], start: usize) -> usize
    requires { start ≤ length text.now }
    ensures lexemes { lexemes_at text.now result ≡ behind_brace (lexemes_at text.now start) }
    ensures within { result ≤ length text.now }
{
    let mut place = start;
    while let Some(found) = next_lexeme(text, place) {
        if begins(text, found, b'{') {
            return found.end;
        }
        place = found.end;
    }
    place
}

/// The vector of a column's entries and the place after it, or the limit that an empty thirteenth one passes at its opening brace.
fn closed(
    alloc: Global,
    entries: &[i32],
    opened: usize,
    column: usize,
    end: usize,
) -> Result<(IntVec, usize), VslRefused>
    requires vector { IsVector entries.now }
    requires few { 0 < length entries.now → column < 12 }
    requires short { opened < 2 ^ 32 }
    ensures { MatchResult result (λ r. (close_limit column entries.now ≡ None) × (r.0 ≡ entries.now) × (r.1 ≡ end) × (column < 12)) (λ e. (close_limit column entries.now ≡ Some LimitName.Rank) × (e ≡ VslRefused.Limit opened LimitName.Rank)) }
{
    if entries.is_empty() && column >= MAX_RANK {
        return Err(VslRefused::Limit(opened as u32, LimitName::Rank));
    }
    match IntVec::new(alloc, entries) {
        Some(vector) => Ok((vector, end)),
        None => unreachable!(),
    }
}

/// The column of this number whose entries stand here, its brace being opened before, and the place after it.
fn column_from(
    alloc: Global,
    text: &[u8],
    start: usize,
    opened: usize,
    column: usize,
) -> Result<(IntVec, usize), VslRefused>
    requires short { length text.now < 2 ^ 32 }
    requires start { start ≤ length text.now }
    requires opened { opened ≤ length text.now }
    ensures read { GivesPart text.now result (column_walk column opened [] (lexemes_at text.now start)) }
    ensures within { IfOk result (λ r. (start ≤ r.1) × (r.1 ≤ length text.now)) }
    ensures limits { IfOk result (λ r. IsVector r.0 × (column < 12)) }
{
    let mut entries = [0i32; 12];
    let mut count = 0;
    let mut place = start;
    while let Some(found) = next_lexeme(text, place) {
        if begins(text, found, b'}') {
            return closed(alloc, &entries[..count], opened, column, found.end);
        }
        if let Some(number) = number_of(&text[found.start..found.end]) {
            match column_entry(number, count, column) {
                Ok(entry) => {
                    entries[count] = entry;
                    count += 1;
                }
                Err(limit) => return Err(VslRefused::Limit(found.start as u32, limit)),
            }
        }
        place = found.end;
    }
    closed(alloc, &entries[..count], opened, column, place)
}

/// The columns of the matrix whose opening brace stands before, and the place after it.
fn matrix_from(alloc: Global, text: &[u8], start: usize) -> Result<(IntMat, usize), VslRefused>
    requires short { length text.now < 2 ^ 32 }
    requires start { start ≤ length text.now }
    ensures read { GivesPart text.now result (matrix_walk None [] (lexemes_at text.now start)) }
    ensures within { IfOk result (λ r. r.1 ≤ length text.now) }
    ensures limits { IfOk result (λ r. (length r.0 ≤ 12) × AllByRecursion IsVector r.0) }
{
    let mut columns = IntMat::new(alloc);
    let mut place = start;
    while let Some(found) = next_lexeme(text, place) {
        if begins(text, found, b'}') {
            return Ok((columns, found.end));
        }
        place = found.end;
        if begins(text, found, b'{') {
            let (column, end) = column_from(alloc, text, place, found.start, columns.len())?;
            columns.push(column)?;
            place = end;
        }
    }
    Ok((columns, place))
}

/// The tiler that a text of the grammar spells.
fn tiler_of(alloc: Global, text: &[u8]) -> Result<Tiler, VslRefused>
    requires short { length text.now < 2 ^ 32 }
    requires spelled { stuck_at (recognizer tiler_goals) text.now ≡ None }
    ensures read { Gives result (tiler_reading text.now) }
    ensures limits { IfOk result IsTiler }
{
    let (origin, end) = column_from(alloc, text, past_brace(text, 0), 0, 0)?;
    let (paving, end) = matrix_from(alloc, text, past_brace(text, end))?;
    let (fitting, _) = matrix_from(alloc, text, past_brace(text, end))?;
    Ok(Tiler {
        origin,
        paving,
        fitting,
    })
}

/// The tiler that a text spells.
fn tiler_by(alloc: Global, text: &[u8]) -> Result<Tiler, VslRefused>
    requires { length text.now < 2 ^ 32 }
    ensures read { Gives result (tiler_reading text.now) }
    ensures limits { IfOk result IsTiler }
{
    match tiler_stuck(text) {
        Some(byte) => Err(VslRefused::At(byte as u32)),
        None => tiler_of(alloc, text),
    }
}

/// The tiler that a text spells, as `(origin={0},paving={{1}},fitting={})`; matrices are written by columns.
///
/// Blanks may stand before, between and after tokens, leading zeros are read, and `-0` is 0. Columns of different
/// lengths are read; such a tiler fits nothing. `At(byte)`: the text isn't in the grammar, and `byte` is the length of
/// its longest viable prefix. `Limit(byte, name)`: it is in the grammar, and the first entry that passes a limit begins
/// at `byte`. `Rank` is passed by the thirteenth entry of a vector, and by the first entry of a thirteenth column, or at
/// its opening brace where it is empty; `Entry` by an entry beyond ±2,147,483,647; at one entry `Rank` comes before
/// `Entry`. It asks for memory for the columns, and `NoMemory` says that there was none.
pub fn read_tiler(alloc: Global, text: &str) -> Result<Tiler, VslRefused>
    requires { length text.now < 2 ^ 32 }
    ensures read { Gives result (tiler_reading text.now) }
    ensures right { IsRightBy tiler_grammar text.now result }
    ensures limits { IfOk result IsTiler }
{
    tiler_by(alloc, text.as_bytes())
}

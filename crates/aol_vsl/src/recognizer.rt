//! Where a text stops being one of its grammar, byte by byte.

ghost use Rattle.std.specs.Prelude.{◌≡◌, ◌≤◌, ◌++◌, ◌∷◌, [], List, Some, length, drop, slice_index, false, IfOk, IfSome, Option, None, ◌<◌, true, not, if◌then◌else◌};
ghost use Rattle.std.specs.List.{list_all};
ghost use Rattle.aol_shape.specs.Texts.{is_blank, is_digit, is_letter};
ghost use Rattle.aol_shape.specs.Machine.{stuck_from, stuck_at};
ghost use Rattle.aol_vsl.specs.Reading.{Goal, step, begun, if_blank, recognizer, vector_goals, sign, tight, first_entry, next_entry};
ghost use Rattle.aol_vsl.specs.Passing.{parts, Passes, entries_goals, stepped, Allows, part_of, literal_goals};

use aol_shape::{is_blank, is_digit, is_letter};

/// What the entries of a vector still want.
#[derive(Clone, Copy)]
pub(crate) enum Entries {
    First,
    Next,
    Number,
    Digit,
    Digits(u8),
}

/// What a byte makes of entries: they go on, their closing brace is there, or the byte doesn't fit.
#[derive(Clone, Copy)]
pub(crate) enum Progress {
    On(Entries),
    Done,
    Stuck,
}

/// The entries after a byte that may begin a number.
fn begun(entries: Entries, byte: u8) -> Progress
    ensures { (gs : List Goal) → stepped result gs ≡ begun byte (next_entry ∷ gs) (if_blank byte (entries_goals entries ++ gs)) }
{
    if is_digit(byte) {
        Progress::On(Entries::Digits(18))
    } else if byte == b'-' {
        Progress::On(Entries::Digit)
    } else if is_blank(byte) {
        Progress::On(entries)
    } else {
        Progress::Stuck
    }
}

/// The entries after a byte that comes after an entry.
fn behind_entry(byte: u8) -> Progress
    ensures { (gs : List Goal) → step (next_entry ∷ gs) byte ≡ stepped result gs }
{
    if byte == b'}' {
        Progress::Done
    } else if byte == b',' {
        Progress::On(Entries::Number)
    } else if is_blank(byte) {
        Progress::On(Entries::Next)
    } else {
        Progress::Stuck
    }
}

/// The entries after a byte.
pub(crate) fn behind(entries: Entries, byte: u8) -> Progress
    ensures { (gs : List Goal) → step (entries_goals entries ++ gs) byte ≡ stepped result gs }
{
    match entries {
        Entries::First if byte == b'}' => Progress::Done,
        Entries::First | Entries::Number => begun(entries, byte),
        Entries::Digit if is_digit(byte) => Progress::On(Entries::Digits(18)),
        Entries::Digit => Progress::Stuck,
        Entries::Digits(left) if left > 0 && is_digit(byte) => Progress::On(Entries::Digits(
            left - 1,
        )),
        Entries::Digits(_) | Entries::Next => behind_entry(byte),
    }
}

/// Past the entries of a vector and its closing brace, or the byte at which they are stuck.
fn past_entries(text: &[u8], start: usize) -> Result<usize, usize>
    requires { start ≤ length text.now }
    ensures passes { Passes (first_entry ∷ []) text.now start result }
    ensures within { IfOk result (λ to. to ≤ length text.now) }
{
    let mut entries = Entries::First;
    for at in start..text.len() {
        match behind(entries, text[at]) {
            Progress::On(next) => entries = next,
            Progress::Done => return Ok(at + 1),
            Progress::Stuck => return Err(at),
        }
    }
    Err(text.len())
}

/// Past the blanks that begin here.
fn past_blanks(text: &[u8], start: usize) -> usize
    requires { start ≤ length text.now }
    ensures within { result ≤ length text.now }
    ensures blanks { (gs : List Goal) → Allows gs → stuck_from parts start (Some gs) (drop start text.now) ≡ stuck_from parts result (Some gs) (drop result text.now) }
    ensures end { result < length text.now → is_blank (slice_index text.now result) ≡ false }
{
    for at in start..text.len() {
        if !is_blank(text[at]) {
            return at;
        }
    }
    text.len()
}

/// Past a byte that stands here, or the byte at which it is stuck.
fn past_byte(text: &[u8], at: usize, byte: u8) -> Result<usize, usize>
    requires { at ≤ length text.now }
    ensures passes { Passes (tight byte ∷ []) text.now at result }
    ensures within { IfOk result (λ to. to ≤ length text.now) }
{
    if at < text.len() && text[at] == byte {
        Ok(at + 1)
    } else {
        Err(at)
    }
}

/// Past a byte that stands here or after blanks, or the byte at which it is stuck.
pub(crate) fn past_sign(text: &[u8], start: usize, byte: u8) -> Result<usize, usize>
    requires within { start ≤ length text.now }
    requires no_blank { is_blank byte ≡ false }
    ensures passes { Passes (sign byte ∷ []) text.now start result }
    ensures within { IfOk result (λ to. to ≤ length text.now) }
{
    past_byte(text, past_blanks(text, start), byte)
}

/// Past signs and words, with blanks before each, or the byte at which they are stuck.
pub(crate) fn past_literal(text: &[u8], start: usize, literal: &[u8]) -> Result<usize, usize>
    requires within { start ≤ length text.now }
    requires no_blank { list_all (λ b. not (is_blank b)) literal.now ≡ true }
    ensures passes { Passes (literal_goals false literal.now) text.now start result }
    ensures within { IfOk result (λ to. to ≤ length text.now) }
{
    let mut at = start;
    let mut in_word = false;
    for &byte in literal {
        at = past_part(text, at, byte, in_word)?;
        in_word = is_letter(byte);
    }
    Ok(at)
}

/// Past a byte that stands here or after blanks, and at once as a letter inside a word, or the byte at which it is stuck.
fn past_part(text: &[u8], start: usize, byte: u8, in_word: bool) -> Result<usize, usize>
    requires within { start ≤ length text.now }
    requires no_blank { is_blank byte ≡ false }
    ensures passes { Passes (part_of in_word byte ∷ []) text.now start result }
    ensures within { IfOk result (λ to. to ≤ length text.now) }
{
    if in_word && is_letter(byte) {
        past_byte(text, start, byte)
    } else {
        past_sign(text, start, byte)
    }
}

/// Past a vector, or the byte at which it is stuck.
pub(crate) fn past_vector(text: &[u8], start: usize) -> Result<usize, usize>
    requires { start ≤ length text.now }
    ensures passes { Passes vector_goals text.now start result }
    ensures within { IfOk result (λ to. to ≤ length text.now) }
{
    past_entries(text, past_sign(text, start, b'{')?)
}

/// The byte at which a text is stuck that should end here, where it is.
pub(crate) fn stuck_behind(text: &[u8], start: usize) -> Option<usize>
    requires { start ≤ length text.now }
    ensures { stuck_from parts start (Some []) (drop start text.now) ≡ result }
{
    let at = past_blanks(text, start);
    if at < text.len() { Some(at) } else { None }
}

/// The byte at which a vector's text is stuck, where it is: the length of its longest viable prefix.
pub(crate) fn vector_stuck(text: &[u8]) -> Option<usize>
    ensures stuck { stuck_at (recognizer vector_goals) text.now ≡ result }
    ensures within { IfSome result (λ byte. byte ≤ length text.now) }
{
    match past_vector(text, 0) {
        Ok(end) => stuck_behind(text, end),
        Err(byte) => Some(byte),
    }
}

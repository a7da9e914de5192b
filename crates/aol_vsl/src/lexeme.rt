//! The lexemes of a text: runs of bytes with no blank between them, and none that two tokens share.

ghost use Rattle.std.specs.Prelude.{◌≡◌, ◌≤◌, ◌<◌, ◌-◌, ◌∷◌, take, drop, length, false, IfSome, slice_index};
ghost use Rattle.aol_shape.specs.Texts.{is_blank};
ghost use Rattle.aol_vsl.specs.Reading.{joins};
ghost use Rattle.aol_vsl.specs.Number.{Finds, lexemes_at};

use aol_shape::{is_blank, is_digit, is_letter};

/// Where a lexeme begins and where it ends.
#[derive(Clone, Copy)]
pub(crate) struct Found {
    pub(crate) start: usize,
    pub(crate) end: usize,
}

/// Whether a byte of a numeral or a word goes on with this byte.
fn joins(byte: u8, next: u8) -> bool
    ensures { result ≡ joins byte next }
{
    ((is_digit(byte) || byte == b'-') && is_digit(next)) || (is_letter(byte) && is_letter(next))
}

/// Where the next byte that is no blank stands, or the end of the text.
fn lexeme_start(text: &[u8], place: usize) -> usize
    requires { place ≤ length text.now }
    ensures lexemes { lexemes_at text.now place ≡ lexemes_at text.now result }
    ensures from { place ≤ result }
    ensures within { result ≤ length text.now }
    ensures on_byte { result < length text.now → is_blank (slice_index text.now result) ≡ false }
{
    for start in place..text.len() {
        if !is_blank(text[start]) {
            return start;
        }
    }
    text.len()
}

/// Where the lexeme ends that begins here.
fn lexeme_end(text: &[u8], start: usize) -> usize
    requires within { start < length text.now }
    requires on_byte { is_blank (slice_index text.now start) ≡ false }
    ensures lexemes { lexemes_at text.now start ≡ record { start = start; text = take (result - start) (drop start text.now) } ∷ lexemes_at text.now result }
    ensures from { start < result }
    ensures within { result ≤ length text.now }
{
    for end in start + 1..text.len() {
        if !joins(text[end - 1], text[end]) {
            return end;
        }
    }
    text.len()
}

/// The next lexeme from a place on.
pub(crate) fn next_lexeme(text: &[u8], place: usize) -> Option<Found>
    requires { place ≤ length text.now }
    ensures found { Finds text.now place result }
    ensures within { IfSome result (λ f. (place < f.end) × (f.start < f.end) × (f.end ≤ length text.now)) }
{
    let start = lexeme_start(text, place);
    if start == text.len() {
        return None;
    }
    let end = lexeme_end(text, start);
    Some(Found { start, end })
}

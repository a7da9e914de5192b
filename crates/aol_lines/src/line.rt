//! Lines of words, as refusals are written.

ghost use Rattle.std.specs.Prelude.{◌≡◌, ◌++◌, map, string_bytes, OnOk, IfOk};
ghost use Rattle.aol_shape.specs.Lines.{line};
ghost use Rattle.aol_lines.specs.Line.{word_text, after_blanks};
ghost use Rattle.aol_lines.specs.Reply.{refusal, reply, reply_of};
ghost use Rattle.aol_lines.specs.Status.{word_of};

use crate::reply::Reply;
use crate::status::StatusKind;
use crate::text::{push_count, push_integer, push_number, push_shape, push_text};
use aol_model_types::{Place, limit_text};
use aol_shape::{LimitName, NoMemory};
use std::alloc::Global;

/// A word of a line.
#[derive(Clone, Copy)]
pub enum Word<'a> {
    /// A name, or a word that is fixed.
    Text(&'a str),
    /// A number in decimal digits.
    Number(u32),
    /// The number of a member of a list.
    Count(usize),
    /// A whole number, after a minus where it is below 0.
    Integer(i64),
    /// The indices of an element, in braces.
    Point(&'a [u32]),
    /// A place in the document.
    Place(&'a Place),
    /// The name of a limit.
    Limit(LimitName),
}

/// Adds a word.
fn push_word(text: &mut String, word: Word) -> Result<(), NoMemory>
    ensures { OnOk result (string_bytes text.new ≡ string_bytes text.old ++ word_text word.entry) }
{
    match word {
        Word::Text(letters) => push_text(text, letters),
        Word::Number(number) => push_number(text, number),
        Word::Count(number) => push_count(text, number),
        Word::Integer(number) => push_integer(text, number),
        Word::Point(indices) => push_shape(text, indices),
        Word::Place(place) => place.write_to(text),
        Word::Limit(name) => push_text(text, limit_text(name)),
    }
}

/// Adds the words, each after a blank.
pub fn push_words(text: &mut String, words: &[Word]) -> Result<(), NoMemory>
    ensures { OnOk result (string_bytes text.new ≡ string_bytes text.old ++ after_blanks (map word_text words.now)) }
{
    for word in words {
        push_text(text, " ")?;
        push_word(text, *word)?;
    }
    Ok(())
}

/// The beginning of a line: the word of a status.
pub fn begun(alloc: Global, status: StatusKind) -> Result<String, NoMemory>
    ensures { IfOk result (λ text. string_bytes text ≡ word_of status) }
{
    Ok(String::from_str(alloc, status.word())?)
}

/// The reply with this status whose text is one line.
pub fn ended(status: StatusKind, text: String) -> Result<Reply, NoMemory>
    ensures { IfOk result (λ r. reply_of r ≡ reply status (line (string_bytes text))) }
{
    let mut text = text;
    push_text(&mut text, "\n")?;
    Ok(Reply { status, text })
}

/// The refusal with this status: its text is one line, of the status' word and then these words.
pub fn refusal(alloc: Global, status: StatusKind, words: &[Word]) -> Result<Reply, NoMemory>
    ensures { IfOk result (λ r. reply_of r ≡ refusal status (map word_text words.now)) }
{
    let mut text = begun(alloc, status)?;
    push_words(&mut text, words)?;
    ended(status, text)
}

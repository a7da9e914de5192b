//! A text read byte by byte, in place.

ghost use Rattle.std.specs.Prelude.{◌≡◌, ◌+◌, ◌<◌, ◌^◌, length, [], Some, None, IfOk, OnOk, IfErr, if◌then◌else◌};
ghost use Rattle.aol_expr_tree.specs.Bytes.{IsByte};
ghost use Rattle.aol_expr_tree.specs.Answers.{Gives};
ghost use Rattle.aol_expr_tree.specs.Reading.{stepped, step, recognizer, operand_of, whole, finished, reading_from};
ghost use Rattle.aol_expr.specs.States.{in_mode, StaysAtBlank, AddsDigit, AddsLetter, Stays};

use crate::operands::{
    after_operand, begin, equal, first_index, in_digits, in_index, new_index, smaller,
};
use crate::operators::group;
use crate::words::{
    after_name, after_word, bound, bounded, in_bound, in_sum_name, in_word, sum_name, sum_named,
};
use aol_expr_tree::{
    Byte, ExprRefused, Held, Letters, Mode, Numeral, Part, Reader, Stack, Waiting, byte_of,
};
use aol_shape::{LimitName, MAX_DIGITS, MAX_NAME, NoMemory};
use std::alloc::Global;
use std::mem;

/// The first limit that a token passes, with its place, and the whole expression.
pub(crate) type Said = (Option<(u32, LimitName)>, Part);

/// Before the first byte.
pub(crate) fn start(alloc: Global) -> Reader
    ensures { result ≡ recognizer.start }
{
    Reader {
        held: Held {
            place: 0,
            passed: None,
            levels: Stack::new(alloc),
            waiting: Waiting::nothing(),
            around: 1,
        },
        mode: Mode::Operand,
    }
}

/// On with what the byte is, where it fits.
#[tactic(auto, unfolding(aol_expr_tree::specs::Reading::stepped))]
fn stepped(
    held: &mut Held,
    alloc: Global,
    mode: Mode,
    byte: Byte,
    b: u8,
) -> Result<Option<Mode>, NoMemory>
    requires { IsByte byte b }
    ensures { IfOk result (λ m. in_mode held.new m ≡ stepped held.old mode byte b) }
{
    match mode {
        Mode::Operand => begin(held, alloc, false, byte, b),
        Mode::FirstIndex => first_index(held, alloc, byte, b),
        Mode::Digits(numeral) => in_digits(held, alloc, numeral, byte, b),
        Mode::Index => Ok(new_index(byte, b)),
        Mode::InIndex(k) => in_index(held, alloc, k, byte, b),
        Mode::InWord(letters) => in_word(held, alloc, letters, byte, b),
        Mode::AfterWord(word) => after_word(held, word, byte),
        Mode::Named(letters) => after_name(held, alloc, letters, byte),
        Mode::Whole(part) => after_operand(held, alloc, part, byte),
        Mode::Smaller(part) => smaller(held, alloc, part, byte, b),
        Mode::Equal(part) => equal(held, alloc, part, byte),
        Mode::SumName => sum_name(alloc, byte, b),
        Mode::InSumName(letters) => in_sum_name(letters, byte, b),
        Mode::SumNamed(letters) => Ok(sum_named(letters, byte)),
        Mode::Bound(letters) => Ok(bound(held, letters, byte, b)),
        Mode::InBound(letters, numeral) => in_bound(held, letters, numeral, byte, b),
        Mode::Bounded(letters, terms) => bounded(held, letters, terms, byte),
    }
}

/// Whether a blank leaves the mode as it is.
#[tactic(auto, unfolding(aol_expr_tree::specs::Reading::stepped, aol_expr_tree::specs::Reading::begun, aol_expr_tree::specs::Reading::first_index, aol_expr_tree::specs::Reading::after_operand))]
fn stays_at_blank(mode: &Mode) -> bool
    ensures { StaysAtBlank mode.now result }
{
    match mode {
        Mode::Operand => true,
        Mode::FirstIndex => true,
        Mode::Whole(_) => true,
        _ => false,
    }
}

/// One more digit, where the byte is one and there is room for it.
fn add_digit(numeral: &mut Numeral, byte: Byte, b: u8) -> bool
    requires { IsByte byte b }
    ensures { AddsDigit numeral.old byte b numeral.new result }
{
    let Byte::Digit = byte else {
        return false;
    };
    match numeral.digits.with_digit(MAX_DIGITS, b) {
        Some(digits) => {
            numeral.digits = digits;
            true
        }
        None => false,
    }
}

/// One more letter or digit, where the byte is one and there is room for it.
fn add_letter(letters: &mut Letters, byte: Byte, b: u8) -> Result<bool, NoMemory>
    requires { IsByte byte b }
    ensures { IfOk result (AddsLetter letters.old byte b letters.new) }
{
    match byte {
        Byte::Letter | Byte::Digit if letters.len() < MAX_NAME => {
            letters.push(b)?;
            Ok(true)
        }
        _ => Ok(false),
    }
}

/// On with a byte that changes the mode at most: a blank between tokens, or one more digit or letter.
fn stays(mode: &mut Mode, byte: Byte, b: u8) -> Result<bool, NoMemory>
    requires { IsByte byte b }
    ensures { IfOk result (Stays mode.old byte b mode.new) }
{
    if let Byte::Blank = byte {
        return Ok(stays_at_blank(mode));
    }
    match mode {
        Mode::Digits(numeral) => Ok(add_digit(numeral, byte, b)),
        Mode::InWord(letters) => add_letter(letters, byte, b),
        _ => Ok(false),
    }
}

/// On with the next byte, where it fits.
#[tactic(auto, unfolding(aol_expr_tree::specs::Reading::step))]
fn step(reader: &mut Reader, alloc: Global, b: u8) -> Result<bool, NoMemory>
    requires { reader.old.held.place + 1 < 2 ^ 32 }
    ensures step { IfOk result (λ fits. (if fits then Some reader.new else None) ≡ step reader.old b) }
    ensures place { OnOk result (reader.new.held.place ≡ reader.old.held.place + 1) }
{
    let byte = byte_of(b);
    let place = reader.held.place + 1;
    if stays(&mut reader.mode, byte, b)? {
        reader.held.place = place;
        return Ok(true);
    }
    let mode = mem::replace(&mut reader.mode, Mode::Operand);
    let next = stepped(&mut reader.held, alloc, mode, byte, b)?;
    reader.held.place = place;
    match next {
        Some(mode) => {
            reader.mode = mode;
            Ok(true)
        }
        None => Ok(false),
    }
}

/// Reads the bytes, as far as they fit.
#[tactic(auto, using(aol_expr_grammar::proofs::Bytewise::goes_on, aol_expr_grammar::proofs::Bytewise::stops))]
pub(crate) fn run(reader: &mut Reader, alloc: Global, bytes: &[u8]) -> Result<(), ExprRefused>
    requires { reader.old.held.place + length bytes.now < 2 ^ 32 }
    ensures goes_on { OnOk result (reading_from reader.old.held.place reader.old bytes.now ≡ reading_from reader.new.held.place reader.new []) }
    ensures stops { IfErr result (λ e. Gives (Err e) (reading_from reader.old.held.place reader.old bytes.now)) }
{
    let mut rest = bytes;
    while let Some((b, more)) = rest.split_first() {
        let place = reader.held.place;
        match step(reader, alloc, *b) {
            Ok(true) => rest = more,
            Ok(false) => return Err(ExprRefused::At(place)),
            Err(NoMemory) => return Err(ExprRefused::NoMemory),
        }
    }
    Ok(())
}

/// The operand after which a blank leaves the reader.
fn operand_of(mode: Mode) -> Option<Part>
    ensures { result ≡ operand_of mode }
{
    match mode {
        Mode::Whole(part) => Some(part),
        Mode::Named(letters) => Some(Part::variable(letters.into_name())),
        other => {
            drop(other);
            None
        }
    }
}

/// What a text says that ends after this, where no bracket is open: the limit that a token passes, and the whole.
#[tactic(auto, unfolding(aol_expr_tree::specs::Reading::whole))]
fn whole(held: &mut Held, alloc: Global, mode: Mode) -> Result<Option<Said>, NoMemory>
    ensures { IfOk result (λ s. s ≡ whole held.old held.old.levels (operand_of mode)) }
{
    let passed = held.passed;
    let operand = operand_of(mode);
    if let Some(_) = held.levels.pop() {
        return Ok(None);
    }
    match operand {
        Some(part) => Ok(Some((passed, group(&mut held.waiting, alloc, part)?))),
        None => Ok(None),
    }
}

/// What a text says that ends here.
#[tactic(auto, unfolding(aol_expr_tree::specs::Reading::finished))]
pub(crate) fn finish(reader: &mut Reader, alloc: Global) -> Result<Option<Said>, NoMemory>
    ensures { IfOk result (λ s. s ≡ finished reader.old) }
{
    let mode = mem::replace(&mut reader.mode, Mode::Operand);
    match stepped(&mut reader.held, alloc, mode, Byte::Blank, b' ')? {
        Some(mode) => whole(&mut reader.held, alloc, mode),
        None => Ok(None),
    }
}

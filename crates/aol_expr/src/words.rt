//! Words, names, and the variables and bounds of sums.

ghost use Rattle.std.specs.Prelude.{◌≡◌, ◌<◌, IfOk};
ghost use Rattle.aol_expr_tree.specs.declared.reader.Held.{Held};
ghost use Rattle.aol_expr_tree.specs.Bytes.{IsByte};
ghost use Rattle.aol_expr_tree.specs.Reading.{longer, word_opened, after_word, after_name, in_word, sum_name, sum_named, in_sum_name, bound, bounded, in_bound};
ghost use Rattle.aol_expr.specs.States.{in_mode};

use crate::brackets::{enter, has_room, open, open_indices};
use crate::operands::{after_operand, note};
use aol_expr_tree::{
    Bracket, Byte, Decimal, Held, Keyword, Letters, MAX_TERMS, Mode, Numeral, Part,
};
use aol_shape::{LimitName, MAX_DIGITS, MAX_NAME, NoMemory};
use std::alloc::Global;

/// One more letter or digit, where there is room for it.
fn longer(letters: Letters, b: u8) -> Result<Option<Letters>, NoMemory>
    requires { b < 128 }
    ensures { IfOk result (λ x. x ≡ longer letters b) }
{
    if letters.len() < MAX_NAME {
        let mut letters = letters;
        letters.push(b)?;
        Ok(Some(letters))
    } else {
        Ok(None)
    }
}

/// The bracket of a word opens.
fn open_word(held: &mut Held, word: Keyword) -> Result<Option<Mode>, NoMemory>
    ensures { IfOk result (λ m. in_mode held.new m ≡ word_opened held.old word) }
{
    match word {
        Keyword::Function(op) => open(held, Bracket::First(op)),
        Keyword::If => open(held, Bracket::Condition),
        Keyword::Sum if has_room(held) => Ok(Some(Mode::SumName)),
        Keyword::Sum => Ok(None),
    }
}

/// What comes after a word.
#[tactic(auto, unfolding(aol_expr_tree::specs::Reading::after_word))]
pub(crate) fn after_word(
    held: &mut Held,
    word: Keyword,
    byte: Byte,
) -> Result<Option<Mode>, NoMemory>
    ensures { IfOk result (λ m. in_mode held.new m ≡ after_word held.old word byte) }
{
    match byte {
        Byte::Open => open_word(held, word),
        Byte::Blank if has_room(held) => Ok(Some(Mode::AfterWord(word))),
        _ => Ok(None),
    }
}

/// Indices after a port, or what comes after a variable.
#[tactic(auto, unfolding(aol_expr_tree::specs::Reading::after_name))]
pub(crate) fn after_name(
    held: &mut Held,
    alloc: Global,
    letters: Letters,
    byte: Byte,
) -> Result<Option<Mode>, NoMemory>
    ensures { IfOk result (λ m. in_mode held.new m ≡ after_name held.old letters byte) }
{
    match byte {
        Byte::OpenBrace => { open_indices(held, Part::port(alloc, letters.into_name())) }
        Byte::Blank => Ok(Some(Mode::Named(letters))),
        byte => after_operand(held, alloc, Part::variable(letters.into_name()), byte),
    }
}

/// A name or a word goes on, or ends before the byte.
#[tactic(auto, unfolding(aol_expr_tree::specs::Reading::in_word))]
pub(crate) fn in_word(
    held: &mut Held,
    alloc: Global,
    letters: Letters,
    byte: Byte,
    b: u8,
) -> Result<Option<Mode>, NoMemory>
    requires { IsByte byte b }
    ensures { IfOk result (λ m. in_mode held.new m ≡ in_word held.old letters byte b) }
{
    match byte {
        Byte::Letter | Byte::Digit => match longer(letters, b)? {
            Some(letters) => Ok(Some(Mode::InWord(letters))),
            None => Ok(None),
        },
        byte => match letters.word() {
            Some(word) => after_word(held, word, byte),
            None => after_name(held, alloc, letters, byte),
        },
    }
}

/// The variable of a sum may begin with the byte.
#[tactic(auto, unfolding(aol_expr_tree::specs::Reading::sum_name))]
pub(crate) fn sum_name(alloc: Global, byte: Byte, b: u8) -> Result<Option<Mode>, NoMemory>
    requires { IsByte byte b }
    ensures { IfOk result (λ m. (h : Held) → in_mode h m ≡ sum_name h byte b) }
{
    match byte {
        Byte::Letter => Ok(Some(Mode::InSumName(Letters::one(alloc, b)?))),
        Byte::Blank => Ok(Some(Mode::SumName)),
        _ => Ok(None),
    }
}

/// A comma after the variable of a sum.
#[tactic(auto, unfolding(aol_expr_tree::specs::Reading::sum_named))]
pub(crate) fn sum_named(letters: Letters, byte: Byte) -> Option<Mode>
    ensures { (h : Held) → in_mode h result ≡ sum_named h letters byte }
{
    match byte {
        Byte::Comma => Some(Mode::Bound(letters)),
        Byte::Blank => Some(Mode::SumNamed(letters)),
        _ => None,
    }
}

/// The variable of a sum goes on, or ends before the byte.
#[tactic(auto, unfolding(aol_expr_tree::specs::Reading::in_sum_name))]
pub(crate) fn in_sum_name(letters: Letters, byte: Byte, b: u8) -> Result<Option<Mode>, NoMemory>
    requires { IsByte byte b }
    ensures { IfOk result (λ m. (h : Held) → in_mode h m ≡ in_sum_name h letters byte b) }
{
    match byte {
        Byte::Letter | Byte::Digit => match longer(letters, b)? {
            Some(letters) => Ok(Some(Mode::InSumName(letters))),
            None => Ok(None),
        },
        byte => match letters.word() {
            Some(_) => Ok(None),
            None => Ok(sum_named(letters, byte)),
        },
    }
}

/// A bound may begin with the byte.
#[tactic(auto, unfolding(aol_expr_tree::specs::Reading::bound))]
pub(crate) fn bound(held: &Held, letters: Letters, byte: Byte, b: u8) -> Option<Mode>
    requires { IsByte byte b }
    ensures { in_mode held.now result ≡ bound held.now letters byte b }
{
    match byte {
        Byte::Digit => {
            let numeral = Numeral {
                start: held.place,
                negative: false,
                digits: Decimal::one(b),
            };
            Some(Mode::InBound(letters, numeral))
        }
        Byte::Blank => Some(Mode::Bound(letters)),
        _ => None,
    }
}

/// A comma after the bound.
#[tactic(auto, unfolding(aol_expr_tree::specs::Reading::bounded))]
pub(crate) fn bounded(
    held: &mut Held,
    letters: Letters,
    terms: u32,
    byte: Byte,
) -> Result<Option<Mode>, NoMemory>
    ensures { IfOk result (λ m. in_mode held.new m ≡ bounded held.old letters terms byte) }
{
    match byte {
        Byte::Comma => {
            let around = (u64::from(held.around) * u64::from(terms)).min(MAX_TERMS) as u32;
            enter(held, Bracket::Term(letters.into_name(), terms), around)?;
            Ok(Some(Mode::Operand))
        }
        Byte::Blank => Ok(Some(Mode::Bounded(letters, terms))),
        _ => Ok(None),
    }
}

/// A bound goes on, or ends before the byte.
#[tactic(auto, unfolding(aol_expr_tree::specs::Reading::in_bound))]
pub(crate) fn in_bound(
    held: &mut Held,
    letters: Letters,
    numeral: Numeral,
    byte: Byte,
    b: u8,
) -> Result<Option<Mode>, NoMemory>
    requires { IsByte byte b }
    ensures { IfOk result (λ m. in_mode held.new m ≡ in_bound held.old letters numeral byte b) }
{
    let Numeral {
        start,
        negative,
        digits,
    } = numeral;
    if let Byte::Digit = byte {
        return Ok(match digits.with_digit(MAX_DIGITS, b) {
            Some(digits) => {
                let numeral = Numeral {
                    start,
                    negative,
                    digits,
                };
                Some(Mode::InBound(letters, numeral))
            }
            None => None,
        });
    }
    let terms = digits.bound(held.around);
    note(held, terms.is_some(), start, LimitName::Sums);
    bounded(held, letters, terms.unwrap_or(0), byte)
}

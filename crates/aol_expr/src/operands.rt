//! Operands, what comes after them, and numbers.

ghost use Rattle.std.specs.Prelude.{◌≡◌, Some, IfOk, OnOk};
ghost use Rattle.aol_expr_tree.specs.declared.reader.Held.{Held};
ghost use Rattle.aol_expr_tree.specs.declared.reader.Mode.TheVariants.{Operand};
ghost use Rattle.aol_expr_tree.specs.Bytes.{IsByte};
ghost use Rattle.aol_expr_tree.specs.Reading.{begun, noted, compared, after_operand, in_digits, new_index, in_index, first_index, smaller, equal};
ghost use Rattle.aol_expr.specs.States.{in_mode};

use crate::brackets::{close, close_brace, close_empty, go_on, open};
use crate::operators::wait;
use aol_expr_tree::{Bracket, Byte, Decimal, ExprOp, Held, Letters, Mode, Numeral, Part};
use aol_shape::{LimitName, MAX_DIGITS, NoMemory};
use std::alloc::Global;

/// An operand may begin with the byte, or a closing brace may come where it says so.
#[tactic(auto, unfolding(aol_expr_tree::specs::Reading::begun))]
pub(crate) fn begin(
    held: &mut Held,
    alloc: Global,
    first: bool,
    byte: Byte,
    b: u8,
) -> Result<Option<Mode>, NoMemory>
    requires { IsByte byte b }
    ensures { IfOk result (λ m. in_mode held.new m ≡ begun held.old first byte b) }
{
    let start = held.place;
    match byte {
        Byte::Blank => Ok(Some(if first {
            Mode::FirstIndex
        } else {
            Mode::Operand
        })),
        Byte::Digit => Ok(Some(Mode::Digits(Numeral {
            start,
            negative: false,
            digits: Decimal::one(b),
        }))),
        Byte::Operator(op) => match op {
            ExprOp::Sub => Ok(Some(Mode::Digits(Numeral {
                start,
                negative: true,
                digits: Decimal::none(),
            }))),
            _ => Ok(None),
        },
        Byte::Dollar => Ok(Some(Mode::Index)),
        Byte::Letter => Ok(Some(Mode::InWord(Letters::one(alloc, b)?))),
        Byte::Open => open(held, Bracket::Parens),
        _ => Ok(None),
    }
}

/// A first index may begin with the byte, or the brace closes at once.
#[tactic(auto, unfolding(aol_expr_tree::specs::Reading::first_index))]
pub(crate) fn first_index(
    held: &mut Held,
    alloc: Global,
    byte: Byte,
    b: u8,
) -> Result<Option<Mode>, NoMemory>
    requires { IsByte byte b }
    ensures { IfOk result (λ m. in_mode held.new m ≡ first_index held.old byte b) }
{
    match byte {
        Byte::CloseBrace => Ok(close_empty(held)),
        byte => begin(held, alloc, true, byte, b),
    }
}

/// A token that passes a limit is noted, where none is yet.
#[tactic(auto, unfolding(aol_expr_tree::specs::Reading::noted))]
pub(crate) fn note(held: &mut Held, fits: bool, start: u32, name: LimitName)
    ensures { held.new ≡ noted fits start name held.old }
{
    if !fits && held.passed.is_none() {
        held.passed = Some((start, name));
    }
}

/// On to the right operand of a comparison or another operator.
fn operand_after(
    held: &mut Held,
    alloc: Global,
    op: ExprOp,
    part: Part,
) -> Result<Option<Mode>, NoMemory>
    ensures held { OnOk result (held.new ≡ compared op held.old part) }
    ensures mode { IfOk result (λ m. m ≡ Some Operand) }
{
    wait(&mut held.waiting, alloc, op, part)?;
    Ok(Some(Mode::Operand))
}

/// What comes after an operand may begin with the byte.
#[tactic(auto, unfolding(aol_expr_tree::specs::Reading::after_operand))]
pub(crate) fn after_operand(
    held: &mut Held,
    alloc: Global,
    part: Part,
    byte: Byte,
) -> Result<Option<Mode>, NoMemory>
    ensures { IfOk result (λ m. in_mode held.new m ≡ after_operand held.old part byte) }
{
    match byte {
        Byte::Blank => Ok(Some(Mode::Whole(part))),
        Byte::Operator(op) => operand_after(held, alloc, op, part),
        Byte::Less if held.waiting.comparison.is_none() => Ok(Some(Mode::Smaller(part))),
        Byte::Equals if held.waiting.comparison.is_none() => Ok(Some(Mode::Equal(part))),
        Byte::Comma => go_on(held, alloc, part),
        Byte::Close => close(held, alloc, part),
        Byte::CloseBrace => close_brace(held, alloc, part),
        _ => Ok(None),
    }
}

/// `<=`, or the right operand of `<` may begin with the byte.
#[tactic(auto, unfolding(aol_expr_tree::specs::Reading::smaller))]
pub(crate) fn smaller(
    held: &mut Held,
    alloc: Global,
    part: Part,
    byte: Byte,
    b: u8,
) -> Result<Option<Mode>, NoMemory>
    requires { IsByte byte b }
    ensures { IfOk result (λ m. in_mode held.new m ≡ smaller held.old part byte b) }
{
    match byte {
        Byte::Equals => operand_after(held, alloc, ExprOp::Le, part),
        byte => {
            wait(&mut held.waiting, alloc, ExprOp::Lt, part)?;
            begin(held, alloc, false, byte, b)
        }
    }
}

/// `==`.
#[tactic(auto, unfolding(aol_expr_tree::specs::Reading::equal))]
pub(crate) fn equal(
    held: &mut Held,
    alloc: Global,
    part: Part,
    byte: Byte,
) -> Result<Option<Mode>, NoMemory>
    ensures { IfOk result (λ m. in_mode held.new m ≡ equal held.old part byte) }
{
    match byte {
        Byte::Equals => operand_after(held, alloc, ExprOp::Eq, part),
        _ => Ok(None),
    }
}

/// A number goes on, or ends before the byte.
#[tactic(auto, unfolding(aol_expr_tree::specs::Reading::in_digits))]
pub(crate) fn in_digits(
    held: &mut Held,
    alloc: Global,
    numeral: Numeral,
    byte: Byte,
    b: u8,
) -> Result<Option<Mode>, NoMemory>
    requires { IsByte byte b }
    ensures { IfOk result (λ m. in_mode held.new m ≡ in_digits held.old numeral byte b) }
{
    let Numeral {
        start,
        negative,
        digits,
    } = numeral;
    if let Byte::Digit = byte {
        return Ok(match digits.with_digit(MAX_DIGITS, b) {
            Some(digits) => Some(Mode::Digits(Numeral {
                start,
                negative,
                digits,
            })),
            None => None,
        });
    }
    if digits.is_empty() {
        return Ok(None);
    }
    let value = digits.signed(negative);
    note(held, value.is_some(), start, LimitName::Number);
    after_operand(held, alloc, Part::number(value.unwrap_or(0)), byte)
}

/// An index begins.
#[tactic(auto, unfolding(aol_expr_tree::specs::Reading::new_index))]
pub(crate) fn new_index(byte: Byte, b: u8) -> Option<Mode>
    requires { IsByte byte b }
    ensures { (h : Held) → in_mode h result ≡ new_index h byte b }
{
    match byte {
        Byte::Digit => Some(Mode::InIndex(b - b'0')),
        _ => None,
    }
}

/// An index has a second digit, or ends before the byte.
#[tactic(auto, unfolding(aol_expr_tree::specs::Reading::in_index))]
pub(crate) fn in_index(
    held: &mut Held,
    alloc: Global,
    k: u8,
    byte: Byte,
    b: u8,
) -> Result<Option<Mode>, NoMemory>
    requires { IsByte byte b }
    ensures { IfOk result (λ m. in_mode held.new m ≡ in_index held.old k byte b) }
{
    if let Byte::Digit = byte {
        let k = 10 * u32::from(k) + u32::from(b - b'0');
        return Ok(Some(Mode::Whole(Part::index(k))));
    }
    after_operand(held, alloc, Part::index(u32::from(k)), byte)
}

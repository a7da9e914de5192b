ghost use Rattle.std.specs.Prelude.{◌≡◌};
ghost use Rattle.aol_expr_tree.specs.Reading.{nothing_waits};

use crate::decimal::Decimal;
use crate::letters::{Keyword, Letters};
use crate::op::ExprOp;
use crate::part::Part;
use crate::stack::Stack;
use aol_shape::{LimitName, Name};

/// A number so far, with the place where it begins.
#[derive(Drop)]
pub struct Numeral {
    pub start: u32,
    pub negative: bool,
    pub digits: Decimal,
}

/// A left operand with its operator.
#[derive(Drop)]
pub struct Left {
    pub op: ExprOp,
    pub part: Part,
}

/// The operators that wait for their right operands, at most one of each strength.
#[derive(Drop)]
pub struct Waiting {
    pub comparison: Option<Left>,
    pub sum: Option<Left>,
    pub product: Option<Left>,
}

/// What an open bracket belongs to, with the arguments that are whole.
#[derive(Drop)]
pub enum Bracket {
    Parens,
    /// The read of a port with the indices so far.
    Indices(Part),
    First(ExprOp),
    Second(ExprOp, Part),
    Condition,
    Chosen(Part),
    Other(Part, Part),
    Term(Name, u32),
}

/// An open bracket, and what it stands in: the operators that wait, and the terms of the sums around it.
#[derive(Drop)]
pub struct Level {
    pub bracket: Bracket,
    pub waiting: Waiting,
    pub around: u32,
}

/// What is read, but for what the next byte may go on with.
#[derive(Drop)]
pub struct Held {
    pub place: u32,
    pub passed: Option<(u32, LimitName)>,
    /// The open brackets, the innermost at the top.
    pub levels: Stack<Level>,
    pub waiting: Waiting,
    pub around: u32,
}

/// What the next byte may go on with.
#[derive(Drop)]
pub enum Mode {
    /// An operand.
    Operand,
    /// An operand or a closing brace.
    FirstIndex,
    /// At once a digit, or what comes after a number.
    Digits(Numeral),
    /// At once a digit.
    Index,
    /// At once a digit, or what comes after `$k`.
    InIndex(u8),
    /// At once more of a word or name, or what comes after it.
    InWord(Letters),
    /// The bracket of a word.
    AfterWord(Keyword),
    /// Indices, or what comes after a variable.
    Named(Letters),
    /// What comes after an operand.
    Whole(Part),
    /// At once the rest of `<=`, or an operand.
    Smaller(Part),
    /// At once the rest of `==`.
    Equal(Part),
    /// The variable of a sum.
    SumName,
    InSumName(Letters),
    /// The comma after the variable.
    SumNamed(Letters),
    /// The bound of a sum.
    Bound(Letters),
    InBound(Letters, Numeral),
    /// The comma after the bound.
    Bounded(Letters, u32),
}

/// A text so far.
#[derive(Drop)]
pub struct Reader {
    pub held: Held,
    pub mode: Mode,
}

impl Waiting {
    /// No operator waits.
    pub fn nothing() -> Waiting
        ensures { result ≡ nothing_waits }
    {
        Waiting {
            comparison: None,
            sum: None,
            product: None,
        }
    }
}

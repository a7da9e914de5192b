ghost use Rattle.std.specs.Prelude.{◌≡◌};
ghost use Rattle.aol_expr_tree.specs.Bytes.{byte_of, IsByte};

use crate::op::ExprOp;

/// What a byte is in the text of an expression.
#[derive(Clone, Copy)]
pub enum Byte {
    Blank,
    Digit,
    /// A letter or `_`.
    Letter,
    Dollar,
    /// An operator of one byte that is no comparison.
    Operator(ExprOp),
    Less,
    Equals,
    Comma,
    Open,
    Close,
    OpenBrace,
    CloseBrace,
    Other,
}

/// What the byte is.
pub fn byte_of(b: u8) -> Byte
    ensures value { result ≡ byte_of b }
    ensures range { IsByte result b }
{
    match b {
        b' ' | b'\t' | b'\n' | b'\r' => Byte::Blank,
        b'0'..=b'9' => Byte::Digit,
        b'A'..=b'Z' | b'a'..=b'z' | b'_' => Byte::Letter,
        b'$' => Byte::Dollar,
        b'+' => Byte::Operator(ExprOp::Add),
        b'-' => Byte::Operator(ExprOp::Sub),
        b'*' => Byte::Operator(ExprOp::Mul),
        b'/' => Byte::Operator(ExprOp::Div),
        b'%' => Byte::Operator(ExprOp::Rem),
        b'<' => Byte::Less,
        b'=' => Byte::Equals,
        b',' => Byte::Comma,
        b'(' => Byte::Open,
        b')' => Byte::Close,
        b'{' => Byte::OpenBrace,
        b'}' => Byte::CloseBrace,
        _ => Byte::Other,
    }
}

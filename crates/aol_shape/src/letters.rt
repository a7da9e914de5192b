//! What the bytes of texts are, and which texts are names.

ghost use Rattle.std.specs.Prelude.{◌≡◌};
ghost use Rattle.std.specs.List.{list_all};
ghost use Rattle.aol_shape.specs.Lists.{same};
ghost use Rattle.aol_shape.specs.Texts.{is_blank, is_digit, is_letter, is_name_byte, is_word, is_name};

use crate::limit::MAX_NAME;

/// Whether the byte is a space, tab, line feed or carriage return.
pub fn is_blank(byte: u8) -> bool
    ensures { result ≡ is_blank byte }
{
    byte == b' ' || byte == b'\t' || byte == b'\n' || byte == b'\r'
}

/// Whether the byte is one of `0` to `9`.
pub fn is_digit(byte: u8) -> bool
    ensures { result ≡ is_digit byte }
{
    byte >= b'0' && byte <= b'9'
}

/// Whether the byte is a letter or `_`.
pub fn is_letter(byte: u8) -> bool
    ensures { result ≡ is_letter byte }
{
    (byte >= b'A' && byte <= b'Z') || (byte >= b'a' && byte <= b'z') || byte == b'_'
}

/// Whether the byte is a letter, `_` or a digit.
pub fn is_name_byte(byte: u8) -> bool
    ensures { result ≡ is_name_byte byte }
{
    is_letter(byte) || is_digit(byte)
}

/// Whether the two texts are the same.
#[tactic(auto, using(crate::proofs::SameTexts::pointwise_same))]
pub fn is_same(one: &str, other: &str) -> bool
    ensures { result ≡ same one.now other.now }
{
    one == other
}

/// Whether the text is one of the words that are no names: `min`, `max`, `if`, `sum`.
pub fn is_word(text: &str) -> bool
    ensures { result ≡ is_word text.now }
{
    is_same(text, "min") || is_same(text, "max") || is_same(text, "if") || is_same(text, "sum")
}

fn are_name_bytes(bytes: &[u8]) -> bool
    ensures { result ≡ list_all is_name_byte bytes.now }
{
    bytes.iter().all(|byte| is_name_byte(*byte))
}

/// Whether the text is a name: a letter or `_`, then letters, digits or `_`, 1 to 64 in all, and none of the words.
pub fn is_name(text: &str) -> bool
    ensures { result ≡ is_name text.now }
{
    let bytes = text.as_bytes();
    match bytes.split_first() {
        None => false,
        Some((first, _)) => {
            is_letter(*first) && are_name_bytes(bytes) && bytes.len() <= MAX_NAME && !is_word(text)
        }
    }
}

ghost use Rattle.std.specs.Prelude.{◌≡◌, ◌<◌, [], ◌∷◌, ◌++◌, length, IfOk, OnOk};
ghost use Rattle.aol_expr_tree.specs.Words.{word_of};

use crate::op::ExprOp;
use aol_shape::{Name, NoMemory, is_same};
use std::alloc::Global;
use std::marker::Model;

/// A word that is no name.
#[derive(Clone, Copy)]
pub enum Keyword {
    Function(ExprOp),
    If,
    Sum,
}

/// The bytes of a name or a word so far.
#[derive(Drop)]
pub struct Letters {
    text: String,
}

impl Model for Letters {
    ghost use Rattle.std.specs.Prelude.{List, ℕ, string_bytes};

    ghost Value = { List ℕ };

    ghost view = { λ l. string_bytes l.text };
}

impl Letters {
    /// One byte.
    pub fn one(alloc: Global, byte: u8) -> Result<Letters, NoMemory>
        requires { byte < 128 }
        ensures { IfOk result (λ l. l ≡ byte ∷ []) }
    {
        let mut text = String::new(alloc);
        text.push(byte as char)?;
        Ok(Letters { text })
    }

    /// Appends one byte.
    pub fn push(&mut self, byte: u8) -> Result<(), NoMemory>
        requires { byte < 128 }
        ensures { OnOk result (self.new ≡ self.old ++ byte ∷ []) }
    {
        self.text.push(byte as char)?;
        Ok(())
    }

    /// How many bytes there are.
    pub fn len(&self) -> usize
        ensures { result ≡ length self.now }
    {
        self.text.len()
    }

    /// The name of these bytes. It takes no memory.
    pub fn into_name(self) -> Name
        ensures { result ≡ self }
    {
        let Letters { text } = self;
        Name::from_string(text)
    }

    /// The word that the bytes are, where they are one.
    pub fn word(&self) -> Option<Keyword>
        ensures { result ≡ word_of self.now }
    {
        let text = self.text.as_str();
        if is_same(text, "min") {
            Some(Keyword::Function(ExprOp::Min))
        } else if is_same(text, "max") {
            Some(Keyword::Function(ExprOp::Max))
        } else if is_same(text, "if") {
            Some(Keyword::If)
        } else if is_same(text, "sum") {
            Some(Keyword::Sum)
        } else {
            None
        }
    }
}

ghost use Rattle.std.specs.Prelude.{◌≡◌, ◌≤◌, Some, length};
ghost use Rattle.aol_model_types.specs.Places.{whole};
ghost use Rattle.aol_document_reading.specs.Trails.{steps_of};

use aol_model_types::{Key, Path, Place};
use std::alloc::Global;

/// The steps to a value that is read, each with those before it.
///
/// They become a place of the document only where a fault is found.
#[derive(Clone, Copy)]
pub(super) enum Trail<'a> {
    Top(Global),
    Key(&'a Trail<'a>, Key),
    Index(&'a Trail<'a>, u32),
}

impl Trail<'_> {
    /// The steps as a path.
    fn path(&self) -> Path
        requires { length (steps_of self.now) ≤ 12 }
        ensures { result ≡ steps_of self.now }
    {
        match self {
            Trail::Top(alloc) => Path::top(*alloc),
            Trail::Key(before, key) => before.path().to_key(*key),
            Trail::Index(before, index) => before.path().to_index(*index),
        }
    }

    /// The place to which the steps lead.
    pub fn place(&self) -> Place
        requires { length (steps_of self.now) ≤ 12 }
        ensures { result ≡ whole (steps_of self.now) }
    {
        self.path().place()
    }

    /// A byte of the text to which the steps lead.
    pub fn byte(&self, byte: u32) -> Place
        requires { length (steps_of self.now) ≤ 12 }
        ensures { result ≡ record { steps = steps_of self.now; byte = Some byte } }
    {
        self.path().byte(byte)
    }
}

ghost use Rattle.std.specs.Prelude.{List, ℕ, Option};
ghost use Rattle.aol_io.specs.Causes.{HasCause};
ghost use Rattle.aol_io.specs.Streams.{ReadGives, WriteTakes};

/// A call of a source or a sink failed.
#[derive(Clone, Copy, Debug, PartialEq, Eq)]
pub struct Failed;

/// Bytes to read. `left` is what calls will give from here on, where the source tells it, and
/// `faults` is a count of failed calls that never falls.
pub trait Source {
    ghost left: { Self → Option (List ℕ) };

    ghost faults: { Self → ℕ };

    /// Puts the next bytes of the input at the front of `into`, and answers how many: at most the
    /// buffer's length, and 0 for a buffer with room only at the end of the input. It fails only
    /// where the count of faults rises, and then takes nothing.
    fn read(&mut self, into: &mut [u8]) -> Result<usize, Failed>
        ensures bytes { ReadGives (left self.old) (left self.new) result into.new }
        ensures cause { HasCause (faults self.old) (faults self.new) result };
}

/// A taker of bytes. `taken` is what it took so far, where the sink tells it, and `faults` is a
/// count of failed calls that never falls.
pub trait Sink {
    ghost taken: { Self → Option (List ℕ) };

    ghost faults: { Self → ℕ };

    /// Takes bytes from the front of `piece`, and answers how many: at least one of a piece that
    /// has some. It fails only where the count of faults rises, and then takes nothing.
    fn write(&mut self, piece: &[u8]) -> Result<usize, Failed>
        ensures bytes { WriteTakes (taken self.old) (taken self.new) result piece.now }
        ensures cause { HasCause (faults self.old) (faults self.new) result };
}

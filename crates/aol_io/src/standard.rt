ghost use Rattle.std.specs.Prelude.{◌≡◌, None};
ghost use Rattle.std.specs.Io.KnownBytes.{Keeps, ReadConsumes, WriteAppends};
ghost use Rattle.aol_io.specs.Causes.{HasCause, Counts};
ghost use Rattle.aol_io.specs.Streams.{ReadGives, WriteTakes};

use crate::streams::{Failed, Sink, Source};
use std::io::{Read, Write};

/// Standard input, or another reader, as a source. It tells no bytes.
#[derive(Drop)]
pub struct StdSource<R> {
    pub reader: R,
    pub faults: u64,
}

impl<R: Read> StdSource<R> {
    /// The source over this reader, with no fault so far.
    pub fn new(reader: R) -> StdSource<R>
        ensures reader { result.reader ≡ reader }
        ensures faults { result.faults ≡ 0 }
    {
        StdSource { reader, faults: 0 }
    }
}

impl<R: Read> Source for StdSource<R> {
    ghost left = { λ _. None };

    ghost faults = { λ s. s.faults };

    fn read(&mut self, into: &mut [u8]) -> Result<usize, Failed>
        ensures bytes { ReadGives None None result into.new }
        ensures reader { ReadConsumes (R.remaining self.old.reader) (R.remaining self.new.reader) result into.new }
        ensures cause { HasCause self.old.faults self.new.faults result }
        ensures exact { Counts self.old.faults self.new.faults result }
    {
        match self.reader.read(into) {
            Ok(count) => Ok(count),
            Err(_) => {
                self.faults = self.faults.saturating_add(1);
                Err(Failed)
            }
        }
    }
}

/// Standard output, or another writer, as a sink. It tells no bytes.
#[derive(Drop)]
pub struct StdSink<W> {
    pub writer: W,
    pub faults: u64,
}

impl<W: Write> StdSink<W> {
    /// The sink over this writer, with no fault so far.
    pub fn new(writer: W) -> StdSink<W>
        ensures writer { result.writer ≡ writer }
        ensures faults { result.faults ≡ 0 }
    {
        StdSink { writer, faults: 0 }
    }

    /// Hands on what a writer with a buffer still holds. The standard streams hold nothing.
    pub fn flush(&mut self) -> Result<(), Failed>
        ensures writer { Keeps (W.contents self.old.writer) (W.contents self.new.writer) }
        ensures exact { Counts self.old.faults self.new.faults result }
    {
        match self.writer.flush() {
            Ok(()) => Ok(()),
            Err(_) => {
                self.faults = self.faults.saturating_add(1);
                Err(Failed)
            }
        }
    }
}

impl<W: Write> Sink for StdSink<W> {
    ghost taken = { λ _. None };

    ghost faults = { λ k. k.faults };

    fn write(&mut self, piece: &[u8]) -> Result<usize, Failed>
        ensures bytes { WriteTakes None None result piece.now }
        ensures writer { WriteAppends (W.contents self.old.writer) (W.contents self.new.writer) result piece.now }
        ensures cause { HasCause self.old.faults self.new.faults result }
        ensures exact { Counts self.old.faults self.new.faults result }
    {
        match self.writer.write(piece) {
            Ok(count) if count > 0 || piece.is_empty() => Ok(count),
            _ => {
                self.faults = self.faults.saturating_add(1);
                Err(Failed)
            }
        }
    }
}

ghost use Rattle.std.specs.Prelude.{OnOk, OnErr};
ghost use Rattle.std.specs.Io.KnownBytes.{Appends};
ghost use Rattle.aol_io.specs.Causes.{HasCause};
ghost use Rattle.aol_io.specs.Streams.{TookPrefix};

use crate::streams::{Failed, Sink};

/// Writes the whole text, in as many calls of the sink as it asks for.
///
/// It fails only where the sink's count of faults rose in this call. The sink then took a prefix
/// of the text.
pub fn write_all<K: Sink>(sink: &mut K, text: &[u8]) -> Result<(), Failed>
    ensures all { OnOk result (Appends (K.taken sink.old) (K.taken sink.new) text.now) }
    ensures prefix { OnErr result (TookPrefix (K.taken sink.old) (K.taken sink.new) text.now) }
    ensures cause { HasCause (K.faults sink.old) (K.faults sink.new) result }
{
    let mut at = 0usize;
    while at < text.len() {
        at += sink.write(&text[at..])?;
    }
    Ok(())
}

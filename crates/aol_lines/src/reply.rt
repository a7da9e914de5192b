ghost use Rattle.std.specs.Prelude.{◌≡◌};
ghost use Rattle.aol_lines.specs.Reply.{Wrote, reply};

use crate::status::StatusKind;
use aol_io::{Sink, write_all};

/// What is to be written, whole, and the status that it belongs to.
#[derive(Debug, Drop)]
pub struct Reply {
    pub status: StatusKind,
    pub text: String,
}

/// Writes the text, and hands back the code of the status; that of a failed sink where the sink fails.
pub fn written<K: Sink>(sink: &mut K, status: StatusKind, text: &[u8]) -> u8
    ensures { Wrote (record { before = K.taken sink.old; after = K.taken sink.new; faults_before = K.faults sink.old; faults_after = K.faults sink.new }) (reply status text.now) result }
{
    let ended = match write_all(sink, text) {
        Ok(()) => status,
        Err(_) => StatusKind::Sink,
    };
    ended.code()
}

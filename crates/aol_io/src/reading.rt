ghost use Rattle.std.specs.Prelude.{◌≤◌, ◌≡◌, ◌≢◌, ◌+◌, length, IfOk};
ghost use Rattle.aol_io.specs.Causes.{Rose};
ghost use Rattle.aol_io.specs.Streams.{WasAll, WasLong, TookAtMost};

use crate::streams::Source;
use aol_shape::Items;
use std::alloc::Global;
use thiserror::Error;

/// How many bytes one call of a source may give.
const PIECE: usize = 16384;

/// Why a source was not read to its end.
#[derive(Clone, Copy, Debug, PartialEq, Eq, Error)]
pub enum ReadRefused {
    /// A call of the source failed.
    #[error("the source failed")]
    ReadFault,
    /// More bytes came than the limit allows.
    #[error("too many bytes")]
    TooLong,
    /// There was no memory for the bytes.
    #[error("no memory")]
    NoMemory,
}

/// Reads all bytes up to the end of the source, at most `limit` of them.
///
/// It never takes more than `limit + 1` bytes, and answers `TooLong` exactly where it took so many.
/// `ReadFault` comes only where the source's count of faults rose in this call.
pub fn read_all<S: Source>(
    alloc: Global,
    source: &mut S,
    limit: u32,
) -> Result<Items<u8>, ReadRefused>
    ensures all { IfOk result (λ bytes. (length bytes ≤ limit) × WasAll (S.left source.old) (S.left source.new) bytes) }
    ensures fault { result ≡ Err ReadRefused.ReadFault → Rose (S.faults source.old) (S.faults source.new) }
    ensures long { result ≡ Err ReadRefused.TooLong → WasLong (S.left source.old) (S.left source.new) limit }
    ensures not_long { result ≢ Err ReadRefused.TooLong → TookAtMost (S.left source.old) (S.left source.new) limit }
    ensures most { TookAtMost (S.left source.old) (S.left source.new) (limit + 1) }
    ensures later { S.faults source.old ≤ S.faults source.new }
{
    let most = limit as usize + 1;
    let mut bytes = Vec::new(alloc);
    let mut piece = [0u8; PIECE];
    'pieces: loop {
        let room = PIECE.min(most - bytes.len());
        let Ok(count) = source.read(&mut piece[..room]) else {
            return Err(ReadRefused::ReadFault);
        };
        if count == 0 {
            return Ok(Items::from_vec(bytes));
        }
        if bytes.len() + count == most {
            return Err(ReadRefused::TooLong);
        }
        if bytes.extend_from_slice(&piece[..count]).is_err() {
            return Err(ReadRefused::NoMemory);
        }
    }
}

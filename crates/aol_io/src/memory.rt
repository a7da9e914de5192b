ghost use Rattle.std.specs.Prelude.{◌≡◌, ◌+◌, ◌^◌, ◌<◌, ◌≤◌, ◌↔◌, length, take, None, Ok, IfSome, IsSome};
ghost use Rattle.aol_io.specs.Causes.{HasCause};
ghost use Rattle.aol_io.specs.Streams.{GivesNext, ReadGives, WriteTakes};
ghost use Rattle.aol_io.specs.Memory.{unread, written, given, filled, read_answer, after_read, after_calm, buffer_after, write_answer, after_write, written_at, fresh_source, fresh_calm, fresh_sink};

use crate::streams::{Failed, Sink, Source};
use aol_shape::Items;
use std::marker::Model;

/// Bytes in memory, of which `at` were read. A call gives as many as the least of `piece`, the
/// buffer's length and the bytes left. The calls whose numbers (from 1) stand in `failing` fail,
/// and `faults` counts these. A call that fails changes nothing else, nor the buffer.
#[derive(Drop)]
pub struct MemSource {
    pub bytes: Items<u8>,
    pub at: u32,
    pub piece: u32,
    pub calls: u32,
    pub failing: Items<u32>,
    pub faults: u64,
}

impl Model for MemSource {
    ghost use Rattle.aol_io.specs.Memory.{MemSourceOf, mem_source_code, IsPlaced};

    ghost Value = { MemSourceOf };

    ghost coded = { mem_source_code };

    ghost view = { λ s. record { bytes = s.bytes; at = s.at; piece = s.piece; calls = s.calls; failing = s.failing; faults = s.faults } };

    ghost invariant = { λ s. IsPlaced s.bytes s.at s.piece };
}

impl MemSource {
    /// The source of these bytes, none of them read, which gives at most `piece` bytes a call and
    /// fails at the calls whose numbers stand in `failing`. None where `piece` is 0 or there are
    /// 2^32 bytes or more.
    pub fn new(bytes: Items<u8>, piece: u32, failing: Items<u32>) -> Option<MemSource>
        ensures made { IfSome result (λ s. s ≡ fresh_source bytes piece failing) }
        ensures when { IsSome result ↔ ((1 ≤ piece) × (length bytes < 2 ^ 32)) }
    {
        if piece == 0 || bytes.len() > u32::MAX as usize {
            return None;
        }
        Some(MemSource {
            bytes,
            at: 0,
            piece,
            calls: 0,
            failing,
            faults: 0,
        })
    }
}

impl Source for MemSource {
    ghost left = { λ s. unread s.bytes s.at };

    ghost faults = { λ s. s.faults };

    fn read(&mut self, into: &mut [u8]) -> Result<usize, Failed>
        ensures bytes { ReadGives (unread self.old.bytes self.old.at) (unread self.new.bytes self.new.at) result into.new }
        ensures cause { HasCause self.old.faults self.new.faults result }
        ensures answer { result ≡ read_answer self.old (length into.old) }
        ensures after { self.new ≡ after_read self.old (length into.old) }
        ensures buffer { into.new ≡ buffer_after self.old into.old }
    {
        self.calls = self.calls.saturating_add(1);
        if self.failing.as_slice().contains(&self.calls) {
            self.faults = self.faults.saturating_add(1);
            return Err(Failed);
        }
        let n = copy_next(self.bytes.as_slice(), self.at, self.piece, into);
        self.at += n as u32;
        Ok(n)
    }
}

/// Copies the bytes from `at` on to the front of `into`, at most `piece` of them, and answers how many.
fn copy_next(bytes: &[u8], at: u32, piece: u32, into: &mut [u8]) -> usize
    requires within { at ≤ length bytes.now }
    requires moves { 1 ≤ piece }
    ensures count { result ≡ given bytes.now at piece (length into.old) }
    ensures copied { into.new ≡ filled bytes.now at result into.old }
    ensures next { GivesNext (unread bytes.now at) (unread bytes.now (at + result)) result into.new }
{
    let rest = &bytes[at as usize..];
    let n = (piece as usize).min(into.len().min(rest.len()));
    into[..n].copy_from_slice(&rest[..n]);
    n
}

/// Bytes in memory, read as from a `MemSource` of which no call fails.
#[derive(Drop)]
pub struct CalmSource {
    pub bytes: Items<u8>,
    pub at: u32,
    pub piece: u32,
}

impl Model for CalmSource {
    ghost use Rattle.aol_io.specs.Memory.{CalmSourceOf, calm_source_code, IsPlaced};

    ghost Value = { CalmSourceOf };

    ghost coded = { calm_source_code };

    ghost view = { λ s. record { bytes = s.bytes; at = s.at; piece = s.piece } };

    ghost invariant = { λ s. IsPlaced s.bytes s.at s.piece };
}

impl CalmSource {
    /// The source of these bytes, none of them read, which gives at most `piece` bytes a call.
    /// None where `piece` is 0 or there are 2^32 bytes or more.
    pub fn new(bytes: Items<u8>, piece: u32) -> Option<CalmSource>
        ensures made { IfSome result (λ s. s ≡ fresh_calm bytes piece) }
        ensures when { IsSome result ↔ ((1 ≤ piece) × (length bytes < 2 ^ 32)) }
    {
        if piece == 0 || bytes.len() > u32::MAX as usize {
            return None;
        }
        Some(CalmSource {
            bytes,
            at: 0,
            piece,
        })
    }
}

impl Source for CalmSource {
    ghost left = { λ s. unread s.bytes s.at };

    ghost faults = { λ _. 0 };

    fn read(&mut self, into: &mut [u8]) -> Result<usize, Failed>
        ensures bytes { ReadGives (unread self.old.bytes self.old.at) (unread self.new.bytes self.new.at) result into.new }
        ensures cause { HasCause 0 0 result }
        ensures answer { result ≡ Ok (given self.old.bytes self.old.at self.old.piece (length into.old)) }
        ensures after { self.new ≡ after_calm self.old (length into.old) }
        ensures buffer { into.new ≡ filled self.old.bytes self.old.at (given self.old.bytes self.old.at self.old.piece (length into.old)) into.old }
    {
        let n = copy_next(self.bytes.as_slice(), self.at, self.piece, into);
        self.at += n as u32;
        Ok(n)
    }
}

/// Room in memory, of which the first `used` bytes were written. A call takes as many bytes as the
/// least of `piece`, the given bytes and the room left. It fails, as `faults` counts, where its
/// number (from 1) stands in `failing`, and where bytes are given and there is no room left; it
/// then takes nothing.
#[derive(Drop)]
pub struct MemSink {
    pub room: Items<u8>,
    pub used: u32,
    pub piece: u32,
    pub calls: u32,
    pub failing: Items<u32>,
    pub faults: u64,
}

impl Model for MemSink {
    ghost use Rattle.aol_io.specs.Memory.{MemSinkOf, mem_sink_code, IsPlaced};

    ghost Value = { MemSinkOf };

    ghost coded = { mem_sink_code };

    ghost view = { λ s. record { room = s.room; used = s.used; piece = s.piece; calls = s.calls; failing = s.failing; faults = s.faults } };

    ghost invariant = { λ s. IsPlaced s.room s.used s.piece };
}

impl MemSink {
    /// The sink with this room, none of it used, which takes at most `piece` bytes a call and
    /// fails at the calls whose numbers stand in `failing`. None where `piece` is 0 or there is
    /// room for 2^32 bytes or more.
    pub fn new(room: Items<u8>, piece: u32, failing: Items<u32>) -> Option<MemSink>
        ensures made { IfSome result (λ k. k ≡ fresh_sink room piece failing) }
        ensures when { IsSome result ↔ ((1 ≤ piece) × (length room < 2 ^ 32)) }
    {
        if piece == 0 || room.len() > u32::MAX as usize {
            return None;
        }
        Some(MemSink {
            room,
            used: 0,
            piece,
            calls: 0,
            failing,
            faults: 0,
        })
    }

    /// The bytes that it took so far.
    pub fn bytes(&self) -> &[u8]
        ensures { result.now ≡ take self.now.used self.now.room }
    {
        &self.room.as_slice()[..self.used as usize]
    }
}

impl Sink for MemSink {
    ghost taken = { λ k. written k.room k.used };

    ghost faults = { λ k. k.faults };

    fn write(&mut self, piece: &[u8]) -> Result<usize, Failed>
        ensures bytes { WriteTakes (written self.old.room self.old.used) (written self.new.room self.new.used) result piece.now }
        ensures cause { HasCause self.old.faults self.new.faults result }
        ensures answer { result ≡ write_answer self.old (length piece.now) }
        ensures after { self.new ≡ after_write self.old piece.now }
    {
        self.calls = self.calls.saturating_add(1);
        let used = self.used as usize;
        let full = !piece.is_empty() && used == self.room.len();
        if self.failing.as_slice().contains(&self.calls) || full {
            self.faults = self.faults.saturating_add(1);
            return Err(Failed);
        }
        let n = (self.piece as usize).min(piece.len().min(self.room.len() - used));
        write_over(&mut self.room, used, &piece[..n]);
        self.used += n as u32;
        Ok(n)
    }
}

/// Writes `piece` over the bytes of `room` from `place` on.
fn write_over(room: &mut Items<u8>, place: usize, piece: &[u8])
    requires fits { place + length piece.now ≤ length room.old }
    requires counted { length room.old < 2 ^ 32 }
    ensures { room.new ≡ written_at room.old place piece.now }
{
    for (k, byte) in piece.iter().enumerate() {
        room.set(place + k, *byte);
    }
}

/// A sink that takes each piece whole, and tells no bytes.
#[derive(Drop)]
pub struct Discard {}

impl Sink for Discard {
    ghost taken = { λ _. None };

    ghost faults = { λ _. 0 };

    fn write(&mut self, piece: &[u8]) -> Result<usize, Failed>
        ensures bytes { WriteTakes None None result piece.now }
        ensures cause { HasCause 0 0 result }
        ensures whole { result ≡ Ok (length piece.now) }
    {
        Ok(piece.len())
    }
}

ghost use Rattle.std.specs.Prelude.{◌≤◌, IfOk};

use aol_io::{
    CalmSource, Discard, Failed, MemSink, MemSource, ReadRefused, Sink, Source, StdSink, StdSource,
    read_all, write_all,
};
use aol_shape::{Items, NoMemory};
use std::alloc::Global;
use std::io;
use std::io::{ErrorKind, Read, Write};
use std::test::Fail;

const DIGITS: &[u8; 10] = b"0123456789";

/// How reading ten bytes ends, `Ok(true)` where just these came, with the place, the calls and the
/// faults after it. None where there is no memory.
fn read_ten(
    alloc: Global,
    piece: u32,
    failing: u32,
    limit: u32,
) -> Option<(Result<bool, ReadRefused>, u32, u32, u64)> {
    let bytes = Items::from_slice(alloc, DIGITS).ok()?;
    let failing = Items::from_slice(alloc, &[failing]).ok()?;
    let mut source = MemSource::new(bytes, piece, failing)?;
    let answer = match read_all(alloc, &mut source, limit) {
        Ok(all) => Ok(all.as_slice() == DIGITS.as_slice()),
        Err(why) => Err(why),
    };
    Some((answer, source.at, source.calls, source.faults))
}

#[test]
fn reads_all_or_says_why_not(rt: HostRuntime) {
    // piece, failing call, limit, answer, and then the place, the calls and the faults
    let cases = [
        (1, 0, 10, Ok(true), 10, 11, 0),
        (3, 0, 10, Ok(true), 10, 5, 0),
        (20000, 0, 11, Ok(true), 10, 2, 0),
        (3, 0, 9, Err(ReadRefused::TooLong), 10, 4, 0),
        (20000, 0, 3, Err(ReadRefused::TooLong), 4, 1, 0),
        (1, 0, 0, Err(ReadRefused::TooLong), 1, 1, 0),
        (3, 2, 10, Err(ReadRefused::ReadFault), 3, 2, 1),
    ];
    for (piece, failing, limit, answer, place, calls, faults) in cases {
        let found = read_ten(rt.alloc(), piece, failing, limit);
        assert_eq!(rt; found, Some((answer, place, calls, faults)));
    }
}

/// How writing ten bytes ends, with how many were taken and the faults. None where there is no
/// memory, or the bytes that were taken are not the first of the ten.
fn write_ten(
    alloc: Global,
    room: usize,
    piece: u32,
    failing: u32,
) -> Option<(Result<(), Failed>, usize, u64)> {
    let room = Items::from_vec(vec![in alloc; 0u8; room].ok()?);
    let failing = Items::from_slice(alloc, &[failing]).ok()?;
    let mut sink = MemSink::new(room, piece, failing)?;
    let answer = write_all(&mut sink, DIGITS);
    let bytes = sink.bytes();
    if !DIGITS.starts_with(bytes) {
        return None;
    }
    Some((answer, bytes.len(), sink.faults))
}

#[test]
fn writes_all_or_a_prefix(rt: HostRuntime) {
    // room, piece, failing call, and then whether all was written, how much, and the faults
    let cases = [
        (10, 5, 0, Ok(()), 10, 0),
        (12, 3, 0, Ok(()), 10, 0),
        (10, 5, 2, Err(Failed), 5, 1),
        (7, 5, 0, Err(Failed), 7, 1),
        (0, 5, 0, Err(Failed), 0, 1),
    ];
    for (room, piece, failing, answer, size, faults) in cases {
        let found = write_ten(rt.alloc(), room, piece, failing);
        assert_eq!(rt; found, Some((answer, size, faults)));
    }
}

#[test]
fn failed_reads_leave_the_buffer(rt: HostRuntime) -> Result<(), NoMemory> {
    let bytes = Items::from_slice(rt.alloc(), DIGITS)?;
    let failing = Items::from_slice(rt.alloc(), &[1])?;
    if let Some(mut source) = MemSource::new(bytes, 2, failing) {
        let mut buffer = *b"abc";
        for (answer, want) in [(Err(Failed), b"abc"), (Ok(2), b"01c"), (Ok(2), b"23c")] {
            assert_eq!(rt; source.read(&mut buffer), answer);
            assert_eq!(rt; buffer, *want);
        }
    }
    Ok(())
}

#[test]
fn copies_without_faults(rt: HostRuntime) -> Result<(), Fail> {
    let alloc = rt.alloc();
    let bytes = Items::from_slice(alloc, b"0123456789")?;
    let mut source = CalmSource::new(bytes, 4).ok_or("no source")?;
    let all = read_all(alloc, &mut source, 10)?;
    assert_eq!(rt; all.as_slice(), b"0123456789".as_slice());
    assert_eq!(rt; write_all(&mut Discard {}, all.as_slice()), Ok(()));
    Ok(())
}

// Each call has its own answer: some bytes, none, or a failure.
#[derive(Drop)]
struct Scripted {
    calls: u8,
}

impl Scripted {
    fn next(&mut self, room: usize) -> io::Result<usize>
        ensures { IfOk result (λ n. n ≤ room) }
    {
        self.calls = self.calls.saturating_add(1);
        match self.calls {
            1 => Ok(room.min(2)),
            2 => Err(io::Error::from(ErrorKind::BrokenPipe)),
            3 => Ok(0),
            _ => Ok(room),
        }
    }
}

impl Read for Scripted {
    fn read(&mut self, buf: &mut [u8]) -> io::Result<usize> {
        self.next(buf.len())
    }
}

impl Write for Scripted {
    fn write(&mut self, buf: &[u8]) -> io::Result<usize> {
        self.next(buf.len())
    }

    fn flush(&mut self) -> io::Result<()> {
        self.next(0)?;
        Ok(())
    }
}

#[test]
fn counts_faults_of_a_reader(rt: HostRuntime) -> Result<(), Fail> {
    let mut source = StdSource::new(Scripted { calls: 0 });
    let mut buffer = [0u8; 5];
    for (answer, faults) in [(Ok(2), 0), (Err(Failed), 1), (Ok(0), 1), (Ok(5), 1)] {
        assert_eq!(rt; source.read(&mut buffer), answer);
        assert_eq!(rt; source.faults, faults);
    }
    source.faults = u64::MAX;
    source.reader.calls = 1;
    assert_eq!(rt; source.read(&mut buffer), Err(Failed));
    assert_eq!(rt; source.faults, u64::MAX);
    Ok(())
}

#[test]
fn counts_faults_of_a_writer(rt: HostRuntime) -> Result<(), Fail> {
    let mut sink = StdSink::new(Scripted { calls: 0 });
    for (answer, faults) in [(Ok(2), 0), (Err(Failed), 1), (Err(Failed), 2), (Ok(5), 2)] {
        assert_eq!(rt; sink.write(b"01234"), answer);
        assert_eq!(rt; sink.faults, faults);
    }
    sink.writer.calls = 1;
    for (answer, faults) in [(Err(Failed), 3), (Ok(()), 3)] {
        assert_eq!(rt; sink.flush(), answer);
        assert_eq!(rt; sink.faults, faults);
    }
    assert_eq!(rt; sink.write(b""), Ok(0));
    assert_eq!(rt; sink.faults, 3);
    Ok(())
}

//! The program `aol`: `aol` of `aol_program` over standard input and output.
//!
//! The clause of `aol` says how each call ends; `main` ends with the status that it hands back. The tables of calls stand
//! in `tests.rt` and `steps.rt`.
#![tactic(auto)]

#[cfg(test)]
mod samples;
#[cfg(test)]
mod steps;
#[cfg(test)]
mod tests;

use aol_io::{StdSink, StdSource};
use aol_level::NoGate;
use aol_program::{StatusKind, aol};
use std::env;
use std::io::{self, ErrorKind};
use std::process::ExitCode;

fn main(rt: HostRuntime) -> ExitCode {
    let words = match env::args(&rt) {
        Ok(args) => args.skip(1).collect(rt.alloc()),
        Err(fault) if fault.kind() == ErrorKind::OutOfMemory => return ExitCode::from(
            StatusKind::Memory.code(),
        ),
        Err(_) => Ok(Vec::new(rt.alloc())),
    };
    let Ok(words) = words else {
        return ExitCode::from(StatusKind::Memory.code());
    };
    let mut source = StdSource::new(rt.reader());
    let mut sink = StdSink::new(io::writer(&rt));
    let status = aol(
        &rt,
        rt.alloc(),
        words.as_slice(),
        &mut source,
        &mut sink,
        &NoGate,
    );
    ExitCode::from(status.code)
}

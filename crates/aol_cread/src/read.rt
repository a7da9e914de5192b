ghost use Rattle.std.specs.Prelude.{◌≡◌, ◌+◌, ◌<◌, ◌^◌, length, IfOk};
ghost use Rattle.aol_csyn.specs.Stored.{program_of};
ghost use Rattle.aol_cread.specs.Wrong.{IfAt, IsFirstWrongLine, IsTextOf};
ghost use Rattle.aol_cread.specs.Step.{Takes};
ghost use Rattle.aol_cread.specs.Stored.{state_of};
ghost use Rattle.aol_cread.specs.States.{room_in, program_in};

use crate::building::{Building, Phase, nothing_read};
use crate::bytes::Reader;
use aol_csyn::CProgram;
use aol_shape::NoMemory;
use std::alloc::Global;
use thiserror::Error;

/// Why a text was not read.
#[derive(Clone, Copy, Debug, PartialEq, Eq, Error)]
pub enum ReadCRefused {
    /// The text is no program's. The first line at which it is none, counted from 1.
    #[error("line {line}")]
    At { line: u32 },
    #[error("no memory")]
    NoMemory,
}

impl From<NoMemory> for ReadCRefused {
    ghost use Rattle.std.specs.Prelude.{◌≡◌};
    ghost use Rattle.aol_cread.specs.declared.read.ReadCRefused.{ReadCRefused};

    ghost from_gives = { λ _ r. r ≡ ReadCRefused.NoMemory };

    fn from(_: NoMemory) -> ReadCRefused {
        ReadCRefused::NoMemory
    }
}

impl Building {
    /// How many levels an expression of the next statement may have.
    fn room(&self) -> u32
        ensures { result ≡ room_in (state_of self.now) }
    {
        let open = self.blocks.len();
        if open < 1023 { 1023 - open as u32 } else { 0 }
    }

    /// The program, once its last line is read.
    fn into_program(self) -> CProgram
        ensures { program_of result ≡ program_in (state_of self) }
    {
        let Building {
            phase: _,
            tables,
            cells,
            steps,
            level: _,
            worker: _,
            workers,
            levels,
            vars: _,
            blocks: _,
            here: _,
        } = self;
        CProgram {
            tables,
            cells,
            levels,
            workers,
            steps,
        }
    }

    /// Takes the next line, where a program goes on with it.
    fn take(&mut self, alloc: Global, reader: &mut Reader) -> Result<bool, NoMemory>
        ensures { IfOk result (λ took. Takes (state_of self.old) reader.old.left.now took (state_of self.new) reader.new.left.now) }
    {
        let room = self.room();
        match reader.line(alloc, room)? {
            Some(line) => self.next(alloc, line),
            None => Ok(false),
        }
    }
}

/// The program whose text this is; each program has one text (`aol_csyn::programs_have_one_text`).
///
/// `At` comes exactly where no program has this text, with the first line such that no program's
/// text begins with the lines up to it, line feeds included. Where all whole lines pass, it is the
/// line after the last of them. The text has fewer than 2^32 - 1 bytes.
pub fn read_c(alloc: Global, text: &str) -> Result<CProgram, ReadCRefused>
    requires { length text.now + 1 < 2 ^ 32 }
    ensures program { IfOk result (λ p. IsTextOf (program_of p) text.now) }
    ensures at { IfAt result (λ line. IsFirstWrongLine text.now line) }
{
    let mut building = nothing_read(alloc);
    let mut reader = Reader {
        left: text.as_bytes(),
    };
    let mut line = 1u32;
    while !reader.left.is_empty() {
        if !building.take(alloc, &mut reader)? {
            return Err(ReadCRefused::At { line });
        }
        line += 1;
    }
    match building.phase {
        Phase::Ended => Ok(building.into_program()),
        _ => Err(ReadCRefused::At { line }),
    }
}

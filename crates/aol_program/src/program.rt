ghost use Rattle.std.specs.Prelude.{◌≡◌, Some, None, IfOk, map, string_bytes};
ghost use Rattle.aol_program.specs.Accept.{IsDocumentIn};
ghost use Rattle.aol_program.specs.Answer.{Answers};
ghost use Rattle.aol_program.specs.Answered.{IsAnswered};
ghost use Rattle.aol_program.specs.Ran.{HasRan};
ghost use Rattle.aol_lines.specs.Reply.{Wrote, reply, reply_of};
ghost use Rattle.aol_lines.specs.Status.{code_of};
ghost use Rattle.aol_program.specs.Words.{IsAsked, document, subject_of};

use crate::accepted::accepted_answer;
use crate::accepting::accept;
use crate::exec::exec_reply;
use crate::refusing::refused_reply;
use crate::reply::{Answer, alone};
use crate::status::Status;
use crate::words::Command;
use aol_io::{ReadRefused, Sink, Source, read_all};
use aol_level::Gate;
use aol_lines::{StatusKind, written};
use aol_shape::NoMemory;
use std::alloc::Global;
use std::marker::Sync;
use std::thread::Threads;

/// The most bytes of a document.
pub const MAX_BYTES: u32 = 16_777_216;

/// Does what the words ask for: reads the source to its end, and writes the whole answer to the sink.
///
/// The code is 0, or that of the line that was written; docs/ANSWERS.md lists them. The answer's text is built whole
/// before its first byte is written. A run hands back what ran where it ended with its outputs or a fault. Each worker
/// passes the gate once in each level in which it has an instance.
pub fn aol<R: Threads + Sync, S: Source, K: Sink, G: Gate>(
    rt: &R,
    alloc: Global,
    words: &[String],
    source: &mut S,
    sink: &mut K,
    gate: &G,
) -> Status
    ensures { IsAnswered (map string_bytes words.now) (source.new ≡ source.old)
        (record { before = S.left source.old; after = S.left source.new; faults_before = S.faults source.old; faults_after = S.faults source.new })
        (record { before = K.taken sink.old; after = K.taken sink.new; faults_before = K.faults sink.old; faults_after = K.faults sink.new }) result.code result.ran }
{
    let Some(command) = Command::of_words(words) else {
        return told(sink, StatusKind::Words, b"words\n");
    };
    let bytes = match read_all(alloc, source, MAX_BYTES) {
        Ok(bytes) => bytes,
        Err(ReadRefused::ReadFault) => return told(sink, StatusKind::Read, b"read\n"),
        Err(ReadRefused::TooLong) => return told(sink, StatusKind::Long, b"long\n"),
        Err(ReadRefused::NoMemory) => return no_memory(),
    };
    match answer(rt, alloc, command, bytes.as_slice(), gate) {
        Ok(answer) => answered(sink, answer),
        Err(_) => no_memory(),
    }
}

/// The answer to a command for the bytes that it is given.
fn answer<R: Threads + Sync, G: Gate>(
    rt: &R,
    alloc: Global,
    command: Command,
    bytes: &[u8],
    gate: &G,
) -> Result<Answer, NoMemory>
    requires { IsAsked command }
    ensures reply { IfOk result (λ a. Answers bytes.now command (reply_of a.reply)) }
    ensures ran { IfOk result (λ a. HasRan command (IsDocumentIn bytes.now) (code_of a.reply.status) a.ran) }
{
    match command {
        Command::Exec => alone(exec_reply(alloc, bytes)),
        Command::Check
        | Command::Print
        | Command::Transform
        | Command::Run(_)
        | Command::Place(_) => document_answer(rt, alloc, command, bytes, gate),
    }
}

/// The same for a command that is about a document.
fn document_answer<R: Threads + Sync, G: Gate>(
    rt: &R,
    alloc: Global,
    command: Command,
    bytes: &[u8],
    gate: &G,
) -> Result<Answer, NoMemory>
    requires asked { IsAsked command }
    requires about { subject_of command ≡ Some document }
    ensures reply { IfOk result (λ a. Answers bytes.now command (reply_of a.reply)) }
    ensures ran { IfOk result (λ a. HasRan command (IsDocumentIn bytes.now) (code_of a.reply.status) a.ran) }
{
    match accept(alloc, bytes) {
        Ok(accepted) => accepted_answer(rt, alloc, command, accepted, gate),
        Err(refused) => alone(refused_reply(alloc, &refused)),
    }
}

/// The status after an answer is written: what ran is handed back where the sink took all of it.
fn answered<K: Sink>(sink: &mut K, answer: Answer) -> Status
    ensures code { Wrote (record { before = K.taken sink.old; after = K.taken sink.new; faults_before = K.faults sink.old; faults_after = K.faults sink.new }) (reply_of answer.reply) result.code }
    ensures kept { ¬ (result.code ≡ code_of StatusKind.Sink) → result.ran ≡ answer.ran }
    ensures lost { result.code ≡ code_of StatusKind.Sink → result.ran ≡ None }
{
    let Answer { reply, ran } = answer;
    let code = written(sink, reply.status, reply.text.as_bytes());
    if code == StatusKind::Sink.code() {
        return Status { code, ran: None };
    }
    Status { code, ran }
}

/// The status after a line of the program's own.
fn told<K: Sink>(sink: &mut K, status: StatusKind, line: &[u8]) -> Status
    ensures code { Wrote (record { before = K.taken sink.old; after = K.taken sink.new; faults_before = K.faults sink.old; faults_after = K.faults sink.new }) (reply status line.now) result.code }
    ensures ran { result.ran ≡ None }
{
    Status {
        code: written(sink, status, line),
        ran: None,
    }
}

/// The status where memory is wanting; nothing is written.
fn no_memory() -> Status
    ensures code { result.code ≡ code_of StatusKind.Memory }
    ensures ran { result.ran ≡ None }
{
    Status {
        code: StatusKind::Memory.code(),
        ran: None,
    }
}

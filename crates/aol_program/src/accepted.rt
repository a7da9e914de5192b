//! The reply to a command for a document whose model is accepted, and what ran.

ghost use Rattle.std.specs.Prelude.{◌≡◌, Some, None, IfOk};
ghost use Rattle.aol_flat.specs.Accept.{IsAccepted};
ghost use Rattle.aol_flat.specs.Inputs.{InputsFit};
ghost use Rattle.aol_flat.specs.InstanceNeed.{AreLevelsOf};
ghost use Rattle.aol_flat.specs.Tasks.{main_inputs};
ghost use Rattle.aol_allocate.specs.Placement.{IsPlacement};
ghost use Rattle.aol_runner.specs.Run.{IsRunField};
ghost use Rattle.aol_lines.specs.Reply.{reply_of};
ghost use Rattle.aol_lines.specs.Status.{code_of};
ghost use Rattle.aol_program.specs.Accept.{AreAccepted, document_with};
ghost use Rattle.aol_program.specs.AcceptedAnswer.{AcceptedAnswers, IsCheckReply, TransformAnswers, PlaceAnswers, without_steps};
ghost use Rattle.aol_program.specs.Finished.{IsFinished};
ghost use Rattle.aol_program.specs.Inputs.{first_wrong_input, given_arrays};
ghost use Rattle.aol_program.specs.Made.{IsRunFor};
ghost use Rattle.aol_program.specs.Ran.{HasRan};
ghost use Rattle.aol_program.specs.Run.{IsRunReply};
ghost use Rattle.aol_program.specs.Words.{IsAsked, IsWorkers, document, subject_of};

use crate::accepting::Accepted;
use crate::check::accepted_reply;
use crate::inputs::{given_arrays, main_inputs, wrong_input};
use crate::made::{Made, levelled, transformed};
use crate::place::{place_reply, placed_or_refused};
use crate::print::print_reply;
use crate::printed::outputs_reply;
use crate::reply::{Answer, alone};
use crate::status::Ran;
use crate::words::Command;
use aol_allocate::Placed;
use aol_depend::Levels;
use aol_expr::Val;
use aol_flat::Flat;
use aol_level::{Gate, Kept};
use aol_lines::{Reply, StatusKind, Word, refusal};
use aol_model::{InputArray, Job};
use aol_runner::run;
use aol_scatter::Field;
use aol_shape::{Items, NoMemory};
use std::alloc::Global;
use std::marker::Sync;
use std::thread::Threads;

/// What a run leaves: its reply, and what ran.
#[derive(Drop)]
struct Finished {
    reply: Reply,
    ran: Ran,
}

/// The answer to a command for a document whose model is accepted.
pub fn accepted_answer<R: Threads + Sync, G: Gate>(
    rt: &R,
    alloc: Global,
    command: Command,
    accepted: Accepted,
    gate: &G,
) -> Result<Answer, NoMemory>
    requires asked { IsAsked command }
    requires about { subject_of command ≡ Some document }
    requires accepted { AreAccepted accepted }
    ensures reply { IfOk result (λ a. AcceptedAnswers command (document_with accepted.flat accepted.job) (reply_of a.reply)) }
    ensures ran { IfOk result (λ a. HasRan command (λ d. d ≡ document_with accepted.flat accepted.job) (code_of a.reply.status) a.ran) }
{
    match command {
        Command::Exec => unreachable!(),
        Command::Check => alone(check_reply(alloc, &accepted)),
        Command::Print => alone(print_reply(alloc, accepted.flat.model(), &accepted.job)),
        Command::Transform => alone(transform_reply(alloc, accepted)),
        Command::Run(workers) => run_answer(rt, alloc, accepted, workers, gate),
        Command::Place(workers) => alone(placement_reply(alloc, accepted, workers)),
    }
}

/// How many instances and levels there are.
fn check_reply(alloc: Global, accepted: &Accepted) -> Result<Reply, NoMemory>
    requires { AreAccepted accepted.now }
    ensures { IfOk result (λ r. IsCheckReply (document_with accepted.now.flat accepted.now.job) (reply_of r)) }
{
    accepted_reply(alloc, accepted.flat.instances(), accepted.levels.count())
}

/// The job with no steps left.
fn without_steps(alloc: Global, job: Job) -> Job
    ensures { result ≡ without_steps job }
{
    let Job {
        input,
        allocate,
        ..
    } = job;
    Job {
        input,
        transform: Items::new(alloc),
        allocate,
    }
}

/// The document with the model that its steps make, and none left.
fn transform_reply(alloc: Global, accepted: Accepted) -> Result<Reply, NoMemory>
    requires { AreAccepted accepted }
    ensures { IfOk result (λ r. TransformAnswers (document_with accepted.flat accepted.job) (reply_of r)) }
{
    let Accepted {
        flat,
        writers,
        job,
        ..
    } = accepted;
    let outcome = transformed(alloc, flat, writers, job.transform.as_slice())?;
    match outcome {
        Ok(made) => {
            let left = without_steps(alloc, job);
            print_reply(alloc, made.flat.model(), &left)
        }
        Err(reply) => Ok(reply),
    }
}

/// Which worker runs each instance of the model that the steps make.
fn placement_reply(alloc: Global, accepted: Accepted, workers: u32) -> Result<Reply, NoMemory>
    requires accepted { AreAccepted accepted }
    requires workers { IsWorkers workers }
    ensures { IfOk result (λ r. PlaceAnswers (document_with accepted.flat accepted.job) workers (reply_of r)) }
{
    let Accepted {
        flat,
        writers,
        job,
        ..
    } = accepted;
    let outcome = transformed(alloc, flat, writers, job.transform.as_slice())?;
    match outcome {
        Ok(made) => place_reply(alloc, &made.flat, &job.allocate, workers),
        Err(reply) => Ok(reply),
    }
}

/// The answer to a run.
fn run_answer<R: Threads + Sync, G: Gate>(
    rt: &R,
    alloc: Global,
    accepted: Accepted,
    workers: u32,
    gate: &G,
) -> Result<Answer, NoMemory>
    requires accepted { AreAccepted accepted }
    requires workers { IsWorkers workers }
    ensures reply { IfOk result (λ a. AcceptedAnswers (Command.Run workers) (document_with accepted.flat accepted.job) (reply_of a.reply)) }
    ensures ran { IfOk result (λ a. HasRan (Command.Run workers) (λ d. d ≡ document_with accepted.flat accepted.job) (code_of a.reply.status) a.ran) }
{
    let outcome = finish(rt, alloc, accepted, workers, gate)?;
    match outcome {
        Ok(finish) => Ok(with_memory(finish)),
        Err(reply) => Ok(Answer { reply, ran: None }),
    }
}

/// The answer of a run that came to its end.
fn with_memory(finish: Finished) -> Answer
    ensures reply { result.reply ≡ finish.reply }
    ensures ran { result.ran ≡ Some finish.ran }
{
    Answer {
        reply: finish.reply,
        ran: Some(finish.ran),
    }
}

/// What a run leaves; or the refusal of an input, of a step or of an entry.
fn finish<R: Threads + Sync, G: Gate>(
    rt: &R,
    alloc: Global,
    accepted: Accepted,
    workers: u32,
    gate: &G,
) -> Result<Result<Finished, Reply>, NoMemory>
    requires accepted { AreAccepted accepted }
    requires workers { IsWorkers workers }
    ensures { IfOk result (IsFinished accepted workers) }
{
    match wrong_input(accepted.flat.model(), accepted.job.input.as_slice()) {
        Some((name, cause)) => {
            let words = [Word::Text(name), Word::Text(cause)];
            let reply = refusal(alloc, StatusKind::Input, &words)?;
            Ok(Err(reply))
        }
        None => finish_fitting(rt, alloc, accepted, workers, gate),
    }
}

/// The same where no input is wrong.
fn finish_fitting<R: Threads + Sync, G: Gate>(
    rt: &R,
    alloc: Global,
    accepted: Accepted,
    workers: u32,
    gate: &G,
) -> Result<Result<Finished, Reply>, NoMemory>
    requires accepted { AreAccepted accepted }
    requires workers { IsWorkers workers }
    requires right { first_wrong_input accepted.flat.model accepted.job.input ≡ None }
    ensures { IfOk result (IsFinished accepted workers) }
{
    let Accepted {
        flat,
        writers,
        levels,
        job,
    } = accepted;
    let outcome = levelled(alloc, flat, writers, levels, job.transform.as_slice())?;
    match outcome {
        Ok(made) => run_made(rt, alloc, made, &job, workers, gate),
        Err(reply) => Ok(Err(reply)),
    }
}

/// What a run of the model that the steps make leaves; or the refusal of an entry.
fn run_made<R: Threads + Sync, G: Gate>(
    rt: &R,
    alloc: Global,
    made: Made,
    job: &Job,
    workers: u32,
    gate: &G,
) -> Result<Result<Finished, Reply>, NoMemory>
    requires accepted { IsAccepted made.flat.model }
    requires levels { AreLevelsOf made.flat.model made.levels }
    requires fit { InputsFit made.flat.model job.now.input }
    requires workers { IsWorkers workers }
    ensures { IfOk result (IsRunFor made.flat.model job.now workers) }
{
    let Made { flat, levels } = made;
    let _model = flat.model();
    let outcome = placed_or_refused(alloc, &flat, &job.allocate, workers)?;
    match outcome {
        Ok(placed) => {
            let inputs = job.input.as_slice();
            let (reply, memory) = run_placed(rt, alloc, &flat, &levels, inputs, &placed, gate)?;
            Ok(Ok(Finished {
                reply,
                ran: Ran {
                    flat,
                    placed,
                    memory,
                },
            }))
        }
        Err(reply) => Ok(Err(reply)),
    }
}

/// The reply of a run on the workers of a placement, and its memory.
fn run_placed<R: Threads + Sync, G: Gate>(
    rt: &R,
    alloc: Global,
    flat: &Flat,
    levels: &Levels,
    inputs: &[InputArray],
    placed: &Placed,
    gate: &G,
) -> Result<(Reply, Field<Kept>), NoMemory>
    requires accepted { IsAccepted flat.now.model }
    requires levels { AreLevelsOf flat.now.model levels.now }
    requires fit { InputsFit flat.now.model inputs.now }
    requires placement { IsPlacement flat.now.model placed.now.of_instance placed.now.workers }
    ensures reply { IfOk result (λ r. IsRunReply flat.now.model inputs.now (reply_of r.0)) }
    ensures memory { IfOk result (λ r. IsRunField flat.now placed.now.of_instance (given_arrays inputs.now (main_inputs flat.now.model)) r.1) }
{
    let model = flat.model();
    let given = given_arrays(alloc, inputs, main_inputs(model))?;
    let nothing = Kept {
        val: Val::Num(0),
        worker: 0,
    };
    let memory = Field::filled(alloc, flat.cells(), nothing)?;
    let (outputs, memory) = run(rt, alloc, flat, levels, placed, &given, memory, gate)?;
    let reply = outputs_reply(alloc, model, outputs.ports.as_slice())?;
    Ok((reply, memory))
}

//! The reply to `exec`.

ghost use Rattle.std.specs.Prelude.{IfOk};
ghost use Rattle.serde_json.specs.View.{view};
ghost use Rattle.aol_program.specs.Answer.{JsonAnswers};
ghost use Rattle.aol_program.specs.ExecAnswer.{IsExecReply, IsLineOf};
ghost use Rattle.aol_lines.specs.Reply.{reply_of};

use aol_exec::{JobRefused, exec_answer};
use aol_lines::{Reply, StatusKind, Word, refusal};
use aol_shape::NoMemory;
use serde_json::Value;
use std::alloc::Global;

/// The reply to bytes that are to ask for a run of a program.
pub fn exec_reply(alloc: Global, bytes: &[u8]) -> Result<Reply, NoMemory>
    ensures { IfOk result (λ r. JsonAnswers bytes.now IsExecReply (reply_of r)) }
{
    match Value::from_slice(alloc, bytes) {
        Ok(tree) => tree_reply(alloc, &tree),
        Err(refused) if refused.is_memory() => Err(NoMemory),
        Err(_) => refusal(alloc, StatusKind::Json, &[]),
    }
}

/// The same for a JSON tree.
fn tree_reply(alloc: Global, tree: &Value) -> Result<Reply, NoMemory>
    ensures { IfOk result (λ r. IsExecReply (view tree.now) (reply_of r)) }
{
    match exec_answer(alloc, tree) {
        Ok(text) => Ok(Reply {
            status: StatusKind::Done,
            text,
        }),
        Err(refused) => refused_reply(alloc, &refused),
    }
}

/// The line that tells why there are no final arrays.
fn refused_reply(alloc: Global, refused: &JobRefused) -> Result<Reply, NoMemory>
    ensures { IfOk result (λ r. IsLineOf refused.now (reply_of r)) }
{
    match refused {
        JobRefused::Grammar(place) => refusal(alloc, StatusKind::Grammar, &[Word::Place(place)]),
        JobRefused::Limit(place, name) => {
            let words = [Word::Place(place), Word::Limit(*name)];
            refusal(alloc, StatusKind::Limit, &words)
        }
        JobRefused::LongMemory => {
            let words = [Word::Text("memory"), Word::Text("length")];
            refusal(alloc, StatusKind::Input, &words)
        }
        JobRefused::Stuck { level, worker } => {
            let words = [Word::Number(*level), Word::Number(*worker)];
            refusal(alloc, StatusKind::Stuck, &words)
        }
        JobRefused::NoMemory => Err(NoMemory),
    }
}

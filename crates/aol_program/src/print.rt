//! The document itself.

ghost use Rattle.std.specs.Prelude.{◌≡◌, IfOk};
ghost use Rattle.serde_json.specs.Written.{compact_text};
ghost use Rattle.aol_shape.specs.Lines.{line};
ghost use Rattle.aol_model_types.specs.Writing.{document_tree};
ghost use Rattle.aol_lines.specs.Reply.{reply, reply_of};

use aol_lines::{Reply, StatusKind, push_text};
use aol_model::{Job, Model, tree_of};
use aol_shape::NoMemory;
use std::alloc::Global;

/// The document as JSON without blanks: in version 2, keys in byte order, with canonical texts of shapes, vectors, tilers and expressions.
pub fn print_reply(alloc: Global, model: &Model, job: &Job) -> Result<Reply, NoMemory>
    ensures { let tree = document_tree model.now job.now in IfOk result (λ r. reply_of r ≡ reply StatusKind.Done (line (compact_text tree))) }
{
    let tree = tree_of(alloc, model, job)?;
    let mut text = tree.to_string(alloc)?;
    push_text(&mut text, "\n")?;
    Ok(Reply {
        status: StatusKind::Done,
        text,
    })
}

//! The line for an accepted model.

ghost use Rattle.std.specs.Prelude.{◌≡◌, IfOk};
ghost use Rattle.aol_program.specs.Checked.{accepted_line};
ghost use Rattle.aol_lines.specs.Reply.{reply, reply_of};

use aol_lines::{Reply, StatusKind, push_number, push_text};
use aol_shape::NoMemory;
use std::alloc::Global;

/// The line for an accepted model: how many instances and levels it has.
pub fn accepted_reply(alloc: Global, instances: u32, levels: u32) -> Result<Reply, NoMemory>
    ensures { IfOk result (λ r. reply_of r ≡ reply StatusKind.Done (accepted_line instances levels)) }
{
    let mut text = String::from_str(alloc, "accepted ")?;
    push_number(&mut text, instances)?;
    push_text(&mut text, " instances ")?;
    push_number(&mut text, levels)?;
    push_text(&mut text, " levels\n")?;
    Ok(Reply {
        status: StatusKind::Done,
        text,
    })
}

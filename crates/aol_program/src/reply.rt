ghost use Rattle.aol_program.specs.Finished.{IsAlone};

use crate::status::Ran;
use aol_lines::Reply;
use aol_shape::NoMemory;

/// A reply, and what ran.
#[derive(Drop)]
pub struct Answer {
    pub reply: Reply,
    pub ran: Option<Ran>,
}

/// The answer of a command that runs nothing.
pub fn alone(reply: Result<Reply, NoMemory>) -> Result<Answer, NoMemory>
    ensures { IsAlone reply result }
{
    match reply {
        Ok(reply) => Ok(Answer { reply, ran: None }),
        Err(error) => Err(error),
    }
}

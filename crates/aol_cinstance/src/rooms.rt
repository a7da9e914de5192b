ghost use Rattle.std.specs.Prelude.{◌≡◌, ◌≤◌, ◌+◌};
ghost use Rattle.aol_cinstance.specs.Effect.{rooms, variables};

use crate::layout::VALUE;
use aol_lower::room;
use aol_model_types::{Elementary, OutPort};

/// How many variables the expressions of some ports take.
fn rooms(outs: &[OutPort]) -> u32
    ensures variables { result ≡ rooms outs.now }
    ensures few { result ≤ 20000 }
{
    match outs.split_first() {
        None => 2,
        Some((out, others)) => room(&out.expr).max(rooms(others)),
    }
}

/// How many variables the statements of an instance of the task take.
pub fn variables(task: &Elementary) -> u32
    ensures variables { result ≡ variables task.now.outs }
    ensures few { result ≤ 20019 }
{
    VALUE + rooms(task.outs.as_slice())
}

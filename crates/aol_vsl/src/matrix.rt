//! Where a matrix or a tiler stops being one of its grammar.

ghost use Rattle.std.specs.Prelude.{◌≡◌, ◌≤◌, ◌∷◌, ◌++◌, [], List, false, codes, length, IfOk, IfSome};
ghost use Rattle.aol_shape.specs.Machine.{stuck_at};
ghost use Rattle.aol_vsl.specs.Reading.{
  Goal,
  step,
  recognizer,
  if_blank,
  first_column,
  vector_goals,
  matrix_goals,
  tiler_goals,
};
ghost use Rattle.aol_vsl.specs.Passing.{Passes, columns_above, columns_stepped, literal_goals};

use crate::recognizer::{
    Entries, Progress, behind, past_literal, past_sign, past_vector, stuck_behind,
};
use aol_shape::is_blank;

/// What the columns of a matrix still want.
#[derive(Clone, Copy)]
enum Columns {
    FirstColumn,
    NextColumn,
    Open,
    Inside(Entries),
}

/// What a byte makes of columns: they go on, their closing brace is there, or the byte doesn't fit.
#[derive(Clone, Copy)]
enum ColumnsStep {
    Further(Columns),
    Closed,
    Unfit,
}

/// The columns after a byte that is no sign of theirs.
fn behind_blank(columns: Columns, byte: u8) -> ColumnsStep
    ensures { (gs : List Goal) → columns_stepped result gs ≡ if_blank byte (columns_above columns gs) }
{
    if is_blank(byte) {
        ColumnsStep::Further(columns)
    } else {
        ColumnsStep::Unfit
    }
}

/// The columns after a byte.
fn behind_columns(columns: Columns, byte: u8) -> ColumnsStep
    ensures { (gs : List Goal) → step (columns_above columns gs) byte ≡ columns_stepped result gs }
{
    match columns {
        Columns::FirstColumn | Columns::NextColumn if byte == b'}' => ColumnsStep::Closed,
        Columns::FirstColumn | Columns::Open if byte == b'{' => ColumnsStep::Further(
            Columns::Inside(Entries::First),
        ),
        Columns::NextColumn if byte == b',' => ColumnsStep::Further(Columns::Open),
        Columns::Inside(entries) => match behind(entries, byte) {
            Progress::On(next) => ColumnsStep::Further(Columns::Inside(next)),
            Progress::Done => ColumnsStep::Further(Columns::NextColumn),
            Progress::Stuck => ColumnsStep::Unfit,
        },
        _ => behind_blank(columns, byte),
    }
}

/// Past the columns of a matrix and its closing brace, or the byte at which they are stuck.
fn past_columns(text: &[u8], start: usize) -> Result<usize, usize>
    requires { start ≤ length text.now }
    ensures passes { Passes (first_column ∷ []) text.now start result }
    ensures within { IfOk result (λ to. to ≤ length text.now) }
{
    let mut columns = Columns::FirstColumn;
    for place in start..text.len() {
        match behind_columns(columns, text[place]) {
            ColumnsStep::Further(next) => columns = next,
            ColumnsStep::Closed => return Ok(place + 1),
            ColumnsStep::Unfit => return Err(place),
        }
    }
    Err(text.len())
}

/// Past a matrix, or the byte at which it is stuck.
fn past_matrix(text: &[u8], start: usize) -> Result<usize, usize>
    requires { start ≤ length text.now }
    ensures passes { Passes matrix_goals text.now start result }
    ensures within { IfOk result (λ to. to ≤ length text.now) }
{
    past_columns(text, past_sign(text, start, b'{')?)
}

/// Past the origin of a tiler, or the byte at which it is stuck.
fn past_origin(text: &[u8]) -> Result<usize, usize>
    ensures passes { Passes (literal_goals false (codes "(origin=") ++ vector_goals) text.now 0 result }
    ensures within { IfOk result (λ to. to ≤ length text.now) }
{
    past_vector(text, past_literal(text, 0, b"(origin=")?)
}

/// Past the paving of a tiler, or the byte at which it is stuck.
fn past_paving(text: &[u8], start: usize) -> Result<usize, usize>
    requires { start ≤ length text.now }
    ensures passes { Passes (literal_goals false (codes ",paving=") ++ matrix_goals) text.now start result }
    ensures within { IfOk result (λ to. to ≤ length text.now) }
{
    past_matrix(text, past_literal(text, start, b",paving=")?)
}

/// Past the fitting of a tiler, or the byte at which it is stuck.
fn past_fitting(text: &[u8], start: usize) -> Result<usize, usize>
    requires { start ≤ length text.now }
    ensures passes { Passes (literal_goals false (codes ",fitting=") ++ matrix_goals) text.now start result }
    ensures within { IfOk result (λ to. to ≤ length text.now) }
{
    past_matrix(text, past_literal(text, start, b",fitting=")?)
}

/// Past a tiler, or the byte at which it is stuck.
fn past_tiler(text: &[u8]) -> Result<usize, usize>
    ensures passes { Passes tiler_goals text.now 0 result }
    ensures within { IfOk result (λ to. to ≤ length text.now) }
{
    let paving = past_origin(text)?;
    let fitting = past_paving(text, paving)?;
    let end = past_fitting(text, fitting)?;
    past_sign(text, end, b')')
}

/// The byte at which a tiler's text is stuck, where it is: the length of its longest viable prefix.
pub(crate) fn tiler_stuck(text: &[u8]) -> Option<usize>
    ensures stuck { stuck_at (recognizer tiler_goals) text.now ≡ result }
    ensures within { IfSome result (λ byte. byte ≤ length text.now) }
{
    match past_tiler(text) {
        Ok(end) => stuck_behind(text, end),
        Err(byte) => Some(byte),
    }
}

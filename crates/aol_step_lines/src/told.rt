//! The line of a step that isn't kept.

ghost use Rattle.std.specs.Prelude.{◌≡◌, ◌≢◌, List, ◌∷◌, ◌++◌, codes, decimal, IfOk};
ghost use Rattle.aol_flat.specs.Place.{Element};
ghost use Rattle.aol_flat.specs.Keep.{EndsAt};
ghost use Rattle.aol_model_types.specs.declared.document.Model.{Model};
ghost use Rattle.aol_model_types.specs.declared.job.Step.{Step};
ghost use Rattle.aol_change.specs.declared.refused.StepRefused.TheVariants as refusing;
ghost use Rattle.aol_assign.specs.Answers.{IsTwiceTold};
ghost use Rattle.aol_transform.specs.Steps.{IsFirstCause};
ghost use Rattle.aol_lines.specs.Lent.{lent_text};
ghost use Rattle.aol_lines.specs.Refused.{IsReadBy, reading_words};
ghost use Rattle.aol_lines.specs.Reply.{refusal, reply_of};
ghost use Rattle.aol_step_lines.specs.Told.{told_words, IsReplyOf};
ghost use Rattle.aol_step_lines.specs.Words.{why_words, end_words};

use crate::ending::push_end;
use aol_assign::AssignRefused;
use aol_change::StepRefused;
use aol_equiv::Lost;
use aol_flat::{End, Flat, Reader};
use aol_lines::{
    Reply, StatusKind, Word, begun, ended, push_reading, push_twice, push_words, refusal,
};
use aol_shape::{Name, NoMemory};
use aol_transform::{StepCause, StepsRefused};
use std::alloc::Global;

/// The line of a step that makes no model.
fn no_model_reply(alloc: Global, step: usize, why: StepRefused) -> Result<Reply, NoMemory>
    requires { why ≢ refusing.NoMemory }
    ensures { IfOk result (λ r. reply_of r ≡ refusal StatusKind.Transform (decimal step ∷ why_words why)) }
{
    let number = Word::Count(step);
    let kind = StatusKind::Transform;
    match why {
        StepRefused::NotRepeated => refusal(alloc, kind, &[number, Word::Text("not-repeated")]),
        StepRefused::NotTwoLevels => refusal(alloc, kind, &[number, Word::Text("not-two-levels")]),
        StepRefused::NotJoined => refusal(alloc, kind, &[number, Word::Text("not-joined")]),
        StepRefused::HasLinks => refusal(alloc, kind, &[number, Word::Text("has-links")]),
        StepRefused::Rank => refusal(alloc, kind, &[number, Word::Text("rank")]),
        StepRefused::Limit(name) => refusal(
            alloc,
            kind,
            &[number, Word::Text("limit"), Word::Limit(name)],
        ),
        StepRefused::NoMemory => Err(NoMemory),
    }
}

/// The text of a name, where there is one.
fn text_of(name: &Option<Name>) -> Option<&str>
    ensures { lent_text result ≡ name.now }
{
    match name {
        Some(name) => Some(name.as_str()),
        None => None,
    }
}

/// The line of a step whose model writes a point twice.
fn twice_reply(alloc: Global, step: usize, refused: &AssignRefused) -> Result<Reply, NoMemory>
    requires { (m : Model) × IsTwiceTold m refused.now }
    ensures { IfOk result (λ r. reply_of r ≡ refusal StatusKind.Transform (decimal step ∷ codes "twice" ∷ told_words refused.now)) }
{
    match refused {
        AssignRefused::Twice {
            path,
            part,
            port,
            point,
            first,
            second,
        } => {
            let mut text = begun(alloc, StatusKind::Transform)?;
            push_words(&mut text, &[Word::Count(step), Word::Text("twice")])?;
            push_twice(
                &mut text,
                alloc,
                path.as_str(),
                text_of(part),
                port.as_str(),
                point.as_slice(),
                first,
                second,
            )?;
            ended(StatusKind::Transform, text)
        }
        AssignRefused::Unwritten { .. } => unreachable!(),
        AssignRefused::NoMemory => Err(NoMemory),
    }
}

/// The line of a step whose model reads an element that comes from elsewhere than before.
fn lost_reply(
    alloc: Global,
    step: usize,
    old: &Flat,
    next: &Flat,
    reader: Reader,
    port: u32,
    point: u32,
    required: End,
) -> Result<Reply, NoMemory>
    requires read { IsReadBy next.now.model reader port point }
    requires end { (p : Element) × EndsAt old.now.model p required }
    ensures { IfOk result (λ r. reply_of r ≡ refusal StatusKind.Transform (decimal step ∷ codes "lost" ∷ (reading_words next.now.model reader port point ++ codes "needs" ∷ end_words old.now.model required))) }
{
    let mut text = begun(alloc, StatusKind::Transform)?;
    push_words(&mut text, &[Word::Count(step), Word::Text("lost")])?;
    push_reading(&mut text, alloc, next, reader, port, point)?;
    push_words(&mut text, &[Word::Text("needs")])?;
    push_end(&mut text, alloc, old, required)?;
    ended(StatusKind::Transform, text)
}

/// The reply to steps of which one isn't kept: the number of the first such step, counted from 0, and why.
///
/// A step of a kind that isn't built has the line of that. Want of memory is the only error.
pub fn step_reply(alloc: Global, refused: &StepsRefused) -> Result<Reply, NoMemory>
    requires { (m : Model) × (steps : List Step) × IsFirstCause m steps refused.now.step refused.now.cause }
    ensures { IfOk result (λ r. IsReplyOf refused.now (reply_of r)) }
{
    match &refused.cause {
        StepCause::Unbuilt => refusal(alloc, StatusKind::Unbuilt, &[]),
        StepCause::NoResult(why) => no_model_reply(alloc, refused.step, *why),
        StepCause::Twice(_, told) => twice_reply(alloc, refused.step, told),
        StepCause::Lost { old, next, lost } => match lost {
            Lost::Element {
                reader,
                port,
                point,
                required,
            } => lost_reply(
                alloc,
                refused.step,
                old,
                next,
                *reader,
                *port,
                *point,
                *required,
            ),
            Lost::NoMemory => Err(NoMemory),
        },
        StepCause::NoMemory => Err(NoMemory),
    }
}

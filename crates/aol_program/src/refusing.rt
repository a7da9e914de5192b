//! The line of each refusal.

ghost use Rattle.std.specs.Prelude.{◌≡◌, ◌∷◌, ℕ, List, [], codes, decimal, IfOk};
ghost use Rattle.aol_model_types.specs.Places.{place_text, limit_text};
ghost use Rattle.aol_flat.specs.Limits.{IsBounded};
ghost use Rattle.aol_assign.specs.Answers.{IsRightlyTold};
ghost use Rattle.aol_program.specs.Accept.{IsCause};
ghost use Rattle.aol_lines.specs.Lent.{lent_text};
ghost use Rattle.aol_program.specs.ModelAnswer.{ModelRefused};
ghost use Rattle.aol_program.specs.Refusing.{IsReplyTo};
ghost use Rattle.aol_lines.specs.Reply.{refusal, reply_of};

use crate::accepting::Refusal;
use aol_assign::AssignRefused;
use aol_flat::Flat;
use aol_lines::{Reply, StatusKind, Word, cycle_reply, refusal, twice_reply, unwritten_reply};
use aol_model::{Misfit, Place};
use aol_shape::{LimitName, Name, NoMemory};
use std::alloc::Global;

/// The refusal of a tree by the first place that isn't of the grammar.
fn wrong_form(alloc: Global, place: &Place) -> Result<Reply, NoMemory>
    ensures { IfOk result (λ r. reply_of r ≡ refusal StatusKind.Grammar (place_text place.now ∷ [])) }
{
    refusal(alloc, StatusKind::Grammar, &[Word::Place(place)])
}

/// The refusal of a tree by the first place at which a text or a list passes a limit.
fn past_limit(alloc: Global, place: &Place, name: LimitName) -> Result<Reply, NoMemory>
    ensures { IfOk result (λ r. reply_of r ≡ refusal StatusKind.Limit (place_text place.now ∷ limit_text name ∷ [])) }
{
    let words = [Word::Place(place), Word::Limit(name)];
    refusal(alloc, StatusKind::Limit, &words)
}

/// The refusal of a model by the first rule that fails.
fn misfit_reply(alloc: Global, misfit: &Misfit) -> Result<Reply, NoMemory>
    ensures { IfOk result (λ r. reply_of r ≡ refusal StatusKind.Shape (place_text misfit.now.place ∷ codes "rule" ∷ decimal misfit.now.rule ∷ [])) }
{
    let words = [
        Word::Place(&misfit.place),
        Word::Text("rule"),
        Word::Number(misfit.rule),
    ];
    refusal(alloc, StatusKind::Shape, &words)
}

/// The refusal of a model that passes a limit of the hierarchy: the path of the node and the limit.
fn limit_reply(alloc: Global, path: &Name, name: LimitName) -> Result<Reply, NoMemory>
    ensures { IfOk result (λ r. reply_of r ≡ refusal StatusKind.Limit (path.now ∷ limit_text name ∷ [])) }
{
    let words = [Word::Text(path.as_str()), Word::Limit(name)];
    refusal(alloc, StatusKind::Limit, &words)
}

/// The text of a name, where there is one.
fn text_of(name: &Option<Name>) -> Option<&str>
    ensures { lent_text result ≡ name.now }
{
    match name {
        Some(name) => Some(name.as_str()),
        None => None,
    }
}

/// The refusal of a model in which something is written twice, or read and not given.
fn assign_reply(alloc: Global, flat: &Flat, refused: &AssignRefused) -> Result<Reply, NoMemory>
    requires bounded { IsBounded flat.now.model }
    requires told { IsRightlyTold flat.now.model refused.now }
    ensures { IfOk result (λ r. ModelRefused flat.now.model (reply_of r)) }
{
    match refused {
        AssignRefused::Twice {
            path,
            part,
            port,
            point,
            first,
            second,
        } => twice_reply(
            alloc,
            path.as_str(),
            text_of(part),
            port.as_str(),
            point.as_slice(),
            first,
            second,
        ),
        AssignRefused::Unwritten {
            reader,
            port,
            point,
        } => unwritten_reply(alloc, flat, *reader, *port, *point),
        AssignRefused::NoMemory => Err(NoMemory),
    }
}

/// The reply to bytes that are refused.
pub fn refused_reply(alloc: Global, refused: &Refusal) -> Result<Reply, NoMemory>
    requires { (bytes : List ℕ) × IsCause bytes refused.now }
    ensures { IfOk result (λ r. IsReplyTo refused.now (reply_of r)) }
{
    match refused {
        Refusal::Json => refusal(alloc, StatusKind::Json, &[]),
        Refusal::Grammar(place) => wrong_form(alloc, place),
        Refusal::TextLimit(place, name) => past_limit(alloc, place, *name),
        Refusal::Shape(misfit) => misfit_reply(alloc, misfit),
        Refusal::TreeLimit(path, name) => limit_reply(alloc, path, *name),
        Refusal::Assign(flat, refused) => assign_reply(alloc, flat, refused),
        Refusal::Cycle(flat, instance) => cycle_reply(alloc, flat, *instance),
        Refusal::NoMemory => Err(NoMemory),
    }
}

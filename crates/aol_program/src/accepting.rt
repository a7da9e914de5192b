//! Whether bytes are a document whose model is accepted.

ghost use Rattle.std.specs.Prelude.{◌≡◌, ◌↔◌, true, IsTrue, Ok, IfOk, IfErr};
ghost use Rattle.serde_json.specs.View.{view};
ghost use Rattle.aol_model_types.specs.Reading.{document_in};
ghost use Rattle.aol_model_types.specs.Readable.{IsReadable};
ghost use Rattle.aol_model_types.specs.Trees.{is_tree};
ghost use Rattle.aol_model_types.specs.Types.{IsDocument};
ghost use Rattle.aol_flat.specs.Level.{AreWriters};
ghost use Rattle.aol_flat.specs.Limits.{IsBounded};
ghost use Rattle.aol_flat.specs.Reads.{AllGiven};
ghost use Rattle.aol_flat.specs.Targets.{IsSingleAssignment};
ghost use Rattle.aol_assign.specs.declared.refused.AssignRefused.TheVariants as assigning;
ghost use Rattle.aol_program.specs.Accept.{Reads, IsAcceptedAs, IsCause, IsCauseIn, document_with};
ghost use Rattle.aol_program.specs.SoundDocument.{IsSoundDocument};

use aol_assign::{AssignRefused, Writers, assign};
use aol_depend::{DependRefused, Levels, levels};
use aol_flat::{Flat, FlatRefused, flatten};
use aol_model::{DocRefused, Document, Job, Misfit, Model, Place, document_of, shapes_agree};
use aol_shape::{LimitName, Name};
use serde_json::Value;
use std::alloc::Global;

/// A document whose model is accepted: the model laid out, the writer of each cell, the level of each instance, and the job.
#[derive(Drop)]
pub struct Accepted {
    pub flat: Flat,
    pub writers: Writers,
    pub levels: Levels,
    pub job: Job,
}

/// Why bytes are no document whose model is accepted.
#[derive(Drop)]
pub enum Refusal {
    /// They are no JSON.
    Json,
    /// This place of the tree isn't of the grammar.
    Grammar(Place),
    /// A text or a list at this place passes this limit.
    TextLimit(Place, LimitName),
    /// A rule on shapes and names fails.
    Shape(Misfit),
    /// The node with this path passes this limit.
    TreeLimit(Name, LimitName),
    /// An element of the laid out model is written twice, or read and not given.
    Assign(Flat, AssignRefused),
    /// This instance of the laid out model needs itself.
    Cycle(Flat, u32),
    NoMemory,
}

/// The document that the bytes are, with its model laid out and tested; or why they are none.
///
/// It is `Ok` exactly where they are a document whose model is accepted: such bytes have no cause to be refused.
pub fn accept(alloc: Global, bytes: &[u8]) -> Result<Accepted, Refusal>
    ensures accepted { IfOk result (λ a. Reads bytes.now (λ x. IsAcceptedAs x a)) }
    ensures refused { IfErr result (IsCause bytes.now) }
{
    match Value::from_slice(alloc, bytes) {
        Ok(tree) => accept_tree(alloc, &tree),
        Err(refused) if refused.is_memory() => Err(Refusal::NoMemory),
        Err(_) => Err(Refusal::Json),
    }
}

/// The same for a JSON tree.
fn accept_tree(alloc: Global, tree: &Value) -> Result<Accepted, Refusal>
    requires tree { is_tree (view tree.now) ≡ true }
    ensures accepted { IfOk result (IsAcceptedAs (document_in (view tree.now))) }
    ensures refused { IfErr result (IsCauseIn (document_in (view tree.now))) }
{
    match document_of(alloc, tree) {
        Ok(document) => accept_document(alloc, document),
        Err(DocRefused::NoMemory) => Err(Refusal::NoMemory),
        Err(DocRefused::Grammar(place)) => Err(Refusal::Grammar(place)),
        Err(DocRefused::Limit(place, name)) => Err(Refusal::TextLimit(place, name)),
    }
}

/// The same for a document.
fn accept_document(alloc: Global, document: Document) -> Result<Accepted, Refusal>
    requires types { IsDocument document.model document.job }
    requires readable { IsReadable document.model document.job }
    ensures accepted { IfOk result (IsAcceptedAs (Ok document)) }
    ensures refused { IfErr result (IsCauseIn (Ok document)) }
{
    let Document { model, job } = document;
    match shapes_agree(alloc, &model) {
        Ok(()) => accept_model(alloc, model, job),
        Err(misfit) => Err(Refusal::Shape(misfit)),
    }
}

/// The same for a document whose model keeps the rules.
fn accept_model(alloc: Global, model: Model, job: Job) -> Result<Accepted, Refusal>
    requires kept { IsSoundDocument model job }
    ensures accepted { IfOk result (IsAcceptedAs (Ok (record { model = model; job = job }))) }
    ensures refused { IfErr result (IsCauseIn (Ok (record { model = model; job = job }))) }
{
    match flatten(alloc, model) {
        Ok(flat) => accept_flat(alloc, flat, job),
        Err(FlatRefused::Limit(path, name)) => Err(Refusal::TreeLimit(path, name)),
        Err(FlatRefused::NoMemory) => Err(Refusal::NoMemory),
    }
}

/// Whether memory was wanting.
fn is_memory(refused: &AssignRefused) -> bool
    ensures { IsTrue result ↔ (refused.now ≡ assigning.NoMemory) }
{
    match refused {
        AssignRefused::NoMemory => true,
        AssignRefused::Twice { .. } | AssignRefused::Unwritten { .. } => false,
    }
}

/// The same for a document whose model is laid out.
fn accept_flat(alloc: Global, flat: Flat, job: Job) -> Result<Accepted, Refusal>
    requires kept { IsSoundDocument flat.model job }
    requires bounded { IsBounded flat.model }
    ensures accepted { IfOk result (IsAcceptedAs (Ok (document_with flat job))) }
    ensures refused { IfErr result (IsCauseIn (Ok (document_with flat job))) }
{
    match assign(alloc, &flat) {
        Ok(writers) => accept_given(alloc, flat, writers, job),
        Err(refused) if is_memory(&refused) => Err(Refusal::NoMemory),
        Err(refused) => Err(Refusal::Assign(flat, refused)),
    }
}

/// The same where each element that is read is given once.
fn accept_given(alloc: Global, flat: Flat, writers: Writers, job: Job) -> Result<Accepted, Refusal>
    requires kept { IsSoundDocument flat.model job }
    requires bounded { IsBounded flat.model }
    requires single { IsSingleAssignment flat.model }
    requires given { AllGiven flat.model }
    requires writers { AreWriters flat writers }
    ensures accepted { IfOk result (IsAcceptedAs (Ok (document_with flat job))) }
    ensures refused { IfErr result (IsCauseIn (Ok (document_with flat job))) }
{
    match levels(alloc, &flat, writers.list()) {
        Ok(levels) => Ok(Accepted {
            flat,
            writers,
            levels,
            job,
        }),
        Err(DependRefused::Cycle { instance }) => Err(Refusal::Cycle(flat, instance)),
        Err(DependRefused::NoMemory) => Err(Refusal::NoMemory),
    }
}

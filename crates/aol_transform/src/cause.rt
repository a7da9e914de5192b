use aol_assign::AssignRefused;
use aol_change::StepRefused;
use aol_equiv::Lost;
use aol_flat::Flat;

/// Why a step isn't kept.
#[derive(Drop)]
pub enum StepCause {
    /// Its kind isn't built.
    Unbuilt,
    /// It makes no model.
    NoResult(StepRefused),
    /// The model that it makes, laid out, writes an element twice.
    Twice(Flat, AssignRefused),
    /// An element that the model it makes reads comes from elsewhere than in the model before it.
    Lost { old: Flat, next: Flat, lost: Lost },
    NoMemory,
}

/// The first step that isn't kept, counted from 0, and why.
#[derive(Drop)]
pub struct StepsRefused {
    pub step: usize,
    pub cause: StepCause,
}

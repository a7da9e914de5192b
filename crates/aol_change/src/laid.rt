//! A changed model laid out.

ghost use Rattle.std.specs.Prelude.{◌≡◌, ◌⊎◌, IfOk, IfErr};
ghost use Rattle.aol_flat.specs.Accept.{IsSound, IsFlat};
ghost use Rattle.aol_change.specs.Change.{Changed, Refused, bounded};

use crate::refused::StepRefused;
use aol_flat::{Flat, FlatRefused, flatten};
use aol_model_types::Model;
use std::alloc::Global;

/// Lays a step's model out. `Limit` tells the first limit of the hierarchy that it passes.
pub fn laid_out(alloc: Global, model: Model) -> Result<Flat, StepRefused>
    requires { IsSound model }
    ensures ok { IfOk result (λ f. (f.model ≡ model) × (bounded (Changed model) ≡ Changed model) × IsFlat f) }
    ensures refused { IfErr result (λ e. (e ≡ StepRefused.NoMemory) ⊎ (bounded (Changed model) ≡ Refused e)) }
{
    match flatten(alloc, model) {
        Ok(flat) => {
            let _model = flat.model();
            Ok(flat)
        }
        Err(FlatRefused::Limit(_, limit)) => Err(StepRefused::Limit(limit)),
        Err(FlatRefused::NoMemory) => Err(StepRefused::NoMemory),
    }
}

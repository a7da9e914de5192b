//! The fused model laid out.

ghost use Rattle.std.specs.Prelude.{◌≡◌, ◌⊎◌, IfOk, IfErr};
ghost use Rattle.aol_flat.specs.Accept.{IsFlat};
ghost use Rattle.aol_change.specs.Change.{Changed, Refused, KeepsTasks};
ghost use Rattle.aol_fusion_parts.specs.Fuse.{fuse};

use crate::model::fused_model;
use aol_change::{StepRefused, laid_out};
use aol_flat::Flat;
use aol_model_types::FuseArgs;
use aol_shape::Name;
use std::alloc::Global;

/// The model with two joined parts of the compound of this name fused, laid out.
///
/// Causes in order: `NotJoined` where no compound has the name, it lacks one of the two parts, they are one, or no plain
/// link goes from the first to the second; `NotRepeated` where one of their tasks isn't repeated; `HasLinks` where one of
/// these has links between repetitions; `NotJoined` where the proposal isn't well formed; and `Limit`, those of the
/// hierarchy last.
pub fn fused_flat(
    alloc: Global,
    old: &Flat,
    name: &Name,
    args: &FuseArgs,
) -> Result<Flat, StepRefused>
    ensures ok { IfOk result (λ f. fuse old.now.model name.now args.now ≡ Changed f.model) }
    ensures flat { IfOk result (λ f. IsFlat f) }
    ensures keeps { IfOk result (λ f. KeepsTasks old.now.model f.model) }
    ensures refused { IfErr result (λ e. (e ≡ StepRefused.NoMemory) ⊎ (fuse old.now.model name.now args.now ≡ Refused e)) }
{
    let model = old.model();
    match fused_model(alloc, model, name, args) {
        Ok(next) => match laid_out(alloc, next) {
            Ok(flat) => Ok(flat),
            Err(error) => Err(error),
        },
        Err(error) => Err(error),
    }
}

ghost use Rattle.std.specs.Prelude.{◌≡◌, ◌<◌, ◌^◌, ◌∷◌, [], List, ℕ, length, take, true, false, OnOk, IfErr};
ghost use Rattle.aol_model_types.specs.declared.place.PlaceStep.{PlaceStep};
ghost use Rattle.aol_model_types.specs.Rules.{Check, check, each};
ghost use Rattle.aol_rules.specs.Walk.{Tells, misfit};

use aol_model_types::{Misfit, Path};
use aol_shape::Items;

/// A rule that holds at the place where the path ends, or else is the misfit.
pub fn require(at: Path, rule: u32, holds: bool) -> Result<(), Misfit>
    ensures tells { Tells result (check at rule holds ∷ []) }
    ensures passes { OnOk result (holds ≡ true) }
    ensures fails { IfErr result (λ m. (holds ≡ false) × (m ≡ misfit at rule)) }
{
    if holds {
        Ok(())
    } else {
        Err(Misfit {
            place: at.place(),
            rule,
        })
    }
}

/// The rules that each member of a list keeps.
pub trait MemberRules<T> {
    ghost checks: { Self → List PlaceStep → List T → T → List Check };

    ghost Stands: { Self → List T → Type 0 };

    /// Tests a member that stands at the path, after the earlier ones.
    fn test(&self, at: &Path, earlier: &[T], member: &T) -> Result<(), Misfit>
        requires depth { length at.now < 10 }
        requires stands { Stands self.now earlier.now }
        ensures { Tells result (checks self.now at.now earlier.now member.now) };
}

/// Tests each member of the list at the path, in order.
pub fn test_each<T, R: MemberRules<T>>(
    rules: &R,
    at: &Path,
    members: &Items<T>,
) -> Result<(), Misfit>
    requires depth { length at.now < 9 }
    requires count { length members.now < 2 ^ 32 }
    requires stand { (k : ℕ) → R.Stands rules.now (take k members.now) }
    ensures { Tells result (each (R.checks rules.now) at.now members.now) }
{
    let list = members.as_slice();
    for (k, member) in list.iter().enumerate() {
        rules.test(&at.to_index(k as u32), &list[..k], member)?;
    }
    Ok(())
}

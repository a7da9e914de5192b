//! Where every cell of a model ends.

ghost use Rattle.std.specs.Prelude.{◌≡◌, ◌<◌, ◌≤◌, ◌^◌, ◌++◌, ℕ, map, drop, length, slice_get, Some, OnOk, IfOk};
ghost use Rattle.aol_flat.specs.Accept.{IsFlat};
ghost use Rattle.aol_flat.specs.Targets.{IsSingleAssignment};
ghost use Rattle.aol_equiv.specs.Table.{AreEnds, AreLeads, HasLeads, given_at};
ghost use Rattle.aol_equiv.specs.declared.leads.Lead.TheVariants.{Nowhere};

use crate::leads::Lead;
use crate::made::lead_leaves;
use crate::places::{Spot, main_input_spots};
use crate::resolve::resolve;
use aol_flat::{End, Flat};
use aol_shape::NoMemory;
use std::alloc::{AllocError, Global};

/// So many cells of which nothing is known.
fn unknown(alloc: Global, count: usize) -> Result<Vec<Lead>, AllocError>
    ensures many { IfOk result (λ v. length v.items ≡ count) }
    ensures nowhere { IfOk result (λ v. (c : ℕ) (lead : _) → slice_get v.items c ≡ Some lead → lead ≡ Nowhere) }
{
    let leads = vec![in alloc; Lead::Nowhere; count]?;
    Ok(leads)
}

/// Notes at the first cells that they end at the main inputs.
fn put_inputs(leads: &mut [Lead], spots: &[Spot])
    requires { length spots.now ≤ length leads.old }
    ensures { leads.new ≡ map given_at spots.now ++ drop (length spots.now) leads.old }
{
    for (number, spot) in spots.iter().enumerate() {
        leads[number] = Lead::Ends(End::Input {
            port: spot.0,
            point: spot.1,
        });
    }
}

/// Notes what the instances and the main inputs make of the cells.
fn lead_all(alloc: Global, flat: &Flat, leads: &mut [Lead]) -> Result<(), NoMemory>
    requires flat { IsFlat flat.now }
    requires single { IsSingleAssignment flat.now.model }
    requires none { HasLeads flat.now 0 leads.old }
    ensures { OnOk result (AreLeads flat.now leads.new) }
{
    lead_leaves(alloc, flat, leads)?;
    let spots = main_input_spots(alloc, flat.model())?;
    put_inputs(leads, spots.as_slice());
    Ok(())
}

/// Finds where the cells end.
fn find_ends(alloc: Global, flat: &Flat, leads: &mut [Lead]) -> Result<(), NoMemory>
    requires flat { IsFlat flat.now }
    requires single { IsSingleAssignment flat.now.model }
    requires none { HasLeads flat.now 0 leads.old }
    requires few { length leads.old < 2 ^ 32 }
    ensures { OnOk result (AreEnds flat.now leads.new) }
{
    lead_all(alloc, flat, leads)?;
    resolve(alloc, leads)?;
    Ok(())
}

/// Where each cell of the model ends, and with it each read: a copy's cell where its source does.
pub fn ends_of(alloc: Global, flat: &Flat) -> Result<Vec<Lead>, NoMemory>
    requires { IsSingleAssignment flat.now.model }
    ensures { IfOk result (λ v. AreEnds flat.now v.items) }
{
    flat.model();
    let mut leads = unknown(alloc, flat.cells() as usize)?;
    find_ends(alloc, flat, &mut leads)?;
    Ok(leads)
}

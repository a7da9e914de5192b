//! Cells that copies fill end where their sources do: each cell is passed once.

ghost use Rattle.std.specs.Prelude.{◌≡◌, ◌<◌, ◌^◌, ℕ, List, [], length, OnOk, IfOk};
ghost use Rattle.std.specs.List.{AllByRecursion};
ghost use Rattle.aol_equiv.specs.Leads.{set_each};
ghost use Rattle.aol_equiv.specs.Resolved.{AreWithin, FollowsTo, WalksFrom, IsResolved};

use crate::leads::Lead;
use std::alloc::{AllocError, Global};

/// Follows copies from a cell, up to one that copies none. The cells passed lead nowhere until it is known what they end
/// at, so a cycle of copies stops too.
fn follow(leads: &mut [Lead], path: &mut Vec<u32>, start: u32) -> Result<u32, AllocError>
    requires start { start < length leads.old }
    requires within { AreWithin leads.old }
    requires empty { path.old.items ≡ [] }
    ensures { FollowsTo leads.old leads.new path.new.items start result }
{
    let mut cell = start;
    while let Lead::Copies(next) = leads[cell as usize] {
        path.push(cell)?;
        leads[cell as usize] = Lead::Nowhere;
        cell = next;
    }
    Ok(cell)
}

/// Notes where all cells of a path end.
fn settle(leads: &mut [Lead], path: &[u32], lead: Lead)
    requires { AllByRecursion (λ c. c < length leads.old) path.now }
    ensures { leads.new ≡ set_each leads.old path.now lead }
{
    for cell in path {
        leads[*cell as usize] = lead;
    }
}

/// Finds where a cell ends, and with it those that it copies.
fn walk(leads: &mut [Lead], path: &mut Vec<u32>, start: u32) -> Result<(), AllocError>
    requires start { start < length leads.old }
    requires within { AreWithin leads.old }
    ensures { WalksFrom leads.old leads.new start result }
{
    path.clear();
    let stop = follow(leads, path, start)?;
    let lead = leads[stop as usize];
    settle(leads, path.as_slice(), lead);
    Ok(())
}

/// Finds where all cells end.
pub fn resolve(alloc: Global, leads: &mut [Lead]) -> Result<(), AllocError>
    requires within { AreWithin leads.old }
    requires few { length leads.old < 2 ^ 32 }
    ensures { OnOk result (IsResolved leads.old leads.new) }
{
    let mut path = Vec::new(alloc);
    for cell in 0..leads.len() as u32 {
        walk(leads, &mut path, cell)?;
    }
    Ok(())
}

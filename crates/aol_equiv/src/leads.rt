//! What is known of where cells end.

ghost use Rattle.std.specs.Prelude.{◌≡◌, ◌↔◌, IsTrue, IsSome, Some};
ghost use Rattle.aol_equiv.specs.Leads.{lead_of, end_of, IsKeptRead};
ghost use Rattle.aol_flat.specs.Keep.{old_end};

use aol_flat::{End, Read};

/// Where a cell ends: there, where another cell does, or nowhere.
#[derive(Clone, Copy)]
pub enum Lead {
    Ends(End),
    Copies(u32),
    Nowhere,
}

/// Where a cell ends that a copy of this read fills.
pub fn lead_of(read: Read) -> Lead
    ensures { result ≡ lead_of read }
{
    match read {
        Read::Cell(cell) => Lead::Copies(cell),
        Read::Const(number) => Lead::Ends(End::Const(number)),
    }
}

/// Where a read ends, by what is known of cells.
pub fn end_of(leads: &[Lead], read: Read) -> Option<End>
    ensures { result ≡ end_of leads.now read }
{
    match read {
        Read::Const(number) => Some(End::Const(number)),
        Read::Cell(cell) => match leads.get(cell as usize) {
            Some(Lead::Ends(end)) => Some(*end),
            _ => None,
        },
    }
}

/// Where a read ends that has an end.
pub fn must_end(leads: &[Lead], read: Read) -> End
    requires { IsSome (end_of leads.now read) }
    ensures { end_of leads.now read ≡ Some result }
{
    match end_of(leads, read) {
        Some(end) => end,
        None => unreachable!(),
    }
}

/// Whether two ends are the same.
fn are_same(a: End, b: End) -> bool
    ensures { IsTrue result ↔ (a ≡ b) }
{
    match a {
        End::Input { port, point } => match b {
            End::Input {
                port: other,
                point: place,
            } => port == other && point == place,
            _ => false,
        },
        End::Const(number) => match b {
            End::Const(other) => number == other,
            _ => false,
        },
        End::Made {
            instance,
            port,
            point,
        } => match b {
            End::Made {
                instance: maker,
                port: other,
                point: place,
            } => instance == maker && port == other && point == place,
            _ => false,
        },
    }
}

/// An end with the old instance in place of the new one.
fn old_end(old_of: &[u32], end: End) -> End
    ensures { result ≡ old_end old_of.now end }
{
    match end {
        End::Made {
            instance,
            port,
            point,
        } => End::Made {
            instance: old_of.get(instance as usize).copied().unwrap_or(0),
            port,
            point,
        },
        other => other,
    }
}

/// Whether a read of the new model ends at this old end.
pub fn is_kept(leads: &[Lead], old_of: &[u32], read: Read, required: End) -> bool
    ensures { IsTrue result ↔ IsKeptRead leads.now old_of.now read required }
{
    match end_of(leads, read) {
        None => false,
        Some(end) => are_same(old_end(old_of, end), required),
    }
}

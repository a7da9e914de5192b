//! Which instances each instance needs.

ghost use Rattle.aol_depend.specs.Needs.{row};
ghost use Rattle.aol_depend.specs.Rows.{AreStarts, rows_of};
ghost use Rattle.std.specs.Prelude.{◌≡◌, ◌<◌, ◌≤◌, ◌^◌, length, slice_get, slice_range, Some};

/// The instances that each instance needs, in one list.
///
/// Those of an instance stand at the places from its own start up to the start of the next instance.
#[derive(Drop)]
pub struct Needs {
    starts: Vec<u32>,
    list: Vec<u32>,
}

impl std::marker::Model for Needs {
    ghost use Rattle.std.specs.Prelude.{ℕ, List};
    ghost use Rattle.std.specs.Coded.{codes};
    ghost use Rattle.aol_depend.specs.Rows.{rows_of, AreStarts};

    ghost Value = { List (List ℕ) };

    ghost coded = { Prim.hlevel codes };

    ghost view = { λ n. rows_of n.starts.items n.list.items };

    ghost invariant = { λ n. AreStarts n.starts.items n.list.items };
}

/// The part of a list from one place up to another.
fn part_of(list: &[u32], start: usize, end: usize) -> &[u32]
    requires order { start ≤ end }
    requires within { end ≤ length list.now }
    ensures { result.now ≡ slice_range list.now start end }
{
    &list[start..end]
}

impl Needs {
    /// The needs that stand in these rows.
    pub fn of_rows(starts: Vec<u32>, list: Vec<u32>) -> Needs
        requires { AreStarts starts.items list.items }
        ensures { result ≡ rows_of starts.items list.items }
    {
        Needs { starts, list }
    }

    /// What the instance with this number needs.
    pub fn of(&self, number: u32) -> &[u32]
        requires { number < length self.now }
        ensures row { slice_get self.now number ≡ Some result.now }
        ensures few { length result.now < 2 ^ 32 }
    {
        let start = self.starts[number as usize] as usize;
        let end = self.starts[number as usize + 1] as usize;
        part_of(self.list.as_slice(), start, end)
    }

    /// The instance at a place among those that an instance needs, where there is one.
    pub fn next(&self, number: u32, place: u32) -> Option<u32>
        requires { number < length self.now }
        ensures next { result ≡ slice_get (row self.now number) place }
        ensures few { length (row self.now number) < 2 ^ 32 }
    {
        self.of(number).get(place as usize).copied()
    }

    /// How many instances there are.
    pub fn len(&self) -> usize
        ensures many { result ≡ length self.now }
        ensures few { result < 2 ^ 32 }
    {
        self.starts.len() - 1
    }
}

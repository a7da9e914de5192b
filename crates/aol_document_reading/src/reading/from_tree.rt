ghost use Rattle.std.specs.Prelude.{◌≡◌, ◌+◌, ◌<◌, ◌≤◌, ◌^◌, [], length, map, IfOk};
ghost use Rattle.std.specs.List.{AllByRecursion};
ghost use Rattle.serde_json.specs.View.{view};
ghost use Rattle.aol_model_types.specs.Answers.{Gives, given_items};
ghost use Rattle.aol_model_types.specs.Reading.{elements, list_of, member_at};
ghost use Rattle.aol_model_types.specs.declared.place.Key.TheVariants.{KIn};
ghost use Rattle.aol_model_types.specs.Types.{IsCounted};
ghost use Rattle.aol_document_reading.specs.Parts.{two_at, three_at, filled};
ghost use Rattle.aol_document_reading.specs.Trails.{steps_of};

use crate::reading::forms::{elements_of, member_of};
use crate::reading::trail::Trail;
use aol_model_types::{DocRefused, Key};
use aol_shape::Items;
use serde_json::Value;
use std::alloc::Global;

/// Where the values go, and whether the document is of version 2.
#[derive(Clone, Copy)]
pub(super) struct Reader {
    pub alloc: Global,
    pub later: bool,
}

/// A value that trees of one form stand for.
pub(super) trait FromTree: Drop {
    ghost use Rattle.std.specs.Prelude.{ℕ, Bool, Result};
    ghost use Rattle.serde_json.specs.Data.{Data};
    ghost use Rattle.aol_model_types.specs.Reading.{At, Fault};

    ghost reading: { Bool → At → Data → Result Self Fault };

    ghost guarantees: { Self → Type 0 };

    ghost depth: { ℕ };

    /// The value of a tree at this place, or the first fault there.
    fn from_tree(reader: Reader, at: &Trail<'_>, tree: &Value) -> Result<Self, DocRefused>
        requires { length (steps_of at.now) + depth ≤ 12 }
        ensures read { Gives result (reading reader.later (steps_of at.now) (view tree.now)) }
        ensures types { IfOk result guarantees };
}

impl Reader {
    /// The member with this key.
    pub fn member<T: FromTree>(
        self,
        at: &Trail<'_>,
        tree: &Value,
        key: Key,
    ) -> Result<T, DocRefused>
        requires { length (steps_of at.now) + T.depth < 12 }
        ensures read { Gives result (member_at (steps_of at.now) (view tree.now) key (T.reading self.later)) }
        ensures types { IfOk result T.guarantees }
    {
        let value = member_of(at, tree, key)?;
        T::from_tree(self, &Trail::Key(at, key), value)
    }

    /// Two members, one after the other.
    pub fn two<A: FromTree, B: FromTree>(
        self,
        at: &Trail<'_>,
        tree: &Value,
        first: Key,
        second: Key,
    ) -> Result<(A, B), DocRefused>
        requires first { length (steps_of at.now) + A.depth < 12 }
        requires second { length (steps_of at.now) + B.depth < 12 }
        ensures read { Gives result (two_at (A.reading self.later) (B.reading self.later) first second (steps_of at.now) (view tree.now)) }
        ensures types { IfOk result (λ p. A.guarantees p.0 × B.guarantees p.1) }
    {
        let one: A = self.member(at, tree, first)?;
        let other: B = self.member(at, tree, second)?;
        Ok((one, other))
    }

    /// Three members, one after another.
    pub fn three<A: FromTree, B: FromTree, C: FromTree>(
        self,
        at: &Trail<'_>,
        tree: &Value,
        keys: (Key, Key, Key),
    ) -> Result<(A, B, C), DocRefused>
        requires first { length (steps_of at.now) + A.depth < 12 }
        requires second { length (steps_of at.now) + B.depth < 12 }
        requires third { length (steps_of at.now) + C.depth < 12 }
        ensures read { Gives result (three_at (A.reading self.later) (B.reading self.later) (C.reading self.later) keys.0 keys.1 keys.2 (steps_of at.now) (view tree.now)) }
        ensures types { IfOk result (λ p. A.guarantees p.0 × B.guarantees p.1 × C.guarantees p.2) }
    {
        let one: A = self.member(at, tree, keys.0)?;
        let other: B = self.member(at, tree, keys.1)?;
        let last: C = self.member(at, tree, keys.2)?;
        Ok((one, other, last))
    }

    /// Reads the elements one after another into a vector that has none yet.
    fn fill<T: FromTree>(
        self,
        at: &Trail<'_>,
        trees: &[Value],
        values: &mut Vec<T>,
    ) -> Result<(), DocRefused>
        requires depth { length (steps_of at.now) + T.depth < 12 }
        requires count { length trees.now < 2 ^ 32 }
        requires empty { values.old.items ≡ [] }
        ensures read { Gives (filled result values.new.items) (elements (T.reading self.later) (steps_of at.now) 0 (map view trees.now)) }
        ensures types { IfOk result (λ u. AllByRecursion T.guarantees values.new.items) }
        ensures count { IfOk result (λ u. length values.new.items ≡ length trees.now) }
    {
        for (i, tree) in trees.iter().enumerate() {
            let place = Trail::Index(&*at, i as u32);
            let value = T::from_tree(self, &place, tree)?;
            values.push(value)?;
        }
        Ok(())
    }

    /// The elements, one after another.
    pub fn elements<T: FromTree>(
        self,
        at: &Trail<'_>,
        trees: &[Value],
    ) -> Result<Vec<T>, DocRefused>
        requires { length (steps_of at.now) + T.depth < 12 }
        ensures read { Gives (given_items result) (elements (T.reading self.later) (steps_of at.now) 0 (map view trees.now)) }
        ensures types { IfOk result (λ v. AllByRecursion T.guarantees v.items) }
        ensures count { IfOk result (λ v. IsCounted v.items × (length v.items ≡ length trees.now)) }
    {
        if trees.len() > 4294967295 {
            return Err(DocRefused::NoMemory);
        }
        let mut values = Vec::with_capacity(self.alloc, trees.len())?;
        self.fill(at, trees, &mut values)?;
        Ok(values)
    }
}

impl Reader {
    /// The inputs of a task.
    pub fn inputs<T: FromTree>(self, at: &Trail<'_>, tree: &Value) -> Result<Vec<T>, DocRefused>
        requires { length (steps_of at.now) + T.depth + 1 < 12 }
        ensures read { Gives (given_items result) (member_at (steps_of at.now) (view tree.now) KIn (list_of (T.reading self.later))) }
        ensures types { IfOk result (λ v. AllByRecursion T.guarantees v.items) }
        ensures count { IfOk result (λ v. IsCounted v.items) }
    {
        let value = member_of(at, tree, Key::KIn)?;
        let at = Trail::Key(at, Key::KIn);
        self.elements(&at, elements_of(&at, value)?)
    }
}

impl<T: FromTree> FromTree for Items<T> {
    ghost use Rattle.std.specs.Prelude.{◌+◌, length};

    ghost reading = { λ later. list_of (T.reading later) };

    ghost guarantees = { λ xs. AllByRecursion T.guarantees xs × IsCounted xs };

    ghost depth = { T.depth + 1 };

    fn from_tree(reader: Reader, at: &Trail<'_>, tree: &Value) -> Result<Items<T>, DocRefused> {
        let values = reader.elements(at, elements_of(at, tree)?)?;
        Ok(Items::from_vec(values))
    }
}

use crate::columns::{ZEROS, combined, push_copies, push_mapped, push_scaled};
use crate::sums::{entry_at, have_length, reduced};
use crate::units::push_units;
use aol_shape::{IntVec, Items, Shape};
use std::alloc::{AllocError, Global};
use std::marker::Model;

/// The columns of a matrix.
pub type IntMat = Items<IntVec>;

#[derive(Drop)]
pub struct Tiler {
    pub origin: IntVec,
    pub paving: IntMat,
    pub fitting: IntMat,
}

impl Model for Tiler {
    ghost use Rattle.aol_tiler.specs.Matrices.{TilerOf, tiler_code};

    ghost Value = { TilerOf };

    ghost coded = { tiler_code };

    ghost use Rattle.aol_tiler.specs.Tiler.{IsTiler};

    ghost view = { λ t. record { origin = t.origin; paving = t.paving; fitting = t.fitting } };

    ghost invariant = { λ t. IsTiler (record { origin = t.origin; paving = t.paving; fitting = t.fitting }) };
}

#[derive(Clone, Copy, Debug, PartialEq, Eq)]
pub enum TilerRefused {
    Entry(u32),
    NoMemory,
}

impl From<AllocError> for TilerRefused {
    ghost use Rattle.std.specs.Prelude.{◌≡◌};
    ghost use Rattle.aol_tiler.specs.declared.tiler.TilerRefused.TheVariants.{NoMemory};

    ghost from_gives = { λ _ e. e ≡ NoMemory };

    fn from(_: AllocError) -> TilerRefused {
        TilerRefused::NoMemory
    }
}

impl Tiler {
    ghost use Rattle.std.specs.Prelude.{◌≡◌, ◌+◌, ◌<◌, ◌≤◌, length, slice_index};
    ghost use Rattle.aol_shape.specs.Shape.{size};
    ghost use Rattle.aol_shape.specs.Vectors.{wrapped};
    ghost use Rattle.aol_tiler.specs.Sums.{entry};
    ghost use Rattle.aol_tiler.specs.Tiler.{IsTiler, fits, place, address, composed, blocked, substituted, inner_of};
    ghost use Rattle.aol_tiler.specs.Makers.{Makes, IsNoEntry, AreComposable, IsBlockable, AreSubstitutable, IsAddressed};

    /// How many paving columns there are.
    pub fn paving_columns(&self) -> usize
        ensures count { result ≡ length self.now.paving }
        ensures limits { IsTiler self.now }
    {
        self.paving.len()
    }

    /// Whether the tiler is over the array, with a paving column for each dimension of the space and a fitting column for each of the pattern.
    pub fn fits(&self, array: &Shape, space: &Shape, pattern: &Shape) -> bool
        ensures { result ≡ fits self.now array.now space.now pattern.now }
    {
        let rank = array.as_slice().len();
        self.origin.as_slice().len() == rank
            && have_length(self.paving.as_slice(), rank)
            && have_length(self.fitting.as_slice(), rank)
            && self.paving.len() == space.as_slice().len()
            && self.fitting.len() == pattern.as_slice().len()
    }

    /// The rank of the element of the array that pattern element `i` of repetition `r` is.
    ///
    /// Array-OL's formula: `(origin + paving * r + fitting * i) mod array`, each entry from 0 up.
    #[tactic(auto, using(crate::proofs::Ranked::ranked_none, crate::proofs::Ranked::ranked_all))]
    pub fn address(&self, array: &Shape, r: &[u32], i: &[u32]) -> u32
        requires { IsAddressed self.now array.now r.now i.now }
        ensures address { result ≡ address self.now array.now r.now i.now }
        ensures within { result < size array.now }
    {
        let mut rank = 0;
        for (k, length) in array.as_slice().iter().enumerate() {
            rank = rank * *length + self.index_at(array, r, i, k);
        }
        rank
    }

    /// Index `k` of that element's point.
    fn index_at(&self, array: &Shape, r: &[u32], i: &[u32], k: usize) -> u32
        requires addressed { IsAddressed self.now array.now r.now i.now }
        requires dimension { k < length array.now }
        ensures index { result ≡ wrapped (entry (place self.now r.now i.now) k) (slice_index array.now k) }
        ensures within { result < slice_index array.now k }
    {
        let origin = i64::from(self.origin.as_slice()[k]);
        let reference = entry_at(origin, self.paving.as_slice(), r, k);
        let element = entry_at(reference, self.fitting.as_slice(), i, k);
        reduced(element, array.as_slice()[k])
    }

    /// The inner tiler over the pattern of the outer one, as one tiler over the outer one's array.
    ///
    /// With `outer = (o1, P1, F1)` and `inner = (o2, P2, F2)` it is `(o1 + F1 o2, [P1 | F1 P2], F1 F2)`.
    /// `Entry` tells the first entry out of range, counted through origin, paving and fitting.
    pub fn compose(alloc: Global, outer: &Tiler, inner: &Tiler) -> Result<Tiler, TilerRefused>
        requires { AreComposable outer.now inner.now }
        ensures { Makes result (composed outer.now inner.now) }
    {
        let start = outer.origin.as_slice();
        let columns = outer.fitting.as_slice();
        let zeros = &ZEROS[..start.len()];
        let origin = combined(alloc, start, columns, inner.origin.as_slice(), 0)?;
        let place = start.len() as u32;
        let mut paving = IntMat::new(alloc);
        let place = push_copies(alloc, &mut paving, outer.paving.as_slice(), place)?;
        let place = push_mapped(
            alloc,
            &mut paving,
            zeros,
            columns,
            inner.paving.as_slice(),
            place,
        )?;
        let mut fitting = IntMat::new(alloc);
        push_mapped(
            alloc,
            &mut fitting,
            zeros,
            columns,
            inner.fitting.as_slice(),
            place,
        )?;
        Ok(Tiler {
            origin,
            paving,
            fitting,
        })
    }

    /// One repetition for each block of repetitions, with the position inside the block as first pattern dimensions.
    ///
    /// With `self = (o, P, F)` it is `(o, P with column k times the block's entry k, [P | F])`.
    /// `Entry` tells the first entry out of range, counted through origin, paving and fitting.
    #[tactic(auto, using(crate::proofs::Extends::length_scaled))]
    pub fn blocked(&self, alloc: Global, block: &Shape) -> Result<Tiler, TilerRefused>
        requires { IsBlockable self.now block.now }
        ensures { Makes result (blocked self.now block.now) }
    {
        let start = self.origin.as_slice();
        let origin = combined(alloc, start, &[], &[], 0)?;
        let place = start.len() as u32;
        let mut paving = IntMat::new(alloc);
        let place = push_scaled(
            alloc,
            &mut paving,
            self.paving.as_slice(),
            block.as_slice(),
            place,
        )?;
        let mut fitting = IntMat::new(alloc);
        let place = push_copies(alloc, &mut fitting, self.paving.as_slice(), place)?;
        push_copies(alloc, &mut fitting, self.fitting.as_slice(), place)?;
        Ok(Tiler {
            origin,
            paving,
            fitting,
        })
    }

    /// The tiler at the repetitions that another tiler gives.
    ///
    /// With `self = (o, P, F)` and `by = (g, G, H)` it is `(o + P g, P G, [P H | F])`.
    /// `Entry` tells the first entry out of range, counted through origin, paving and fitting.
    pub fn substituted(&self, alloc: Global, by: &Tiler) -> Result<Tiler, TilerRefused>
        requires { AreSubstitutable self.now by.now }
        ensures { Makes result (substituted self.now by.now) }
    {
        let start = self.origin.as_slice();
        let columns = self.paving.as_slice();
        let zeros = &ZEROS[..start.len()];
        let origin = combined(alloc, start, columns, by.origin.as_slice(), 0)?;
        let place = start.len() as u32;
        let mut paving = IntMat::new(alloc);
        let place = push_mapped(
            alloc,
            &mut paving,
            zeros,
            columns,
            by.paving.as_slice(),
            place,
        )?;
        let mut fitting = IntMat::new(alloc);
        let place = push_mapped(
            alloc,
            &mut fitting,
            zeros,
            columns,
            by.fitting.as_slice(),
            place,
        )?;
        push_copies(alloc, &mut fitting, self.fitting.as_slice(), place)?;
        Ok(Tiler {
            origin,
            paving,
            fitting,
        })
    }

    /// The tiler over both shapes joined: a repetition is a point of the first, a pattern element one of the second.
    ///
    /// Its origin is zero, paving has the unit columns of the first dimensions and fitting those of the last. It never answers `Entry`.
    pub fn inner(alloc: Global, space: &Shape, pattern: &Shape) -> Result<Tiler, TilerRefused>
        requires { length space.now + length pattern.now ≤ 12 }
        ensures made { Makes result (inner_of space.now pattern.now) }
        ensures fits { IsNoEntry result }
    {
        let (first, last) = (space.as_slice(), pattern.as_slice());
        let Some(origin) = IntVec::new(alloc, &ZEROS[..first.len() + last.len()]) else {
            unreachable!()
        };
        let mut paving = IntMat::new(alloc);
        push_units(alloc, &mut paving, 0, first, last.len())?;
        let mut fitting = IntMat::new(alloc);
        push_units(alloc, &mut fitting, first.len(), last, 0)?;
        Ok(Tiler {
            origin,
            paving,
            fitting,
        })
    }
}

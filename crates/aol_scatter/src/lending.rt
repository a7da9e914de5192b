//! A field, and what it is lent as: one rest and any number of shares.
ghost use Rattle.std.specs.Prelude.{◌≡◌, ℕ, ◌<◌, ◌≤◌, List, Some, None, true, map, length, replicate, slice_set, slice_index_or, IfOk, All, AllPairs, Contains};
ghost use Rattle.aol_scatter.specs.Cells.{cell, IsHeld, AreDistinct, AreApart, without};

use crate::part::{Base, Deed, Part, allocate, deallocate};
use aol_shape::{Items, NoMemory};
use std::alloc::Global;
use std::marker::Model;
use std_alloc::room::may_hold;

/// A list of values in one block of memory, its cells. They are numbered from 0.
pub struct Field<T> {
    base: Base<T>,
    part: Part<T>,
    deed: Deed<T, Global>,
    len: u32,
    alloc: Global,
}

impl<T> Model for Field<T> {
    ghost use Rattle.std.specs.Prelude.{◌≡◌, List, length};
    ghost use Rattle.aol_scatter.specs.Cells.{IsWhole, values_held};

    ghost Value = { List T };

    ghost view = { λ f. values_held f.part.cells };

    ghost invariant = { λ f. (f.part.at ≡ f.base.ptr) × (length f.part.cells ≡ f.len) × (f.deed.at ≡ f.base.ptr) × (f.deed.len ≡ f.len) × (f.deed.alloc ≡ f.alloc) × IsWhole f.part.cells };
}

/// The cells of a lent field that no share has. It cannot be dropped: `finish` gives the field again.
pub struct Rest<T> {
    base: Base<T>,
    part: Part<T>,
    deed: Deed<T, Global>,
    len: u32,
    alloc: Global,
}

impl<T> Model for Rest<T> {
    ghost use Rattle.std.specs.Prelude.{◌≡◌, length};
    ghost use Rattle.aol_scatter.specs.Views.{RestView, rest_view, rest_code};

    ghost Value = { RestView T };

    ghost coded = { rest_code T.code };

    ghost view = { λ r. rest_view r.base.ptr r.len r.part.cells };

    ghost invariant = { λ r. (r.part.at ≡ r.base.ptr) × (length r.part.cells ≡ r.len) × (r.deed.at ≡ r.base.ptr) × (r.deed.len ≡ r.len) × (r.deed.alloc ≡ r.alloc) };
}

/// Some cells of a field, in an order of their own, and a value for each. It cannot be dropped:
/// `Rest::settle` takes it back.
pub struct Share<T> {
    base: Base<T>,
    part: Part<T>,
    cells: Items<u32>,
}

impl<T> Model for Share<T> {
    ghost use Rattle.std.specs.Prelude.{◌≡◌, All};
    ghost use Rattle.aol_scatter.specs.Cells.{IsHeld, HoldsOnly, AreDistinct};
    ghost use Rattle.aol_scatter.specs.Views.{ShareView, share_view, share_code};

    ghost Value = { ShareView T };

    ghost coded = { share_code T.code };

    ghost view = { λ s. share_view s.base.ptr s.part.cells s.cells };

    ghost invariant = { λ s. (s.part.at ≡ s.base.ptr) × AreDistinct s.cells × All (λ k. IsHeld s.part.cells k) s.cells × HoldsOnly s.part.cells s.cells };
}

/// Writes the value into each cell of a fresh part.
fn fill<T: Copy>(base: Base<T>, part: &mut Part<T>, count: usize, value: T)
    requires { (base.ptr ≡ part.old.at) × (part.old.fresh ≡ true) × (part.old.cells ≡ replicate count None) }
    ensures { (part.new.at ≡ part.old.at) × (part.new.cells ≡ replicate count (Some value)) }
{
    let mut k = 0;
    while k < count {
        part.put(base, k, value);
        k += 1;
    }
}

impl<T: Copy> Field<T> {
    /// A field of `len` cells, each of which holds the value.
    pub fn filled(alloc: Global, len: u32, value: T) -> Result<Field<T>, NoMemory>
        ensures { IfOk result (λ f. f ≡ replicate len value) }
    {
        let count = len as usize;
        if !may_hold::<T>(count) {
            return Err(NoMemory);
        }
        let Some((base, mut part, deed)) = allocate(&alloc, count) else {
            return Err(NoMemory);
        };
        fill(base, &mut part, count, value);
        Ok(Field {
            base,
            part,
            deed,
            len,
            alloc,
        })
    }

    /// How many cells there are.
    pub fn len(&self) -> u32
        ensures { result ≡ length self.now }
    {
        self.len
    }

    /// What cell `k` holds.
    pub fn get(&self, k: u32) -> T
        requires { k < length self.now }
        ensures { result ≡ slice_index_or self.now k result }
    {
        *self.part.get(self.base, k as usize)
    }

    /// Begins to lend the field. No cell is claimed yet.
    pub fn begin(self) -> Rest<T>
        ensures cells { result.cells ≡ map Some self }
        ensures len { result.name.len ≡ length self }
    {
        let Field {
            base,
            part,
            deed,
            len,
            alloc,
        } = self;
        Rest {
            base,
            part,
            deed,
            len,
            alloc,
        }
    }
}

impl<T> Drop for Field<T> {
    fn drop(self) {
        let count = self.len as usize;
        let Field {
            base,
            part,
            deed,
            len: _,
            alloc,
        } = self;
        deallocate(&alloc, base, count, part, deed);
    }
}

impl<T: Copy> Rest<T> {
    /// Claims the listed cells for a share, which has them in this order.
    ///
    /// They are cells of the field that no share has, and none is listed twice. Their values go over to the share.
    pub fn claim(&mut self, cells: Items<u32>) -> Share<T>
        requires distinct { AreDistinct cells }
        requires unclaimed { All (λ k. IsHeld self.old.cells k) cells }
        ensures name { (result.name ≡ self.old.name) × (self.new.name ≡ self.old.name) }
        ensures cells { result.cells ≡ cells }
        ensures values { map Some result.values ≡ map (λ k. cell self.old.cells k) cells }
        ensures as_many { length result.values ≡ length result.cells }
        ensures rest { self.new.cells ≡ without cells self.old.cells }
    {
        let part = self.part.split(cells.as_slice());
        Share {
            base: self.base,
            part,
            cells,
        }
    }

    /// How many cells the field has, whether a share has them or not.
    pub fn len(&self) -> u32
        ensures cells { result ≡ length self.now.cells }
        ensures name { result ≡ self.now.name.len }
    {
        self.len
    }

    /// What cell `k` of the field holds. No share has it.
    pub fn get(&self, k: u32) -> T
        requires { IsHeld self.now.cells k }
        ensures { cell self.now.cells k ≡ Some result }
    {
        let held = self.part.get(self.base, k as usize);
        *held
    }

    /// Takes a share of this field back, and hands out the list of its cells.
    ///
    /// Each of them holds what the share had in it, and is unclaimed again. No other cell changes.
    pub fn settle(&mut self, share: Share<T>) -> Items<u32>
        requires { share.name ≡ self.old.name }
        ensures cells { result ≡ share.cells }
        ensures name { self.new.name ≡ self.old.name }
        ensures values { map (λ k. cell self.new.cells k) share.cells ≡ map Some share.values }
        ensures others { (k : ℕ) → ¬ Contains share.cells k → cell self.new.cells k ≡ cell self.old.cells k }
        ensures len { length self.new.cells ≡ length self.old.cells }
    {
        let Share {
            base: _,
            part,
            cells,
        } = share;
        self.part.join(part);
        cells
    }

    /// Takes shares of this field back that have no cell in common, as those of one round of claims.
    ///
    /// Each cell holds what the share that claimed it had in it. A cell that none of them claimed does not change.
    pub fn settle_all(&mut self, shares: Vec<Share<T>>)
        requires names { All (λ s. s.name ≡ self.old.name) shares.items }
        requires apart { AllPairs (λ s t. AreApart s.cells t.cells) shares.items }
        ensures name { self.new.name ≡ self.old.name }
        ensures values { All (λ s. map (λ k. cell self.new.cells k) s.cells ≡ map Some s.values) shares.items }
        ensures others { (k : ℕ) → All (λ s. ¬ Contains s.cells k) shares.items → cell self.new.cells k ≡ cell self.old.cells k }
        ensures len { length self.new.cells ≡ length self.old.cells }
    {
        let mut shares = shares;
        while let Some(share) = shares.pop() {
            let _cells = self.settle(share);
        }
        shares.destroy_empty();
    }

    /// Ends the lending. No cell is claimed any more.
    pub fn finish(self) -> Field<T>
        requires { (k : ℕ) → k < self.name.len → IsHeld self.cells k }
        ensures cells { map Some result ≡ self.cells }
        ensures len { length result ≡ self.name.len }
    {
        let Rest {
            base,
            part,
            deed,
            len,
            alloc,
        } = self;
        Field {
            base,
            part,
            deed,
            len,
            alloc,
        }
    }
}

impl<T: Copy> Share<T> {
    /// How many cells the share has. It has as many values.
    pub fn len(&self) -> usize
        ensures cells { result ≡ length self.now.cells }
        ensures values { result ≡ length self.now.values }
    {
        self.cells.len()
    }

    /// Writes the share's cell at place `j` of its list, and that cell alone.
    pub fn put(&mut self, j: u32, value: T)
        requires { j < length self.old.cells }
        ensures same { (self.new.name ≡ self.old.name) × (self.new.cells ≡ self.old.cells) }
        ensures values { self.new.values ≡ slice_set self.old.values j value }
        ensures as_many { length self.new.values ≡ length self.new.cells }
    {
        let cells = self.cells.as_slice();
        let k = cells[j as usize];
        self.part.put(self.base, k as usize, value);
    }

    /// What the share's cell at place `j` of its list holds: what was last put there, or what it held when it was claimed.
    pub fn get(&self, j: u32) -> T
        requires { j < length self.now.cells }
        ensures value { result ≡ slice_index_or self.now.values j result }
        ensures as_many { length self.now.values ≡ length self.now.cells }
    {
        let cells = self.cells.as_slice();
        let k = cells[j as usize];
        *self.part.get(self.base, k as usize)
    }
}

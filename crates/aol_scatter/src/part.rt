//! A block of cells, and who owns which of them.
//!
//! All parts of a block stand at its one pointer. What a part owns is ghost data, a list with an entry for each cell of
//! the block: `split` and `join` move entries from one list to another, and do nothing when the program runs.
ghost use Rattle.std.specs.Prelude.{◌≡◌, ℕ, ◌<◌, List, Bool, true, false, ◌⊎◌, Option, Some, None, length, replicate, slice_set, IfSome, ⊤};
ghost use Rattle.std.specs.Vec.Ownership.{FitsInBlock};
ghost use base.Fml.{ftrue};
ghost use denote.RawPtr.{Ptr};
ghost use Rattle.aol_scatter.specs.Cells.{cell, IsHeld, IsWhole, without, picked, merged};
ghost use Rattle.aol_scatter.specs.Ownership.{part_owns, part_lent, deed_owns};

use std::alloc::{AllocError, Allocator};
use std::marker::{Model, PhantomData, Send, Sync};
use std::mem::{align_of, size_of};

/// Where a block begins. It owns nothing.
pub struct Base<T> {
    ptr: *mut T,
}

impl<T> Clone for Base<T> {
    ghost is_clone = { λ x y. y ≡ x };

    ghost is_infallible = { λ _. ⊤ };

    fn clone(&self) -> Result<Base<T>, AllocError> {
        Ok(*self)
    }
}

impl<T> Copy for Base<T> {}

// It is an address alone. To use it takes a part, which is sent or shared only as its values may be.
unsafe impl<T> Send for Base<T> {}

unsafe impl<T> Sync for Base<T> {}

/// The owner of some cells of a block, in no bytes of its own: of those that are not `None` in `cells`. A part that is
/// `fresh` owns the others too, as room in which nothing lies yet.
pub struct Part<T> {
    mark: PhantomData<*const T>,
    ghost at: { Ptr },
    ghost fresh: { Bool },
    ghost cells: { List (Option T) },
}

impl<T> Model for Part<T> {
    ghost also_owns = { λ p. part_owns T.row p.at p.fresh p.cells };

    ghost also_shares = { λ p _ κ. part_lent T.row p.at p.cells κ };
}

// A part is its values, and a `&` to it is a `&` to each.
unsafe impl<T: Send> Send for Part<T> {}

unsafe impl<T: Sync> Sync for Part<T> {}

/// The right to give the block of `len` cells at `at` back to `alloc`.
pub struct Deed<T, A: Allocator> {
    mark: PhantomData<*const (T, A)>,
    ghost at: { Ptr },
    ghost len: { ℕ },
    ghost alloc: { A },
}

impl<T, A: Allocator> Model for Deed<T, A> {
    ghost also_owns = { λ d. deed_owns T.row (A.dealloc_token d.alloc) d.at d.len };

    ghost also_shares = { λ _ _ _. ftrue };
}

unsafe impl<T, A: Allocator + Send> Send for Deed<T, A> {}

// A `&` to it holds nothing.
unsafe impl<T, A: Allocator> Sync for Deed<T, A> {}

impl<T> Part<T> {
    /// Reads a cell that the part holds.
    ///
    /// Sound, since the part's `&` lends a `&` to each of its values, and no other part of the block holds this cell.
    pub(crate) fn get(&self, base: Base<T>, index: usize) -> &T
        requires { (base.ptr ≡ self.now.at) × IsHeld self.now.cells index }
        ensures { cell self.now.cells index ≡ Some result.now }
    {
        unsafe { &*base.ptr.add(index) }
    }

    /// Writes a cell that the part holds, or of which it has the room. A value that lies there is forgotten.
    ///
    /// Sound, since the part is borrowed alone and owns the bytes of this cell, which lie inside the block.
    pub(crate) fn put(&mut self, base: Base<T>, index: usize, item: T)
        requires { (base.ptr ≡ self.old.at) × (index < length self.old.cells) × ((self.old.fresh ≡ true) ⊎ IsHeld self.old.cells index) }
        ensures { (self.new.at ≡ self.old.at) × (self.new.fresh ≡ self.old.fresh) × (self.new.cells ≡ slice_set self.old.cells index (Some item)) }
    {
        unsafe { base.ptr.add(index).write(item) }
    }

    /// Hands the listed cells over to a part of their own.
    ///
    /// Sound, since each cell that the new part holds is `None` in this one from then on.
    pub(crate) fn split(&mut self, _numbers: &[u32]) -> Part<T>
        ensures { (self.new.at ≡ self.old.at) × (self.new.fresh ≡ false) × (self.new.cells ≡ without _numbers.now self.old.cells) × (result.at ≡ self.old.at) × (result.fresh ≡ false) × (result.cells ≡ picked _numbers.now self.old.cells) }
    {
        Part { mark: PhantomData }
    }

    /// Takes the cells of another part of the same block.
    ///
    /// Sound, since the other part is used up.
    pub(crate) fn join(&mut self, other: Part<T>)
        requires { (other.at ≡ self.old.at) × (length other.cells ≡ length self.old.cells) }
        ensures { (self.new.at ≡ self.old.at) × (self.new.fresh ≡ false) × (self.new.cells ≡ merged self.old.cells other.cells) }
    {
        let Part { mark: _ } = other;
    }
}

/// Takes a block of `len` cells from the allocator, all of them fresh; `None` where there is no memory.
///
/// Sound, since nobody else knows the block yet: its room goes to the part, and the right to free it to the deed.
pub(crate) fn allocate<T, A: Allocator>(
    alloc: &A,
    len: usize,
) -> Option<(Base<T>, Part<T>, Deed<T, A>)>
    requires { FitsInBlock T.row len }
    ensures { IfSome result (λ r. (r.1.at ≡ r.0.ptr) × (r.1.fresh ≡ true) × (r.1.cells ≡ replicate len None) × (r.2.at ≡ r.0.ptr) × (r.2.len ≡ len) × (r.2.alloc ≡ alloc.now)) }
{
    match alloc.allocate(len * size_of::<T>(), align_of::<T>()) {
        Ok(block) => {
            let base = Base {
                ptr: block as *mut T,
            };
            Some((base, Part { mark: PhantomData }, Deed { mark: PhantomData }))
        }
        Err(_) => None,
    }
}

/// Gives a block back. The values in its cells are forgotten.
///
/// Sound, since the part holds every cell of the block, so nobody can use it any more, and the deed is used up.
pub(crate) fn deallocate<T, A: Allocator>(
    alloc: &A,
    base: Base<T>,
    len: usize,
    part: Part<T>,
    deed: Deed<T, A>,
)
    requires { (part.at ≡ base.ptr) × (length part.cells ≡ len) × IsWhole part.cells × (deed.at ≡ base.ptr) × (deed.len ≡ len) × (deed.alloc ≡ alloc.now) }
{
    let Part { mark: _ } = part;
    let Deed { mark: _ } = deed;
    unsafe {
        alloc.deallocate(base.ptr as *mut u8, len * size_of::<T>(), align_of::<T>());
    }
}

use aol_shape::{Items, Name};

/// What a leaf does: it computes the elementary task with this number in the task list, or it copies elements.
#[derive(Clone, Copy, Debug, PartialEq, Eq)]
pub enum LeafKind {
    Elementary(u32),
    Copy,
}

/// A leaf of the hierarchy: an elementary node, or a reshape of a compound node.
///
/// `space` has the entries of all repetitions around it, the outermost first, and then a reshape's own space and
/// pattern. Its instances are the points of that space; they are `count`, and the first has the number `base`.
#[derive(Drop)]
pub struct Leaf {
    pub path: Name,
    pub space: Items<u32>,
    pub base: u32,
    pub count: u32,
    pub kind: LeafKind,
}

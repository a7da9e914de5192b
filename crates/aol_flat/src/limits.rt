//! The limits of the hierarchy.

/// The most levels of the tree of nodes; the root is the first.
pub const MAX_HIERARCHY: u32 = 32;

/// The most nodes.
pub const MAX_NODES: u32 = 4096;

/// The most elements of all instances, with two for each copy.
pub const MAX_WALK: u64 = 16_777_216;

/// The most evaluations of a node of an expression.
pub const MAX_WORK: u64 = 4_294_967_296;

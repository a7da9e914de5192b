//! The limits of a document that are no limits of a text.

/// The most ports of one task.
pub const MAX_PORTS: usize = 64;

/// The most choices of one default.
pub const MAX_CHOICES: usize = 25;

/// The most characters of a leaf's path.
pub const MAX_LEAF: usize = 4096;

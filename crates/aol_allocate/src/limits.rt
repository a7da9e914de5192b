//! The limit of workers.

/// The most workers.
pub const MAX_WORKERS: u32 = 64;

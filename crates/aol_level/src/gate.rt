use std::marker::Sync;

/// What a worker passes once in each level in which it has an instance, before its first one.
///
/// It answers nothing and returns. A test can count or hold up the workers by it; nothing that a run answers depends on it.
pub trait Gate: Sync {
    fn pass(&self, level: u32, worker: u32);
}

/// The gate that does nothing.
pub struct NoGate;

impl Gate for NoGate {
    fn pass(&self, _level: u32, _worker: u32) {}
}

//! What is reported of the calls as they pass.
use std::marker::Sync;

/// Hears of each call as it passes from the driver's thread to the caller's, for a display of progress or a test. Calls are counted from 1, the last
/// call and `AbortEdit` included. What a gate does changes nothing of the run; one that waits makes the run wait.
pub trait Gate: Sync {
    /// Call `n` is about to be sent. The driver's thread calls it.
    fn before_send(&self, n: u64);

    /// Call `n` was taken, and is not yet applied. The caller's thread calls it.
    fn after_take(&self, n: u64);
}

/// Does nothing.
#[derive(Clone, Copy, Debug)]
pub struct NoGate;

impl Gate for NoGate {
    fn before_send(&self, _n: u64) {}

    fn after_take(&self, _n: u64) {}
}

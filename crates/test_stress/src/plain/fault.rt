//! Why the model gives no result.

use std::alloc::{AllocError, AllocFailed};
use std::result;

/// Out of memory, or what the model can't follow, in words.
#[derive(Clone, Copy)]
pub(crate) struct Fault(pub(crate) &'static str);

/// A result of the model.
pub(crate) type Result<T> = result::Result<T, Fault>;

impl From<AllocError> for Fault {
    fn from(_error: AllocError) -> Fault {
        Fault("out of memory")
    }
}

impl<T: Drop> From<AllocFailed<T>> for Fault {
    fn from(_error: AllocFailed<T>) -> Fault {
        Fault("out of memory")
    }
}

//! The time of files.

use crate::fault::Fault;
use std::rt::Clock;
use std::time::{SystemTime, UNIX_EPOCH};

/// The time now, in microseconds since 1970.
pub(crate) fn now<T: Clock>(rt: &T) -> Result<u64, Fault> {
    match SystemTime::now(rt) {
        Ok(time) => Ok(match time.duration_since(UNIX_EPOCH) {
            Ok(since) => u64::try_from(since.as_micros()).unwrap_or(0),
            Err(_) => 0,
        }),
        Err(error) => Err(Fault::Clock(error)),
    }
}

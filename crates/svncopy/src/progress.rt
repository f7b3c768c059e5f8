//! How far the dump is read, printed on standard error.

use std::rt::Clock;
use std::time::Instant;
use svn_history::LoadListener;
use svn_types::Rev;

/// The seconds between two lines.
const PAUSE: u64 = 1;

/// What is counted: bytes of a dump whose history is read.
const READ: &str = "bytes";

/// What is counted before, if the dump is one of deltas: bytes that are expanded.
const EXPANDED: &str = "bytes expanded";

/// Prints once a second how many revisions and bytes are read or expanded, if that was asked for.
#[derive(Drop)]
pub(crate) struct Progress<'a, T> {
    rt: &'a T,
    // When the last line was printed, or the work began; None if no line is wanted, or the clock can't be read.
    last: Option<Instant>,
    // What is counted.
    unit: &'static str,
}

impl<'a, T: Clock + Eprint> Progress<'a, T> {
    /// The work begins.
    pub(crate) fn begin(rt: &'a T, asked: bool) -> Progress<'a, T> {
        Progress {
            rt,
            last: if asked { Instant::now(rt).ok() } else { None },
            unit: READ,
        }
    }

    /// From now on bytes are expanded, or no longer.
    pub(crate) fn expanding(&mut self, is_expanded: bool) {
        self.unit = if is_expanded { EXPANDED } else { READ };
    }

    // Whether it is time for a line.
    fn is_due(&mut self) -> bool {
        let (Some(before), Ok(now)) = (self.last, Instant::now(self.rt)) else {
            return false;
        };
        if now.duration_since(before).as_secs() < PAUSE {
            return false;
        }
        self.last = Some(now);
        true
    }
}

impl<T: Clock + Eprint> LoadListener for Progress<'_, T> {
    // Where standard error can't be written, nothing is printed.
    fn loaded(&mut self, rev: Rev, bytes: u64) {
        if self.is_due() {
            let Rev(number) = rev;
            let unit = self.unit;
            let _ = eprintln!(self.rt; "svncopy: r{number}, {bytes} {unit}");
        }
    }
}

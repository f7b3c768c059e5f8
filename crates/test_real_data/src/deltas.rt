//! Text deltas: those that Subversion 1.14.2 wrote or takes, with their texts; those that it refuses, with the fault that they are refused by here; and a text
//! of several windows.

mod faults;
mod long;
mod texts;

use crate::say::say;
use anyhow::Result;
use std::alloc::Global;

// What is counted: the cases that differ.
#[derive(Clone, Copy)]
enum Count {
    Written,
    Taken,
    Encoded,
    Refused,
    RefusedHere,
    Long,
}

const COUNTS: [(Count, &str); 6] = [
    (Count::Written, "a delta that Subversion wrote has its text"),
    (Count::Taken, "a delta that Subversion takes has its text"),
    (Count::Encoded, "a whole text is written as Subversion does"),
    (
        Count::Refused,
        "what Subversion refuses is refused by its first fault",
    ),
    (
        Count::RefusedHere,
        "what it doesn't is refused where it has to be",
    ),
    (Count::Long, "a text of three windows is read and written"),
];

fn wrong_in(alloc: Global, what: Count) -> Result<usize> {
    match what {
        Count::Written => texts::decoded_wrongly(alloc, texts::written()),
        Count::Taken => texts::decoded_wrongly(alloc, texts::taken()),
        Count::Encoded => texts::encoded_wrongly(alloc),
        Count::Refused => faults::refused_wrongly(alloc, faults::refused()),
        Count::RefusedHere => faults::refused_wrongly(alloc, faults::refused_here()),
        Count::Long => Ok(usize::from(!long::is_same(alloc)?)),
    }
}

/// Compares all of it.
pub(crate) fn run<R: AllocGlobal + Print>(rt: &R) -> Result<()> {
    for (what, words) in &COUNTS {
        say(rt, words, wrong_in(rt.alloc(), *what)?)?;
    }
    Ok(())
}

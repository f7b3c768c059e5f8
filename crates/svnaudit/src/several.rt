//! Several places, of which a note names the first.

use crate::fault::Fault;
use std::alloc::Global;
use std::fmt;
use svn_answers::Source;

/// How many are named.
const NAMED: usize = 5;

/// Places in a working copy.
#[derive(Drop)]
pub(crate) struct Several {
    alloc: Global,
    places: Vec<String>,
}

impl Several {
    /// None yet.
    pub(crate) fn new(alloc: Global) -> Several {
        Several {
            alloc,
            places: Vec::new(alloc),
        }
    }

    /// One more.
    pub(crate) fn add(&mut self, place: &str) -> Result<(), Fault> {
        self.places.push(place.to_string(self.alloc)?)?;
        Ok(())
    }

    /// Brings them into byte order.
    pub(crate) fn sort(&mut self) {
        self.places.sort_unstable();
    }

    /// Whether there is none.
    pub(crate) fn is_empty(&self) -> bool {
        self.places.is_empty()
    }
}

/// The first five, and how many more there are: `a, b, c, d, e and 12 more`.
impl fmt::Display for Several {
    fn fmt<W: fmt::Write>(&self, f: &mut fmt::Formatter<W>) -> fmt::Result {
        let named = &self.places[..self.places.len().min(NAMED)];
        let Some((first, rest)) = named.split_first() else {
            return Ok(());
        };
        let first = Source(first);
        write!(f, "{first}")?;
        for place in rest {
            let place = Source(place);
            write!(f, ", {place}")?;
        }
        match self.places.len().saturating_sub(NAMED) {
            0 => Ok(()),
            more => write!(f, " and {more} more"),
        }
    }
}

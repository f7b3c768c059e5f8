//! Where the records of an expansion come from.

use std::alloc::{AllocError, Global};

// A record: so many bytes of the expansion are before it, and so many of the dump before the one that it was made of.
#[derive(Clone, Copy)]
struct Origin {
    expanded: u64,
    given: u64,
}

/// Where each record of an expansion comes from.
#[derive(Drop)]
pub struct Origins {
    list: Vec<Origin>,
}

impl Origins {
    pub(crate) fn new(alloc: Global) -> Origins {
        Origins {
            list: Vec::new(alloc),
        }
    }

    // One more record.
    pub(crate) fn push(&mut self, expanded: u64, given: u64) -> Result<(), AllocError> {
        Ok(self.list.push(Origin { expanded, given })?)
    }

    /// How many bytes of the dump are before the record that the one was made of which is at this byte of the expansion; 0 where none is.
    pub fn origin_of(&self, byte: u64) -> u64 {
        let mut given = 0;
        for origin in &self.list {
            if origin.expanded <= byte {
                given = origin.given;
            }
        }
        given
    }
}

//! Why there is no link, or no notice.
ghost use Rattle.std.specs.Prelude.{◌≡◌};
ghost use Rattle.svn_link.specs.LinkFault.{link_fault_number, link_fault_name};

use std::alloc::AllocError;
use thiserror::Error;

/// Why there is no link, or no notice.
#[derive(Clone, Copy, Debug, PartialEq, Eq, Error)]
pub enum LinkFault {
    /// The capacity is not from 1 to 4,096 calls.
    #[error("the capacity isn't 1 to 4096")]
    Capacity,
    /// An allocation failed while the two ends were made; no later call takes memory.
    #[error("out of memory")]
    Memory,
}

impl LinkFault {
    /// The fault's number: 1 for Capacity, 2 for Memory.
    pub fn number(self) -> u32
        ensures { result ≡ link_fault_number self }
    {
        match self {
            LinkFault::Capacity => 1,
            LinkFault::Memory => 2,
        }
    }

    /// The fault's name: that of its variant.
    pub fn name(self) -> &'static str
        ensures { result.now ≡ link_fault_name self }
    {
        match self {
            LinkFault::Capacity => "Capacity",
            LinkFault::Memory => "Memory",
        }
    }
}

impl From<AllocError> for LinkFault {
    ghost use Rattle.std.specs.Prelude.{◌≡◌};
    ghost use Rattle.svn_link.specs.declared.fault.LinkFault.TheVariants.{Memory};

    ghost from_gives = { λ _ e. e ≡ Memory };

    fn from(_: AllocError) -> LinkFault {
        LinkFault::Memory
    }
}

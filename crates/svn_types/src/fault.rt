//! Why a text is no name or no path.
ghost use Rattle.std.specs.Prelude.{◌≡◌};
ghost use Rattle.svn_types.specs.declared.fault.PathFault.TheVariants.{Memory};
ghost use Rattle.svn_types.specs.declared.fault.PathBytesFault.TheVariants.{Path};
ghost use Rattle.svn_types.specs.NameFaults.{path_fault_number, path_fault_name};

use std::alloc::AllocError;
use thiserror::Error;

/// Why a text is no name, no path or no name of a property.
#[derive(Clone, Copy, Debug, PartialEq, Eq, Error)]
pub enum PathFault {
    /// A name without a byte, as between two slashes, at the end after a slash, or for a property.
    #[error("a name is empty")]
    EmptyComponent,
    /// The name `.` or `..` of a node.
    #[error("a name is `.` or `..`")]
    Dots,
    /// A character that no name may have: for a node `/` and the control characters (bytes below 32, and 127); for a property all but ASCII
    /// letters, digits, `:`, `_`, `-` and `.`, and as the first one all but letters, `:` and `_`.
    #[error("a name has a character that no name may have")]
    BadCharacter,
    /// A name of over 255 bytes.
    #[error("a name has over 255 bytes")]
    NameTooLong,
    /// A path of over 128 names.
    #[error("a path has over 128 names")]
    TooManyComponents,
    /// An allocation failed.
    #[error("out of memory")]
    Memory,
}

impl PathFault {
    /// The fault's number, from 1, EmptyComponent, to 6, Memory, in the order of the variants.
    pub fn number(self) -> u32
        ensures { result ≡ path_fault_number self }
    {
        match self {
            PathFault::EmptyComponent => 1,
            PathFault::Dots => 2,
            PathFault::BadCharacter => 3,
            PathFault::NameTooLong => 4,
            PathFault::TooManyComponents => 5,
            PathFault::Memory => 6,
        }
    }

    /// The fault's name: that of its variant.
    pub fn name(self) -> &'static str
        ensures { result.now ≡ path_fault_name self }
    {
        match self {
            PathFault::EmptyComponent => "EmptyComponent",
            PathFault::Dots => "Dots",
            PathFault::BadCharacter => "BadCharacter",
            PathFault::NameTooLong => "NameTooLong",
            PathFault::TooManyComponents => "TooManyComponents",
            PathFault::Memory => "Memory",
        }
    }
}

impl From<AllocError> for PathFault {
    ghost from_gives = { λ _ e. e ≡ Memory };

    fn from(_error: AllocError) -> PathFault {
        PathFault::Memory
    }
}

/// Why bytes are no path.
#[derive(Clone, Copy, Debug, PartialEq, Eq, Error)]
pub enum PathBytesFault {
    /// They aren't UTF-8.
    #[error("not UTF-8")]
    NotUtf8,
    /// The text that they are is no path, or an allocation failed.
    #[error("{0}")]
    Path(PathFault),
}

impl From<PathFault> for PathBytesFault {
    ghost from_gives = { λ fault e. e ≡ Path fault };

    fn from(fault: PathFault) -> PathBytesFault {
        PathBytesFault::Path(fault)
    }
}

impl From<AllocError> for PathBytesFault {
    ghost from_gives = { λ _ e. e ≡ Path Memory };

    fn from(_error: AllocError) -> PathBytesFault {
        PathBytesFault::Path(PathFault::Memory)
    }
}

//! Why a database isn't written.
ghost use Rattle.std.specs.Prelude.{◌≡◌};
ghost use Rattle.svn_image.specs.declared.fault.ImageFault.TheVariants.{Memory};

use std::alloc::{AllocError, AllocFailed};
use thiserror::Error;

/// Why a record or a database isn't written. A number is the place of an item in [`Database::items`](crate::Database::items), counted from 0.
#[derive(Clone, Copy, Debug, PartialEq, Eq, Error)]
pub enum ImageFault {
    /// There are no values or too many, one is a NaN, or the record has over a billion bytes.
    #[error("values that no record can hold")]
    Unstorable,
    /// The rowids of a table, or the records of an index, don't ascend.
    #[error("the rows of item {0} don't ascend")]
    Unordered(usize),
    /// A row of a table or an index isn't a record.
    #[error("a row of item {0} isn't a record")]
    NotARecord(usize),
    /// The file would have more pages than SQLite allows, 4,294,967,294.
    #[error("more pages than a database may have")]
    TooLarge,
    /// A page has no room for what is to be in it. As the next three, this is a fault of this crate, and no input that causes it is known.
    #[error("a page has no room")]
    NoRoom,
    /// The header that was written isn't read back.
    #[error("the header isn't read back")]
    HeaderDiffers,
    /// The schema that was written isn't read back.
    #[error("the schema isn't read back")]
    SchemaDiffers,
    /// The rows of a table aren't read back.
    #[error("the rows of item {0} aren't read back")]
    TableDiffers(usize),
    /// An allocation failed.
    #[error("out of memory")]
    Memory,
}

impl From<AllocError> for ImageFault {
    ghost from_gives = { λ _ e. e ≡ Memory };

    fn from(_error: AllocError) -> ImageFault {
        ImageFault::Memory
    }
}

impl<T: Drop> From<AllocFailed<T>> for ImageFault {
    ghost from_gives = { λ _ e. e ≡ Memory };

    fn from(_error: AllocFailed<T>) -> ImageFault {
        ImageFault::Memory
    }
}

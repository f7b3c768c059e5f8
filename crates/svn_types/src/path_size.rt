//! How large the blocks are in which paths lie with their keys.
ghost use Rattle.svn_types.specs.Forms.{HasRoom};

/// The most bytes of a key in the block of one name, of two and of three: names of up to 14 bytes always fit. With the count of its owners a block
/// has 40, 72 or 104 bytes.
pub(crate) const ONE_KEY: usize = 15;

pub(crate) const TWO_KEY: usize = 31;

pub(crate) const THREE_KEY: usize = 47;

/// The most names, and the most bytes of a key, in the larger blocks, which have 136, 184, 232 or 344 bytes.
pub(crate) const FEW_NAMES: usize = 4;

pub(crate) const FEW_KEY: usize = 62;

pub(crate) const SEVERAL_NAMES: usize = 6;

pub(crate) const SEVERAL_KEY: usize = 78;

pub(crate) const MORE_NAMES: usize = 8;

pub(crate) const MORE_KEY: usize = 94;

pub(crate) const MANY_NAMES: usize = 12;

pub(crate) const MANY_KEY: usize = 142;

/// One of the larger blocks, or what is too long for one.
#[derive(Clone, Copy)]
pub(crate) enum Size {
    Few,
    Several,
    More,
    Many,
    Long,
}

impl Size {
    /// The smallest that has room for that many names and a key of that many bytes.
    pub(crate) fn of(count: usize, len: usize) -> Size
        ensures { HasRoom result count len }
    {
        if count <= FEW_NAMES && len <= FEW_KEY {
            Size::Few
        } else if count <= SEVERAL_NAMES && len <= SEVERAL_KEY {
            Size::Several
        } else if count <= MORE_NAMES && len <= MORE_KEY {
            Size::More
        } else if count <= MANY_NAMES && len <= MANY_KEY {
            Size::Many
        } else {
            Size::Long
        }
    }
}

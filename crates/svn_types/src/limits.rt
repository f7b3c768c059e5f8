//! How much there may be of what: the limits that all layers share.

/// The most bytes in the name of a node or a property; beyond it is `PathFault::NameTooLong`.
pub const MAX_NAME_LEN: usize = 255;

/// The most names in a path, which may be that of a working copy: twice those of a repository's path, since a directory that was switched to
/// may be 64 names deep and hold a tree 64 names high. Beyond it is `PathFault::TooManyComponents`.
pub const MAX_COMPONENTS: usize = 128;

/// The most names in a path of a repository; beyond it each layer has a fault `TooDeep`.
pub const MAX_DEPTH: usize = 64;

/// The most bytes in a text or in the value of a property that a commit, an edit or a pool takes; beyond it is their fault `TooLong`.
pub const MAX_SIZE: usize = 1_048_576;

/// The most calls that the queue between driver and working copy may hold; the least is 1.
pub const MAX_CAPACITY: usize = 4096;

/// The most bytes in a script; a longer one is refused whole.
pub const MAX_SCRIPT: usize = 16_777_216;

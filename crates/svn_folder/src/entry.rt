//! What a name in a folder stands for.
ghost use Rattle.std.specs.Prelude.{◌≡◌};
ghost use Rattle.svn_folder.specs.Entries.{is_file, is_leaf};

use std::alloc::AllocError;
use std::fmt;
use svn_types::Text;

/// How a file may be used. What a system takes from new files (its umask) is taken from these too.
#[derive(Clone, Copy, Debug, PartialEq, Eq)]
pub struct Mode {
    /// It may be run as a program.
    pub executable: bool,
    /// Nobody may write to it.
    pub read_only: bool,
}

impl Mode {
    /// A file that everybody may read and write, and nobody may run.
    pub const PLAIN: Mode = Mode {
        executable: false,
        read_only: false,
    };
}

/// What a name in a folder stands for.
#[derive(Debug, PartialEq, Eq, Drop)]
pub enum Entry {
    /// A file with all its bytes.
    File(Text, Mode),
    /// A directory. What is in it has paths of its own.
    Directory,
    /// A symbolic link to this target, which nothing follows.
    Link(Text),
}

impl Entry {
    /// Whether it is a file.
    pub fn is_file(&self) -> bool
        ensures { result ≡ is_file self.now }
    {
        matches!(self, Entry::File(..))
    }

    /// Whether it is no directory.
    pub fn is_leaf(&self) -> bool
        ensures { result ≡ is_leaf self.now }
    {
        !matches!(self, Entry::Directory)
    }
}

impl Clone for Entry {
    ghost is_clone = { λ entry copy. copy ≡ entry };

    fn clone(&self) -> Result<Entry, AllocError> {
        Ok(match self {
            Entry::File(bytes, mode) => Entry::File(bytes.clone()?, *mode),
            Entry::Directory => Entry::Directory,
            Entry::Link(target) => Entry::Link(target.clone()?),
        })
    }
}

/// Its kind alone.
impl fmt::Display for Entry {
    fn fmt<W: fmt::Write>(&self, f: &mut fmt::Formatter<W>) -> fmt::Result {
        f.write_str(match self {
            Entry::File(..) => "file",
            Entry::Directory => "directory",
            Entry::Link(_) => "link",
        })
    }
}

//! What a node is.
ghost use Rattle.std.specs.Prelude.{Some};
ghost use Rattle.svn_types.specs.Kinds.{kind_word};

use std::fmt;

/// A file or a directory (`svn_node_kind_t` of `svn_types.h`, of the nodes that are there: neither `svn_node_none` nor a symbolic link).
#[derive(Clone, Copy, Debug, PartialEq, Eq)]
pub enum Kind {
    /// It has a text, and no entries.
    File,
    /// It has entries, and no text.
    Directory,
}

/// `file` or `dir`, as `svn_node_kind_to_word` has it.
impl fmt::Display for Kind {
    ghost output = { λ k. Some (kind_word k) };

    fn fmt<W: fmt::Write>(&self, f: &mut fmt::Formatter<W>) -> fmt::Result {
        match self {
            Kind::File => f.write_str("file"),
            Kind::Directory => f.write_str("dir"),
        }
    }
}

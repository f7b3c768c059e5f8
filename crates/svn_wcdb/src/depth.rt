//! Depths of directories, and rows of NODES as those of whole copies.
ghost use Rattle.std.specs.Prelude.{◌≡◌};
ghost use Rattle.std.specs.Option.{option_copied};
ghost use Rattle.svn_wcdb.specs.Nodes.{seen};
ghost use Rattle.svn_wcdb.specs.Sparse.{as_whole, depth_in, depth_of, is_directory, is_excluded, is_presence, is_withheld, whole_depth, whole_presence};

use crate::row::Row;

/// How much of a directory a working copy has, where it isn't all (`svn_depth_t`).
#[derive(Clone, Copy, Debug, PartialEq, Eq)]
pub enum Depth {
    /// The directory itself, and each entry that was asked for.
    Empty,
    /// Its files too.
    Files,
    /// Its directories too, at first without what is in them.
    Immediates,
}

/// Which working copies are taken.
#[derive(Clone, Copy, Debug, PartialEq, Eq)]
pub enum Takes {
    /// Those alone whose directories have depth infinity, and of which nothing was excluded.
    Whole,
    /// Sparse ones too.
    Sparse,
}

// The depth of a directory that isn't whole.
fn depth_in(depth: Option<&[u8]>) -> Option<Depth>
    ensures { result ≡ depth_in (option_copied depth.entry) }
{
    let depth = depth?;
    if depth == b"empty".as_slice() {
        Some(Depth::Empty)
    } else if depth == b"files".as_slice() {
        Some(Depth::Files)
    } else if depth == b"immediates".as_slice() {
        Some(Depth::Immediates)
    } else {
        None
    }
}

fn is_presence(name: &[u8], presence: Option<&[u8]>) -> bool
    ensures { result ≡ is_presence name.now (option_copied presence.entry) }
{
    match presence {
        Some(presence) => presence == name,
        None => false,
    }
}

/// Whether the user excluded a node of that presence.
pub(crate) fn is_excluded(presence: Option<&[u8]>) -> bool
    ensures { result ≡ is_excluded (option_copied presence.entry) }
{
    is_presence(b"excluded", presence)
}

/// Whether the server did, which doesn't show it.
pub(crate) fn is_withheld(presence: Option<&[u8]>) -> bool
    ensures { result ≡ is_withheld (option_copied presence.entry) }
{
    is_presence(b"server-excluded", presence)
}

fn whole_presence<'a>(presence: Option<&'a [u8]>) -> Option<&'a [u8]>
    ensures { option_copied result ≡ whole_presence (option_copied presence.entry) }
{
    if is_excluded(presence) || is_withheld(presence) {
        Some(b"not-present")
    } else {
        presence
    }
}

fn whole_depth<'a>(depth: Option<&'a [u8]>) -> Option<&'a [u8]>
    ensures { option_copied result ≡ whole_depth (option_copied depth.entry) }
{
    match depth_in(depth) {
        Some(_) => None,
        None => depth,
    }
}

/// A row as one of a whole copy: what was excluded is not present, and a directory has no depth.
pub(crate) fn as_whole<'a>(row: &Row<'a>) -> Row<'a>
    ensures { seen result ≡ as_whole (seen row.now) }
{
    Row {
        presence: whole_presence(row.presence),
        depth: whole_depth(row.depth),
        ..*row
    }
}

fn is_directory(row: &Row) -> bool
    ensures { result ≡ is_directory (seen row.now) }
{
    let is_there = is_presence(b"normal", row.presence) || is_presence(b"incomplete", row.presence);
    is_there && is_presence(b"dir", row.kind)
}

/// The depth of a directory that isn't whole.
pub(crate) fn depth_of(row: &Row) -> Option<Depth>
    ensures { result ≡ depth_of (seen row.now) }
{
    if is_directory(row) {
        depth_in(row.depth)
    } else {
        None
    }
}

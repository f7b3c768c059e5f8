//! Base nodes, each from its row.
ghost use Rattle.std.specs.Prelude.{◌≡◌, Some};
ghost use Rattle.std.specs.Option.{option_copied};
ghost use Rattle.svn_wcdb.specs.Reading.{Gives, Answers};
ghost use Rattle.svn_wcdb.specs.Nodes.{seen, is_whole, present, absent, presence_of, revision_of, repos_path_of, dir_of, file_of, base_of};
ghost use Rattle.svn_wcdb.specs.Pristines.{text_among};

use crate::fault::{Reason, WcdbFault};
use crate::paths::read_path;
use crate::pristines::Pristines;
use crate::properties::read_props;
use crate::row::Row;
use std::alloc::Global;
use svn_digits::is_stand_in;
use svn_model::BaseNode;
use svn_types::{RelPath, Rev, Text};

/// What a row says there is at its path.
#[derive(Clone, Copy, Debug, PartialEq, Eq)]
pub(crate) enum Presence {
    /// A directory, and whether it is complete.
    Dir(bool),
    /// A file.
    File,
    /// The directory above has such an entry, and the working copy has nothing there.
    NotPresent,
}

// Whether all of a directory is wanted; one of an upgraded database may have no depth.
fn is_whole(depth: Option<&[u8]>) -> bool
    ensures { result ≡ is_whole (option_copied depth.entry) }
{
    match depth {
        Some(depth) => depth == b"infinity".as_slice(),
        None => true,
    }
}

// A node that is there, of that kind and depth.
fn present(kind: Option<&[u8]>, depth: Option<&[u8]>, complete: bool) -> Result<Presence, Reason>
    ensures { Answers (λ presence. presence) result (present (option_copied kind.entry) (option_copied depth.entry) complete) }
{
    match kind {
        Some(b"dir") => {
            if is_whole(depth) {
                Ok(Presence::Dir(complete))
            } else {
                Err(Reason::Depth)
            }
        }
        Some(b"file") => {
            if complete {
                Ok(Presence::File)
            } else {
                Err(Reason::IncompleteFile)
            }
        }
        _ => Err(Reason::BadKind),
    }
}

// What there is of a node that isn't there, or why the library doesn't take it.
fn absent(presence: &[u8]) -> Result<Presence, Reason>
    ensures { Answers (λ presence. presence) result (absent presence.now) }
{
    if presence == b"not-present".as_slice() {
        Ok(Presence::NotPresent)
    } else if presence == b"excluded".as_slice() {
        Err(Reason::Excluded)
    } else if presence == b"server-excluded".as_slice() {
        Err(Reason::ServerExcluded)
    } else {
        Err(Reason::BadPresence)
    }
}

// What there is at a row's path, or why the library doesn't take it.
fn presence_of(row: &Row) -> Result<Presence, Reason>
    ensures { Answers (λ presence. presence) result (presence_of (seen row.now)) }
{
    let Some(presence) = row.presence else {
        return Err(Reason::BadPresence);
    };
    if presence == b"normal".as_slice() {
        present(row.kind, row.depth, true)
    } else if presence == b"incomplete".as_slice() {
        present(row.kind, row.depth, false)
    } else {
        absent(presence)
    }
}

fn revision_of(revision: Option<u64>) -> Result<Rev, WcdbFault>
    ensures { Gives (λ rev. rev) result (revision_of revision) }
{
    match revision {
        Some(number) => Ok(Rev(number)),
        None => Err(WcdbFault::Refused(Reason::NoRevision)),
    }
}

fn repos_path_of(alloc: Global, path: Option<&[u8]>) -> Result<RelPath, WcdbFault>
    ensures { Gives (λ path. path) result (repos_path_of (option_copied path.entry)) }
{
    match path {
        Some(path) => read_path(alloc, path),
        None => Err(WcdbFault::Refused(Reason::NoReposPath)),
    }
}

// Whether a file may have that checksum: it is that of a pristine text.
fn check_checksum(pristines: &Pristines, checksum: &[u8]) -> Result<(), Reason>
    ensures { Answers (λ _. checksum.now) result (text_among pristines.now (Some checksum.now)) }
{
    if !is_stand_in(checksum) {
        return Err(Reason::NoChecksum);
    }
    match pristines.size(checksum) {
        Some(_) => Ok(()),
        None => Err(Reason::NoPristine),
    }
}

// The stand-in of a file's text: its checksum as the column has it.
fn text_of(alloc: Global, pristines: &Pristines, checksum: Option<&[u8]>) -> Result<Text, WcdbFault>
    ensures { Gives (λ text. text) result (text_among pristines.now (option_copied checksum.entry)) }
{
    let Some(checksum) = checksum else {
        return Err(WcdbFault::Refused(Reason::NoChecksum));
    };
    check_checksum(pristines, checksum)?;
    Ok(Text::from_slice(alloc, checksum)?)
}

fn dir_of(alloc: Global, row: &Row, complete: bool) -> Result<BaseNode, WcdbFault>
    ensures { Gives (λ node. node) result (dir_of (seen row.now) complete) }
{
    let rev = revision_of(row.revision)?;
    let repos_path = repos_path_of(alloc, row.repos_path)?;
    let props = read_props(alloc, row.properties)?;
    Ok(BaseNode::Dir {
        rev,
        repos_path,
        complete,
        props,
    })
}

fn file_of(alloc: Global, pristines: &Pristines, row: &Row) -> Result<BaseNode, WcdbFault>
    ensures { Gives (λ node. node) result (file_of pristines.now (seen row.now)) }
{
    let rev = revision_of(row.revision)?;
    let repos_path = repos_path_of(alloc, row.repos_path)?;
    let text = text_of(alloc, pristines, row.checksum)?;
    let props = read_props(alloc, row.properties)?;
    Ok(BaseNode::File {
        rev,
        repos_path,
        text,
        props,
    })
}

/// The base node of a row of the base tree. A file's text is its stand-in, which is one of the pristine texts.
pub(crate) fn base_node(
    alloc: Global,
    pristines: &Pristines,
    row: &Row,
) -> Result<BaseNode, WcdbFault>
    ensures { Gives (λ node. node) result (base_of pristines.now (seen row.now)) }
{
    match presence_of(row) {
        Ok(Presence::Dir(complete)) => dir_of(alloc, row, complete),
        Ok(Presence::File) => file_of(alloc, pristines, row),
        Ok(Presence::NotPresent) => Ok(BaseNode::NotPresent),
        Err(reason) => Err(WcdbFault::Refused(reason)),
    }
}

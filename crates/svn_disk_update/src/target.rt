//! What a working copy on disk is brought to, and what comes of it.

use svn_audit::UpdateLine;
use svn_disk::{Existing, PathChange};
use svn_repo::Repo;
use svn_run::Options;
use svn_types::{RelPath, Rev};
use svn_wc::WorkingCopy;

/// What a copy, or a path of it, is brought to.
#[derive(Clone, Copy, Debug)]
pub struct Target<'a> {
    /// The path in the copy: the root's for all of it.
    pub path: &'a RelPath,
    /// The path in the repository that it is switched to. None: an update, which keeps the path that it has.
    pub to: Option<&'a RelPath>,
    /// The revision.
    pub rev: Rev,
    /// How the run is made.
    pub options: Options,
}

/// What is asked for of a copy on disk.
#[derive(Clone, Copy)]
pub struct Aim<'a> {
    /// The copy, as it was read from the folder.
    pub existing: &'a Existing,
    /// The repository. A file's text is its stand-in.
    pub repo: &'a Repo,
    /// The repository's UUID.
    pub uuid: &'a [u8],
    /// The path in the copy that is updated: the root's for all of it.
    pub path: &'a RelPath,
    /// The path in the repository that it is switched to. None: an update, which keeps the path that it has.
    pub to: Option<&'a RelPath>,
    /// The revision. None: the repository's last.
    pub rev: Option<Rev>,
    /// How the run is made. One that is stopped leaves a copy that is incomplete, which another update completes.
    pub options: Options,
    /// The time of files that are written anew, in microseconds since 1970.
    pub time: u64,
    /// Whether everything is brought to the disk before it counts.
    pub sync: bool,
}

/// The copy that a run leads to.
#[derive(Drop)]
pub struct Reached {
    /// The copy.
    pub copy: WorkingCopy,
    /// The lines that Subversion prints of the update, their paths from the target's on.
    pub lines: Vec<UpdateLine>,
    /// How many calls took effect, if the run was stopped at its limit. None: it came to its end.
    pub stopped: Option<u64>,
}

/// What an update of a copy on disk did.
#[derive(Drop)]
pub struct Updated {
    /// The revision that it leads to.
    pub rev: Rev,
    /// What wasn't on disk, though nothing says that it was taken away: it is made again, if it stays. In path order, from the target's path on.
    pub restored: Vec<RelPath>,
    /// The lines that Subversion prints of it, their paths from the target's on.
    pub lines: Vec<UpdateLine>,
    /// How many calls took effect, if it was stopped at its limit: then the copy is incomplete. None: it came to its end.
    pub stopped: Option<u64>,
    /// The paths of the copy that changed, in path order.
    pub changes: Vec<PathChange>,
}

//! What commits mean, in the field's words. These functions do nothing: each promises a law of the definitions.
ghost use Rattle.svn_repo.specs.Laws.{RevisionsStay, CopiesKeepNodes, ChangesKeepLines, UntouchedPathsKeepNodes};

/// Commits leave old revisions alone: at each path is the node that was there, and the node is what it was.
pub fn revisions_stay()
    ensures { RevisionsStay }
{}

/// A copy is its source: in the revision that a commit makes, the path of a copy, and each path below it, has the node number that the
/// source has there, and so its line, unless a later change of the commit touches that path.
pub fn copies_keep_nodes()
    ensures { CopiesKeepNodes }
{}

/// Changing a node keeps its line: through commits that don't remove it, or a node above it, a node stays at its path, and what
/// is there then is related to what was there.
pub fn changes_keep_lines()
    ensures { ChangesKeepLines }
{}

/// Between two revisions between which nothing at or below a path was made, changed, removed or replaced, one node revision is there.
pub fn untouched_paths_keep_nodes()
    ensures { UntouchedPathsKeepNodes }
{}

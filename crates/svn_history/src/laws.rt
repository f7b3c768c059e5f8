//! What loading and writing mean for one another. These functions do nothing: each promises a law of the definitions.
ghost use Rattle.svn_history.specs.Laws.{WrittenCommitsLoad};
ghost use Rattle.svn_history.specs.SameHistories.{DumpsLoadAsOne};
ghost use Rattle.svn_history.specs.WrittenDumps.{WrittenDumpsLoad};

use law_dump::dumps_are_read_back;

/// What a [`HistoryWriter`](crate::HistoryWriter) writes of a commit is loaded as the same commit: the records lead to the tree and the lines that
/// the changes lead to.
pub fn written_commits_load()
    ensures { WrittenCommitsLoad }
{}

/// A dump loads as one history: whatever two loadings of its bytes on one repository lead to is the same at each path of each revision, node by node and
/// line by line, but for the numbers that the nodes have.
pub fn dumps_load_as_one()
    ensures { DumpsLoadAsOne }
{}

/// What the writer writes loads as the same history, node by node and line by line. Where a [`HistoryWriter`](crate::HistoryWriter) made commits one
/// after another, and their bytes are put after a dump's beginning, as [`push_beginning`](crate::push_beginning) writes it or without revision 0, a
/// reader with limits that the records are within reads a dump, and its revisions lead from the repository that the commits began on to the history
/// that they led to. Whatever a loader makes of it is the same.
pub fn written_dumps_load()
    ensures { WrittenDumpsLoad }
{
    dumps_are_read_back();
}

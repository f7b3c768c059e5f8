//! Whether a client is at work on a working copy.
ghost use Rattle.std.specs.Prelude.{◌≡◌};
ghost use Rattle.std.specs.Result.{result_err};
ghost use Rattle.svn_answers.specs.Journals.{journal_fault};

use thiserror::Error;

/// Why the database of a working copy isn't read, or what was read of it doesn't count.
#[derive(Clone, Copy, Debug, PartialEq, Eq, Error)]
pub enum BusyFault {
    /// A client changed it meanwhile.
    #[error("the working copy is in use")]
    InUse,
    /// A transaction was begun, and hasn't ended.
    #[error("the database has a journal: a client is at work, or was cut off, and `svn cleanup` comes first")]
    Journal,
}

/// Refuses a database whose journal has so many bytes; 0 where there is none, or an empty one.
pub fn refuse_journal(journal: u64) -> Result<(), BusyFault>
    ensures { result_err result ≡ journal_fault journal }
{
    if journal == 0 {
        Ok(())
    } else {
        Err(BusyFault::Journal)
    }
}

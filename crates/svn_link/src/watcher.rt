//! The end of a notice that sees.
ghost use Rattle.std.specs.Prelude.{◌≡◌};
ghost use Rattle.svn_link.specs.Notice.{IsNoneOrSame};

use crate::word::{Cell, Pass, Sees, number_in};
use std::fmt;
use std::marker::Model;
use std::sync::{Arc, Wait};

/// The end of a notice that sees the number. Contracts see its notice and the number that it saw last, if it saw one.
///
/// It may go to another thread. Where it is dropped, the [`Teller`](crate::Teller) reports as before.
#[derive(Drop)]
pub struct Watcher {
    pub(crate) cell: Arc<Cell>,
    pub(crate) pass: Pass,
}

impl Model for Watcher {
    ghost use Rattle.svn_link.specs.Ends.{NoticeEnd};

    ghost Value = { NoticeEnd };

    ghost use Rattle.svn_link.specs.Watcher.{watcher_end, IsWatcher};

    ghost view = { watcher_end };

    ghost invariant = { IsWatcher };
}

impl Watcher {
    /// The number that was reported, or `None` if it sees none yet. Once seen, it is seen again.
    ///
    /// It may wait for the other thread, and takes no memory. How soon a number is seen after it was reported isn't promised.
    pub fn seen<R: Wait>(&mut self, rt: &R) -> Option<u64>
        ensures seen { result ≡ self.new.number }
        ensures again { IsNoneOrSame self.old.number result }
        ensures notice { self.new.notice ≡ self.old.notice }
    {
        let word = self.cell.load_as::<Sees, R>(rt, &mut self.pass);
        number_in(word[0])
    }
}

/// It shows no number, since a look may wait.
impl fmt::Debug for Watcher {
    fn fmt<W: fmt::Write>(&self, f: &mut fmt::Formatter<W>) -> fmt::Result {
        f.debug_struct("Watcher").finish_non_exhaustive()
    }
}

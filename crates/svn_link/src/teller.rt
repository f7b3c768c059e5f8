//! The end of a notice that reports.
ghost use Rattle.std.specs.Prelude.{◌≡◌, ◌<◌, ◌↔◌, None, Some, IsTrue, IsSome};

use crate::word::{Cell, Pass, Tells};
use std::fmt;
use std::marker::Model;
use std::sync::{Arc, Wait};

/// The end of a notice that reports a number. Contracts see its notice and the number that it reported, if it did.
///
/// It may go to another thread. Where it is dropped, a [`Watcher`](crate::Watcher) goes on seeing what was reported.
#[derive(Drop)]
pub struct Teller {
    pub(crate) cell: Arc<Cell>,
    pub(crate) pass: Pass,
    pub(crate) told: bool,
}

impl Model for Teller {
    ghost use Rattle.svn_link.specs.Ends.{NoticeEnd};

    ghost Value = { NoticeEnd };

    ghost use Rattle.svn_link.specs.Teller.{teller_end, IsTeller};

    ghost view = { teller_end };

    ghost invariant = { IsTeller };
}

impl Teller {
    /// Reports that the call of this number, counted from 1, was refused.
    ///
    /// It may wait for the other thread, and takes no memory. A number is reported once ([`told`](Teller::told) is the test).
    pub fn refused<R: Wait>(&mut self, rt: &R, n: u64)
        requires number { 0 < n }
        requires nothing { self.old.number ≡ None }
        ensures told { self.new.number ≡ Some n }
        ensures notice { self.new.notice ≡ self.old.notice }
    {
        self.cell.swap_as::<Tells, R>(rt, &mut self.pass, [n]);
        self.told = true;
    }

    /// Whether it has reported a number. It never waits.
    pub fn told(&self) -> bool
        ensures { IsTrue result ↔ IsSome self.now.number }
    {
        self.told
    }
}

/// It shows whether a number was reported.
impl fmt::Debug for Teller {
    fn fmt<W: fmt::Write>(&self, f: &mut fmt::Formatter<W>) -> fmt::Result {
        f.debug_struct("Teller")
            .field("told", &self.told)
            .finish_non_exhaustive()
    }
}

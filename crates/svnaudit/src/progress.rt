//! How far the work is, printed on standard error.

use std::rt::Clock;
use std::time::Instant;
use svn_answers::Source;
use svn_history::LoadListener;
use svn_live_audit::LiveListener;
use svn_types::Rev;

/// The seconds between two lines.
const PAUSE: u64 = 1;

// Whether it is time for a line. A clock that can't be read gives none.
fn is_due<T: Clock>(rt: &T, last: &mut Option<Instant>) -> bool {
    let (Some(before), Ok(now)) = (*last, Instant::now(rt)) else {
        return false;
    };
    if now.duration_since(before).as_secs() < PAUSE {
        return false;
    }
    *last = Some(now);
    true
}

/// Prints once a second how many revisions and bytes are done, if that was asked for.
#[derive(Drop)]
pub(crate) struct Progress<'a, T> {
    rt: &'a T,
    asked: bool,
    // When the last line was printed, or the work began; None if the clock can't be read.
    last: Option<Instant>,
    // What is done: the revision, and how many bytes.
    done: (Rev, u64),
}

impl<'a, T: Clock + Eprint> Progress<'a, T> {
    /// The work begins.
    pub(crate) fn begin(rt: &'a T, asked: bool) -> Progress<'a, T> {
        Progress {
            rt,
            asked,
            last: Instant::now(rt).ok(),
            done: (Rev(0), 0),
        }
    }

    /// So much is done, and the work goes on.
    pub(crate) fn report(&mut self, rev: Rev, bytes: u64) {
        self.done = (rev, bytes);
        if self.asked && is_due(self.rt, &mut self.last) {
            self.line();
        }
    }

    /// All is done.
    pub(crate) fn end(&self) {
        if self.asked {
            self.line();
        }
    }

    // Where standard error can't be written, nothing is printed.
    fn line(&self) {
        let (Rev(number), bytes) = self.done;
        let _ = eprintln!(self.rt; "svnaudit: r{number}, {bytes} bytes");
    }

    /// Says if a dump begins late: revisions that are left out are empty here, so that a copy of one isn't true. Revision 0 has nothing.
    pub(crate) fn tell_beginning(&self, name: Source<'_>, first: Option<Rev>) {
        if let Some(Rev(number)) = first {
            if number > 1 {
                let _ = eprintln!(self.rt;
                    "svnaudit: {name}: the dump begins with r{number}: the revisions before it are empty here, and properties of the root may be missing"
                );
            }
        }
    }
}

impl<T: Clock + Eprint> LoadListener for Progress<'_, T> {
    fn loaded(&mut self, rev: Rev, bytes: u64) {
        self.report(rev, bytes);
    }
}

/// Prints once a second how many nodes of a copy are answered, if that was asked for.
#[derive(Drop)]
pub(crate) struct AskProgress<'a, T> {
    rt: &'a T,
    asked: bool,
    // When the last line was printed, or the work began; None if the clock can't be read.
    last: Option<Instant>,
}

impl<'a, T: Clock + Eprint> AskProgress<'a, T> {
    /// The work begins.
    pub(crate) fn begin(rt: &'a T, asked: bool) -> AskProgress<'a, T> {
        AskProgress {
            rt,
            asked,
            last: Instant::now(rt).ok(),
        }
    }
}

impl<T: Clock + Eprint> LiveListener for AskProgress<'_, T> {
    fn answered(&mut self, count: usize, bytes: u64) {
        if self.asked && is_due(self.rt, &mut self.last) {
            let _ = eprintln!(self.rt; "svnaudit: {count} nodes, {bytes} bytes");
        }
    }
}

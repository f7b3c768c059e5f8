//! How often each thing was done.

use std::fmt;

/// Updates and switches of whole copies, and what became of them.
#[derive(Clone, Copy)]
pub(crate) struct RunCounts {
    pub(crate) updates: u64,
    pub(crate) switches: u64,
    pub(crate) stops: u64,
    pub(crate) resumed: u64,
    pub(crate) late: u64,
    pub(crate) in_threads: u64,
    pub(crate) calls: u64,
}

impl RunCounts {
    /// Updates and switches together.
    pub(crate) fn total(&self) -> u64 {
        self.updates.saturating_add(self.switches)
    }

    fn plus(self, other: RunCounts) -> RunCounts {
        RunCounts {
            updates: self.updates.saturating_add(other.updates),
            switches: self.switches.saturating_add(other.switches),
            stops: self.stops.saturating_add(other.stops),
            resumed: self.resumed.saturating_add(other.resumed),
            late: self.late.saturating_add(other.late),
            in_threads: self.in_threads.saturating_add(other.in_threads),
            calls: self.calls.saturating_add(other.calls),
        }
    }
}

impl fmt::Display for RunCounts {
    fn fmt<W: fmt::Write>(&self, f: &mut fmt::Formatter<W>) -> fmt::Result {
        let RunCounts {
            updates,
            switches,
            stops,
            resumed,
            late,
            in_threads,
            calls,
        } = self;
        write!(f, "{updates} updates, {switches} switches, {calls} calls: ")?;
        write!(
            f,
            "{stops} stopped, {resumed} resumed, {late} late, {in_threads} on two threads"
        )
    }
}

#[derive(Clone, Copy)]
pub(crate) struct Counts {
    pub(crate) commits: u64,
    /// Checkouts, and changes of a copy by itself.
    pub(crate) builds: u64,
    pub(crate) refusals: u64,
    pub(crate) runs: RunCounts,
}

pub(crate) const NO_COUNTS: Counts = Counts {
    commits: 0,
    builds: 0,
    refusals: 0,
    runs: RunCounts {
        updates: 0,
        switches: 0,
        stops: 0,
        resumed: 0,
        late: 0,
        in_threads: 0,
        calls: 0,
    },
};

impl Counts {
    pub(crate) fn count_commit(&mut self, is_done: bool) {
        if is_done {
            self.commits = self.commits.saturating_add(1);
        } else {
            self.count_refusal();
        }
    }

    pub(crate) fn count_build(&mut self, is_done: bool) {
        if is_done {
            self.builds = self.builds.saturating_add(1);
        } else {
            self.count_refusal();
        }
    }

    pub(crate) fn count_refusal(&mut self) {
        self.refusals = self.refusals.saturating_add(1);
    }

    pub(crate) fn count_runs(&mut self, runs: RunCounts) {
        self.runs = self.runs.plus(runs);
    }

    /// Both together.
    pub(crate) fn plus(self, other: Counts) -> Counts {
        Counts {
            commits: self.commits.saturating_add(other.commits),
            builds: self.builds.saturating_add(other.builds),
            refusals: self.refusals.saturating_add(other.refusals),
            runs: self.runs.plus(other.runs),
        }
    }
}

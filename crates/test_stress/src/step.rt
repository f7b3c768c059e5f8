//! The steps of a random history, and the lines of a script that they are.

use crate::plain::{Edit, PROP_NAMES, PlainPath, Word};
use std::fmt;

/// How an update or a switch of the whole copy is run.
#[derive(Clone, Copy)]
pub(crate) struct Run {
    pub(crate) to: Option<PlainPath>,
    pub(crate) rev: u64,
    pub(crate) cancel_after: Option<u64>,
    pub(crate) is_late: bool,
    /// How many calls the queue holds; None where both sides run on one thread.
    pub(crate) capacity: Option<usize>,
}

#[derive(Clone, Copy)]
pub(crate) enum Step {
    Edit(Edit),
    Commit,
    Checkout {
        rev: u64,
        path: PlainPath,
    },
    Place {
        path: PlainPath,
        rev: u64,
    },
    Switch {
        path: PlainPath,
        repos: PlainPath,
        rev: u64,
    },
    Forget {
        path: PlainPath,
    },
    Run(Run),
}

fn write_prop<W: fmt::Write>(
    path: PlainPath,
    name: usize,
    value: Option<Word>,
    f: &mut fmt::Formatter<W>,
) -> fmt::Result {
    let name = PROP_NAMES.get(name).copied().unwrap_or("");
    match value {
        Some(value) => {
            let value = value.printed();
            write!(f, "prop {path} {name} {value}")
        }
        None => write!(f, "unprop {path} {name}"),
    }
}

// A change of a commit.
#[derive(Clone, Copy)]
struct EditLine(Edit);

impl fmt::Display for EditLine {
    fn fmt<W: fmt::Write>(&self, f: &mut fmt::Formatter<W>) -> fmt::Result {
        match self.0 {
            Edit::MakeDir { path } => write!(f, "mkdir {path}"),
            Edit::Put { path, text } => {
                let text = text.printed();
                write!(f, "put {path} {text}")
            }
            Edit::Prop { path, name, value } => write_prop(path, name, value, f),
            Edit::Remove { path } => write!(f, "remove {path}"),
            Edit::CopyFrom { rev, source, path } => write!(f, "copy {rev} {source} {path}"),
        }
    }
}

impl Run {
    fn write_target<W: fmt::Write>(&self, f: &mut fmt::Formatter<W>) -> fmt::Result {
        let rev = self.rev;
        match self.to {
            Some(to) => write!(f, "switch-to {to} {rev}"),
            None => write!(f, "update {rev}"),
        }
    }

    fn write_stop<W: fmt::Write>(&self, f: &mut fmt::Formatter<W>) -> fmt::Result {
        match self.cancel_after {
            Some(calls) => write!(f, " {calls}"),
            None => Ok(()),
        }
    }
}

impl fmt::Display for Run {
    fn fmt<W: fmt::Write>(&self, f: &mut fmt::Formatter<W>) -> fmt::Result {
        self.write_target(f)?;
        self.write_stop(f)?;
        f.write_str(if self.is_late { " late" } else { "" })
    }
}

fn write_run<W: fmt::Write>(run: &Run, f: &mut fmt::Formatter<W>) -> fmt::Result {
    match run.capacity {
        Some(capacity) => write!(f, "# --capacity {capacity}\n{run}"),
        None => write!(f, "# --in-turn\n{run}"),
    }
}

fn write_switch<W: fmt::Write>(
    path: PlainPath,
    repos: PlainPath,
    rev: u64,
    f: &mut fmt::Formatter<W>,
) -> fmt::Result {
    write!(f, "switch {path} {repos} {rev}")
}

/// A step as a line of a script; a comment before a run says how it is run.
impl fmt::Display for Step {
    fn fmt<W: fmt::Write>(&self, f: &mut fmt::Formatter<W>) -> fmt::Result {
        match *self {
            Step::Edit(edit) => fmt::Display::fmt(&EditLine(edit), f),
            Step::Commit => f.write_str("commit"),
            Step::Checkout { rev, path } => write!(f, "checkout {rev} {path}"),
            Step::Place { path, rev } => write!(f, "place {path} {rev}"),
            Step::Switch { path, repos, rev } => write_switch(path, repos, rev, f),
            Step::Forget { path } => write!(f, "forget {path}"),
            Step::Run(run) => write_run(&run, f),
        }
    }
}

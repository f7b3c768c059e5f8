//! Why the program refuses.

use crate::dump_front::Packer;
use std::alloc::{AllocError, AllocFailed};
use std::{fmt, io};
use svn_answers::BusyFault;
use svn_disk_audit::PristineRefusal;
use svn_editor::PathWord;
use svn_live_audit::LiveFault;
use svn_repo::CommitFault;
use svn_types::{PathFault, RelPath, Rev};

/// Why nothing is done, or no more than was.
#[derive(Drop)]
pub(crate) enum Fault {
    /// The words of the command line can't be had.
    Words(io::Error),
    /// The file can't be opened, or not even its first bytes can be read.
    Unread(io::Error),
    /// The dump is packed, by this program.
    Packed(Packer),
    /// The dump is refused: where, and why.
    Dump(String),
    /// The history has no such revision; the last one.
    NoRevision(Rev, Rev),
    /// The revision has nothing at the path.
    NoNode(Rev, RelPath),
    /// The word for a revision is none.
    BadRevision,
    /// What should be a dump is a folder, of this name.
    Folder(String),
    /// The path that was asked for isn't lawful.
    BadPath(PathFault),
    /// The line of this number, counted from 1, is no command.
    BadLine(u64),
    /// The line of this number is longer than a line may be.
    LongLine(u64),
    /// The change of the line of this number can't be made.
    Refused(u64, CommitFault),
    /// The folder is in no working copy.
    NoCopy,
    /// It is a file, and no folder.
    NoFolder,
    /// No copy is named.
    NoWords,
    /// What the server reads can't be opened.
    Unopened(io::Error),
    /// The server gives no verdict.
    Server(LiveFault),
    /// A client is at work on the copy, or was cut off.
    Busy(BusyFault),
    /// A pristine text can't be opened: its file, its stand-in, and why.
    Pristine(PristineRefusal),
    /// The script, or the dump, couldn't be read to its end.
    Read,
    /// The output couldn't be written.
    Write,
    /// An allocation failed.
    Memory,
}

impl Fault {
    /// Whether it is a fault of what is read, which its line then names.
    pub(crate) fn is_of_input(&self) -> bool {
        !matches!(
            self,
            Fault::BadPath(_)
                | Fault::NoWords
                | Fault::Unopened(_)
                | Fault::Write
                | Fault::Memory
                | Fault::Server(LiveFault::Memory)
        )
    }
}

impl From<AllocError> for Fault {
    fn from(_error: AllocError) -> Fault {
        Fault::Memory
    }
}

impl<T: Drop> From<AllocFailed<T>> for Fault {
    fn from(_error: AllocFailed<T>) -> Fault {
        Fault::Memory
    }
}

impl From<BusyFault> for Fault {
    fn from(fault: BusyFault) -> Fault {
        Fault::Busy(fault)
    }
}

fn write_after<W: fmt::Write>(
    f: &mut fmt::Formatter<W>,
    words: &str,
    error: &io::Error,
) -> fmt::Result {
    write!(f, "{words}: {error}")
}

fn write_packed<W: fmt::Write>(f: &mut fmt::Formatter<W>, packer: Packer) -> fmt::Result {
    write!(f, "this is packed by {packer}: unpack it first")
}

fn write_folder<W: fmt::Write>(f: &mut fmt::Formatter<W>, name: &str) -> fmt::Result {
    write!(
        f,
        "this is a folder: of a repository `svnadmin dump -q {name}` writes the dump"
    )
}

fn write_no_revision<W: fmt::Write>(f: &mut fmt::Formatter<W>, rev: Rev, last: Rev) -> fmt::Result {
    write!(f, "there is no r{}: the last is r{}", rev.0, last.0)
}

fn write_no_node<W: fmt::Write>(
    f: &mut fmt::Formatter<W>,
    rev: Rev,
    path: &RelPath,
) -> fmt::Result {
    let path = PathWord(path);
    write!(f, "r{}: nothing is at {path}", rev.0)
}

fn write_bad_path<W: fmt::Write>(f: &mut fmt::Formatter<W>, fault: PathFault) -> fmt::Result {
    write!(f, "bad path: {fault}")
}

fn write_line<W: fmt::Write>(f: &mut fmt::Formatter<W>, line: u64, words: &str) -> fmt::Result {
    write!(f, "line {line}: {words}")
}

fn write_refused<W: fmt::Write>(
    f: &mut fmt::Formatter<W>,
    line: u64,
    fault: CommitFault,
) -> fmt::Result {
    write!(f, "line {line}: {fault}")
}

impl fmt::Display for Fault {
    fn fmt<W: fmt::Write>(&self, f: &mut fmt::Formatter<W>) -> fmt::Result {
        match self {
            Fault::Words(error) => write_after(f, "words of the command line", error),
            Fault::Unread(error) => fmt::Display::fmt(error, f),
            Fault::Packed(packer) => write_packed(f, *packer),
            Fault::Dump(text) => f.write_str(text.as_str()),
            Fault::NoRevision(rev, last) => write_no_revision(f, *rev, *last),
            Fault::NoNode(rev, path) => write_no_node(f, *rev, path),
            Fault::BadRevision => {
                f.write_str("no revision: it is a number, r and a number, or HEAD")
            }
            Fault::Folder(name) => write_folder(f, name.as_str()),
            Fault::BadPath(fault) => write_bad_path(f, *fault),
            Fault::BadLine(line) => write_line(f, *line, "bad line"),
            Fault::LongLine(line) => write_line(f, *line, "line too long"),
            Fault::Refused(line, fault) => write_refused(f, *line, *fault),
            Fault::NoCopy => f.write_str("no working copy"),
            Fault::NoFolder => f.write_str("this is a file: a working copy is a folder"),
            Fault::Unopened(error) => write_after(f, "what the server reads", error),
            Fault::NoWords => f.write_str("live TO FROM: no WC is named"),
            Fault::Server(fault) => fmt::Display::fmt(fault, f),
            Fault::Busy(fault) => fmt::Display::fmt(fault, f),
            Fault::Pristine(refusal) => fmt::Display::fmt(refusal, f),
            Fault::Read => f.write_str("read fault"),
            Fault::Write => f.write_str("write fault"),
            Fault::Memory => f.write_str("out of memory"),
        }
    }
}

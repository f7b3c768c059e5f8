//! The order check on calls that are in order, and a reporter: the calls or entries made alone, and made and checked.

use crate::times::nanos_since;
use crate::trouble::Trouble;
use std::alloc::Global;
use std::time::{Clock, Instant};
use svn_editor::{Call, OrderFault, Token};
use svn_order::OrderCheck;
use svn_report::Reporter;
use svn_types::{MAX_COMPONENTS, Name, RelPath, Rev};

// The calls that an add and a close make for each directory of a chain as deep as a path can be.
const CHAIN_CALLS: u64 = 256;

// Takes calls, and checks them if asked to.
#[derive(Drop)]
struct Feed {
    check: OrderCheck,
    is_checked: bool,
    next: u64,
}

impl Feed {
    // An edit whose root is open, with the token 0.
    fn begin(alloc: Global, is_checked: bool) -> Result<Feed, OrderFault> {
        let mut feed = Feed {
            check: OrderCheck::new(alloc),
            is_checked,
            next: 0,
        };
        feed.open_root()?;
        Ok(feed)
    }

    fn give(&mut self, call: Call) -> Result<(), OrderFault> {
        if self.is_checked {
            self.check.step(&call)
        } else {
            Ok(())
        }
    }

    fn token(&mut self) -> Token {
        let token = Token(self.next);
        self.next = self.next.wrapping_add(1);
        token
    }

    fn open_root(&mut self) -> Result<(), OrderFault> {
        let (base, token) = (Rev(0), self.token());
        self.give(Call::SetTargetRevision { rev: Rev(1) })?;
        self.give(Call::OpenRoot { base, token })
    }

    // Adds a file to the root, and closes it.
    fn add_file(&mut self, path: RelPath) -> Result<(), OrderFault> {
        let (parent, token) = (Token(0), self.token());
        let text_md5 = None;
        self.give(Call::AddFile {
            path,
            parent,
            token,
        })?;
        self.give(Call::CloseFile { token, text_md5 })
    }

    fn add_directory(&mut self, path: RelPath, parent: Token) -> Result<(), OrderFault> {
        let token = self.token();
        self.give(Call::AddDirectory {
            path,
            parent,
            token,
        })
    }

    // Closes directories from a token on, the last first.
    fn close_from(&mut self, first: u64) -> Result<(), OrderFault> {
        for token in (first..self.next).rev() {
            let token = Token(token);
            self.give(Call::CloseDirectory { token })?;
        }
        Ok(())
    }
}

fn path_of(alloc: Global, letter: &str, number: u64) -> Result<RelPath, Trouble> {
    let text = format!(in alloc; "{letter}{number}")?;
    Ok(RelPath::parse(alloc, text.as_str())?)
}

fn flat(alloc: Global, feed: &mut Feed, calls: u64) -> Result<(), Trouble> {
    for number in 0..calls / 2 {
        feed.add_file(path_of(alloc, "f", number)?)?;
    }
    Ok(())
}

// Opens a directory in the one that was opened last.
fn open_below(
    alloc: Global,
    feed: &mut Feed,
    above: &RelPath,
    name: &Name,
) -> Result<RelPath, Trouble> {
    let parent = Token(feed.next.wrapping_sub(1));
    let path = above.join(alloc, name)?;
    feed.add_directory(path.clone()?, parent)?;
    Ok(path)
}

// Opens directories in one another below a directory of the root, as deep as a path can be.
fn open_chain(alloc: Global, feed: &mut Feed, top: RelPath, name: &Name) -> Result<(), Trouble> {
    feed.add_directory(top.clone()?, Token(0))?;
    let mut path = top;
    for _ in 1..MAX_COMPONENTS {
        path = open_below(alloc, feed, &path, name)?;
    }
    Ok(())
}

fn chain(alloc: Global, feed: &mut Feed, name: &Name, number: u64) -> Result<(), Trouble> {
    let first = feed.next;
    open_chain(alloc, feed, path_of(alloc, "d", number)?, name)?;
    Ok(feed.close_from(first)?)
}

fn nested(alloc: Global, feed: &mut Feed, calls: u64) -> Result<(), Trouble> {
    let name = Name::parse(alloc, "d")?;
    for number in 0..calls / CHAIN_CALLS {
        chain(alloc, feed, &name, number)?;
    }
    Ok(())
}

fn report_entry(
    alloc: Global,
    reporter: &mut Reporter,
    is_reported: bool,
    number: u64,
) -> Result<(), Trouble> {
    let path = path_of(alloc, "p", number)?;
    if is_reported {
        reporter.set_path(&path, Rev(2), false)?;
    }
    Ok(())
}

fn report(
    alloc: Global,
    reporter: &mut Reporter,
    is_reported: bool,
    entries: u64,
) -> Result<(), Trouble> {
    reporter.set_path(&RelPath::root(alloc), Rev(1), false)?;
    for number in 1..entries {
        report_entry(alloc, reporter, is_reported, number)?;
    }
    Ok(())
}

// What is timed.
#[derive(Clone, Copy)]
enum Work {
    // Files are added to one directory, and closed.
    Flat,
    // Directories in one another, as deep as a path can be, are opened and closed.
    Nested,
    // Entries next to one another are reported, in an order that isn't that of their paths.
    Report,
}

const WORKS: [(&str, Work); 3] = [
    ("calls on files of one directory", Work::Flat),
    ("calls on directories in one another", Work::Nested),
    ("entries of a report", Work::Report),
];

fn make(alloc: Global, work: Work, is_checked: bool, count: u64) -> Result<(), Trouble> {
    match work {
        Work::Flat => flat(alloc, &mut Feed::begin(alloc, is_checked)?, count),
        Work::Nested => nested(alloc, &mut Feed::begin(alloc, is_checked)?, count),
        Work::Report => report(alloc, &mut Reporter::new(alloc), is_checked, count),
    }
}

fn nanos_each<C: Clock>(
    clock: &C,
    alloc: Global,
    work: Work,
    is_checked: bool,
    count: u64,
) -> Result<u64, Trouble> {
    let start = Instant::now(clock)?;
    make(alloc, work, is_checked, count)?;
    Ok(nanos_since(clock, start)? / count.max(1))
}

fn time<R: Clock + Eprint>(
    rt: &R,
    alloc: Global,
    what: &str,
    work: Work,
    count: u64,
) -> Result<(), Trouble> {
    let making = nanos_each(rt, alloc, work, false, count)?;
    let both = nanos_each(rt, alloc, work, true, count)?;
    eprintln!(rt; "{count} {what}: {making} ns each to make, {both} ns each to make and check")?;
    Ok(())
}

/// Times that many calls of each kind, and a report of that many entries.
pub(crate) fn run<R: Clock + Eprint>(rt: &R, alloc: Global, count: u64) -> Result<(), Trouble> {
    for (what, work) in &WORKS {
        time(rt, alloc, what, *work, count)?;
    }
    Ok(())
}

//! Connections of `svnserve` 1.14.2 that were recorded, heard as those about small working copies; and others that no server should send.
//!
//! `true.server` in `data/connections` is what a server sent about a copy that is true of it, `untrue.server` about one with three untrue paths, of which
//! one was asked about again.

mod copies;
mod hostile;

use anyhow::{Result, bail};
use copies::{true_copy, untrue_copy};
use hostile::{Row, rows};
use std::alloc::Global;
use std::io::Read;
use std::rt::Files;
use std::{fs, io};
use svn_ask::Speaker;
use svn_audit::Untrue;
use svn_live_audit::{Link, LiveFault, NoLiveListener};
use svn_types::Text;
use svn_wc::WorkingCopy;

/// The UUID of the server's repository.
const UUID: &str = "fe5bfff9-9dd2-45aa-a7ce-0e4af3a5b92e";

// What a server sends, in pieces of so many bytes: it answers no question before it is asked, and those that are asked again only afterwards.
#[derive(Drop)]
struct Pieces<'a> {
    bytes: &'a [u8],
    most: usize,
}

impl Read for Pieces<'_> {
    fn read(&mut self, buf: &mut [u8]) -> io::Result<usize> {
        let count = self.most.min(buf.len());
        self.bytes.read(&mut buf[..count])
    }
}

// What is untrue of a copy, by what a server sends.
fn heard(
    alloc: Global,
    copy: &WorkingCopy,
    (bytes, most): (&[u8], usize),
    one_by_one: bool,
) -> std::result::Result<Vec<Untrue>, LiveFault> {
    let speaker = Speaker {
        url: Text::from_str(alloc, "svn://example.org/repo")?,
        uuid: Text::from_str(alloc, UUID)?,
        client: Text::from_str(alloc, "test")?,
    };
    let input = Pieces { bytes, most };
    let mut link = Link::new(alloc, speaker, one_by_one, input, Vec::new(alloc))?;
    link.untrue_paths(copy, &mut NoLiveListener)
}

fn print_untrue<R: Print>(rt: &R, name: &str, untrue: &[Untrue]) -> Result<()> {
    println!(rt; "{name}: {} untrue", untrue.len())?;
    for path in untrue {
        println!(rt; "    {path}")?;
    }
    Ok(())
}

// Prints what is made of what a server sends.
fn print_heard<R: AllocGlobal + Print>(
    rt: &R,
    name: &str,
    copy: &WorkingCopy,
    sent: (&[u8], usize),
    one_by_one: bool,
) -> Result<()> {
    match heard(rt.alloc(), copy, sent, one_by_one) {
        Ok(untrue) => print_untrue(rt, name, &untrue),
        Err(fault) => {
            println!(rt; "{name}: {fault}")?;
            Ok(())
        }
    }
}

// How often each reason comes.
#[derive(Drop)]
struct Cuts {
    ends: usize,
    halves: usize,
}

impl Cuts {
    // Counts a reason, and returns whether it is one of the two.
    fn count(&mut self, fault: &str) -> bool {
        if fault == "the answers end within an item" {
            self.halves = self.halves.saturating_add(1);
            return true;
        }
        let is_end = fault == "the answers end before all questions are answered";
        self.ends = self.ends.saturating_add(usize::from(is_end));
        is_end
    }
}

// Why a copy isn't heard about, nothing where it is.
fn fault_of(alloc: Global, copy: &WorkingCopy, bytes: &[u8]) -> Result<String> {
    match heard(alloc, copy, (bytes, 1), false) {
        Ok(_) => Ok(String::new(alloc)),
        Err(fault) => Ok(format!(in alloc; "{fault}")?),
    }
}

fn count_cut(alloc: Global, cuts: &mut Cuts, copy: &WorkingCopy, bytes: &[u8]) -> Result<()> {
    let fault = fault_of(alloc, copy, bytes)?;
    if !cuts.count(fault.as_str()) {
        bail!("cut at {}: {fault}", bytes.len())
    }
    Ok(())
}

// Cut off anywhere, it is refused.
fn print_cut<R: AllocGlobal + Print>(
    rt: &R,
    name: &str,
    copy: &WorkingCopy,
    bytes: &[u8],
) -> Result<()> {
    let mut cuts = Cuts { ends: 0, halves: 0 };
    for len in 0..bytes.len() {
        count_cut(rt.alloc(), &mut cuts, copy, &bytes[..len])?;
    }
    let Cuts { ends, halves } = cuts;
    println!(rt; "{name}, cut off: {halves} times within an item, {ends} times between two")?;
    Ok(())
}

// Prints what is made of what was sent about a copy: with many questions open, and with one.
fn print_both<R: AllocGlobal + Print>(
    rt: &R,
    names: (&str, &str),
    copy: &WorkingCopy,
    bytes: &[u8],
) -> Result<()> {
    print_heard(rt, names.0, copy, (bytes, 1), false)?;
    print_heard(rt, names.1, copy, (bytes, 1), true)
}

// Prints what is made of what no server should send.
fn print_hostile<R: AllocGlobal + Print>(
    rt: &R,
    row: &Row,
    bytes: &[u8],
    copy: &WorkingCopy,
    untrue: &WorkingCopy,
) -> Result<()> {
    if row.is_about_untrue() {
        print_heard(rt, row.name, untrue, (bytes, 1), false)
    } else {
        print_heard(rt, row.name, copy, (bytes, 4096), false)
    }
}

// Prints what is made of each row, by two copies and what was sent about them.
fn print_all_hostile<R: AllocGlobal + Print>(
    rt: &R,
    (copy, bytes): (&WorkingCopy, &[u8]),
    (untrue, others): (&WorkingCopy, &[u8]),
) -> Result<()> {
    for row in rows() {
        let sent = row.bytes(rt.alloc(), bytes, others)?;
        print_hostile(rt, row, &sent, copy, untrue)?;
    }
    Ok(())
}

// Prints what is made of what was sent about two copies.
fn print_all_sent<R: AllocGlobal + Print>(
    rt: &R,
    (copy, bytes): (&WorkingCopy, &[u8]),
    (untrue, others): (&WorkingCopy, &[u8]),
) -> Result<()> {
    let names = ("an untrue copy", "an untrue copy, one by one");
    print_both(rt, ("a true copy", "a true copy, one by one"), copy, bytes)?;
    print_both(rt, names, untrue, others)?;
    let sent = (bytes, 1);
    print_heard(rt, "the answers to other questions", untrue, sent, false)?;
    let sent = (others, 1);
    print_heard(rt, "the answers about another copy", copy, sent, false)
}

// Prints what is made of what was sent about two copies, and of what wasn't.
fn print_all<R: AllocGlobal + Print>(
    rt: &R,
    (copy, bytes): (&WorkingCopy, &[u8]),
    (untrue, others): (&WorkingCopy, &[u8]),
) -> Result<()> {
    print_all_sent(rt, (copy, bytes), (untrue, others))?;
    print_cut(rt, "what was sent about the true copy", copy, bytes)?;
    print_cut(rt, "what was sent about the untrue one", untrue, others)?;
    print_all_hostile(rt, (copy, bytes), (untrue, others))
}

/// Prints what is made of all connections.
pub(crate) fn print<R: Files + AllocGlobal + Print>(rt: &R) -> Result<()> {
    let copy = true_copy(rt.alloc())?;
    let untrue = untrue_copy(rt.alloc())?;
    let bytes = fs::read(rt, "connections/true.server")?;
    let others = fs::read(rt, "connections/untrue.server")?;
    print_all(rt, (&copy, &bytes), (&untrue, &others))
}

//! A database that is cut at each place, and one with each byte changed: what each gives.

use super::tally::Tally;
use anyhow::Result;
use std::alloc::Global;
use svn_wcdb::{BaseTree, WcdbFault, read_base_tree};

/// The bytes of a page.
const PAGE: usize = 512;

/// A bit is changed in each byte that is so many after another.
const STEP: usize = 8;

/// Where the header says with which change the number of pages was written.
const COUNTED_AT: usize = 92;

// The name of a fault, without its number.
fn fault_word(alloc: Global, fault: WcdbFault) -> Result<String> {
    let WcdbFault::Refused(reason) = fault else {
        return Ok(String::from_str(alloc, "Memory")?);
    };
    let word = format!(in alloc; "{reason:?}")?;
    match word.split_once('(') {
        Some((name, _)) => Ok(String::from_str(alloc, name)?),
        None => Ok(word),
    }
}

// A word for what reading gives, beside the tree of the whole database.
fn outcome(alloc: Global, bytes: &[u8], whole: &BaseTree) -> Result<String> {
    match read_base_tree(alloc, bytes) {
        Ok(tree) => {
            let word = if tree.nodes == whole.nodes {
                "the same nodes"
            } else {
                "other nodes"
            };
            Ok(String::from_str(alloc, word)?)
        }
        Err(refusal) => fault_word(alloc, refusal.fault),
    }
}

// Cuts the database at each byte of its first page.
fn cut_in_page(alloc: Global, bytes: &[u8], whole: &BaseTree) -> Result<Tally> {
    let mut tally = Tally::new(alloc);
    for at in 0..PAGE {
        if at < bytes.len() {
            tally.add(outcome(alloc, &bytes[..at], whole)?)?;
        }
    }
    Ok(tally)
}

// Cuts the database where each page ends.
fn cut_at_pages(alloc: Global, bytes: &[u8], whole: &BaseTree) -> Result<Tally> {
    let mut tally = Tally::new(alloc);
    for at in 1..bytes.len() {
        if at % PAGE == 0 {
            tally.add(outcome(alloc, &bytes[..at], whole)?)?;
        }
    }
    Ok(tally)
}

// A database whose header doesn't say how many pages it has.
fn uncounted(alloc: Global, bytes: &[u8]) -> Result<Vec<u8>> {
    let mut copy = Vec::from_slice(alloc, bytes)?;
    for i in 0..4usize {
        if COUNTED_AT + i < copy.len() {
            copy[COUNTED_AT + i] = 0;
        }
    }
    Ok(copy)
}

// Changes those bits in each byte, or in each of the step, one byte at a time.
fn change_each(bytes: &[u8], is_each: bool, bits: u8, whole: &BaseTree) -> Result<Tally> {
    let alloc = *whole.nodes.allocator();
    let mut changed = Vec::from_slice(alloc, bytes)?;
    let mut tally = Tally::new(alloc);
    for at in 0..changed.len() {
        if is_each || at % STEP == 0 {
            let byte = changed[at];
            changed[at] = byte ^ bits;
            tally.add(outcome(alloc, &changed, whole)?)?;
            changed[at] = byte;
        }
    }
    Ok(tally)
}

fn print_tally<R: AllocGlobal + Print>(rt: &R, tally: &Tally, what: &str) -> Result<()> {
    println!(rt; "{}", tally.line(rt.alloc(), what)?)?;
    Ok(())
}

fn print_cuts<R: AllocGlobal + Print>(rt: &R, bytes: &[u8], whole: &BaseTree) -> Result<()> {
    let alloc = rt.alloc();
    let tally = cut_in_page(alloc, bytes, whole)?;
    print_tally(rt, &tally, "cut in the first page")?;
    let tally = cut_at_pages(alloc, bytes, whole)?;
    print_tally(rt, &tally, "cut after a page")?;
    let tally = cut_at_pages(alloc, &uncounted(alloc, bytes)?, whole)?;
    print_tally(rt, &tally, "cut after a page, pages not counted")
}

fn print_changes<R: AllocGlobal + Print>(rt: &R, bytes: &[u8], whole: &BaseTree) -> Result<()> {
    let tally = change_each(bytes, false, 1, whole)?;
    print_tally(rt, &tally, "one bit of each 8th byte changed")?;
    let tally = change_each(bytes, true, 255, whole)?;
    print_tally(rt, &tally, "all bits of each byte changed")
}

/// Prints how often each reason comes where the database is cut and where a byte is changed.
pub(crate) fn print_tallies<R: AllocGlobal + Print>(rt: &R, bytes: &[u8]) -> Result<()> {
    if let Ok(whole) = read_base_tree(rt.alloc(), bytes) {
        print_cuts(rt, bytes, &whole)?;
        print_changes(rt, bytes, &whole)?;
    }
    Ok(())
}

//! Dumps of Subversion, loaded and compared with what Subversion itself has in each of their revisions; dumps that are refused; broken ones; and a
//! history that is written as a dump and loaded again.
//!
//! `data/dumps` has each dump with its trees, of all revisions one after another, in the lines that a checkout of each is printed in: NAME.sha1 and NAME.md5
//! with texts as their checksums, and NAME.whole; and NAME.lines, with for each node a number that no other node has. `examples/subversion/dump_data.sh` has
//! Subversion make them. A dump that can't be loaded so has the refusal.
mod alterations;
mod bases;
mod broken;
mod expanded;
mod fronts;
mod history;
mod lengths;
mod lines;
mod many;
mod readers;
mod refusals;
mod written;

use crate::names::names_of;
use crate::say::say;
use anyhow::Result;
use std::alloc::Global;
use std::fs;
use std::rt::Files;
use svn_dump::Texts;

// Whether what was found in a dump is what Subversion printed.
fn compare<R: Files + AllocGlobal + Print>(
    rt: &R,
    name: &str,
    ending: &str,
    found: &str,
) -> Result<()> {
    let wanted = fs::read(rt, format!(in rt.alloc(); "dumps/{name}.{ending}")?)?;
    if found.as_bytes() == wanted.as_slice() {
        println!(rt; "{name} is as Subversion has it, {ending}")?;
    } else {
        println!(rt; "{name} DIFFERS, {ending}")?;
    }
    Ok(())
}

// How texts are kept, and how the name of the file ends that has the trees with such texts.
const KEPT: [(Texts, &str); 3] = [
    (Texts::Sha1, "sha1"),
    (Texts::Md5, "md5"),
    (Texts::Whole, "whole"),
];

fn compare_dump<R: Files + AllocGlobal + Print>(rt: &R, name: &str) -> Result<()> {
    let alloc = rt.alloc();
    let dump = fs::read(rt, format!(in alloc; "dumps/{name}.dump")?)?;
    for (texts, ending) in &KEPT {
        compare(rt, name, ending, &history::outcome(alloc, &dump, *texts)?)?;
    }
    compare(rt, name, "lines", &lines::lines(alloc, &dump)?)
}

// Expanded, a dump of deltas is the history that another dump has.
fn compare_expanded<R: Files + AllocGlobal + Print>(rt: &R, name: &str, other: &str) -> Result<()> {
    let alloc = rt.alloc();
    let dump = fs::read(rt, format!(in alloc; "dumps/{name}.dump")?)?;
    let expanded = expanded::expanded(alloc, &dump);
    compare(
        rt,
        other,
        "sha1",
        &history::outcome(alloc, &expanded, Texts::Sha1)?,
    )?;
    compare(
        rt,
        other,
        "whole",
        &history::outcome(alloc, &expanded, Texts::Whole)?,
    )
}

fn compare_all<R: Files + AllocGlobal + Print + Clone + Drop>(rt: &R) -> Result<()> {
    for name in &names_of(rt, "dumps", ".dump")? {
        compare_dump(rt, name)?;
    }
    println!(rt; "expanded:")?;
    compare_expanded(rt, "deltas", "features")?;
    compare_expanded(rt, "remote", "random")
}

// What is counted of dumps: the cases that differ.
#[derive(Clone, Copy)]
enum Count {
    Cut,
    Changed,
    Bases,
    Failing,
    Pieces,
    Lengths,
    Fronts,
    Alterations,
    Many,
    Written,
    Expanded,
    Taken,
}

const COUNTS: [(Count, &str); 12] = [
    (Count::Cut, "a dump that is cut has the revisions before"),
    (
        Count::Changed,
        "a dump with a changed byte has the revisions before",
    ),
    (Count::Bases, "the text before a delta is compared"),
    (
        Count::Failing,
        "where reading fails the revisions before are there",
    ),
    (Count::Pieces, "a dump may come in pieces of any size"),
    (Count::Lengths, "long headers and sections end as expected"),
    (
        Count::Fronts,
        "the front of a dump gives its UUID and its first revision",
    ),
    (
        Count::Alterations,
        "a change makes a node revision as in Subversion",
    ),
    (
        Count::Many,
        "ten million properties are refused or passed over",
    ),
    (Count::Written, "what was written loads as the same"),
    (
        Count::Expanded,
        "a dump of deltas that is cut is expanded up to there",
    ),
    (Count::Taken, "a delta that can't be applied is refused"),
];

fn wrong_in(alloc: Global, what: Count, dump: &[u8], deltas: &[u8]) -> Result<usize> {
    match what {
        Count::Cut => broken::cut_wrongly(alloc, dump),
        Count::Changed => broken::changed_wrongly(alloc, dump),
        Count::Bases => bases::passed_wrongly(alloc, deltas),
        Count::Failing => readers::failed_wrongly(alloc, dump),
        Count::Pieces => readers::pieces_wrongly(alloc, dump),
        Count::Lengths => lengths::taken_wrongly(alloc),
        Count::Fronts => fronts::known_wrongly(alloc),
        Count::Alterations => alterations::altered_wrongly(alloc),
        Count::Many => many::taken_wrongly(alloc),
        Count::Written => written::loaded_wrongly(alloc),
        Count::Expanded => Ok(expanded::cut_wrongly(alloc, deltas)),
        Count::Taken => expanded::taken_wrongly(alloc, deltas),
    }
}

fn say_counts<R: AllocGlobal + Print>(rt: &R, dump: &[u8], deltas: &[u8]) -> Result<()> {
    for (what, words) in &COUNTS {
        say(rt, words, wrong_in(rt.alloc(), *what, dump, deltas)?)?;
    }
    Ok(())
}

fn say_refusals<R: AllocGlobal + Print>(rt: &R) -> Result<()> {
    let others = refusals::other_refusals(rt.alloc())?;
    print!(rt; "{others}")?;
    say(rt, "each refusal is as expected", others.len())
}

/// Compares all of it.
pub(crate) fn run<R: Files + AllocGlobal + Print + Clone + Drop>(rt: &R) -> Result<()> {
    compare_all(rt)?;
    say_refusals(rt)?;
    let dump = fs::read(rt, "dumps/restored.dump")?;
    let deltas = fs::read(rt, "dumps/deltas.dump")?;
    say_counts(rt, &dump, &deltas)
}

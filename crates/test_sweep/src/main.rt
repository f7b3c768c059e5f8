//! Runs rows, each a use of the library with the results that it must have, and says of each in each way whether it holds.
//!
//! Without words it runs all of them. `test_sweep list` says the words of each; `test_sweep ROW WAY` runs one. Memory may be refused in any of
//! these: each result is then the row's, or says out of memory and leaves what is promised, and the row, begun anew, holds.
//! `sweep/run.py` runs each row with each of its allocations refused. The status is 0 if all hold, 1 if one doesn't, and 3 if memory
//! ran out once more.
//!
//! `test_sweep time PART COUNT` times a part of the library that no script shows alone, on standard error: `edits` (the order check and reports), `pools`,
//! `link` or `all`, with so many calls, entries or pools, by default 100,000. Without words all parts are timed too, with few.
#![tactic(auto)]

mod calls;
mod copies;
mod edits;
mod in_step;
mod links;
mod names;
mod pools;
mod printed;
mod reports;
mod rows;
mod runs;
mod scripts;
mod streams;
mod times;
mod trouble;

use crate::rows::{Row, rows};
use crate::runs::Form;
use crate::trouble::{End, Trouble};
use std::alloc::Global;
use std::env::Env;
use std::process::ExitCode;
use std::sync::Wait;
use std::thread::Threads;
use std::time::Clock;
use std::{env, io};
use svn_run::Outcome;
use svn_script::Settings;

// How the rows of scripts are run.
const WAYS: [&str; 9] = [
    "script",
    "script-of-one-call",
    "script-of-many-calls",
    "calls",
    "calls-of-one",
    "calls-of-many",
    "readers",
    "writers",
    "cuts",
];

// The rows that are no scripts.
const PARTS: [&str; 10] = [
    "names", "words", "pools", "orders", "edits", "reporter", "reports", "nodes", "links",
    "in-step",
];

const ONE_CALL: Settings = Settings {
    capacity: 1,
    in_turn: false,
};

const MANY_CALLS: Settings = Settings {
    capacity: 64,
    in_turn: false,
};

fn run_row<R: Threads + Wait + Sync>(
    rt: &R,
    alloc: Global,
    row: &Row,
    way: &str,
) -> Result<(), Trouble> {
    match way {
        "script" => scripts::run_row(rt, alloc, row, &scripts::IN_TURN),
        "script-of-one-call" => scripts::run_row(rt, alloc, row, &ONE_CALL),
        "script-of-many-calls" => scripts::run_row(rt, alloc, row, &MANY_CALLS),
        "calls" => calls::call_row(rt, alloc, row, Form::InTurn),
        "calls-of-one" => calls::call_row(rt, alloc, row, Form::InThreads(1)),
        "calls-of-many" => calls::call_row(rt, alloc, row, Form::InThreads(64)),
        "readers" => streams::readers(rt, alloc, row),
        "writers" => streams::writers(rt, alloc, row),
        "cuts" => streams::cuts(rt, alloc, row),
        _ => Err(Trouble::Other("there is no such way")),
    }
}

fn run_part<R: Wait>(rt: &R, alloc: Global, part: &str) -> Result<(), Trouble> {
    match part {
        "names" => names::names(alloc),
        "words" => names::words(alloc),
        "pools" => pools::pools(alloc),
        "orders" => edits::orders(alloc),
        "edits" => edits::edits(alloc),
        "reporter" => reports::reporter(alloc),
        "reports" => reports::reports(alloc),
        "nodes" => reports::nodes(alloc),
        "links" => links::links(rt, alloc),
        _ => Err(Trouble::Other("there is no such row")),
    }
}

// The row of a name; a name that no row has is that of a part. One part says how its run ended.
fn run_named<R: Threads + Wait + Sync>(
    rt: &R,
    alloc: Global,
    name: &str,
    way: &str,
) -> Result<Option<Outcome>, Trouble> {
    for row in &rows() {
        if row.name == name {
            run_row(rt, alloc, row, way)?;
            return Ok(None);
        }
    }
    if name == "in-step" {
        return Ok(Some(in_step::in_step(rt, alloc)?));
    }
    run_part(rt, alloc, name)?;
    Ok(None)
}

// Memory is refused once, or not at all; if it is refused again, memory is really short.
fn run_again<R: Threads + Wait + Sync>(
    rt: &R,
    alloc: Global,
    name: &str,
    way: &str,
) -> Result<Option<Outcome>, Trouble> {
    match run_named(rt, alloc, name, way) {
        Err(Trouble::Memory) => run_named(rt, alloc, name, way),
        ended => ended,
    }
}

fn tell<R: Threads + Wait + Sync + Print>(
    rt: &R,
    alloc: Global,
    name: &str,
    way: &str,
) -> io::Result<u8> {
    let end = End(run_again(rt, alloc, name, way));
    println!(rt; "{name} {way} {end}")?;
    Ok(end.status())
}

// Runs a row in a way, or prints the words that name it.
fn one<R: Threads + Wait + Sync + Print>(
    rt: &R,
    alloc: Global,
    lists: bool,
    name: &str,
    way: &str,
) -> io::Result<u8> {
    if lists {
        println!(rt; "{name} {way}")?;
        return Ok(0);
    }
    tell(rt, alloc, name, way)
}

// A row in all ways.
fn all_ways<R: Threads + Wait + Sync + Print>(
    rt: &R,
    alloc: Global,
    lists: bool,
    name: &str,
) -> io::Result<u8> {
    let mut status = 0u8;
    for way in &WAYS {
        status = status.max(one(rt, alloc, lists, name, way)?);
    }
    Ok(status)
}

fn all_rows<R: Threads + Wait + Sync + Print>(
    rt: &R,
    alloc: Global,
    lists: bool,
) -> io::Result<u8> {
    let mut status = 0u8;
    for row in &rows() {
        status = status.max(all_ways(rt, alloc, lists, row.name)?);
    }
    Ok(status)
}

fn all_parts<R: Threads + Wait + Sync + Print>(
    rt: &R,
    alloc: Global,
    lists: bool,
) -> io::Result<u8> {
    let mut status = 0u8;
    for part in &PARTS {
        status = status.max(one(rt, alloc, lists, part, "alone")?);
    }
    Ok(status)
}

// Runs all rows in all ways, or lists them. The result is the greatest status.
fn all<R: Threads + Wait + Sync + Print>(rt: &R, alloc: Global, lists: bool) -> io::Result<u8> {
    let status = all_rows(rt, alloc, lists)?;
    Ok(status.max(all_parts(rt, alloc, lists)?))
}

// How many calls, entries or pools are timed after all rows.
const FEW: &str = "2000";

// Times a part, or says why it can't.
fn time<R: Threads + Wait + Sync + Clock + Eprint>(
    rt: &R,
    alloc: Global,
    part: &str,
    count: Option<&str>,
) -> io::Result<u8> {
    match times::run(rt, alloc, part, count) {
        Ok(()) => Ok(0),
        Err(trouble) => {
            let end = End(Err(trouble));
            eprintln!(rt; "test_sweep: {end}")?;
            Ok(end.status())
        }
    }
}

// All rows, and then all parts that are timed.
fn rows_and_times<R: Threads + Wait + Sync + Clock + Print + Eprint>(
    rt: &R,
    alloc: Global,
) -> io::Result<u8> {
    let status = all(rt, alloc, false)?;
    Ok(status.max(time(rt, alloc, "all", Some(FEW))?))
}

// The words after the program's name.
type Words = (Option<String>, Option<String>, Option<String>);

fn words<R: Env + AllocGlobal>(rt: &R) -> io::Result<Words> {
    let mut words = env::args(rt)?;
    let _program = words.next();
    let first = words.next();
    let second = words.next();
    Ok((first, second, words.next()))
}

fn words_anew<R: Env + AllocGlobal>(rt: &R) -> io::Result<Words> {
    match words(rt) {
        Err(_) => words(rt),
        found => found,
    }
}

fn run_by<R: Threads + Wait + Sync + Clock + Print + Eprint>(
    rt: &R,
    alloc: Global,
    words: (Option<&str>, Option<&str>, Option<&str>),
) -> io::Result<u8> {
    match words {
        (Some("time"), Some(part), count) => time(rt, alloc, part, count),
        (Some(name), Some(way), _) => tell(rt, alloc, name, way),
        (Some("list"), None, _) => all(rt, alloc, true),
        _ => rows_and_times(rt, alloc),
    }
}

fn run<R: Threads + Wait + Sync + Clock + Print + Eprint + Env + AllocGlobal>(
    rt: &R,
) -> io::Result<u8> {
    let (first, second, third) = words_anew(rt)?;
    let words = (first.as_deref(), second.as_deref(), third.as_deref());
    run_by(rt, rt.alloc(), words)
}

fn main(rt: HostRuntime) -> ExitCode {
    match run(&rt) {
        Ok(status) => ExitCode::from(status),
        Err(_) => ExitCode::from(3),
    }
}

//! The jobs that a user waits for, on inputs of real shape, to be timed: `bench/run` does so.
//!
//! The first argument names the job: `checkout`, `everyday`, `large`, `mixed`, `branch`, `awkward` or `all`. The second is the seed from which
//! its input is made, a number below 2^32. With a third, each input is that many times smaller. A line is printed for each job: its name, how many
//! bytes its results have, and a digest of them. No time is printed. With `script` after the three, the script is printed that the job runs, if it
//! runs one.
#![tactic(auto)]

mod awkward;
mod branch;
mod checkout;
mod dice;
mod digest;
mod everyday;
mod large;
mod library;
mod mixed;
mod script;
mod source;
mod story;
mod tree;
mod words;

use crate::digest::Digest;
use crate::script::Script;
use crate::tree::Size;
use anyhow::{Result, bail};
use std::alloc::Global;
use std::env;
use std::env::Env;
use std::sync::Wait;
use std::thread::Threads;

const ALL: [&str; 6] = [
    "checkout", "everyday", "large", "mixed", "branch", "awkward",
];

fn no_job<T>() -> Result<T> {
    bail!("the job is checkout, everyday, large, mixed, branch, awkward or all")
}

// The script of a job that runs one.
fn script_of(alloc: Global, what: &str, size: Size) -> Result<Script> {
    match what {
        "everyday" => Ok(everyday::script(alloc, size)?),
        "mixed" => Ok(mixed::script(alloc, size)?),
        "branch" => Ok(branch::script(alloc, size)?),
        "awkward" => Ok(awkward::script(alloc, size)?),
        _ => no_job(),
    }
}

// What a job's results come to.
fn work<R: Threads + Wait + Sync>(rt: &R, alloc: Global, what: &str, size: Size) -> Result<Digest> {
    match what {
        "checkout" => checkout::run(alloc, size),
        "large" => large::run(rt, alloc, size),
        _ => script_of(alloc, what, size)?.run(rt, alloc),
    }
}

fn show<R: Print>(rt: &R, alloc: Global, what: &str, size: Size) -> Result<()> {
    let Script { text, .. } = script_of(alloc, what, size)?;
    print!(rt; "{text}")?;
    Ok(())
}

fn tell<R: Threads + Wait + Sync + Print>(
    rt: &R,
    alloc: Global,
    what: &str,
    size: Size,
) -> Result<()> {
    let digest = work(rt, alloc, what, size)?;
    println!(rt; "{what} {digest}")?;
    Ok(())
}

fn tell_all<R: Threads + Wait + Sync + Print>(rt: &R, alloc: Global, size: Size) -> Result<()> {
    for what in &ALL {
        tell(rt, alloc, what, size)?;
    }
    Ok(())
}

fn word<R: Env + AllocGlobal>(rt: &R, place: usize) -> Result<Option<String>> {
    Ok(env::args(rt)?.nth(place))
}

// The number at a place among the arguments, another where there is none.
fn number<R: Env + AllocGlobal>(rt: &R, place: usize, otherwise: u64) -> Result<u64> {
    match word(rt, place)? {
        Some(word) => Ok(word.as_str().parse::<u64>()?),
        None => Ok(otherwise),
    }
}

fn size<R: Env + AllocGlobal>(rt: &R) -> Result<Size> {
    Ok(Size {
        seed: number(rt, 2, 1)?,
        share: number(rt, 3, 1)?,
    })
}

fn run<R: Threads + Wait + Sync + Print>(
    rt: &R,
    alloc: Global,
    what: &str,
    size: Size,
    shows: bool,
) -> Result<()> {
    if shows {
        return show(rt, alloc, what, size);
    }
    match what {
        "all" => tell_all(rt, alloc, size),
        _ => tell(rt, alloc, what, size),
    }
}

fn main(rt: HostRuntime) -> Result<()> {
    let size = size(&rt)?;
    let shows = word(&rt, 4)?.is_some();
    match word(&rt, 1)? {
        Some(what) => run(&rt, rt.alloc(), what.as_str(), size, shows),
        None => no_job(),
    }
}

//! Makes random histories and copies of them, and compares the library after each step with a slow and plain model of it.
//!
//! The first argument is the seed, the second how many updates and switches are made. The same arguments make the same run on
//! every machine. Where something differs it prints what, and the history as a script for `svnup`, made short, and ends with status 1.
//!
//! Files: `plain` is the model; `dice` and `generate` choose the next `step`; `world` and `runs` make it on both sides; `real` has the library's values for
//! the model's, `checked` a copy beside its model, `compare` compares them; `stop` is why a history goes no further (a difference or a fault), `counts`
//! what was done, and `shorten` makes a history that shows a difference short.
#![tactic(auto)]

mod checked;
mod compare;
mod counts;
mod dice;
mod generate;
mod plain;
mod real;
mod runs;
mod shorten;
mod step;
mod stop;
mod world;

use crate::counts::{Counts, NO_COUNTS};
use crate::generate::Chooser;
use crate::shorten::{replay, shortened};
use crate::step::Step;
use crate::stop::{Result, Stop};
use crate::world::World;
use std::alloc::Global;
use std::env;
use std::env::Env;
use std::process::ExitCode;
use std::sync::Wait;
use std::thread::Threads;

// How many steps a history has.
const STEPS_EACH: u64 = 60;

// Takes the next step.
fn take_next<R: Threads + Wait + Sync>(
    rt: &R,
    world: &mut World,
    chooser: &mut Chooser,
    steps: &mut Vec<Step>,
) -> Result<()> {
    let step = chooser.step(world);
    steps.push(step)?;
    world.take(rt, step)
}

// Takes steps up to the first difference.
fn take_all<R: Threads + Wait + Sync>(
    rt: &R,
    world: &mut World,
    chooser: &mut Chooser,
    steps: &mut Vec<Step>,
) -> Result<()> {
    for _ in 0..STEPS_EACH {
        take_next(rt, world, chooser, steps)?;
    }
    Ok(())
}

// Makes a history, and returns what was done. Its steps are kept.
fn make_story<R: Threads + Wait + Sync>(
    rt: &R,
    alloc: Global,
    seed: u64,
    number: u64,
    steps: &mut Vec<Step>,
) -> Result<Counts> {
    let mut chooser = Chooser::new(seed, number);
    let mut world = World::new(alloc)?;
    take_all(rt, &mut world, &mut chooser, steps)?;
    Ok(world.counts)
}

fn tell_steps<R: Print>(rt: &R, number: u64, steps: &[Step]) -> Result<()> {
    println!(rt; "# history {number}")?;
    for step in steps {
        println!(rt; "{step}")?;
    }
    Ok(())
}

fn tell_end<R: Print>(rt: &R, end: Result<()>) -> Result<()> {
    match end {
        Ok(()) => println!(rt; "# it differs no more")?,
        Err(Stop::Differs(difference)) => println!(rt; "# {difference}")?,
        fault => return fault,
    }
    Ok(())
}

// Prints the shortest script that was found, and what differs at its end.
fn tell<R: Threads + Wait + Sync + Print>(
    rt: &R,
    alloc: Global,
    number: u64,
    steps: Vec<Step>,
) -> Result<()> {
    let short = shortened(rt, alloc, steps)?;
    tell_steps(rt, number, &short)?;
    tell_end(rt, replay(rt, alloc, &short))
}

fn tell_counts<R: Print>(rt: &R, histories: u64, counts: &Counts) -> Result<()> {
    let Counts {
        commits,
        builds,
        refusals,
        runs,
    } = counts;
    println!(rt;
        "{histories} histories: {commits} commits, {builds} changes of copies, {refusals} refusals"
    )?;
    println!(rt; "{runs}")?;
    Ok(())
}

// Makes a history, and returns what was done. Where it shows a difference, that is reported, and is an error.
fn count_story<R: Threads + Wait + Sync + Print>(
    rt: &R,
    alloc: Global,
    seed: u64,
    number: u64,
) -> Result<Counts> {
    let mut steps = Vec::new(alloc);
    match make_story(rt, alloc, seed, number, &mut steps) {
        Err(Stop::Differs(_)) => {
            tell(rt, alloc, number, steps)?;
            Err(Stop::Fault("the library and its model differ"))
        }
        answer => answer,
    }
}

// Histories until that many updates and switches were made.
fn stress<R: Threads + Wait + Sync + Print>(
    rt: &R,
    alloc: Global,
    seed: u64,
    wanted: u64,
) -> Result<()> {
    let mut counts = NO_COUNTS;
    for number in 0..u64::MAX {
        if counts.runs.total() >= wanted {
            return tell_counts(rt, number, &counts);
        }
        counts = counts.plus(count_story(rt, alloc, seed, number)?);
    }
    Ok(())
}

const USAGE: &str = "the arguments are a seed and how many updates are made";

fn number_of(word: &str) -> Result<u64> {
    match word.parse::<u64>() {
        Ok(number) => Ok(number),
        Err(_) => Err(Stop::Fault(USAGE)),
    }
}

fn number<R: Env + Alloc>(rt: &R, place: usize) -> Result<u64> {
    match env::args(rt)?.nth(place) {
        Some(word) => number_of(word.as_str()),
        None => Err(Stop::Fault(USAGE)),
    }
}

fn run<R: Threads + Wait + Sync + Print + Env + AllocGlobal>(rt: &R) -> Result<()> {
    let seed = number(rt, 1)?;
    let wanted = number(rt, 2)?;
    stress(rt, rt.alloc(), seed, wanted)
}

fn main(rt: HostRuntime) -> ExitCode {
    let words = match run(&rt) {
        Ok(()) => return ExitCode::SUCCESS,
        Err(Stop::Fault(words)) => words,
        Err(Stop::Differs(_)) => "the library and its model differ",
    };
    let _ = eprintln!(rt; "Error: {words}");
    ExitCode::FAILURE
}

//! Runs each script of its folder, on one thread and on two, and says whether it prints what its file of output has.

use anyhow::Result;
use std::alloc::Global;
use std::fs;
use std::rt::Files;
use std::sync::Wait;
use std::thread::Threads;
use svn_update::{Settings, run_script};

// On one thread, and on two with a queue of one call, and with one of many.
const WAYS: [(&str, Settings); 3] = [
    (
        "in turn",
        Settings {
            capacity: 64,
            in_turn: true,
        },
    ),
    (
        "with a queue of one call",
        Settings {
            capacity: 1,
            in_turn: false,
        },
    ),
    (
        "with a queue of 64 calls",
        Settings {
            capacity: 64,
            in_turn: false,
        },
    ),
];

// The names of the scripts, without their endings, in order.
fn script_names<R: Files + AllocGlobal + Clone + Drop>(rt: &R) -> Result<Vec<String>> {
    let mut names = Vec::new(rt.alloc());
    for entry in fs::read_dir(rt, ".")? {
        let entry = entry?;
        if let Some(name) = entry.file_name().strip_suffix(".script") {
            names.push(name.to_string(rt.alloc())?)?;
        }
    }
    names.sort()?;
    Ok(names)
}

fn output_of<R: Threads + Wait + Sync>(
    rt: &R,
    alloc: Global,
    settings: &Settings,
    script: &[u8],
) -> Result<Vec<u8>> {
    let mut reader = script;
    let mut output = Vec::new(alloc);
    run_script(rt, alloc, &mut reader, &mut output, settings)?;
    Ok(output)
}

// What a script does with what it must print.
fn verb_of(output: &[u8], wanted: &[u8]) -> &'static str {
    if output == wanted {
        "prints its output"
    } else {
        "PRINTS SOMETHING ELSE"
    }
}

// Runs a script in each way.
fn compare<R: Files + AllocGlobal + Threads + Wait + Sync + Print>(
    rt: &R,
    name: &str,
) -> Result<()> {
    let script = fs::read(rt, format!(in rt.alloc(); "{name}.script")?)?;
    let wanted = fs::read(rt, format!(in rt.alloc(); "{name}.output")?)?;
    for (way, settings) in &WAYS {
        let output = output_of(rt, rt.alloc(), settings, &script)?;
        println!(rt; "{name} {} {way}", verb_of(&output, &wanted))?;
    }
    Ok(())
}

/// Runs the scripts in order.
pub(crate) fn run<R: Files + AllocGlobal + Threads + Wait + Sync + Print + Clone + Drop>(
    rt: &R,
) -> Result<()> {
    for name in &script_names(rt)? {
        compare(rt, name.as_str())?;
    }
    Ok(())
}

//! `svnup`: runs a script of repository and working copy commands from standard input, and prints what it did. The script begins with a new
//! repository, or with that of a dump.
#![tactic(auto)]

mod history;

use history::{HistoryFault, load_history};
use std::alloc::Global;
use std::env::Env;
use std::io::BufWriter;
use std::process::ExitCode;
use std::rt::Files;
use std::sync::Wait;
use std::thread::Threads;
use std::{env, io};
use svn_update::{
    History, Invocation, Repo, ScriptFault, Settings, WordsFault, read_invocation, run_script,
    run_script_on,
};
use svn_version::VERSION;

// How many bytes are written at a time: as many as a pipe takes.
const WRITTEN_AT_ONCE: usize = 1 << 16;

// Why the system hands out no words.
fn fault_of(error: &io::Error) -> ScriptFault {
    if error.kind() == io::ErrorKind::OutOfMemory {
        ScriptFault::Memory
    } else {
        ScriptFault::Read
    }
}

// The words of the command line; the first is the program's name.
fn words(rt: &(impl Env + AllocGlobal)) -> Result<Vec<String>, ScriptFault> {
    let words = match env::args(rt) {
        Ok(words) => words,
        Err(error) => return Err(fault_of(&error)),
    };
    match words.collect(rt.alloc()) {
        Ok(words) => Ok(words),
        Err(_) => Err(ScriptFault::Memory),
    }
}

fn texts_of<'a>(alloc: Global, words: &'a [String]) -> Result<Vec<&'a str>, WordsFault> {
    let mut texts = Vec::new(alloc);
    for word in words {
        if texts.push(word.as_str()).is_err() {
            return Err(WordsFault::Memory);
        }
    }
    Ok(texts)
}

// Runs the script on a repository, or on a new one where none is given.
fn run<T: Input + Print + AllocGlobal + Threads + Wait + Sync>(
    rt: &T,
    repo: Option<Repo>,
    settings: &Settings,
) -> Result<(), ScriptFault> {
    let alloc = rt.alloc();
    let Ok(mut writer) = BufWriter::with_capacity(alloc, WRITTEN_AT_ONCE, io::writer(rt)) else {
        return Err(ScriptFault::Memory);
    };
    match repo {
        Some(repo) => run_script_on(rt, alloc, repo, &mut rt.reader(), &mut writer, settings),
        None => run_script(rt, alloc, &mut rt.reader(), &mut writer, settings),
    }
}

fn answer_script<T: Input + Print + Eprint + AllocGlobal + Threads + Wait + Sync>(
    rt: &T,
    repo: Option<Repo>,
    settings: &Settings,
) -> ExitCode {
    match run(rt, repo, settings) {
        Ok(()) => ExitCode::SUCCESS,
        Err(fault) => refuse_script(rt, fault),
    }
}

// Where standard error can't be written either, the status alone says so.
fn refuse_script<T: Eprint>(rt: &T, fault: ScriptFault) -> ExitCode {
    let _ = eprintln!(rt; "svnup: {fault}");
    ExitCode::from(fault.status())
}

fn refuse_history<T: Eprint>(rt: &T, history: &History<'_>, fault: &HistoryFault) -> ExitCode {
    let dump = history.dump;
    let _ = eprintln!(rt; "svnup: {dump}: {fault}");
    ExitCode::from(fault.status())
}

// The text of words that are none of a call names the program, and ends with a line feed.
fn refuse_words<T: Eprint>(rt: &T, fault: &WordsFault) -> ExitCode {
    let _ = match fault {
        WordsFault::BadWords(text) => eprint!(rt; "{text}"),
        WordsFault::Memory => eprintln!(rt; "svnup: {fault}"),
    };
    ExitCode::from(fault.status())
}

fn answer<T: Files + Input + Print + Eprint + AllocGlobal + Threads + Wait + Sync>(
    rt: &T,
    invocation: &Invocation<'_>,
) -> ExitCode {
    let Some(history) = &invocation.history else {
        return answer_script(rt, None, &invocation.settings);
    };
    match load_history(rt, history) {
        Ok(repo) => answer_script(rt, Some(repo), &invocation.settings),
        Err(fault) => refuse_history(rt, history, &fault),
    }
}

// Whether the version is asked for, and nothing else.
fn is_version_asked(words: &[String]) -> bool {
    match words {
        [_, word] => word.as_str() == "--version",
        _ => false,
    }
}

fn print_version<T: Print + Eprint>(rt: &T) -> ExitCode {
    match println!(rt; "svnup {VERSION}") {
        Ok(()) => ExitCode::SUCCESS,
        Err(_) => refuse_script(rt, ScriptFault::Write),
    }
}

fn answer_words<T: Files + Input + Print + Eprint + AllocGlobal + Threads + Wait + Sync>(
    rt: &T,
    words: &[String],
) -> ExitCode {
    if is_version_asked(words) {
        return print_version(rt);
    }
    let texts = match texts_of(rt.alloc(), words) {
        Ok(texts) => texts,
        Err(fault) => return refuse_words(rt, &fault),
    };
    match read_invocation(rt.alloc(), &texts) {
        Ok(invocation) => answer(rt, &invocation),
        Err(fault) => refuse_words(rt, &fault),
    }
}

fn main(rt: HostRuntime) -> ExitCode {
    match words(&rt) {
        Ok(words) => answer_words(&rt, &words),
        Err(fault) => refuse_script(&rt, fault),
    }
}

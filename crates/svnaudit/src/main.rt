//! `svnaudit`: compares working copies with a history that is given as a dump of Subversion, prints trees of the history, and writes the history
//! that a script makes as a dump.
//! `docs/AUDIT.md` is the manual.
#![tactic(auto)]

mod command_line;
mod database;
mod dump_front;
mod fault;
mod files;
mod folder;
mod lines;
mod live;
mod load;
mod nested;
mod on_disk;
mod output;
mod pristine;
mod progress;
mod questions;
mod several;
mod show;
mod write;

use crate::command_line::{Request, request_of};
use crate::fault::Fault;
use crate::live::ask_server;
use crate::questions::ask;
use crate::show::show_dump;
use crate::write::write_script;
use std::env;
use std::env::Env;
use std::process::ExitCode;
use std::rt::{Clock, Files};
use svn_answers::Verdict;

// The words of the command line; the first is the program's name.
fn words(rt: &(impl Env + AllocGlobal)) -> Result<Vec<String>, Fault> {
    let words = match env::args(rt) {
        Ok(words) => words,
        Err(error) => return Err(Fault::Words(error)),
    };
    match words.collect(rt.alloc()) {
        Ok(words) => Ok(words),
        Err(_) => Err(Fault::Memory),
    }
}

// Does what is asked, and says what is refused.
fn answer<T: Files + Input + Print + Eprint + Clock + AllocGlobal + Clone + Drop>(
    rt: &T,
    request: &Request<'_>,
) -> ExitCode {
    let done = match request {
        Request::Show(show) => show_dump(rt, show).map(|()| Verdict::True),
        Request::Write(write) => write_script(rt, write).map(|()| Verdict::True),
        Request::Ask(question) => ask(rt, question),
        Request::Live(live) => ask_server(rt, live),
        Request::NoRevision(_) => Err(Fault::BadRevision),
    };
    match done {
        Ok(verdict) => ExitCode::from(verdict.status()),
        Err(fault) => refuse(rt, request, &fault),
    }
}

// Where standard error can't be written either, the status alone tells.
fn refuse<T: Eprint>(rt: &T, request: &Request<'_>, fault: &Fault) -> ExitCode {
    let source = request.source();
    let _ = if fault.is_of_input() {
        eprintln!(rt; "svnaudit: {source}: {fault}")
    } else {
        eprintln!(rt; "svnaudit: {fault}")
    };
    ExitCode::from(Verdict::Refused.status())
}

fn run<T: Files + Input + Print + Eprint + Clock + AllocGlobal + Clone + Drop>(
    rt: &T,
    words: &[String],
) -> ExitCode {
    let mut texts = Vec::new(rt.alloc());
    for word in words {
        if texts.push(word.as_str()).is_err() {
            return out_of_memory(rt);
        }
    }
    match request_of(rt.alloc(), &texts) {
        Ok(request) => answer(rt, &request),
        Err(error) => {
            // the text of words that are none of a call, or the help that was asked for
            let _ = error.print(rt);
            if error.use_stderr() {
                ExitCode::from(Verdict::Refused.status())
            } else {
                ExitCode::SUCCESS
            }
        }
    }
}

fn out_of_memory<T: Eprint>(rt: &T) -> ExitCode {
    let fault = Fault::Memory;
    let _ = eprintln!(rt; "svnaudit: {fault}");
    ExitCode::from(Verdict::Refused.status())
}

fn main(rt: HostRuntime) -> ExitCode {
    match words(&rt) {
        Ok(words) => run(&rt, &words),
        Err(fault) => {
            let _ = eprintln!(rt; "svnaudit: {fault}");
            ExitCode::from(Verdict::Refused.status())
        }
    }
}

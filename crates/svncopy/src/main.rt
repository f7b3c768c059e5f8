//! `svncopy`: makes working copies of Subversion from a dump of a repository, updates them, and puts them right.
//! `docs/COPY.md` is the manual.
#![tactic(auto)]

mod checkout;
mod clock;
mod command_line;
mod dump;
mod expansion;
mod fault;
mod lines;
mod loading;
mod mend;
mod progress;
mod refusing;
mod resume;
mod root;
mod update;
mod url;
mod writing;

use crate::checkout::make;
use crate::command_line::{Request, Resume, UpdateWords, request_of};
use crate::fault::Fault;
use crate::loading::LoadBeside;
use crate::mend::mend_all;
use crate::refusing::{REFUSED, refuse};
use crate::resume::complete;
use crate::update::{switch_copy, update_copy};
use std::env;
use std::env::Env;
use std::fs::File;
use std::process::ExitCode;
use std::rt::{Clock, Files};
use std::sync::Wait;
use std::thread::Threads;
use svn_folder::{FileMaker, Locks};

// The words of the command line; the first is the program's name.
fn words(rt: &(impl Env + AllocGlobal)) -> Result<Vec<String>, Fault> {
    let words = match env::args(rt) {
        Ok(words) => words,
        Err(error) => return Err(Fault::Words(error)),
    };
    match words.collect(rt.alloc()) {
        Ok(words) => Ok(words),
        Err(_) => Err(Fault::Memory),
    }
}

// Completes each copy in turn; one that is refused doesn't keep the others from it.
fn complete_all<T: Files<File = File> + Threads + Locks + Print + Eprint + AllocGlobal>(
    rt: &T,
    words: &Resume<'_>,
) -> ExitCode {
    let mut status = ExitCode::SUCCESS;
    for folder in &words.folders {
        if let Err(fault) = complete(rt, folder, !words.no_sync) {
            status = refuse(rt, folder, &fault);
        }
    }
    status
}

// The status of an update, or of a switch.
fn status_of<T: Eprint>(
    rt: &T,
    words: &UpdateWords<'_>,
    url: &str,
    done: Result<(), Fault>,
) -> ExitCode {
    match done {
        Ok(()) => ExitCode::SUCCESS,
        Err(fault) => refuse(rt, fault.subject(words.dump, url, words.folder), &fault),
    }
}

fn answer<
    T: Files<File = File>
        + Threads
        + Locks
        + FileMaker
        + LoadBeside
        + Wait
        + Sync
        + Input
        + Print
        + Eprint
        + Clock
        + AllocGlobal,
>(rt: &T, request: &Request<'_>) -> ExitCode {
    match request {
        Request::Checkout(words) => match make(rt, words) {
            Ok(()) => ExitCode::SUCCESS,
            Err(fault) => {
                let subject = fault.subject(words.dump, words.url, words.folder);
                refuse(rt, subject, &fault)
            }
        },
        Request::Mend(words) => match mend_all(rt, words) {
            Ok(status) => status,
            Err(fault) => refuse(rt, fault.subject(words.dump, "", "mend"), &fault),
        },
        Request::Resume(words) => complete_all(rt, words),
        Request::Update(words) => status_of(rt, words, words.folder, update_copy(rt, words)),
        Request::Switch(words) => status_of(rt, &words.how, words.url, switch_copy(rt, words)),
        Request::BadNumber(word) => refuse(rt, word, &Fault::BadNumber),
    }
}

fn run<
    T: Files<File = File>
        + Threads
        + Locks
        + FileMaker
        + LoadBeside
        + Wait
        + Sync
        + Input
        + Print
        + Eprint
        + Clock
        + AllocGlobal,
>(rt: &T, words: &[String]) -> ExitCode {
    let mut texts = Vec::new(rt.alloc());
    for word in words {
        if texts.push(word.as_str()).is_err() {
            return refuse(rt, "words", &Fault::Memory);
        }
    }
    match request_of(rt.alloc(), &texts) {
        Ok(request) => answer(rt, &request),
        Err(error) => {
            // the text of words that are none of a call, or the help that was asked for
            let _ = error.print(rt);
            if error.use_stderr() {
                ExitCode::from(REFUSED)
            } else {
                ExitCode::SUCCESS
            }
        }
    }
}

fn main(rt: HostRuntime) -> ExitCode {
    match words(&rt) {
        Ok(words) => run(&rt, &words),
        Err(fault) => refuse(&rt, "words", &fault),
    }
}

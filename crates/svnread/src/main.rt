//! `svnread`: serves one client of Subversion over standard input and output, read only, out of a dump of a repository.
#![tactic(auto)]

mod command_line;
mod fault;
mod headers;
mod load;
mod notes;
mod revisions;

use crate::command_line::{Request, request_of};
use crate::fault::Fault;
use crate::load::load;
use std::env::Env;
use std::io::BufWriter;
use std::process::ExitCode;
use std::rt::Files;
use std::{env, io};
use svn_served::{ServeFault, serve};

/// The status where a client was served no further.
const FAILED: u8 = 1;
/// The status of words and dumps that are refused: nothing was served.
const REFUSED: u8 = 2;

// The words of the command line; the first is the program's name.
fn words(rt: &(impl Env + AllocGlobal)) -> Result<Vec<String>, Fault> {
    let words = match env::args(rt) {
        Ok(words) => words,
        Err(error) => return Err(Fault::Words(error)),
    };
    match words.collect(rt.alloc()) {
        Ok(words) => Ok(words),
        Err(_) => Err(Fault::Memory),
    }
}

// Where standard error can't be written either, the status alone tells.
fn refuse<T: Eprint>(rt: &T, name: &str, fault: &Fault) -> ExitCode {
    let _ = eprintln!(rt; "svnread: {name}: {fault}");
    ExitCode::from(match fault {
        Fault::Served(_) => FAILED,
        _ => REFUSED,
    })
}

// Serves one client, and flushes what was written to it.
fn serve_client<T: Files + Input + Print + AllocGlobal>(
    rt: &T,
    request: &Request<'_>,
) -> Result<(), Fault> {
    let (served, mut texts) = load(rt, request)?;
    let mut writer = match BufWriter::new(rt.alloc(), io::writer(rt)) {
        Ok(writer) => writer,
        Err(error) => return Err(Fault::Served(ServeFault::Write(error))),
    };
    match serve(
        rt.alloc(),
        &served,
        &mut texts,
        &mut rt.reader(),
        &mut writer,
    ) {
        Ok(()) => Ok(()),
        Err(fault) => Err(Fault::Served(fault)),
    }
}

fn answer<T: Files + Input + Print + Eprint + AllocGlobal>(
    rt: &T,
    request: &Request<'_>,
) -> ExitCode {
    match serve_client(rt, request) {
        Ok(()) => ExitCode::SUCCESS,
        Err(Fault::Served(fault)) => refuse(rt, "client", &Fault::Served(fault)),
        Err(fault) => refuse(rt, request.dump, &fault),
    }
}

fn run<T: Files + Input + Print + Eprint + AllocGlobal>(rt: &T, words: &[String]) -> ExitCode {
    let mut texts = Vec::new(rt.alloc());
    for word in words {
        if texts.push(word.as_str()).is_err() {
            return refuse(rt, "words", &Fault::Memory);
        }
    }
    match request_of(rt.alloc(), &texts) {
        Ok(Ok(request)) => answer(rt, &request),
        Ok(Err(word)) => refuse(rt, word, &Fault::BadNumber),
        Err(error) => {
            // the text of words that are none of a call, or the help that was asked for
            let _ = error.print(rt);
            if error.use_stderr() {
                ExitCode::from(REFUSED)
            } else {
                ExitCode::SUCCESS
            }
        }
    }
}

fn main(rt: HostRuntime) -> ExitCode {
    match words(&rt) {
        Ok(words) => run(&rt, &words),
        Err(fault) => refuse(&rt, "words", &fault),
    }
}

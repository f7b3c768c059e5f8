//! The arguments of the command line.

use clap::{Arg, ArgAction, ArgMatches, Command, Error};
use std::alloc::{AllocError, Global};
use svn_version::VERSION;

const ABOUT: &str =
    "Serves one client of Subversion over standard input and output, read only, out of a dump of a repository.";

const AFTER: &str = "\
docs/READ.md describes what is served.

Status 0: the client's bytes ended.
Status 1: an argument or the dump was refused, the client's bytes are no items or commands, or the system failed.

As a tunnel of the stock client, in ~/.subversion/config:

    [tunnels]
    read = svnread --dump /path/to/repo.dump

and then: svn checkout svn+read://any/trunk";

/// What is asked for.
#[derive(Clone, Copy)]
pub(crate) struct Request<'a> {
    /// The dump.
    pub(crate) dump: &'a str,
    /// The path of the repository in URLs, after the host.
    pub(crate) root: &'a str,
    /// After how many calls a drive is stopped.
    pub(crate) cancel_after: Option<u64>,
    /// Whether the texts of files come after all directories are closed.
    pub(crate) late_texts: bool,
}

fn command<'a>(alloc: Global) -> Result<Command<'a>, AllocError> {
    Command::new(alloc, "svnread")
        .version(VERSION)
        .about(ABOUT)
        .after_help(AFTER)
        .arg(
            Arg::new(alloc, "dump")
                .long("dump")
                .value_name("FILE")
                .required(true)
                .help("The dump of the repository"),
        )?
        .arg(
            Arg::new(alloc, "root").long("root").value_name("PATH").help(
                "Where the repository is in URLs, after the host; by default there",
            ),
        )?
        .arg(
            Arg::new(alloc, "cancel-after")
                .long("cancel-after")
                .value_name("N")
                .help("Stop each drive after N calls, as a connection that fails would"),
        )?
        .arg(
            Arg::new(alloc, "late-texts")
                .long("late-texts")
                .action(ArgAction::SetTrue)
                .help("Send the texts of files after all directories are closed"),
        )?
        .arg(
            Arg::new(alloc, "tunnel")
                .short('t')
                .action(ArgAction::SetTrue)
                .help("What a client's tunnel adds; it changes nothing"),
        )?
        .arg(
            Arg::new(alloc, "words")
                .value_name("HOST svnserve")
                .num_args(0..)
                .help("What a client's tunnel adds; it changes nothing"),
        )
}

// The number that a word is; the word where it is none. None where it isn't given.
fn number_of<'a>(matches: &ArgMatches<'a>, id: &str) -> Result<Option<u64>, &'a str> {
    let Some(word) = matches.get_str(id) else {
        return Ok(None);
    };
    match word.parse::<u64>() {
        Ok(number) => Ok(Some(number)),
        Err(_) => Err(word),
    }
}

/// What the words of a call ask for, or the word that is no number. The first word is the program's name.
pub(crate) fn request_of<'a>(
    alloc: Global,
    words: &'a [&'a str],
) -> Result<Result<Request<'a>, &'a str>, Error> {
    let matches = command(alloc)?.try_get_matches_from(words)?;
    let cancel_after = match number_of(&matches, "cancel-after") {
        Ok(number) => number,
        Err(word) => return Ok(Err(word)),
    };
    Ok(Ok(Request {
        dump: matches.get_str("dump").unwrap_or(""),
        root: matches.get_str("root").unwrap_or(""),
        cancel_after,
        late_texts: matches.get_flag("late-texts"),
    }))
}

//! The arguments of the command line.

use clap::{Arg, ArgAction, ArgMatches, Command, Error};
use std::alloc::{AllocError, Global};
use std::num::ParseIntError;
use svn_answers::{Inquiry, Source, Topic};
use svn_dump::Texts;
use svn_types::Rev;
use svn_version::VERSION;

const ABOUT: &str =
    "Compares working copies with the history of a repository, which is given as a dump of Subversion.";

const AFTER: &str = "\
docs/AUDIT.md describes what is printed and what is refused.

Status 0: it was done; with check, each copy is true.
Status 1: a copy is untrue.
Status 2: an argument, the dump, a copy, or a line of the script was refused.

Example: svnadmin dump repo | svnaudit check - copy";

const WAYS: &[&str] = &["sha1", "md5", "whole"];

/// `show DUMP REV [PATH]`: print the tree at a path of a revision.
#[derive(Clone, Copy)]
pub(crate) struct Show<'a> {
    /// The dump.
    pub(crate) dump: Source<'a>,
    /// The revision, if it isn't the last.
    pub(crate) rev: Option<Rev>,
    /// The path in the repository, as it was given.
    pub(crate) path: &'a str,
    /// How texts are kept.
    pub(crate) texts: Texts,
    /// Whether to print how far the dump was read.
    pub(crate) progress: bool,
}

/// `write SCRIPT`: write what the commits of a script make as a dump.
#[derive(Clone, Copy)]
pub(crate) struct Write<'a> {
    /// The script.
    pub(crate) script: Source<'a>,
    /// Whether to print how far the dump was written.
    pub(crate) progress: bool,
}

/// `live TO FROM WC..`: whether these copies are true of what a server says.
#[derive(Drop)]
pub(crate) struct Live<'a> {
    /// What the server reads; with `-` it is standard output.
    pub(crate) to: Source<'a>,
    /// What it writes.
    pub(crate) from: Source<'a>,
    /// The folders of the copies.
    pub(crate) copies: Vec<&'a str>,
    /// What the server is asked for, if that is given.
    pub(crate) url: Option<&'a str>,
    /// Whether one command at most is open.
    pub(crate) one_by_one: bool,
    /// Whether to print how far the copies are asked for.
    pub(crate) progress: bool,
}

/// `check DUMP WC..`: whether each of these is true of the history.
#[derive(Drop)]
pub(crate) struct Check<'a> {
    /// The folders of the copies.
    pub(crate) copies: Vec<&'a str>,
    /// Whether their files are compared with their pristine texts too.
    pub(crate) files: bool,
    /// Whether copies of another UUID than the dump's are taken too.
    pub(crate) any_uuid: bool,
}

/// What is asked about working copies.
#[derive(Drop)]
pub(crate) enum Subject<'a> {
    /// Whether they are true.
    Check(Check<'a>),
    /// `report`, `update`, `calls` and `nodes DUMP WC`: something about this one.
    Copy(Inquiry, &'a str),
}

/// A question about working copies.
#[derive(Drop)]
pub(crate) struct Question<'a> {
    /// What is asked, of which folders.
    pub(crate) subject: Subject<'a>,
    /// The dump.
    pub(crate) dump: Source<'a>,
    /// How texts are kept.
    pub(crate) texts: Texts,
    /// Whether to print how far the dump was read.
    pub(crate) progress: bool,
}

/// What is asked for.
#[derive(Drop)]
pub(crate) enum Request<'a> {
    Show(Show<'a>),
    Write(Write<'a>),
    Ask(Question<'a>),
    Live(Live<'a>),
    /// A word for a revision that is none.
    NoRevision(&'a str),
}

impl<'a> Request<'a> {
    /// What is read.
    pub(crate) fn source(&self) -> Source<'a> {
        match self {
            Request::Show(show) => show.dump,
            Request::Write(write) => write.script,
            Request::Ask(question) => question.dump,
            Request::Live(live) => live.from,
            Request::NoRevision(word) => Source(word),
        }
    }
}

fn word<'a>(alloc: Global, id: &'a str, name: &'a str, help: &'a str) -> Arg<'a> {
    Arg::new(alloc, id).value_name(name).help(help)
}

// One that must be there.
fn required_word<'a>(alloc: Global, id: &'a str, name: &'a str, help: &'a str) -> Arg<'a> {
    word(alloc, id, name, help).required(true)
}

// An option that is there or not.
fn flag<'a>(alloc: Global, name: &'a str, help: &'a str) -> Arg<'a> {
    Arg::new(alloc, name)
        .long(name)
        .action(ArgAction::SetTrue)
        .help(help)
}

fn progress_option<'a>(alloc: Global) -> Arg<'a> {
    flag(
        alloc,
        "progress",
        "Print on standard error how many revisions and bytes are done",
    )
}

fn texts_option<'a>(alloc: Global) -> Arg<'a> {
    Arg::new(alloc, "texts")
        .long("texts")
        .value_name("HOW")
        .value_parser(WAYS)
        .default_value("sha1")
        .help("Keep each text whole, or its SHA-1 or MD5 checksum alone")
}

fn show_command<'a>(alloc: Global) -> Result<Command<'a>, AllocError> {
    Command::new(alloc, "show")
        .about("Print the tree of a revision, at a path")
        .arg(required_word(alloc, "dump", "DUMP", "The dump, or - for standard input"))?
        .arg(required_word(
            alloc,
            "rev",
            "REV",
            "The revision: a number, r and a number, or HEAD",
        ))?
        .arg(word(alloc, "path", "PATH", "A path of the repository").default_value(""))?
        .arg(texts_option(alloc))?
        .arg(progress_option(alloc))
}

fn write_command<'a>(alloc: Global) -> Result<Command<'a>, AllocError> {
    Command::new(alloc, "write")
        .about("Write what the commits of a script make as a dump, for `svnadmin load`")
        .arg(required_word(
            alloc,
            "script",
            "SCRIPT",
            "The script, or - for standard input",
        ))?
        .arg(progress_option(alloc))
}

// The words that all questions about working copies have.
fn question_command<'a>(
    alloc: Global,
    name: &'a str,
    about: &'a str,
) -> Result<Command<'a>, AllocError> {
    Command::new(alloc, name)
        .about(about)
        .arg(required_word(alloc, "dump", "DUMP", "The dump, or - for standard input"))?
        .arg(texts_option(alloc))?
        .arg(progress_option(alloc))
}

fn check_command<'a>(alloc: Global) -> Result<Command<'a>, AllocError> {
    question_command(
        alloc,
        "check",
        "Say whether working copies are true of the history",
    )?
    .arg(required_word(alloc, "copies", "WC", "A folder of a working copy").num_args(1..))?
    .arg(flag(
        alloc,
        "files",
        "Compare the files with their pristine texts, too",
    ))?
    .arg(flag(
        alloc,
        "any-uuid",
        "Take copies of another UUID than the dump's, as those of a mirror",
    ))
}

fn url_option<'a>(alloc: Global) -> Arg<'a> {
    Arg::new(alloc, "url").long("url").value_name("URL").help(
        "Ask for the repository at this URL, and not at the one of the first copy",
    )
}

fn live_command<'a>(alloc: Global) -> Result<Command<'a>, AllocError> {
    Command::new(alloc, "live")
        .about("Say whether working copies are true of what a server says")
        .arg(required_word(
            alloc,
            "to",
            "TO",
            "The named pipe that the server reads; or -, and a WC in place of FROM: the server is at standard output and input",
        ))?
        .arg(required_word(alloc, "from", "FROM", "The named pipe that it writes"))?
        .arg(word(alloc, "copies", "WC", "A folder of a working copy").num_args(0..))?
        .arg(url_option(alloc))?
        .arg(flag(
            alloc,
            "one-by-one",
            "Wait for each answer before the next question",
        ))?
        .arg(flag(
            alloc,
            "progress",
            "Print on standard error what is waited for, and how many nodes are done",
        ))
}

// The words of a question about one copy.
fn copy_command<'a>(
    alloc: Global,
    name: &'a str,
    about: &'a str,
) -> Result<Command<'a>, AllocError> {
    question_command(alloc, name, about)?
        .arg(required_word(alloc, "copy", "WC", "The folder of a working copy"))?
        .arg(flag(alloc, "allow-untrue", "Take an untrue copy all the same"))
}

// The same with the revision that is updated to.
fn update_command<'a>(
    alloc: Global,
    name: &'a str,
    about: &'a str,
) -> Result<Command<'a>, AllocError> {
    copy_command(alloc, name, about)?.arg(word(
        alloc,
        "rev",
        "REV",
        "The revision: a number, r and a number, or HEAD, by default the last",
    ))
}

// With the questions about one copy.
fn with_copy_commands<'a>(alloc: Global, all: Command<'a>) -> Result<Command<'a>, AllocError> {
    all.subcommand(copy_command(
        alloc,
        "report",
        "Print what the client of a working copy reports",
    )?)?
    .subcommand(update_command(
        alloc,
        "update",
        "Print the lines that an update of a working copy prints",
    )?)?
    .subcommand(update_command(
        alloc,
        "calls",
        "Print the calls of the editor in an update of a working copy",
    )?)?
    .subcommand(update_command(
        alloc,
        "nodes",
        "Print the nodes of a working copy after an update",
    )?)
}

fn command<'a>(alloc: Global) -> Result<Command<'a>, AllocError> {
    let all = Command::new(alloc, "svnaudit")
        .version(VERSION)
        .about(ABOUT)
        .after_help(AFTER)
        .subcommand_required(true)
        .disable_help_subcommand(true)
        .subcommand(check_command(alloc)?)?
        .subcommand(live_command(alloc)?)?;
    with_copy_commands(alloc, all)?
        .subcommand(show_command(alloc)?)?
        .subcommand(write_command(alloc)?)
}

fn texts_of(matches: &ArgMatches<'_>) -> Texts {
    match matches.get_str("texts") {
        Some("whole") => Texts::Whole,
        Some("md5") => Texts::Md5,
        _ => Texts::Sha1,
    }
}

// The revision that a word names, where it isn't the last.
fn rev_of(word: &str) -> Result<Option<Rev>, ParseIntError> {
    if word == "HEAD" {
        return Ok(None);
    }
    let number = word.strip_prefix("r").unwrap_or(word);
    Ok(Some(Rev(number.parse::<u64>()?)))
}

fn show_of<'a>(rev: Option<Rev>, matches: &ArgMatches<'a>) -> Show<'a> {
    Show {
        dump: Source(matches.get_str("dump").unwrap_or("-")),
        rev,
        path: matches.get_str("path").unwrap_or(""),
        texts: texts_of(matches),
        progress: matches.get_flag("progress"),
    }
}

fn write_of<'a>(matches: &ArgMatches<'a>) -> Write<'a> {
    Write {
        script: Source(matches.get_str("script").unwrap_or("-")),
        progress: matches.get_flag("progress"),
    }
}

fn copies_of<'a>(alloc: Global, matches: &ArgMatches<'a>) -> Result<Vec<&'a str>, AllocError> {
    match matches.get_strs("copies") {
        Some(copies) => Vec::from_slice(alloc, copies),
        None => Ok(Vec::new(alloc)),
    }
}

// With `-` the word after it is a copy's.
fn live_of<'a>(alloc: Global, matches: &ArgMatches<'a>) -> Result<Live<'a>, AllocError> {
    let to = Source(matches.get_str("to").unwrap_or("-"));
    let from = matches.get_str("from").unwrap_or("-");
    let mut copies = Vec::new(alloc);
    if to.is_standard() {
        copies.push(from)?;
    }
    if let Some(words) = matches.get_strs("copies") {
        copies.extend_from_slice(words)?;
    }
    Ok(Live {
        to,
        from: if to.is_standard() { to } else { Source(from) },
        copies,
        url: matches.get_str("url"),
        one_by_one: matches.get_flag("one-by-one"),
        progress: matches.get_flag("progress"),
    })
}

// What is asked of one copy, by the name of its command.
fn topic_of(name: &str, rev: Option<Rev>) -> Option<Topic> {
    match name {
        "report" => Some(Topic::Report),
        "update" => Some(Topic::Update(rev)),
        "calls" => Some(Topic::Calls(rev)),
        "nodes" => Some(Topic::Nodes(rev)),
        _ => None,
    }
}

fn inquiry_of<'a>(topic: Topic, matches: &ArgMatches<'a>) -> Subject<'a> {
    let inquiry = Inquiry {
        topic,
        allow_untrue: matches.get_flag("allow-untrue"),
    };
    Subject::Copy(inquiry, matches.get_str("copy").unwrap_or("."))
}

// What is asked about working copies, if that is the command.
fn subject_of<'a>(
    alloc: Global,
    name: &str,
    rev: Option<Rev>,
    matches: &ArgMatches<'a>,
) -> Result<Option<Subject<'a>>, AllocError> {
    if name == "check" {
        return Ok(Some(Subject::Check(Check {
            copies: copies_of(alloc, matches)?,
            files: matches.get_flag("files"),
            any_uuid: matches.get_flag("any-uuid"),
        })));
    }
    Ok(topic_of(name, rev).map(|topic| inquiry_of(topic, matches)))
}

fn question_of<'a>(subject: Subject<'a>, matches: &ArgMatches<'a>) -> Question<'a> {
    Question {
        subject,
        dump: Source(matches.get_str("dump").unwrap_or("-")),
        texts: texts_of(matches),
        progress: matches.get_flag("progress"),
    }
}

// The word for a revision, of a command that takes one.
fn rev_word<'a>(name: &str, words: &ArgMatches<'a>) -> &'a str {
    match name {
        "show" | "update" | "calls" | "nodes" => words.get_str("rev").unwrap_or("HEAD"),
        _ => "HEAD",
    }
}

// What a command asks for, by its name.
fn request_by<'a>(
    alloc: Global,
    name: &str,
    words: &ArgMatches<'a>,
) -> Result<Request<'a>, AllocError> {
    let word = rev_word(name, words);
    let Ok(rev) = rev_of(word) else {
        return Ok(Request::NoRevision(word));
    };
    if let Some(subject) = subject_of(alloc, name, rev, words)? {
        return Ok(Request::Ask(question_of(subject, words)));
    }
    match name {
        "live" => Ok(Request::Live(live_of(alloc, words)?)),
        "show" => Ok(Request::Show(show_of(rev, words))),
        _ => Ok(Request::Write(write_of(words))),
    }
}

/// What the words of a call ask for. The first is the program's name.
pub(crate) fn request_of<'a>(alloc: Global, words: &'a [&'a str]) -> Result<Request<'a>, Error> {
    let matches = command(alloc)?.try_get_matches_from(words)?;
    match matches.subcommand() {
        Some((name, words)) => Ok(request_by(alloc, name, words)?),
        // a subcommand is required
        None => Err(Error::from(AllocError)),
    }
}

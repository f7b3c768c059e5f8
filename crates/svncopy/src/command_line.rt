//! The arguments of the command line.

use clap::{Arg, ArgAction, ArgMatches, Command, Error};
use std::alloc::{AllocError, Global};
use svn_types::Rev;
use svn_version::VERSION;

const ABOUT: &str =
    "Makes working copies of Subversion from a dump of a repository, updates them, and puts them right.";

const AFTER: &str = "\
docs/COPY.md describes what is written and what is refused.

Status 0: it was done.
Status 2: an argument, the dump or a folder was refused, or the system failed.

Example: svnadmin dump -q repo | svncopy checkout - svn://h/repo/trunk@12 wc --root svn://h/repo";

/// `checkout DUMP URL[@REV] WC`: make a working copy.
#[derive(Clone, Copy)]
pub(crate) struct Checkout<'a> {
    /// The dump, `-` for standard input.
    pub(crate) dump: &'a str,
    /// The URL, with a revision after `@` if one is given.
    pub(crate) url: &'a str,
    /// The folder.
    pub(crate) folder: &'a str,
    /// The URL of the repository's root, if it is given.
    pub(crate) root: Option<&'a str>,
    /// Whether to say what would be done, and to do nothing.
    pub(crate) dry_run: bool,
    /// Whether to print how far it is.
    pub(crate) progress: bool,
    /// Whether nothing is brought to the disk.
    pub(crate) no_sync: bool,
}

/// `mend DUMP WC..`: put right what isn't true.
#[derive(Drop)]
pub(crate) struct Mend<'a> {
    /// The dump, `-` for standard input.
    pub(crate) dump: &'a str,
    /// The folders.
    pub(crate) folders: Vec<&'a str>,
    /// Whether to say what would be done, and to do nothing.
    pub(crate) dry_run: bool,
    /// Whether to print how far it is.
    pub(crate) progress: bool,
    /// Whether nothing is brought to the disk.
    pub(crate) no_sync: bool,
}

/// `resume WC..`: complete what was cut off.
#[derive(Drop)]
pub(crate) struct Resume<'a> {
    /// The folders.
    pub(crate) folders: Vec<&'a str>,
    /// Whether nothing is brought to the disk.
    pub(crate) no_sync: bool,
}

/// `update DUMP WC [REV]`: bring a working copy, or a path of one, to a revision.
#[derive(Clone, Copy)]
pub(crate) struct UpdateWords<'a> {
    /// The dump, `-` for standard input.
    pub(crate) dump: &'a str,
    /// The folder, or something in one.
    pub(crate) folder: &'a str,
    /// The revision, if one is given.
    pub(crate) rev: Option<Rev>,
    /// After how many calls to stop, if that was asked for.
    pub(crate) limit: Option<u64>,
    /// Whether the texts of files come after all directories are closed.
    pub(crate) late_texts: bool,
    /// Whether to say what would be done, and to do nothing.
    pub(crate) dry_run: bool,
    /// Whether to print how far it is.
    pub(crate) progress: bool,
    /// Whether nothing is brought to the disk.
    pub(crate) no_sync: bool,
}

/// `switch DUMP WC URL [REV]`: bring a working copy, or a path of one, to another path of the repository.
#[derive(Clone, Copy)]
pub(crate) struct Switch<'a> {
    /// The URL, or `^/` and the path in the repository; with a revision after `@` if one is given.
    pub(crate) url: &'a str,
    /// What, and how.
    pub(crate) how: UpdateWords<'a>,
}

/// What is asked for.
#[derive(Drop)]
pub(crate) enum Request<'a> {
    Checkout(Checkout<'a>),
    Mend(Mend<'a>),
    Resume(Resume<'a>),
    Update(UpdateWords<'a>),
    Switch(Switch<'a>),
    // A word is no number that one is wanted for.
    BadNumber(&'a str),
}

fn word<'a>(alloc: Global, id: &'a str, name: &'a str, help: &'a str) -> Arg<'a> {
    Arg::new(alloc, id)
        .value_name(name)
        .help(help)
        .required(true)
}

// The word that leaves out all syncs.
fn no_sync<'a>(alloc: Global) -> Arg<'a> {
    Arg::new(alloc, "no-sync")
        .long("no-sync")
        .action(ArgAction::SetTrue)
        .help(
            "Leave it to the system when what is written reaches the disk: faster, but not safe against a loss of power",
        )
}

// The word for how far it is.
fn progress<'a>(alloc: Global) -> Arg<'a> {
    Arg::new(alloc, "progress")
        .long("progress")
        .action(ArgAction::SetTrue)
        .help("Print on standard error how many revisions and bytes are read")
}

// The word that leaves all as it is.
fn dry_run<'a>(alloc: Global) -> Arg<'a> {
    Arg::new(alloc, "dry-run")
        .long("dry-run")
        .action(ArgAction::SetTrue)
        .help("Print what would be done, or what is in the way, and change nothing")
}

fn checkout_command<'a>(alloc: Global) -> Result<Command<'a>, AllocError> {
    Command::new(alloc, "checkout")
        .about("Make a working copy of a revision")
        .arg(word(alloc, "dump", "DUMP", "The dump, or - for standard input"))?
        .arg(word(
            alloc,
            "url",
            "URL",
            "The URL that the copy is of, and @REV; by default the last revision",
        ))?
        .arg(word(
            alloc,
            "folder",
            "WC",
            "The folder of the working copy, which may be there",
        ))?
        .arg(
            Arg::new(alloc, "root")
                .long("root")
                .value_name("URL")
                .help("The URL of the repository's root, by default the copy's"),
        )?
        .arg(dry_run(alloc))?
        .arg(progress(alloc))?
        .arg(no_sync(alloc))
}

fn mend_command<'a>(alloc: Global) -> Result<Command<'a>, AllocError> {
    Command::new(alloc, "mend")
        .about("Put right what of working copies isn't true of their repository")
        .arg(word(alloc, "dump", "DUMP", "The dump, or - for standard input"))?
        .arg(word(alloc, "folders", "WC", "The folder of a working copy").num_args(1..))?
        .arg(dry_run(alloc))?
        .arg(progress(alloc))?
        .arg(no_sync(alloc))
}

fn resume_command<'a>(alloc: Global) -> Result<Command<'a>, AllocError> {
    Command::new(alloc, "resume")
        .about("Complete working copies whose making was cut off")
        .arg(word(alloc, "folders", "WC", "The folder of a working copy").num_args(1..))?
        .arg(no_sync(alloc))
}

// The revision.
fn revision<'a>(alloc: Global) -> Arg<'a> {
    Arg::new(alloc, "rev")
        .value_name("REV")
        .help("The revision, by default the last one of the dump")
}

// After how many calls to stop.
fn limit<'a>(alloc: Global) -> Arg<'a> {
    Arg::new(alloc, "limit").long("limit").value_name("N").help(
        "Stop after N calls of the edit, and leave an incomplete copy, which another update completes",
    )
}

// The word that has texts come last.
fn late_texts<'a>(alloc: Global) -> Arg<'a> {
    Arg::new(alloc, "late-texts")
        .long("late-texts")
        .action(ArgAction::SetTrue)
        .help("Have the texts of files come after all directories are closed")
}

// The words that say how.
fn with_how<'a>(alloc: Global, command: Command<'a>) -> Result<Command<'a>, AllocError> {
    command
        .arg(limit(alloc))?
        .arg(late_texts(alloc))?
        .arg(dry_run(alloc))?
        .arg(progress(alloc))?
        .arg(no_sync(alloc))
}

fn update_command<'a>(alloc: Global) -> Result<Command<'a>, AllocError> {
    let command = Command::new(alloc, "update")
        .about("Bring a working copy, or a path of one, to a revision")
        .arg(word(alloc, "dump", "DUMP", "The dump, or - for standard input"))?
        .arg(word(
            alloc,
            "folder",
            "WC[/PATH]",
            "The folder of a working copy, or something in one",
        ))?
        .arg(revision(alloc))?;
    with_how(alloc, command)
}

fn switch_command<'a>(alloc: Global) -> Result<Command<'a>, AllocError> {
    let command = Command::new(alloc, "switch")
        .about("Bring a working copy, or a path of one, to another path of the repository")
        .arg(word(alloc, "dump", "DUMP", "The dump, or - for standard input"))?
        .arg(word(
            alloc,
            "folder",
            "WC[/PATH]",
            "The folder of a working copy, or something in one",
        ))?
        .arg(word(
            alloc,
            "url",
            "URL|^/PATH",
            "The URL, or ^/ and the path in the repository",
        ))?
        .arg(revision(alloc))?;
    with_how(alloc, command)
}

fn command<'a>(alloc: Global) -> Result<Command<'a>, AllocError> {
    Command::new(alloc, "svncopy")
        .version(VERSION)
        .about(ABOUT)
        .after_help(AFTER)
        .subcommand_required(true)
        .disable_help_subcommand(true)
        .subcommand(checkout_command(alloc)?)?
        .subcommand(mend_command(alloc)?)?
        .subcommand(resume_command(alloc)?)?
        .subcommand(update_command(alloc)?)?
        .subcommand(switch_command(alloc)?)
}

fn checkout_of<'a>(matches: &ArgMatches<'a>) -> Checkout<'a> {
    Checkout {
        dump: matches.get_str("dump").unwrap_or("-"),
        url: matches.get_str("url").unwrap_or(""),
        folder: matches.get_str("folder").unwrap_or("."),
        root: matches.get_str("root"),
        dry_run: matches.get_flag("dry-run"),
        progress: matches.get_flag("progress"),
        no_sync: matches.get_flag("no-sync"),
    }
}

fn folders_of<'a>(alloc: Global, matches: &ArgMatches<'a>) -> Result<Vec<&'a str>, AllocError> {
    match matches.get_strs("folders") {
        Some(folders) => Vec::from_slice(alloc, folders),
        None => Ok(Vec::new(alloc)),
    }
}

fn mend_of<'a>(alloc: Global, matches: &ArgMatches<'a>) -> Result<Mend<'a>, AllocError> {
    Ok(Mend {
        dump: matches.get_str("dump").unwrap_or("-"),
        folders: folders_of(alloc, matches)?,
        dry_run: matches.get_flag("dry-run"),
        progress: matches.get_flag("progress"),
        no_sync: matches.get_flag("no-sync"),
    })
}

// The number that a word is; the word where it is none. None where it isn't given.
fn number_of<'a>(matches: &ArgMatches<'a>, id: &str) -> Result<Option<u64>, &'a str> {
    let Some(word) = matches.get_str(id) else {
        return Ok(None);
    };
    match word.parse::<u64>() {
        Ok(number) => Ok(Some(number)),
        Err(_) => Err(word),
    }
}

fn rev_of<'a>(matches: &ArgMatches<'a>) -> Result<Option<Rev>, &'a str> {
    match number_of(matches, "rev")? {
        Some(number) => Ok(Some(Rev(number))),
        None => Ok(None),
    }
}

fn update_of<'a>(matches: &ArgMatches<'a>) -> Result<UpdateWords<'a>, &'a str> {
    Ok(UpdateWords {
        dump: matches.get_str("dump").unwrap_or("-"),
        folder: matches.get_str("folder").unwrap_or("."),
        rev: rev_of(matches)?,
        limit: number_of(matches, "limit")?,
        late_texts: matches.get_flag("late-texts"),
        dry_run: matches.get_flag("dry-run"),
        progress: matches.get_flag("progress"),
        no_sync: matches.get_flag("no-sync"),
    })
}

fn update_request<'a>(matches: &ArgMatches<'a>) -> Request<'a> {
    match update_of(matches) {
        Ok(update) => Request::Update(update),
        Err(word) => Request::BadNumber(word),
    }
}

fn switch_request<'a>(matches: &ArgMatches<'a>) -> Request<'a> {
    match update_of(matches) {
        Ok(how) => Request::Switch(Switch {
            url: matches.get_str("url").unwrap_or(""),
            how,
        }),
        Err(word) => Request::BadNumber(word),
    }
}

/// What the words of a call ask for. The first is the program's name.
pub(crate) fn request_of<'a>(alloc: Global, words: &'a [&'a str]) -> Result<Request<'a>, Error> {
    let matches = command(alloc)?.try_get_matches_from(words)?;
    let Some((name, words)) = matches.subcommand() else {
        // a subcommand is required
        return Err(Error::from(AllocError));
    };
    Ok(match name {
        "mend" => Request::Mend(mend_of(alloc, words)?),
        "resume" => Request::Resume(Resume {
            folders: folders_of(alloc, words)?,
            no_sync: words.get_flag("no-sync"),
        }),
        "update" => update_request(words),
        "switch" => switch_request(words),
        _ => Request::Checkout(checkout_of(words)),
    })
}

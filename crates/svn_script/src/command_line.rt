//! The words of the command line.
ghost use Rattle.std.specs.Prelude.{◌≡◌, ◌≤◌, IfOk, false};
ghost use Rattle.svn_script.specs.FaultNumbers.{words_fault_number, words_status};

use clap::error::ErrorKind;
use clap::{Arg, ArgAction, ArgMatches, Command, value_parser};
use std::alloc::{AllocError, Global};
use svn_types::MAX_CAPACITY;
use thiserror::Error;

/// How many calls wait between driver and working copy where no number is given.
const DEFAULT_CAPACITY: usize = 64;

const ABOUT: &str = "Runs a script of repository and working copy commands from standard input.";

const WAYS: &[&str] = &["sha1", "whole"];

const AFTER: &str = "\
The commands are described in docs/SCRIPT.md.

Status 0: the script ended, refused commands included.
Status 1: reading or writing failed, or an allocation.
Status 2: a line of the script, the dump, or one of these words is at fault.

Example: printf 'put f a\\ncommit\\ncheckout 1\\nshow\\n' | svnup";

/// How the `update` and `switch-to` of a script must be run. By default in two threads, with at most 64 calls waiting.
#[derive(Clone, Copy, Debug, PartialEq, Eq)]
pub struct Settings {
    /// How many calls may wait between driver and working copy, 1 to 4,096. Unused if both run in turn.
    pub capacity: usize,
    /// Whether driver and working copy run in turn, on one thread.
    pub in_turn: bool,
}

impl Default for Settings {
    ghost is_default = { λ s. (s.capacity ≡ 64) × (s.in_turn ≡ false) };

    fn default() -> Settings {
        Settings {
            capacity: DEFAULT_CAPACITY,
            in_turn: false,
        }
    }
}

/// The dump that the repository of a script is loaded from.
#[derive(Clone, Copy, Debug, PartialEq, Eq)]
pub struct History<'a> {
    /// The path of its file.
    pub dump: &'a str,
    /// Whether texts are kept whole; else each is replaced by its SHA-1 checksum.
    pub whole_texts: bool,
}

/// What the words of a call of `svnup` ask for.
#[derive(Clone, Copy, Debug, PartialEq, Eq)]
pub struct Invocation<'a> {
    /// How the script's runs are made.
    pub settings: Settings,
    /// Where the script's repository comes from; None for a new one.
    pub history: Option<History<'a>>,
}

/// Why the words of the command line give no settings. `svnup` prints it to standard error.
#[derive(Debug, Drop, Error)]
pub enum WordsFault {
    /// The words aren't those of a call, or ask for help. The text says why, or is the help; it ends with a line feed.
    #[error("{0}")]
    BadWords(String),
    /// An allocation failed.
    #[error("out of memory")]
    Memory,
}

impl WordsFault {
    /// The fault's number: 71 for BadWords, 72 for Memory.
    pub fn number(&self) -> u32
        ensures { result ≡ words_fault_number self.now }
    {
        match self {
            WordsFault::BadWords(_) => 71,
            WordsFault::Memory => 72,
        }
    }

    /// The exit status that a program gives for it: 2 where the words are at fault, else 1.
    pub fn status(&self) -> u8
        ensures { result ≡ words_status self.now }
    {
        match self {
            WordsFault::BadWords(_) => 2,
            WordsFault::Memory => 1,
        }
    }
}

fn capacity_option<'a>(alloc: Global) -> Arg<'a> {
    Arg::new(alloc, "capacity")
        .long("capacity")
        .value_name("N")
        .value_parser(value_parser!(usize).range(1..=4096))
        .default_value("64")
        .help("How many calls may wait between driver and working copy, 1 to 4096")
}

fn in_turn_option<'a>(alloc: Global) -> Arg<'a> {
    Arg::new(alloc, "in-turn")
        .long("in-turn")
        .action(ArgAction::SetTrue)
        .help("Run driver and working copy in turn, on one thread")
}

fn history_option<'a>(alloc: Global) -> Arg<'a> {
    Arg::new(alloc, "history")
        .long("history")
        .value_name("DUMP")
        .help("Begin with the repository of this dump (svnadmin dump)")
}

fn texts_option<'a>(alloc: Global) -> Arg<'a> {
    Arg::new(alloc, "texts")
        .long("texts")
        .value_name("HOW")
        .value_parser(WAYS)
        .default_value("sha1")
        .help("Keep each text of the dump whole, or its SHA-1 checksum in its place")
}

// The words that say how runs are made.
fn settings_command<'a>(alloc: Global) -> Result<Command<'a>, AllocError> {
    Command::new(alloc, "svnup")
        .about(ABOUT)
        .after_help(AFTER)
        .arg(capacity_option(alloc))?
        .arg(in_turn_option(alloc))
}

// The same, and those that say where the repository comes from.
fn invocation_command<'a>(alloc: Global) -> Result<Command<'a>, AllocError> {
    settings_command(alloc)?
        .arg(history_option(alloc))?
        .arg(texts_option(alloc))
}

fn parse_settings<'a>(alloc: Global, words: &'a [&'a str]) -> Result<ArgMatches<'a>, clap::Error> {
    settings_command(alloc)?.try_get_matches_from(words)
}

fn parse_invocation<'a>(
    alloc: Global,
    words: &'a [&'a str],
) -> Result<ArgMatches<'a>, clap::Error> {
    invocation_command(alloc)?.try_get_matches_from(words)
}

// The capacity that was given. No number but these passes the parser of its argument.
fn capacity_of(matches: &ArgMatches<'_>) -> usize
    ensures least { 1 ≤ result }
    ensures most { result ≤ MAX_CAPACITY }
{
    match matches.get_one::<usize>("capacity") {
        Some(capacity) if 1 <= capacity && capacity <= MAX_CAPACITY => capacity,
        _ => DEFAULT_CAPACITY,
    }
}

fn fault_of(alloc: Global, error: &clap::Error) -> WordsFault {
    if error.kind() == ErrorKind::OutOfMemory {
        return WordsFault::Memory;
    }
    match format!(in alloc; "{error}") {
        Ok(text) => WordsFault::BadWords(text),
        Err(_) => WordsFault::Memory,
    }
}

fn settings_of(matches: &ArgMatches<'_>) -> Settings
    ensures least { 1 ≤ result.capacity }
    ensures most { result.capacity ≤ MAX_CAPACITY }
{
    Settings {
        capacity: capacity_of(matches),
        in_turn: matches.get_flag("in-turn"),
    }
}

fn history_of<'a>(matches: &ArgMatches<'a>) -> Option<History<'a>> {
    let dump = matches.get_str("history")?;
    let whole_texts = matches.get_str("texts") == Some("whole");
    Some(History { dump, whole_texts })
}

/// Reads words that say how the runs of a script are made; the first is the program's name: `svnup [--capacity N] [--in-turn]`, where N is
/// 1 to 4,096, by default 64. BadWords where they aren't of this form, or ask for help by `-h` or `--help`; Memory where an allocation failed.
pub fn read_words<'a>(alloc: Global, words: &'a [&'a str]) -> Result<Settings, WordsFault>
    ensures least { IfOk result (λ s. 1 ≤ s.capacity) }
    ensures most { IfOk result (λ s. s.capacity ≤ MAX_CAPACITY) }
{
    match parse_settings(alloc, words) {
        Ok(matches) => Ok(settings_of(&matches)),
        Err(error) => Err(fault_of(alloc, &error)),
    }
}

/// Reads the words of a call of `svnup`; the first is the program's name: those of `read_words`, and `[--history DUMP] [--texts sha1|whole]`, by
/// default `sha1`. BadWords where they aren't of this form, or ask for help by `-h` or `--help`; Memory where an allocation failed.
pub fn read_invocation<'a>(
    alloc: Global,
    words: &'a [&'a str],
) -> Result<Invocation<'a>, WordsFault>
    ensures least { IfOk result (λ r. 1 ≤ r.settings.capacity) }
    ensures most { IfOk result (λ r. r.settings.capacity ≤ MAX_CAPACITY) }
{
    match parse_invocation(alloc, words) {
        Ok(matches) => Ok(Invocation {
            settings: settings_of(&matches),
            history: history_of(&matches),
        }),
        Err(error) => Err(fault_of(alloc, &error)),
    }
}

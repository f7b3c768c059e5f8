//! Names and texts, of the lengths that those of large source trees have.

use crate::dice::Dice;
use std::alloc::{AllocError, Global};
use std::str;

const WORD_COUNT: usize = 48;

// How many of the words are those of directories.
const PLAIN_WORDS: usize = 24;

// Of directories, and of what files' names are put together from.
static WORDS: [&str; WORD_COUNT] = [
    "api",
    "core",
    "util",
    "net",
    "drivers",
    "kernel",
    "include",
    "generic",
    "internal",
    "support",
    "concurrent",
    "security",
    "provider",
    "management",
    "instrument",
    "attribute",
    "classfile",
    "constant",
    "platform",
    "transport",
    "controller",
    "interface",
    "scheduler",
    "filesystem",
    "Abstract",
    "Default",
    "Concurrent",
    "Linked",
    "Hash",
    "Array",
    "Blocking",
    "Queue",
    "Buffer",
    "Factory",
    "Exception",
    "Handler",
    "Listener",
    "Context",
    "Descriptor",
    "Iterator",
    "Builder",
    "Registry",
    "Resolver",
    "Permission",
    "Certificate",
    "Connection",
    "Transformer",
    "Serialization",
];

const SUFFIX_COUNT: usize = 8;

static SUFFIXES: [&str; SUFFIX_COUNT] = [
    ".java",
    ".java",
    ".java",
    ".c",
    ".c",
    ".h",
    ".txt",
    ".properties",
];

fn word(place: usize) -> &'static str {
    match WORDS.get(place) {
        Some(word) => word,
        None => "other",
    }
}

fn suffix(place: usize) -> &'static str {
    match SUFFIXES.get(place) {
        Some(suffix) => suffix,
        None => ".c",
    }
}

// One of that many words, the first ones.
fn any_word(dice: &mut Dice, count: usize) -> &'static str {
    word(dice.place(count))
}

fn any_suffix(dice: &mut Dice) -> &'static str {
    suffix(dice.place(SUFFIX_COUNT))
}

/// The name of a directory, with a number that no other has.
pub(crate) fn directory_name(
    alloc: Global,
    dice: &mut Dice,
    number: usize,
) -> Result<String, AllocError> {
    let first = any_word(dice, PLAIN_WORDS);
    if dice.once_in(3) {
        let second = any_word(dice, PLAIN_WORDS);
        return format!(in alloc; "{first}-{second}{number}");
    }
    format!(in alloc; "{first}{number}")
}

/// What the names of a directory's files begin with, as many of them do alike.
pub(crate) fn stem(alloc: Global, dice: &mut Dice) -> Result<String, AllocError> {
    let first = any_word(dice, WORD_COUNT);
    if dice.once_in(3) {
        return String::from_str(alloc, first);
    }
    let second = any_word(dice, WORD_COUNT);
    format!(in alloc; "{first}{second}")
}

/// The name of a file with that stem, and a number that no other of its directory has.
pub(crate) fn file_name(
    alloc: Global,
    dice: &mut Dice,
    stem: &str,
    number: u64,
) -> Result<String, AllocError> {
    let suffix = any_suffix(dice);
    let last = if dice.once_in(2) {
        ""
    } else {
        any_word(dice, WORD_COUNT)
    };
    format!(in alloc; "{stem}{last}{number}{suffix}")
}

// Of that many bytes is what texts are cut from.
const TEXT_BYTES: u64 = 1 << 18;

/// Texts that are cut from one run of random letters.
#[derive(Drop)]
pub(crate) struct Texts {
    letters: Vec<u8>,
}

impl Texts {
    pub(crate) fn new(alloc: Global, dice: &mut Dice) -> Result<Texts, AllocError> {
        let mut letters = Vec::new(alloc);
        for _ in 0..TEXT_BYTES {
            letters.push(b'a' + (dice.below(26) & 0x1f) as u8)?;
        }
        Ok(Texts { letters })
    }

    /// That many letters from a random place on, or as many as there are.
    pub(crate) fn cut(&self, dice: &mut Dice, len: u64) -> &str {
        let len = (len.min(TEXT_BYTES) as usize).min(self.letters.len());
        let start = dice.place(self.letters.len() - len);
        match self.letters.get(start..start.saturating_add(len)) {
            Some(text) => str::from_utf8(text).unwrap_or(""),
            None => "",
        }
    }

    /// A text whose length is below the least in a tenth of cases, below seven times that in half of them, and over fifty times that in a tenth.
    pub(crate) fn draw(&self, dice: &mut Dice, least: u64) -> &str {
        let times = match dice.below(10) {
            0 => 1,
            1..=4 => dice.from(1, 6),
            5..=8 => dice.from(7, 40),
            _ => dice.from(50, 30),
        };
        let len = least.saturating_mul(times) / 2;
        let more = dice.below(least);
        self.cut(dice, len.saturating_add(more))
    }
}

//! Names, paths and names of properties from their texts, and the words of the command line.
use crate::trouble::{Trouble, holds};
use std::alloc::Global;
use svn_script::{Settings, WordsFault, read_words};
use svn_types::{Name, PathFault, PropName, RelPath};

// What a text is read as.
#[derive(Clone, Copy)]
enum Kind {
    Path,
    Name,
    PropName,
}

// Texts, and how many names they are.
static TEXTS: [(Kind, &str, Result<usize, PathFault>); 11] = [
    (Kind::Path, "", Ok(0)),
    (Kind::Path, "a/b", Ok(2)),
    (Kind::Path, "a//b", Err(PathFault::EmptyComponent)),
    (Kind::Path, "a/../b", Err(PathFault::Dots)),
    (Kind::Path, "a\u{7}", Err(PathFault::BadCharacter)),
    (
        Kind::Path,
        "a-name-of-more-than-fourteen-bytes/another-name-of-more-than-fourteen-bytes",
        Ok(2),
    ),
    (Kind::Name, "a", Ok(1)),
    (Kind::Name, "a/b", Err(PathFault::BadCharacter)),
    (Kind::PropName, "svn:eol-style", Ok(1)),
    (Kind::PropName, "a-name-of-more-than-fourteen-bytes", Ok(1)),
    (Kind::PropName, "1a", Err(PathFault::BadCharacter)),
];

// A result other than out of memory must be the row's.
fn answers(
    found: Result<usize, PathFault>,
    wanted: Result<usize, PathFault>,
    other: &'static str,
) -> Result<(), Trouble> {
    if found == Err(PathFault::Memory) {
        return Err(Trouble::Memory);
    }
    holds(found == wanted, other)
}

fn read_path(alloc: Global, text: &str) -> Result<usize, PathFault> {
    match RelPath::parse(alloc, text) {
        Ok(path) => Ok(path.components().len()),
        Err(fault) => Err(fault),
    }
}

fn read_name(alloc: Global, text: &str) -> Result<usize, PathFault> {
    match Name::parse(alloc, text) {
        Ok(_) => Ok(1),
        Err(fault) => Err(fault),
    }
}

fn read_prop_name(alloc: Global, text: &str) -> Result<usize, PathFault> {
    match PropName::parse(alloc, text) {
        Ok(_) => Ok(1),
        Err(fault) => Err(fault),
    }
}

fn is_read(
    alloc: Global,
    kind: Kind,
    text: &str,
    wanted: Result<usize, PathFault>,
) -> Result<(), Trouble> {
    match kind {
        Kind::Path => {
            let found = read_path(alloc, text);
            answers(found, wanted, "a path is read otherwise")
        }
        Kind::Name => {
            let found = read_name(alloc, text);
            answers(found, wanted, "a name is read otherwise")
        }
        Kind::PropName => {
            let found = read_prop_name(alloc, text);
            answers(found, wanted, "the name of a property is read otherwise")
        }
    }
}

fn text_rows() -> &'static [(Kind, &'static str, Result<usize, PathFault>)] {
    &TEXTS
}

fn texts(alloc: Global) -> Result<(), Trouble> {
    for (kind, text, wanted) in text_rows() {
        is_read(alloc, *kind, text, *wanted)?;
    }
    Ok(())
}

// Names of 255 and of 256 bytes, and paths of 128 and of 129 names: a part repeated, and one more letter.
static LONG_PATHS: [(&str, usize, Result<usize, PathFault>); 4] = [
    ("a", 254, Ok(1)),
    ("a", 255, Err(PathFault::NameTooLong)),
    ("a/", 127, Ok(128)),
    ("a/", 128, Err(PathFault::TooManyComponents)),
];

fn long_text(alloc: Global, part: &str, count: usize) -> Result<String, Trouble> {
    let mut text = part.repeat(alloc, count)?;
    text.push('a')?;
    Ok(text)
}

fn is_long_read(
    alloc: Global,
    part: &str,
    count: usize,
    wanted: Result<usize, PathFault>,
) -> Result<(), Trouble> {
    let text = long_text(alloc, part, count)?;
    let found = read_path(alloc, &text);
    answers(found, wanted, "a long path is read otherwise")
}

fn long_rows() -> &'static [(&'static str, usize, Result<usize, PathFault>)] {
    &LONG_PATHS
}

fn long_paths(alloc: Global) -> Result<(), Trouble> {
    for (part, count, wanted) in long_rows() {
        is_long_read(alloc, part, *count, *wanted)?;
    }
    Ok(())
}

fn joined_with_b(alloc: Global, path: &RelPath) -> Result<RelPath, PathFault> {
    path.join(alloc, &Name::parse(alloc, "b")?)
}

fn short_join(alloc: Global) -> Result<(), Trouble> {
    let path = RelPath::parse(alloc, "a")?;
    let joined = joined_with_b(alloc, &path)?;
    let is_well = joined == RelPath::parse(alloc, "a/b")?;
    holds(is_well, "a path and a name are joined otherwise")
}

fn long_join(alloc: Global) -> Result<(), Trouble> {
    let text = long_text(alloc, "a/", 127)?;
    let path = RelPath::parse(alloc, &text)?;
    let found = match joined_with_b(alloc, &path) {
        Ok(joined) => Ok(joined.components().len()),
        Err(fault) => Err(fault),
    };
    let wanted = Err(PathFault::TooManyComponents);
    answers(found, wanted, "a path of 129 names is joined")
}

/// Names, paths and names of properties.
pub(crate) fn names(alloc: Global) -> Result<(), Trouble> {
    texts(alloc)?;
    long_paths(alloc)?;
    short_join(alloc)?;
    long_join(alloc)
}

// Words, and the capacity and whether runs are in turn; where there is none, a text says why.
type WordRow = (&'static [&'static str], Option<(usize, bool)>);

static WORDS: [WordRow; 9] = [
    (&["svnup"], Some((64, false))),
    (&["svnup", "--capacity", "1", "--in-turn"], Some((1, true))),
    (&["svnup", "--capacity", "4096"], Some((4096, false))),
    (&["svnup", "--capacity", "0"], None),
    (&["svnup", "--capacity", "4097"], None),
    (&["svnup", "--capacity"], None),
    (&["svnup", "--other"], None),
    (&["svnup", "x"], None),
    (&["svnup", "--help"], None),
];

fn read(alloc: Global, words: &[&str]) -> Result<Option<(usize, bool)>, Trouble> {
    match read_words(alloc, words) {
        Ok(Settings { capacity, in_turn }) => Ok(Some((capacity, in_turn))),
        Err(WordsFault::BadWords(text)) => {
            if text.is_empty() {
                return Err(Trouble::Other("bad words are told by no text"));
            }
            Ok(None)
        }
        Err(WordsFault::Memory) => Err(Trouble::Memory),
    }
}

fn word_rows() -> &'static [WordRow] {
    &WORDS
}

fn are_read(alloc: Global, row: &WordRow) -> Result<(), Trouble> {
    let (words, wanted) = *row;
    let found = read(alloc, words)?;
    holds(
        found == wanted,
        "words of a command line are read otherwise",
    )
}

/// The words of the command line.
pub(crate) fn words(alloc: Global) -> Result<(), Trouble> {
    for row in word_rows() {
        are_read(alloc, row)?;
    }
    Ok(())
}

//! What a path, a name and the name of a property may be. Faults are compared by their numbers: 1 a component is empty, 2 it is `.` or `..`, 3 it
//! has a character that it may not have, 4 it is too long, 5 there are too many; 0 is none.
use std::alloc::Global;
use std::process::Abort;
use std::test::Fail;
use svn_types::{Name, PathFault, PropName, RelPath};

fn number_of<T: Drop>(parsed: Result<T, PathFault>) -> u32 {
    match parsed {
        Ok(_) => 0,
        Err(fault) => fault.number(),
    }
}

// What a text is parsed as.
#[derive(Clone, Copy)]
enum Part {
    Path,
    Name,
    PropName,
}

fn fault_of(alloc: Global, part: Part, text: &str) -> u32 {
    match part {
        Part::Path => number_of(RelPath::parse(alloc, text)),
        Part::Name => number_of(Name::parse(alloc, text)),
        Part::PropName => number_of(PropName::parse(alloc, text)),
    }
}

fn is_answered(rt: &impl Abort, alloc: Global, part: Part, text: &str, fault: u32) {
    assert_eq!(rt; fault_of(alloc, part, text), fault, "{text:?}");
}

fn are_answered(rt: &impl Abort, alloc: Global, part: Part, rows: &[(&str, u32)]) {
    for (text, fault) in rows {
        is_answered(rt, alloc, part, text, *fault);
    }
}

static PATHS: &[(&str, u32)] = &[
    ("", 0),
    ("a", 0),
    ("b/a/b.c", 0),
    ("...", 0),
    ("..a", 0),
    (".a/a.", 0),
    (" ", 0),
    ("a b", 0),
    ("~", 0),
    ("\u{80}", 0),
    ("\u{e9}/\u{10ffff}", 0),
    ("-", 0),
    ("%", 0),
    ("/", 1),
    ("/a", 1),
    ("a/", 1),
    ("a//b", 1),
    (".", 2),
    ("a/..", 2),
    ("./a", 2),
    ("a/../b", 2),
    ("a/\u{0}", 3),
    ("\u{1f}", 3),
    ("a/b\n", 3),
    ("\u{7f}/a", 3),
    // the first faulty component decides
    ("a//..", 1),
    ("../a//\u{7}", 2),
    ("\u{7}/../", 3),
];

#[test]
fn texts_are_paths_or_not(rt: HostRuntime) {
    are_answered(&rt, rt.alloc(), Part::Path, PATHS);
}

static NAMES: &[(&str, u32)] = &[
    ("a", 0),
    ("...", 0),
    ("\u{20}", 0),
    ("\u{7e}", 0),
    ("\u{80}", 0),
    ("", 1),
    (".", 2),
    ("..", 2),
    ("/", 3),
    ("a/", 3),
    ("a/b", 3),
    ("\u{0}", 3),
    ("\u{1f}", 3),
    ("\u{7f}", 3),
];

#[test]
fn texts_are_names_or_not(rt: HostRuntime) {
    are_answered(&rt, rt.alloc(), Part::Name, NAMES);
}

static PROP_NAMES: &[(&str, u32)] = &[
    ("a", 0),
    ("Z", 0),
    (":", 0),
    ("_", 0),
    ("a1", 0),
    ("a-", 0),
    ("a.", 0),
    ("a:", 0),
    ("a_", 0),
    ("svn:mime-type", 0),
    ("", 1),
    ("-", 3),
    (".a", 3),
    ("0", 3),
    ("1a", 3),
    (" a", 3),
    ("a b", 3),
    ("a/b", 3),
    ("\u{e9}", 3),
    ("a\u{e9}", 3),
    ("a\u{0}", 3),
    ("a%", 3),
];

#[test]
fn texts_are_names_of_properties_or_not(rt: HostRuntime) {
    are_answered(&rt, rt.alloc(), Part::PropName, PROP_NAMES);
}

// Bytes that need be no UTF-8.
static PROP_BYTES: &[(&[u8], u32)] = &[
    (b"svn:eol-style", 0),
    (b"", 1),
    (b"p\xff", 3),
    (b"p\xc3\xa9", 3),
];

fn bytes_rows() -> &'static [(&'static [u8], u32)] {
    PROP_BYTES
}

fn is_answered_bytes(rt: &impl Abort, alloc: Global, bytes: &[u8], fault: u32) {
    let number = number_of(PropName::from_bytes(alloc, bytes));
    assert_eq!(rt; number, fault, "{bytes:?}");
}

#[test]
fn bytes_are_names_of_properties_or_not(rt: HostRuntime) {
    for (bytes, fault) in bytes_rows() {
        is_answered_bytes(&rt, rt.alloc(), bytes, *fault);
    }
}

// Bytes that need be no UTF-8, with the path that they spell or why they spell none.
static PATH_BYTES: [(&[u8], &str); 8] = [
    (b"", "."),
    (b"a/b.c", "a/b.c"),
    (b"p\xc3\xa9", "p\u{e9}"),
    (b"a//b", "a name is empty"),
    (b"a/..", "a name is `.` or `..`"),
    (b"p\xff", "not UTF-8"),
    (b"a\xc3/b", "not UTF-8"),
    // before any fault of a name
    (b"//\xff", "not UTF-8"),
];

fn path_bytes_rows() -> &'static [(&'static [u8], &'static str)] {
    &PATH_BYTES
}

fn path_word(alloc: Global, bytes: &[u8]) -> Result<String, Fail> {
    match RelPath::from_bytes(alloc, bytes) {
        Ok(path) => Ok(format!(in alloc; "{path}")?),
        Err(fault) => Ok(format!(in alloc; "{fault}")?),
    }
}

fn is_path_word(rt: &impl Abort, alloc: Global, bytes: &[u8], word: &str) -> Result<(), Fail> {
    let found = path_word(alloc, bytes)?;
    assert_eq!(rt; found.as_str(), word);
    Ok(())
}

#[test]
fn bytes_are_paths_or_not(rt: HostRuntime) -> Result<(), Fail> {
    for (bytes, word) in path_bytes_rows() {
        is_path_word(&rt, rt.alloc(), bytes, word)?;
    }
    Ok(())
}

// A text repeated, and another one after it.
static LONG: &[(Part, &str, usize, &str, u32)] = &[
    // the number of components comes last
    (Part::Path, "a/", 127, "a", 0),
    (Part::Path, "a/", 128, "a", 5),
    (Part::Path, "a/", 200, "a", 5),
    (Part::Path, "a/", 128, "", 1),
    (Part::Path, "a/", 128, "..", 2),
    (Part::Path, "a/", 200, "\u{7}", 3),
    // names are measured in bytes, and their length is looked at before their characters
    (Part::Name, "\u{e9}", 127, "a", 0),
    (Part::Name, "\u{e9}", 127, "aa", 4),
    (Part::Name, "\u{e9}", 127, "aa/", 4),
    (Part::Path, "\u{e9}", 127, "a", 0),
    (Part::Path, "\u{e9}", 127, "aa", 4),
    (Part::Path, "\u{e9}", 127, "aa/", 4),
    (Part::PropName, "a", 254, "a", 0),
    (Part::PropName, "a", 255, "a", 4),
    (Part::PropName, "a", 255, "a/", 4),
];

fn long_rows() -> &'static [(Part, &'static str, usize, &'static str, u32)] {
    LONG
}

fn long(alloc: Global, front: &str, times: usize, last: &str) -> Result<String, Fail> {
    let mut text = front.repeat(alloc, times)?;
    text.push_str(last)?;
    Ok(text)
}

#[test]
fn names_and_paths_are_bounded(rt: HostRuntime) -> Result<(), Fail> {
    for (part, front, times, last, fault) in long_rows() {
        let text = long(rt.alloc(), front, *times, last)?;
        is_answered(&rt, rt.alloc(), *part, text.as_str(), *fault);
    }
    Ok(())
}

// The names of a path, each in brackets.
fn names_of(alloc: Global, text: &str) -> Result<String, Fail> {
    let path = RelPath::parse(alloc, text)?;
    let mut names = String::new(alloc);
    for name in path.components() {
        write!(names, "<{name}>")?;
    }
    Ok(names)
}

fn are_names(rt: &impl Abort, alloc: Global, text: &str, names: &str) -> Result<(), Fail> {
    let found = names_of(alloc, text)?;
    assert_eq!(rt; found.as_str(), names);
    Ok(())
}

static COMPONENTS: [(&str, &str); 3] = [("", ""), ("a", "<a>"), ("b/a/b.c", "<b><a><b.c>")];

#[test]
fn components_of_paths(rt: HostRuntime) -> Result<(), Fail> {
    for (text, names) in &COMPONENTS {
        are_names(&rt, rt.alloc(), text, names)?;
    }
    Ok(())
}

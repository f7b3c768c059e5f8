//! What answers say, and which are refused.
use crate::asked::items::item_of;
use std::alloc::Global;
use std::test::Fail;
use svn_ask::{Said, Wanted, said_of};
use svn_types::{Digest, Kind, Name, Props, Rev};
use svn_wire::Token;

// What was asked of revision 3, the answer, and what it says. The first answers are `svnserve`'s.
static ROWS: [(Wanted, &str, &str); 27] = [
    (
        Wanted::File,
        "( success ( ( 32:b1946ac92492d2347c6235b4d2611184 ) 3 ( ( 14:svn:entry:uuid 2:35 ) ( 23:svn:entry:committed-rev 1:2 ) ( 5:color 3:red ) ( 13:svn:eol-style 6:native ) ( 21:svn:entry:last-author 1:x ) ) ) ) ",
        "file b1946ac92492d2347c6235b4d2611184 color=red,svn:eol-style=native,",
    ),
    (
        Wanted::Directory,
        "( success ( 3 ( ( 23:svn:entry:committed-rev 1:3 ) ( 4:note 3:x y ) ) ( ( 1:A dir 0 false 0 ( 27:1970-01-01T00:00:00.000000Z ) ( ) ) ( 1:B file 0 false 0 ( 27:1970-01-01T00:00:00.000000Z ) ( ) ) ( 4:iota file 0 false 0 ( 27:1970-01-01T00:00:00.000000Z ) ( ) ) ( 3:Z z file 0 false 0 ( 27:1970-01-01T00:00:00.000000Z ) ( ) ) ) ) ) ",
        "directory note=x y,: A/B/Z z/iota/",
    ),
    (Wanted::Kind, "( success ( dir ) ) ", "dir"),
    (Wanted::Kind, "( success ( file ) ) ", "file"),
    (Wanted::Kind, "( success ( none ) ) ", "nothing"),
    (
        Wanted::File,
        "( failure ( ( 160013 46:File not found: revision 3, path '/trunk/nope' 0: 0 ) ) ) ",
        "nothing",
    ),
    (
        Wanted::File,
        "( failure ( ( 160017 46:Attempted to get checksum of a *non*-file node 0: 0 ) ) ) ",
        "dir",
    ),
    (
        Wanted::Directory,
        "( failure ( ( 160016 34:Can't get entries of non-directory 0: 0 ) ) ) ",
        "no directory",
    ),
    (
        Wanted::File,
        "( failure ( ( 160016 43:Failure opening '/trunk/iota' in revision 3 0: 0 ) ( 160016 11:not a thing 0: 0 ) ) ) ",
        "nothing",
    ),
    (
        Wanted::Kind,
        "( failure ( ( 160006 18:No such revision 9 0: 0 ) ) ) ",
        "no revision",
    ),
    (
        Wanted::Directory,
        "( failure ( ( 170001 20:Authorization failed 0: 0 ) ) ) ",
        "the server failed with E170001: Authorization failed",
    ),
    (
        Wanted::Kind,
        "( failure ( ( 160016 2:\u{1}x 0: 0 ) ) ) ",
        "the server failed with E160016: ?x",
    ),
    // of a later version: more fields at the ends of the tuples
    (
        Wanted::File,
        "( success ( ( 32:B1946AC92492D2347C6235B4D2611184 ) 3 ( ( 1:a 1:b ( ( more ) 1 ) 2 ) ) ( ( ) ) ) 5 ) ",
        "file b1946ac92492d2347c6235b4d2611184 a=b,",
    ),
    (
        Wanted::Directory,
        "( success ( 3 ( ) ( ) ) ) ",
        "directory : ",
    ),
    (
        Wanted::File,
        "( success ( ( ) 3 ( ) ) ) ",
        "a file without a checksum",
    ),
    (
        Wanted::File,
        "( success ( ( 32:b1946ac92492d2347c6235b4d261118g ) 3 ( ) ) ) ",
        "a checksum that is no MD5 checksum",
    ),
    (
        Wanted::Directory,
        "( success ( 4 ( ) ( ) ) ) ",
        "an answer for r4",
    ),
    (
        Wanted::Directory,
        "( success ( 3 ( ( 1:a 1:b ) ( 1:a 1:c ) ) ( ) ) ) ",
        "a property that a node has twice",
    ),
    (
        Wanted::Directory,
        "( success ( 3 ( ( 3:a b 1:b ) ) ( ) ) ) ",
        "bad property name: a name has a character that no name may have",
    ),
    (
        Wanted::Directory,
        "( success ( 3 ( ) ( ( 1:a dir ) ( 1:a file ) ) ) ) ",
        "a name that is twice in a directory",
    ),
    (
        Wanted::Directory,
        "( success ( 3 ( ) ( ( 2:.. dir ) ) ) ) ",
        "bad name: a name is `.` or `..`",
    ),
    (
        Wanted::Directory,
        "( success ( 3 ( ) ( ( dir ) ) ) ) ",
        "an item that is no answer",
    ),
    (
        Wanted::Directory,
        "( success ( 3 ( ( 1:a ) ) ( ) ) ) ",
        "an item that is no answer",
    ),
    (
        Wanted::Directory,
        "( success ( 3 ( ) ) ) ",
        "an item that is no answer",
    ),
    (
        Wanted::Kind,
        "( success ( unknown ) ) ",
        "an item that is no answer",
    ),
    (
        Wanted::Kind,
        "( perhaps ( dir ) ) ",
        "an item that is no answer",
    ),
    (Wanted::Kind, "7 ", "an item that is no answer"),
];

fn push_props(alloc: Global, props: &Props, out: &mut String) -> Result<(), Fail> {
    for (name, value) in props {
        let value = String::from_utf8_lossy(alloc, value.as_slice())?;
        write!(out, "{name}={value},")?;
    }
    Ok(())
}

fn push_names(names: &[Name], out: &mut String) -> Result<(), Fail> {
    for name in names {
        write!(out, "{name}/")?;
    }
    Ok(())
}

fn push_file(alloc: Global, sum: &Digest, props: &Props, out: &mut String) -> Result<(), Fail> {
    write!(out, "file {sum} ")?;
    push_props(alloc, props, out)
}

fn push_directory(
    alloc: Global,
    props: &Props,
    names: &[Name],
    out: &mut String,
) -> Result<(), Fail> {
    out.push_str("directory ")?;
    push_props(alloc, props, out)?;
    out.push_str(": ")?;
    push_names(names, out)
}

fn push_kind(kind: Kind, out: &mut String) -> Result<(), Fail> {
    Ok(write!(out, "{kind}")?)
}

// The words of an answer that has not even a kind.
fn words_of(said: &Said) -> &'static str {
    match said {
        Said::NoDirectory => "no directory",
        Said::NoRevision => "no revision",
        Said::Nothing | Said::OfKind(_) | Said::File { .. } | Said::Directory { .. } => "nothing",
    }
}

pub fn push_said(alloc: Global, said: &Said, out: &mut String) -> Result<(), Fail> {
    match said {
        Said::File { sum, props } => push_file(alloc, sum, props, out),
        Said::Directory { props, names } => push_directory(alloc, props, names, out),
        Said::OfKind(kind) => push_kind(*kind, out),
        Said::Nothing | Said::NoDirectory | Said::NoRevision => Ok(out.push_str(words_of(said))?),
    }
}

fn push_answer(
    alloc: Global,
    wanted: Wanted,
    item: &[Token],
    out: &mut String,
) -> Result<(), Fail> {
    match said_of(alloc, wanted, Rev(3), item) {
        Ok(said) => push_said(alloc, &said, out),
        Err(fault) => Ok(write!(out, "{fault}")?),
    }
}

fn said(alloc: Global, wanted: Wanted, item: &str) -> Result<String, Fail> {
    let mut out = String::new(alloc);
    push_answer(alloc, wanted, &item_of(alloc, item)?, &mut out)?;
    Ok(out)
}

fn rows() -> &'static [(Wanted, &'static str, &'static str)] {
    &ROWS
}

#[test]
fn answers_are_read(rt: HostRuntime) -> Result<(), Fail> {
    for (wanted, item, text) in rows() {
        let said = said(rt.alloc(), *wanted, item)?;
        assert_eq!(rt; said.as_str(), *text);
    }
    Ok(())
}

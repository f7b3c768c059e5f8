//! The commands that questions are.
use std::alloc::Global;
use std::str;
use std::test::Fail;
use svn_ask::{Wanted, push_question, question_len};
use svn_types::{RelPath, Rev};

// What is asked, at which path, in which revision, and the command.
static ROWS: [(Wanted, &str, u64, &str); 5] = [
    (
        Wanted::File,
        "trunk/iota",
        3,
        "( get-file ( 10:trunk/iota ( 3 ) true false ) ) ",
    ),
    (
        Wanted::Directory,
        "trunk",
        12,
        "( get-dir ( 5:trunk ( 12 ) true true ( kind ) ) ) ",
    ),
    (
        Wanted::Directory,
        "",
        3,
        "( get-dir ( 0: ( 3 ) true true ( kind ) ) ) ",
    ),
    (
        Wanted::Kind,
        "a b/c",
        0,
        "( check-path ( 5:a b/c ( 0 ) ) ) ",
    ),
    (
        Wanted::Kind,
        "é",
        18446744073709551615,
        "( check-path ( 2:é ( 18446744073709551615 ) ) ) ",
    ),
];

// The command, and how many bytes it has.
fn asked(alloc: Global, wanted: Wanted, path: &str, rev: u64) -> Result<(Vec<u8>, usize), Fail> {
    let path = RelPath::parse(alloc, path)?;
    let mut out = Vec::new(alloc);
    push_question(&mut out, wanted, Rev(rev), &path)?;
    Ok((out, question_len(wanted, Rev(rev), &path)))
}

#[test]
fn questions_are_commands(rt: HostRuntime) -> Result<(), Fail> {
    for (wanted, path, rev, command) in &ROWS {
        let (out, len) = asked(rt.alloc(), *wanted, path, *rev)?;
        assert_eq!(rt; str::from_utf8(&out)?, *command);
        assert_eq!(rt; len, command.len());
    }
    Ok(())
}

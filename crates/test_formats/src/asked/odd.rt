//! Servers that send something else: each is refused by name, and what came before is heard.
use crate::asked::talks::{Row, talk};
use std::alloc::Global;
use std::test::Fail;
use svn_ask::Wanted;

static QUESTIONS: [Row; 2] = [
    (Wanted::File, "trunk/iota", 3),
    (Wanted::Kind, "trunk/A", 3),
];

// The whole opening, and that with the first answer.
static OPENED: &str =
    "( success ( 2 2 ( ) ( edit-pipeline ) ) ) ( success ( ( ANONYMOUS EXTERNAL ) 5:realm ) ) ( success ( ) ) ( success ( 36:0005ada1-b295-4e3e-8db6-cfe8b4526167 18:svn://h/repo/trunk ( mergeinfo ) ) ) ";

static ANSWERED: &str =
    "( success ( ( ) 0: ) ) ( success ( ( 32:738bb2e514e4c8141281efa630650db0 ) 3 ( ( 5:color 3:red ) ) ) ) ";

// What the server sends before the rest.
#[derive(Clone, Copy)]
enum After {
    Nothing,
    Opening,
    Answer,
}

// What the server sends, how many answers of the two are heard, and the fault.
type Case = (After, &'static str, usize, &'static str);

static CASES: [Case; 31] = [
    // before the greeting
    (
        After::Nothing,
        "Motd:\n",
        0,
        "an item without a space after it",
    ),
    (
        After::Nothing,
        "Welcome to h.\n",
        0,
        "an item that is no answer",
    ),
    (
        After::Nothing,
        "*** h ***\n",
        0,
        "a byte that begins no item",
    ),
    // the opening
    (
        After::Nothing,
        "( success ( 1 1 ( ) ( ) ) ) ",
        0,
        "another version of the protocol",
    ),
    (
        After::Nothing,
        "( success ( 3 4 ( ) ( ) ) ) ",
        0,
        "another version of the protocol",
    ),
    (
        After::Nothing,
        "( success ( 2 2 ( ) ( ) ) ) ( success ( ( CRAM-MD5 ) 5:realm ) ) ",
        0,
        "the server wants another authentication than EXTERNAL and ANONYMOUS",
    ),
    (
        After::Nothing,
        "( success ( 2 2 ( ) ( ) ) ) ( success ( ( EXTERNAL ) 5:realm ) ) ( failure ( 9:not today ) ) ",
        0,
        "the server refuses the connection: not today",
    ),
    (
        After::Nothing,
        "( success ( 2 2 ( ) ( ) ) ) ( success ( ( ) 5:realm ) ) ( success ( 36:1005ada1-b295-4e3e-8db6-cfe8b4526167 18:svn://h/repo/trunk ( ) ) ) ",
        0,
        "the server has another repository",
    ),
    (
        After::Nothing,
        "( success ( 2 2 ( ) ( ) ) ) ( success ( ( ) 5:realm ) ) ( failure ( ( 210005 19:No repository found 0: 0 ) ) ) ",
        0,
        "the server failed with E210005: No repository found",
    ),
    // another question's answer, or none
    (
        After::Opening,
        "( success ( ( EXTERNAL ) 5:realm ) ) ",
        0,
        "the server wants another authentication than EXTERNAL and ANONYMOUS",
    ),
    (
        After::Opening,
        "( success ( dir ) ) ",
        0,
        "an item that is no answer",
    ),
    (
        After::Opening,
        "( success ( ( ) 0: ) ) ( success ( dir ) ) ",
        0,
        "an item that is no answer",
    ),
    (
        After::Opening,
        "( success ( ( ) 0: ) ) ( success ( ( 32:738bb2e514e4c8141281efa630650db0 ) 4 ( ) ) ) ",
        0,
        "an answer for r4",
    ),
    (
        After::Answer,
        "( success ( ( ) 0: ) ) ( success ( 3 ( ) ( ) ) ) ",
        1,
        "an item that is no answer",
    ),
    (
        After::Answer,
        "( success ( ( ) 0: ) ) ( failure ( ( 170001 20:Authorization failed 0: 0 ) ) ) ",
        1,
        "the server failed with E170001: Authorization failed",
    ),
    // too many, and the end
    (
        After::Answer,
        "( success ( ( ) 0: ) ) ( success ( dir ) ) ",
        2,
        "",
    ),
    (
        After::Answer,
        "( success ( ( ) 0: ) ) ( success ( dir ) )\n \n ",
        2,
        "",
    ),
    (
        After::Answer,
        "( success ( ( ) 0: ) ) ( success ( dir ) ) ( success ( ( ) 0: ) ) ",
        2,
        "an answer to no question",
    ),
    (
        After::Answer,
        "( success ( ( ) 0: ) ) ( success ( dir ) ) 7 ",
        2,
        "an answer to no question",
    ),
    (
        After::Answer,
        "( success ( ( ) 0: ) ) ( success ( dir ) ) (",
        2,
        "the answers end within an item",
    ),
    (
        After::Answer,
        "( success ( ( ) 0: ) ) ( success ( dir ) )",
        1,
        "the answers end within an item",
    ),
    (
        After::Nothing,
        "",
        0,
        "the answers end before all questions are answered",
    ),
    (
        After::Opening,
        "",
        0,
        "the answers end before all questions are answered",
    ),
    (
        After::Answer,
        "",
        1,
        "the answers end before all questions are answered",
    ),
    (
        After::Answer,
        "( success ( ( ) 0: ) ) ",
        1,
        "the answers end before all questions are answered",
    ),
    // sizes
    (
        After::Opening,
        "( success ( 9223372036854775808:",
        0,
        "a string that is too long",
    ),
    (
        After::Opening,
        "( success ( 18446744073709551616:",
        0,
        "a number that is too large",
    ),
    (
        After::Answer,
        "( success ( 1048577:",
        1,
        "a string that is too long",
    ),
    (
        After::Answer,
        "( success ( 1048576:",
        1,
        "the answers end within an item",
    ),
    (
        After::Answer,
        "( success ( abcdefghijklmnopqrstuvwxy ",
        1,
        "a word that is too long",
    ),
    (
        After::Answer,
        ") ",
        1,
        "the end of a list that hasn't begun",
    ),
];

// The pieces.
fn pieces_of(after: After, rest: &'static str) -> [&'static [u8]; 3] {
    match after {
        After::Nothing => [b"", b"", rest.as_bytes()],
        After::Opening => [OPENED.as_bytes(), b"", rest.as_bytes()],
        After::Answer => [OPENED.as_bytes(), ANSWERED.as_bytes(), rest.as_bytes()],
    }
}

// The first answers.
fn heard(count: usize) -> &'static str {
    match count {
        0 => "",
        1 => "trunk/iota@3: file 738bb2e514e4c8141281efa630650db0 color=red,\n",
        _ => "trunk/iota@3: file 738bb2e514e4c8141281efa630650db0 color=red,\ntrunk/A@3: dir\n",
    }
}

fn questions() -> &'static [Row] {
    &QUESTIONS
}

fn cases() -> &'static [Case] {
    &CASES
}

#[test]
fn other_answers_are_refused(rt: HostRuntime) -> Result<(), Fail> {
    for (after, rest, count, fault) in cases() {
        let pieces = pieces_of(*after, *rest);
        let talked = talk(rt.alloc(), questions(), &pieces, false)?;
        assert_eq!(rt; talked.heard.as_str(), heard(*count));
        assert_eq!(rt; talked.fault.as_str(), *fault);
    }
    Ok(())
}

// So many times the same piece.
fn repeated(alloc: Global, piece: &'static str, times: usize) -> Result<Vec<&'static [u8]>, Fail> {
    let mut pieces = Vec::new(alloc);
    for _ in 0..times {
        pieces.push(piece.as_bytes())?;
    }
    Ok(pieces)
}

#[test]
fn endless_items_are_refused(rt: HostRuntime) -> Result<(), Fail> {
    for (piece, times, fault) in [
        ("( ", 1000000, "lists that are too deep"),
        ("( ) 1 ", 1000, "an item that is no answer"),
        ("1", 1000, "a number that is too large"),
        (
            " ",
            100000,
            "the answers end before all questions are answered",
        ),
    ] {
        let pieces = repeated(rt.alloc(), piece, times)?;
        let talked = talk(rt.alloc(), questions(), &pieces, false)?;
        assert_eq!(rt; talked.fault.as_str(), fault);
    }
    Ok(())
}

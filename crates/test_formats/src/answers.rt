//! Tuples that are taken apart: what servers answer, recorded of `svnserve` 1.14.2 or made, and the fields of a report's command.
use std::alloc::{AllocError, Global};
use std::process::Abort;
use std::test::Fail;
use svn_wire::{
    Limits, Token, command, has_word, optional_number, push_item, push_number, push_text,
    push_token, push_word, read_failure, read_greeting, read_item, read_mechanisms, read_refusal,
    read_repository, set_path_fields,
};

const LIMITS: Limits = Limits {
    text: 64,
    depth: 8,
    tokens: 64,
};

// What an item is read as.
#[derive(Clone, Copy)]
enum Kind {
    Greeting,
    Mechanisms,
    Refusal,
    Repository,
    Failure,
    SetPath,
    // a command of one field, a number or none
    Optional,
}

// An item, what it is read as, and what is written of that.
type Row = (Kind, &'static str, &'static str);

static ROWS: &[Row] = &[
    (
        Kind::Greeting,
        "( success ( 2 2 ( ) ( edit-pipeline svndiff1 accepts-svndiff2 absent-entries depth list ) ) ) ",
        "2 2 ) edit-pipeline svndiff1 accepts-svndiff2 absent-entries depth list true ",
    ),
    (
        Kind::Greeting,
        "( success ( 1 3 ( ANONYMOUS ) ( svndiff1 edit-pipelines ) 7 ) ) ",
        "1 3 ANONYMOUS ) svndiff1 edit-pipelines false ",
    ),
    (
        Kind::Greeting,
        "( success ( 2 2 ( ) ( edit-pipeline 7 ) ) ) ",
        "none ",
    ),
    (
        Kind::Greeting,
        "( success ( 2 2 ( ) edit-pipeline ) ) ",
        "none ",
    ),
    (
        Kind::Greeting,
        "( failure ( 2 2 ( ) ( edit-pipeline ) ) ) ",
        "none ",
    ),
    (
        Kind::Mechanisms,
        "( success ( ( ANONYMOUS EXTERNAL ) 9:the realm ) ) ",
        "ANONYMOUS EXTERNAL ) 9:the realm ",
    ),
    (Kind::Mechanisms, "( success ( ( ) 0: ) ) ", ") 0: "),
    (Kind::Mechanisms, "( success ( 10 ) ) ", "none "),
    (
        Kind::Refusal,
        "( failure ( 39:Must authenticate with listed mechanism ) ) ",
        "39:Must authenticate with listed mechanism ",
    ),
    (Kind::Refusal, "( success ( ) ) ", "none "),
    (
        Kind::Repository,
        "( success ( 36:11111111-2222-4333-8444-555555555555 16:svn+rec://h/main ( mergeinfo ) ) ) ",
        "36:11111111-2222-4333-8444-555555555555 16:svn+rec://h/main ",
    ),
    (Kind::Repository, "( success ( 4:uuid ) ) ", "none "),
    (
        Kind::Failure,
        "( failure ( ( 160013 28:Path '/trunk/nope' not found 0: 0 ) ) ) ",
        "160013 28:Path '/trunk/nope' not found ",
    ),
    (
        Kind::Failure,
        "( failure ( ( 210004 3:one 4:a.c: 7 new ) ( 1 3:two 0: 0 ) ) ) ",
        "210004 3:one ",
    ),
    (Kind::Failure, "( failure ( ) ) ", "none "),
    (
        Kind::Failure,
        "( failure ( ( 160013 3:one 0: ) ) ) ",
        "none ",
    ),
    (
        Kind::Failure,
        "( success ( ( 160013 3:one 0: 0 ) ) ) ",
        "none ",
    ),
    (
        Kind::Failure,
        "( failure ( 39:Must authenticate with listed mechanism ) ) ",
        "none ",
    ),
    (
        Kind::SetPath,
        "( set-path ( 3:A/B 7 true ( ) infinity ) ) ",
        "3:A/B 7 true ",
    ),
    (Kind::SetPath, "( set-path ( 0: 0 false ) ) ", "0: 0 false "),
    (Kind::SetPath, "( set-path ( 0: 0 yes ) ) ", "none "),
    (Kind::Optional, "( get-dated-rev ( ( 7 ) ) ) ", "7 "),
    (Kind::Optional, "( get-dated-rev ( ( ) ) ) ", "( "),
    (Kind::Optional, "( get-dated-rev ( ( 7 8 ) ) ) ", "none "),
];

fn rows() -> &'static [Row] {
    ROWS
}

fn push_bool(out: &mut Vec<u8>, value: bool) -> Result<(), AllocError> {
    push_word(out, if value { b"true" } else { b"false" })
}

fn push_none(out: &mut Vec<u8>) -> Result<(), AllocError> {
    push_word(out, b"none")
}

fn push_pair(out: &mut Vec<u8>, pair: Option<(u64, &[u8])>) -> Result<(), AllocError> {
    match pair {
        Some((number, text)) => {
            push_number(out, number)?;
            push_text(out, text)
        }
        None => push_none(out),
    }
}

fn push_greeting(out: &mut Vec<u8>, item: &[Token]) -> Result<(), AllocError> {
    let Some(greeting) = read_greeting(item) else {
        return push_none(out);
    };
    push_number(out, greeting.least)?;
    push_number(out, greeting.most)?;
    push_item(out, greeting.mechanisms)?;
    push_token(out, &Token::Close)?;
    push_item(out, greeting.capabilities)?;
    push_bool(out, has_word(greeting.capabilities, b"edit-pipeline"))
}

fn push_mechanisms(out: &mut Vec<u8>, item: &[Token]) -> Result<(), AllocError> {
    let Some((mechanisms, realm)) = read_mechanisms(item) else {
        return push_none(out);
    };
    push_item(out, mechanisms)?;
    push_token(out, &Token::Close)?;
    push_text(out, realm)
}

fn push_refusal(out: &mut Vec<u8>, item: &[Token]) -> Result<(), AllocError> {
    match read_refusal(item) {
        Some(message) => push_text(out, message),
        None => push_none(out),
    }
}

fn push_repository(out: &mut Vec<u8>, item: &[Token]) -> Result<(), AllocError> {
    let Some((uuid, url)) = read_repository(item) else {
        return push_none(out);
    };
    push_text(out, uuid)?;
    push_text(out, url)
}

fn set_path_of(item: &[Token]) -> Option<(&[u8], u64, bool)> {
    let (_name, fields) = command(item)?;
    set_path_fields(fields)
}

fn push_set_path(out: &mut Vec<u8>, item: &[Token]) -> Result<(), AllocError> {
    let Some((path, rev, start_empty)) = set_path_of(item) else {
        return push_none(out);
    };
    push_text(out, path)?;
    push_number(out, rev)?;
    push_bool(out, start_empty)
}

fn optional_of(item: &[Token]) -> Option<Option<u64>> {
    let (_name, fields) = command(item)?;
    let (number, _rest) = optional_number(fields)?;
    Some(number)
}

fn push_optional(out: &mut Vec<u8>, item: &[Token]) -> Result<(), AllocError> {
    match optional_of(item) {
        Some(Some(number)) => push_number(out, number),
        Some(None) => push_token(out, &Token::Open),
        None => push_none(out),
    }
}

fn push_read(out: &mut Vec<u8>, kind: Kind, item: &[Token]) -> Result<(), AllocError> {
    match kind {
        Kind::Greeting => push_greeting(out, item),
        Kind::Mechanisms => push_mechanisms(out, item),
        Kind::Refusal => push_refusal(out, item),
        Kind::Repository => push_repository(out, item),
        Kind::Failure => push_pair(out, read_failure(item)),
        Kind::SetPath => push_set_path(out, item),
        Kind::Optional => push_optional(out, item),
    }
}

fn written_of(alloc: Global, row: Row) -> Result<Vec<u8>, Fail> {
    let (item, _rest) = read_item(alloc, LIMITS, row.1.as_bytes())?;
    let mut out = Vec::new(alloc);
    push_read(&mut out, row.0, &item)?;
    Ok(out)
}

fn is_written(rt: &impl Abort, alloc: Global, row: Row) -> Result<(), Fail> {
    let out = written_of(alloc, row)?;
    assert!(rt; out.as_slice() == row.2.as_bytes(), "{:?}", row.1);
    Ok(())
}

#[test]
fn tuples_are_taken_apart(rt: HostRuntime) -> Result<(), Fail> {
    for row in rows() {
        is_written(&rt, rt.alloc(), *row)?;
    }
    Ok(())
}

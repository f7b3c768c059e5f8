//! Connections: what a client writes and hears, as the server's bytes come.
use crate::asked::talks::{
    Answers, LIMITS, Row, Talked, hear, paths_of, questions_of, speaker, talk,
};
use std::alloc::{AllocError, Global};
use std::process::Abort;
use std::str;
use std::test::Fail;
use svn_ask::{Asking, Question, Questions, Wanted};

// What `svnserve` 1.14.2 wrote to a client of `trunk` that asked these questions: up to the third answer, and the others.
static FRONT: &str =
    "( success ( 2 2 ( ) ( edit-pipeline svndiff1 accepts-svndiff2 absent-entries commit-revprops depth log-revprops atomic-revprops partial-replay inherited-props ephemeral-txnprops file-revs-reverse list ) ) ) ( success ( ( ANONYMOUS EXTERNAL ) 36:0005ada1-b295-4e3e-8db6-cfe8b4526167 ) ) ( success ( ) ) ( success ( 36:0005ada1-b295-4e3e-8db6-cfe8b4526167 12:svn://h/repo ( mergeinfo ) ) ) ( success ( ( ) 0: ) ) ( success ( ) ) ( success ( ( ) 0: ) ) ( success ( 3 ( ( 23:svn:entry:committed-rev 1:3 ) ( 24:svn:entry:committed-date 27:2026-11-29T09:39:48.759232Z ) ( 21:svn:entry:last-author 4:root ) ( 14:svn:entry:uuid 36:0005ada1-b295-4e3e-8db6-cfe8b4526167 ) ) ( ( 1:A dir 0 false 0 ( 27:1970-01-01T00:00:00.000000Z ) ( ) ) ( 4:iota file 0 false 0 ( 27:1970-01-01T00:00:00.000000Z ) ( ) ) ) ) ) ( success ( ( ) 0: ) ) ( success ( ( 32:738bb2e514e4c8141281efa630650db0 ) 3 ( ( 23:svn:entry:committed-rev 1:3 ) ( 24:svn:entry:committed-date 27:2026-11-29T09:39:48.759232Z ) ( 5:color 3:red ) ( 13:svn:eol-style 6:native ) ( 21:svn:entry:last-author 4:root ) ( 14:svn:entry:uuid 36:0005ada1-b295-4e3e-8db6-cfe8b4526167 ) ) ) ) ( success ( ( ) 0: ) ) ( failure ( ( 160013 45:File not found: revision 3, path '/trunk/a b' 0: 0 ) ) ) ";

static REST: &str =
    "( success ( ( ) 0: ) ) ( success ( ( 32:9dd4e461268c8034f5c8564e155c67a6 ) 2 ( ( 21:svn:entry:last-author 4:root ) ( 14:svn:entry:uuid 36:0005ada1-b295-4e3e-8db6-cfe8b4526167 ) ( 23:svn:entry:committed-rev 1:2 ) ( 24:svn:entry:committed-date 27:2026-11-29T09:39:46.919195Z ) ) ) ) ( success ( ( ) 0: ) ) ( success ( dir ) ) ( success ( ( ) 0: ) ) ( failure ( ( 160016 34:Can't get entries of non-directory 0: 0 ) ) ) ( success ( ( ) 0: ) ) ( failure ( ( 160017 46:Attempted to get checksum of a *non*-file node 0: 0 ) ) ) ( success ( ( ) 0: ) ) ( success ( 2 ( ( 21:svn:entry:last-author 4:root ) ( 14:svn:entry:uuid 36:0005ada1-b295-4e3e-8db6-cfe8b4526167 ) ( 23:svn:entry:committed-rev 1:2 ) ( 24:svn:entry:committed-date 27:2026-11-29T09:39:46.919195Z ) ) ( ) ) ) ( success ( ( ) 0: ) ) ( failure ( ( 160006 18:No such revision 9 0: 0 ) ) ) ( success ( ( ) 0: ) ) ( failure ( ( 160016 43:Failure opening '/trunk/iota' in revision 3 0: 0 ) ( 160016 85:'/trunk/iota' is not a directory in filesystem '0005ada1-b295-4e3e-8db6-cfe8b4526167' 0: 0 ) ) ) ( success ( ( ) 0: ) ) ( success ( none ) ) ( success ( ( ) 0: ) ) ( success ( 3 ( ( 21:svn:entry:last-author 4:root ) ( 14:svn:entry:uuid 36:0005ada1-b295-4e3e-8db6-cfe8b4526167 ) ( 4:note 3:x y ) ( 23:svn:entry:committed-rev 1:2 ) ( 24:svn:entry:committed-date 27:2026-11-29T09:39:46.919195Z ) ) ( ( 1:B dir 0 false 0 ( 27:1970-01-01T00:00:00.000000Z ) ( ) ) ) ) ) ";

static CLIENT: &str =
    "( 2 ( edit-pipeline ) 18:svn://h/repo/trunk 3:yum ( ) ) ( EXTERNAL ( 0: ) ) ( reparent ( 12:svn://h/repo ) ) ( get-dir ( 5:trunk ( 3 ) true true ( kind ) ) ) ( get-file ( 10:trunk/iota ( 3 ) true false ) ) ( get-file ( 9:trunk/a b ( 3 ) true false ) ) ( get-file ( 9:trunk/a b ( 2 ) true false ) ) ( check-path ( 9:trunk/A/B ( 3 ) ) ) ( get-dir ( 10:trunk/iota ( 3 ) true true ( kind ) ) ) ( get-file ( 7:trunk/A ( 3 ) true false ) ) ( get-dir ( 9:trunk/A/B ( 2 ) true true ( kind ) ) ) ( check-path ( 10:trunk/iota ( 9 ) ) ) ( get-file ( 12:trunk/iota/x ( 3 ) true false ) ) ( check-path ( 4:nope ( 3 ) ) ) ( get-dir ( 7:trunk/A ( 3 ) true true ( kind ) ) ) ";

static QUESTIONS: [Row; 12] = [
    (Wanted::Directory, "trunk", 3),
    (Wanted::File, "trunk/iota", 3),
    (Wanted::File, "trunk/a b", 3),
    (Wanted::File, "trunk/a b", 2),
    (Wanted::Kind, "trunk/A/B", 3),
    (Wanted::Directory, "trunk/iota", 3),
    (Wanted::File, "trunk/A", 3),
    (Wanted::Directory, "trunk/A/B", 2),
    (Wanted::Kind, "trunk/iota", 9),
    (Wanted::File, "trunk/iota/x", 3),
    (Wanted::Kind, "nope", 3),
    (Wanted::Directory, "trunk/A", 3),
];

static HEARD: &str = "trunk@3: directory : A/iota/
trunk/iota@3: file 738bb2e514e4c8141281efa630650db0 color=red,svn:eol-style=native,
trunk/a b@3: nothing
";

static HEARD_OF_REST: &str = "trunk/a b@2: file 9dd4e461268c8034f5c8564e155c67a6 
trunk/A/B@3: dir
trunk/iota@3: no directory
trunk/A@3: dir
trunk/A/B@2: directory : 
trunk/iota@9: no revision
trunk/iota/x@3: nothing
nope@3: nothing
trunk/A@3: directory note=x y,: B/
";

fn front() -> &'static str {
    FRONT
}

fn rest() -> &'static str {
    REST
}

fn client() -> &'static str {
    CLIENT
}

fn heard() -> &'static str {
    HEARD
}

fn heard_of_rest() -> &'static str {
    HEARD_OF_REST
}

fn questions() -> &'static [Row] {
    &QUESTIONS
}

fn push_pieces<'a>(
    pieces: &mut Vec<&'a [u8]>,
    bytes: &'a [u8],
    piece: usize,
) -> Result<(), AllocError> {
    if piece == 0 {
        return Ok(());
    }
    for part in bytes.chunks(piece) {
        pieces.push(part)?;
    }
    Ok(())
}

fn in_pieces<'a>(
    alloc: Global,
    parts: &'a [&'a [u8]],
    piece: usize,
) -> Result<Vec<&'a [u8]>, AllocError> {
    let mut pieces = Vec::new(alloc);
    for bytes in parts {
        push_pieces(&mut pieces, *bytes, piece)?;
    }
    Ok(pieces)
}

// Whether the text is what is heard in all.
fn is_heard(text: &str) -> bool {
    match text.strip_prefix(heard()) {
        Some(more) => more == heard_of_rest(),
        None => false,
    }
}

// The whole connection, in pieces of that size.
fn talk_in(alloc: Global, piece: usize) -> Result<Talked, Fail> {
    let parts = [front().as_bytes(), rest().as_bytes()];
    let pieces = in_pieces(alloc, &parts, piece)?;
    talk(alloc, questions(), &pieces, piece == 7)
}

fn is_asked_and_answered(rt: &impl Abort, talked: &Talked) -> Result<(), Fail> {
    assert_eq!(rt; str::from_utf8(&talked.written)?, client());
    assert!(rt; is_heard(talked.heard.as_str()));
    assert_eq!(rt; talked.fault.as_str(), "");
    Ok(())
}

#[test]
fn questions_are_asked_and_answered(rt: HostRuntime) -> Result<(), Fail> {
    for piece in &[1, 7, 1000000] {
        is_asked_and_answered(&rt, &talk_in(rt.alloc(), *piece)?)?;
    }
    Ok(())
}

// Those up to the third answer.
fn first_rows() -> &'static [Row] {
    let rows = questions();
    if rows.len() < 3 {
        return rows;
    }
    let (first, _more) = rows.split_at(3);
    first
}

fn split(bytes: &[u8], at: usize) -> (&[u8], &[u8]) {
    if at > bytes.len() {
        return (bytes, b"");
    }
    bytes.split_at(at)
}

// Cut off there, with these questions: what is heard then, why it may not end, and what comes of the rest.
fn cut_at(alloc: Global, list: &[Question<'_>], at: usize) -> Result<(Talked, Talked), Fail> {
    let (front, rest) = split(front().as_bytes(), at);
    let mut questions = Questions::new(list, false);
    let mut asking = Asking::new(alloc, LIMITS, speaker(alloc)?);
    let mut answers = Answers::new(alloc);
    let first = hear(alloc, &mut asking, &[front], &mut questions, &mut answers)?;
    let more = hear(alloc, &mut asking, &[rest], &mut questions, &mut answers)?;
    Ok((first, more))
}

fn is_heard_in_part(rt: &impl Abort, first: &Talked) {
    assert!(rt; heard().starts_with(first.heard.as_str()));
    assert!(rt; first.fault.as_str().starts_with("the answers end "));
}

fn is_heard_then(rt: &impl Abort, more: &Talked) -> Result<(), Fail> {
    assert_eq!(rt; more.heard.as_str(), heard());
    assert_eq!(rt; more.fault.as_str(), "");
    Ok(())
}

fn may_be_cut(rt: &impl Abort, alloc: Global, at: usize) -> Result<(), Fail> {
    let paths = paths_of(alloc, first_rows())?;
    let list = questions_of(alloc, first_rows(), &paths)?;
    let (first, more) = cut_at(alloc, &list, at)?;
    is_heard_in_part(rt, &first);
    is_heard_then(rt, &more)
}

#[test]
fn it_may_be_cut_anywhere(rt: HostRuntime) -> Result<(), Fail> {
    for at in 0..front().len() {
        may_be_cut(&rt, rt.alloc(), at)?;
    }
    Ok(())
}

//! How many questions are open at once, and lists of questions one after the other.
use crate::asked::talks::{Answers, LIMITS, Row, paths_of, questions_of, speaker};
use std::alloc::Global;
use std::str;
use std::test::Fail;
use svn_ask::{Asking, Question, Questions, Wanted, question_len};

static GREETING: &str = "( success ( 2 2 ( ) ( ) ) ) ";

static FOUND: &str =
    "( success ( ( ) 5:realm ) ) ( success ( 36:0005ada1-b295-4e3e-8db6-cfe8b4526167 18:svn://h/repo/trunk ( ) ) ) ";

static ANSWER: &str = "( success ( ( ) 0: ) ) ( success ( none ) ) ";

fn greeting() -> &'static [u8] {
    GREETING.as_bytes()
}

fn found() -> &'static [u8] {
    FOUND.as_bytes()
}

fn answer() -> &'static [u8] {
    ANSWER.as_bytes()
}

// So many questions of 40 bytes each.
fn many(alloc: Global, count: usize) -> Result<Vec<Row>, Fail> {
    let mut rows = Vec::new(alloc);
    for _ in 0..count {
        rows.push((Wanted::Kind, "trunk/a/b/c", 3))?;
    }
    Ok(rows)
}

// The most bytes of questions that are open at once, and how many are answered at the end.
fn most_open(
    alloc: Global,
    list: &[Question<'_>],
    one_by_one: bool,
) -> Result<(usize, usize), Fail> {
    let mut questions = Questions::new(list, one_by_one);
    let mut asking = Asking::new(alloc, LIMITS, speaker(alloc)?);
    let mut out = Vec::new(alloc);
    let mut answers = Answers::new(alloc);
    asking.hear(greeting(), &mut questions, &mut out, &mut answers)?;
    let first = out.len();
    asking.hear(found(), &mut questions, &mut out, &mut answers)?;
    let mut answered = 0;
    let mut most = 0;
    for question in list {
        let open = out.len().saturating_sub(first).saturating_sub(answered);
        most = most.max(open);
        asking.hear(answer(), &mut questions, &mut out, &mut answers)?;
        let len = question_len(question.wanted, question.rev, question.path);
        answered = answered.saturating_add(len);
    }
    asking.end(&questions)?;
    Ok((most, questions.answered()))
}

#[test]
fn a_window_is_open(rt: HostRuntime) -> Result<(), Fail> {
    for (count, one_by_one, most) in [
        (1, false, 40),
        (3, false, 120),
        (1000, false, 32760),
        (1000, true, 40),
    ] {
        let rows = many(rt.alloc(), count)?;
        let paths = paths_of(rt.alloc(), &rows)?;
        let list = questions_of(rt.alloc(), &rows, &paths)?;
        let open = most_open(rt.alloc(), &list, one_by_one)?;
        assert_eq!(rt; open, (most, count));
    }
    Ok(())
}

// Two lists over one connection, the second begun by `ask`: what is written for it, and whether it is done.
fn two_lists(
    alloc: Global,
    first: &[Question<'_>],
    second: &[Question<'_>],
) -> Result<(Vec<u8>, bool), Fail> {
    let mut asking = Asking::new(alloc, LIMITS, speaker(alloc)?);
    let mut answers = Answers::new(alloc);
    let mut out = Vec::new(alloc);
    let mut questions = Questions::new(first, false);
    asking.ask(&mut questions, &mut out)?;
    asking.hear(greeting(), &mut questions, &mut out, &mut answers)?;
    asking.hear(found(), &mut questions, &mut out, &mut answers)?;
    asking.hear(answer(), &mut questions, &mut out, &mut answers)?;
    let mut written = Vec::new(alloc);
    let mut further = Questions::new(second, false);
    asking.ask(&mut further, &mut written)?;
    asking.hear(answer(), &mut further, &mut written, &mut answers)?;
    asking.end(&further)?;
    Ok((written, questions.is_done() && further.is_done()))
}

#[test]
fn lists_follow_one_another(rt: HostRuntime) -> Result<(), Fail> {
    let rows = [(Wanted::Kind, "trunk", 3)];
    let paths = paths_of(rt.alloc(), &rows)?;
    let first = questions_of(rt.alloc(), &rows, &paths)?;
    let others = [(Wanted::Kind, "tags", 4)];
    let further_paths = paths_of(rt.alloc(), &others)?;
    let second = questions_of(rt.alloc(), &others, &further_paths)?;
    let (written, done) = two_lists(rt.alloc(), &first, &second)?;
    assert_eq!(rt;
        str::from_utf8(&written)?,
        "( check-path ( 4:tags ( 4 ) ) ) "
    );
    assert!(rt; done);
    Ok(())
}

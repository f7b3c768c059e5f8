//! Connections with a server whose bytes are given.
use crate::asked::answers::push_said;
use std::alloc::{AllocError, Global};
use std::test::Fail;
use svn_ask::{AskFault, Asking, Hearer, Question, Questions, Said, Speaker, Wanted};
use svn_types::{RelPath, Rev, Text};
use svn_wire::Limits;

pub const LIMITS: Limits = Limits {
    text: 1048576,
    depth: 64,
    tokens: 65536,
};

/// What is asked, of which path, in which revision.
pub type Row = (Wanted, &'static str, u64);

#[derive(Drop)]
struct Answer {
    path: RelPath,
    rev: Rev,
    said: Said,
}

/// The answers, in the order in which they are heard.
#[derive(Drop)]
pub struct Answers {
    list: Vec<Answer>,
}

impl Hearer for Answers {
    fn hear(&mut self, question: &Question<'_>, said: Said) -> Result<(), AllocError> {
        let path = question.path.clone()?;
        let rev = question.rev;
        self.list.push(Answer { path, rev, said })?;
        Ok(())
    }
}

impl Answers {
    pub fn new(alloc: Global) -> Answers {
        Answers {
            list: Vec::new(alloc),
        }
    }

    /// A line for each.
    pub fn lines(&self, alloc: Global) -> Result<String, Fail> {
        let mut out = String::new(alloc);
        for answer in &self.list {
            let path = &answer.path;
            let rev = answer.rev;
            write!(out, "{path}@{rev}: ")?;
            push_said(alloc, &answer.said, &mut out)?;
            writeln!(out)?;
        }
        Ok(out)
    }
}

/// A client of `trunk`.
pub fn speaker(alloc: Global) -> Result<Speaker, Fail> {
    Ok(Speaker {
        url: Text::from_str(alloc, "svn://h/repo/trunk")?,
        uuid: Text::from_str(alloc, "0005ada1-b295-4e3e-8db6-cfe8b4526167")?,
        client: Text::from_str(alloc, "yum")?,
    })
}

pub fn paths_of(alloc: Global, rows: &[Row]) -> Result<Vec<RelPath>, Fail> {
    let mut paths = Vec::new(alloc);
    for (_wanted, path, _rev) in rows {
        paths.push(RelPath::parse(alloc, *path)?)?;
    }
    Ok(paths)
}

// What is asked of a path, in which revision.
fn asked_at(rows: &[Row], at: usize) -> (Wanted, u64) {
    match rows.get(at) {
        Some((wanted, _path, rev)) => (*wanted, *rev),
        None => (Wanted::Kind, 0),
    }
}

pub fn questions_of<'a>(
    alloc: Global,
    rows: &[Row],
    paths: &'a [RelPath],
) -> Result<Vec<Question<'a>>, AllocError> {
    let mut questions = Vec::new(alloc);
    for path in paths {
        let (wanted, rev) = asked_at(rows, questions.len());
        let rev = Rev(rev);
        questions.extend_from_slice(&[Question { wanted, rev, path }])?;
    }
    Ok(questions)
}

/// What was written, the answers, and why the server wasn't heard to its end.
#[derive(Drop)]
pub struct Talked {
    pub written: Vec<u8>,
    pub heard: String,
    pub fault: String,
}

// All that comes, and its end.
fn hear_all(
    asking: &mut Asking,
    pieces: &[&[u8]],
    questions: &mut Questions<'_>,
    out: &mut Vec<u8>,
    answers: &mut Answers,
) -> Result<(), AskFault> {
    for piece in pieces {
        asking.hear(*piece, questions, out, answers)?;
    }
    asking.end(questions)
}

/// What comes of these pieces, and then of their end.
pub fn hear(
    alloc: Global,
    asking: &mut Asking,
    pieces: &[&[u8]],
    questions: &mut Questions<'_>,
    answers: &mut Answers,
) -> Result<Talked, Fail> {
    let mut written = Vec::new(alloc);
    let mut fault = String::new(alloc);
    match hear_all(asking, pieces, questions, &mut written, answers) {
        Ok(()) => {}
        Err(why) => write!(fault, "{why}")?,
    }
    Ok(Talked {
        written,
        heard: answers.lines(alloc)?,
        fault,
    })
}

/// A connection that asks these questions, and hears these pieces.
pub fn talk(
    alloc: Global,
    rows: &[Row],
    pieces: &[&[u8]],
    one_by_one: bool,
) -> Result<Talked, Fail> {
    let paths = paths_of(alloc, rows)?;
    let list = questions_of(alloc, rows, &paths)?;
    let mut questions = Questions::new(&list, one_by_one);
    let mut asking = Asking::new(alloc, LIMITS, speaker(alloc)?);
    let mut answers = Answers::new(alloc);
    hear(alloc, &mut asking, pieces, &mut questions, &mut answers)
}

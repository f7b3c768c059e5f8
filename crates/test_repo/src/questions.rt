//! What is asked of a history, and all that it returns.
use crate::steps::{Step, take_all};
use std::alloc::Global;
use std::process::Abort;
use std::test::Fail;
use svn_repo::{NodeId, RelPath, Repo, Rev};

/// A path in a revision.
pub(crate) type Location = (u64, &'static str);

/// How two nodes are compared.
#[derive(Clone, Copy)]
pub(crate) enum By {
    Node,
    Line,
    Relation,
}

#[derive(Clone, Copy)]
pub(crate) enum Question {
    // the number of the newest revision
    Latest,
    // the text of a file, and how many entries a directory has
    At(Location),
    // how many properties there are
    Props(Location),
    Compare(By, Location, Location),
}

/// Steps and questions, and their results in turn, each with a comma.
pub(crate) struct History {
    pub(crate) steps: &'static [Step],
    pub(crate) questions: &'static [Question],
    pub(crate) told: &'static str,
}

fn node(alloc: Global, repo: &Repo, place: Location) -> Option<NodeId> {
    match RelPath::parse(alloc, place.1) {
        Ok(path) => repo.lookup(Rev(place.0), &path),
        Err(_) => None,
    }
}

fn push_text(alloc: Global, text: &[u8], out: &mut String) -> Result<(), Fail> {
    let text = String::from_utf8_lossy(alloc, text)?;
    out.push_str(text.as_str())?;
    Ok(())
}

fn push_count(name: &str, count: usize, out: &mut String) -> Result<(), Fail> {
    write!(out, "{name} {count}")?;
    Ok(())
}

fn push_word(word: &str, out: &mut String) -> Result<(), Fail> {
    out.push_str(word)?;
    Ok(())
}

fn push_node(alloc: Global, repo: &Repo, id: NodeId, out: &mut String) -> Result<(), Fail> {
    if let Some(text) = repo.text(id) {
        return push_text(alloc, text, out);
    }
    match repo.entries(id) {
        Some(entries) => push_count("entries", entries.len(), out),
        None => push_word("no node", out),
    }
}

fn push_props(repo: &Repo, id: NodeId, out: &mut String) -> Result<(), Fail> {
    match repo.props(id) {
        Some(props) => push_count("props", props.len(), out),
        None => push_word("no node", out),
    }
}

fn compared(repo: &Repo, by: By, a: NodeId, b: NodeId) -> &'static str {
    match by {
        By::Node => if a == b { "same" } else { "other" },
        By::Line => if repo.line(a) == repo.line(b) {
            "one line"
        } else {
            "two lines"
        },
        By::Relation => if repo.are_related(a, b) {
            "related"
        } else {
            "unrelated"
        },
    }
}

fn compare(alloc: Global, repo: &Repo, by: By, places: (Location, Location)) -> &'static str {
    let a = node(alloc, repo, places.0);
    let b = node(alloc, repo, places.1);
    match (a, b) {
        (Some(a), Some(b)) => compared(repo, by, a, b),
        _ => "none",
    }
}

fn ask(alloc: Global, repo: &Repo, question: Question, out: &mut String) -> Result<(), Fail> {
    match question {
        Question::Latest => push_count("latest", repo.latest().0 as usize, out),
        Question::At(place) => match node(alloc, repo, place) {
            Some(id) => push_node(alloc, repo, id, out),
            None => push_word("none", out),
        },
        Question::Props(place) => match node(alloc, repo, place) {
            Some(id) => push_props(repo, id, out),
            None => push_word("none", out),
        },
        Question::Compare(by, a, b) => push_word(compare(alloc, repo, by, (a, b)), out),
    }
}

fn ask_all(
    alloc: Global,
    repo: &Repo,
    questions: &[Question],
    out: &mut String,
) -> Result<(), Fail> {
    for question in questions {
        ask(alloc, repo, *question, out)?;
        out.push(',')?;
    }
    Ok(())
}

fn told(alloc: Global, history: &History) -> Result<String, Fail> {
    let mut out = String::new(alloc);
    let mut repo = Repo::new(alloc)?;
    take_all(alloc, &mut repo, history.steps, &mut out)?;
    ask_all(alloc, &repo, history.questions, &mut out)?;
    Ok(out)
}

/// A history must return what its row says.
pub(crate) fn is_told(rt: &impl Abort, alloc: Global, history: &History) -> Result<(), Fail> {
    let found = told(alloc, history)?;
    assert_eq!(rt; found.as_str(), history.told);
    Ok(())
}

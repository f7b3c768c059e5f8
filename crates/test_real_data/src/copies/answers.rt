//! What `check` answers, of copies in memory.
ghost use Rattle.std.specs.Prelude.{false, Some};

use super::files::history_of;
use anyhow::{Result, ensure};
use std::alloc::Global;
use std::rt::Files;
use std::{fmt, fs};
use svn_answers::{Asked, Copies, History, Inquiry, Opened, Topic, WrittenNotices};
use svn_disk_audit::Examiner;
use svn_dump::Texts;
use svn_types::{RelPath, Text};
use svn_wcdb::BaseTree;

const ROWS: [(&str, Option<&[u8]>, &[&str]); 4] = [
    ("no copy", None, &[]),
    ("a copy", None, &["copy"]),
    ("a copy of another repository", Some(b"another"), &["copy"]),
    (
        "one that is gone, one that changes, and a copy",
        None,
        &["gone", "changing", "copy"],
    ),
];

/// Copies with one text, `f`. The database of the one that changes was cut off while it was read.
#[derive(Clone, Copy)]
pub(super) struct InMemory<'a> {
    pub(super) alloc: Global,
    pub(super) database: &'a [u8],
    /// The folder of the copy that is opened.
    pub(super) below: &'static str,
}

/// The text of the files.
#[derive(Clone, Copy)]
pub(super) struct OneText(&'static [u8]);

/// Why a copy isn't opened.
#[derive(Clone, Copy)]
pub(super) struct Refused(&'static str);

impl fmt::Display for Refused {
    ghost output = { λ r. Some r.0.now };

    fn fmt<W: fmt::Write>(&self, f: &mut fmt::Formatter<W>) -> fmt::Result {
        f.write_str(self.0)
    }
}

impl Examiner for OneText {
    type Fault = Refused;

    type Text = &'static [u8];

    ghost text_at = { λ s _. Some s.0.now };

    fn examine(&mut self, _tree: &BaseTree) -> std::result::Result<(), Refused> {
        Ok(())
    }

    fn pristine(
        &mut self,
        _path: &RelPath,
        _name: &Text,
    ) -> std::result::Result<&'static [u8], Refused> {
        Ok(self.0)
    }
}

impl Copies for InMemory<'_> {
    type Fault = Refused;

    type Examiner = OneText;

    ghost lacks_memory = { λ _ _. false };

    fn is_memory(&self, _fault: &Refused) -> bool {
        false
    }

    fn open(&self, name: &str) -> std::result::Result<Opened<OneText>, Refused> {
        let bytes = match name {
            "gone" => return Err(Refused("no such copy")),
            "changing" => &self.database[..self.database.len() / 2],
            _ => self.database,
        };
        let (Ok(database), Ok(below)) = (
            Vec::from_slice(self.alloc, bytes),
            RelPath::parse(self.alloc, self.below),
        ) else {
            return Err(Refused("out of memory"));
        };
        Ok(Opened {
            database,
            below,
            examiner: OneText(b"f\n"),
        })
    }

    fn look_again(
        &self,
        name: &str,
        _database: &[u8],
        _examiner: &OneText,
    ) -> std::result::Result<(), Refused> {
        if name == "changing" {
            return Err(Refused("it changed"));
        }
        Ok(())
    }
}

fn print_text<R: Print>(rt: &R, bytes: &[u8]) -> Result<()> {
    print!(rt; "{}", str::from_utf8(bytes)?)?;
    Ok(())
}

/// What is answered of copies: the status, the lines, and the notices.
pub(super) fn answers_of<C: Copies>(
    alloc: Global,
    history: History<'_>,
    copies: &C,
    names: &[&str],
) -> Result<(u8, Vec<u8>, Vec<u8>)> {
    let asked = Asked {
        alloc,
        history,
        copies,
    };
    let mut lines = Vec::new(alloc);
    let mut notices = WrittenNotices::new(copies, Vec::new(alloc));
    let verdict = asked.check_written(names, &mut lines, &mut notices)?;
    ensure!(!notices.failed, "a notice isn't written");
    Ok((verdict.status(), lines, notices.output))
}

/// What is told of a copy, untrue or not, where something is asked of it: the lines, and the notices.
pub(super) fn told_of<'a, C: Copies>(
    alloc: Global,
    history: History<'a>,
    copies: &'a C,
    topic: Topic,
    name: &str,
) -> Result<(Vec<u8>, Vec<u8>)> {
    let asked = Asked {
        alloc,
        history,
        copies,
    };
    let inquiry = Inquiry {
        topic,
        allow_untrue: true,
    };
    let mut lines = Vec::new(alloc);
    let mut notices = WrittenNotices::new(copies, Vec::new(alloc));
    asked.answer_written(inquiry, name, &mut lines, &mut notices)?;
    Ok((lines, notices.output))
}

/// Checks copies, and prints the answers.
pub(crate) fn check_copies<R: Files + AllocGlobal + Print>(rt: &R) -> Result<()> {
    let alloc = rt.alloc();
    let texts = Texts::Sha1;
    let repo = history_of(rt, "copies/wrong_revision.dump", texts)?;
    let database = fs::read(rt, "copies/wrong_revision.db")?;
    let copies = InMemory {
        alloc,
        database: &database,
        below: "",
    };
    for (row, uuid, names) in &ROWS {
        let history = History {
            repo: &repo,
            texts,
            uuid: *uuid,
            any_uuid: false,
            first: 0,
        };
        let (status, lines, notices) = answers_of(alloc, history, &copies, names)?;
        println!(rt; "check of {row}: status {status}")?;
        print_text(rt, &lines)?;
        print_text(rt, &notices)?;
    }
    Ok(())
}

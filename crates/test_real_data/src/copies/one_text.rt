//! Audits of a copy of one file, with texts in memory.
ghost use Rattle.std.specs.Prelude.{◌≡◌, ℕ, List, Option};
ghost use Rattle.std.specs.Option.{option_copied};

use super::files::history_of;
use anyhow::{Result, bail};
use std::alloc::Global;
use std::fs;
use std::rt::Files;
use svn_disk_audit::{AuditFault, Audited, Examiner, Question, Reading, audit};
use svn_dump::Texts;
use svn_repo::Repo;
use svn_types::{RelPath, Text};
use svn_wcdb::{BaseTree, Takes};

const ROWS: [(&str, Option<&[u8]>); 4] = [
    ("its text", Some(b"f\n")),
    ("another text", Some(b"g\n")),
    ("an empty text", Some(b"")),
    ("no text", None),
];

// A store that has one text, or none, whatever it is asked for.
#[derive(Clone, Copy)]
struct OneText {
    text: Option<&'static [u8]>,
}

#[derive(Clone, Copy)]
struct NoText;

impl Examiner for OneText {
    type Fault = NoText;

    type Text = &'static [u8];

    ghost text_at = { λ s _. option_copied s.text };

    fn examine(&mut self, _tree: &BaseTree) -> std::result::Result<(), NoText> {
        Ok(())
    }

    fn pristine(
        &mut self,
        _path: &RelPath,
        _name: &Text,
    ) -> std::result::Result<&'static [u8], NoText> {
        match self.text {
            Some(text) => Ok(text),
            None => Err(NoText),
        }
    }
}

// How many bytes the texts of a copy have, and what is untrue.
fn told(alloc: Global, audited: &Audited) -> Result<String> {
    let mut bytes = 0u64;
    for (_, node) in &audited.copy {
        if let Some(text) = node.text() {
            bytes = bytes.saturating_add(text.len() as u64);
        }
    }
    match audited.untrue.first() {
        Some(untrue) => Ok(format!(in alloc; "{bytes} bytes of texts, {untrue}")?),
        None => Ok(format!(in alloc; "{bytes} bytes of texts")?),
    }
}

fn audit_with(
    alloc: Global,
    question: Question<'_, '_>,
    database: &[u8],
    mut store: OneText,
) -> Result<String> {
    match audit(alloc, question, database, &mut store) {
        Ok(audited) => told(alloc, &audited),
        Err(AuditFault::Pristine(refusal)) => Ok(format!(in alloc; "{refusal}")?),
        Err(AuditFault::Examiner(NoText)) => Ok(format!(in alloc; "there is none")?),
        Err(_) => bail!("the copy is refused"),
    }
}

fn audit_rows<R: Files + AllocGlobal + Print>(rt: &R, texts: Texts, how: &str) -> Result<()> {
    let alloc = rt.alloc();
    let repo = history_of(rt, "copies/wrong_revision.dump", texts)?;
    let database = fs::read(rt, "copies/wrong_revision.db")?;
    let below = RelPath::root(alloc);
    let reading = Reading {
        takes: Takes::Whole,
        texts,
        below: &below,
    };
    let question = Question {
        repo: &repo,
        reading,
    };
    for (name, text) in &ROWS {
        let told = audit_with(alloc, question, &database, OneText { text: *text })?;
        println!(rt; "wrong_revision, {how}, {name}: {told}")?;
    }
    Ok(())
}

/// Audits the copy with its text and with others, kept as stand-ins, by MD5 and whole.
pub(crate) fn audit_with_texts<R: Files + AllocGlobal + Print>(rt: &R) -> Result<()> {
    audit_rows(rt, Texts::Sha1, "as stand-ins")?;
    audit_rows(rt, Texts::Md5, "by MD5")?;
    audit_rows(rt, Texts::Whole, "whole")
}

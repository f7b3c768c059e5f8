//! What is told of copies that Subversion made, where the dump begins late, is of another UUID, or has nothing at the path of a folder any more; and whether
//! files have the bytes of their pristine texts.
//!
//! `data/told` has the dumps, the databases, and for each row NAME.told, what must be told. `examples/subversion/told_data.sh` has Subversion make them.

use super::answers::{InMemory, answers_of, told_of};
use super::compare;
use super::files::file_of;
use anyhow::{Result, bail};
use std::alloc::Global;
use std::fs;
use std::rt::Files;
use svn_answers::{FileComparison, History, Loaded, Topic};
use svn_dump::{Limits, Texts};
use svn_history::NoLoadListener;

/// The name of a row, its dump and its database, the folder that is asked about, whether any UUID is taken, and what is asked: whether it is true, or else.
type Row = (
    &'static str,
    &'static str,
    &'static str,
    &'static str,
    bool,
    Option<Topic>,
);

const ROWS: [Row; 11] = [
    ("late", "late", "late", "", false, None),
    ("early", "late", "early", "", false, None),
    ("late_folder", "late", "late", "d", false, None),
    ("later", "later", "later", "", false, None),
    ("mirror", "mirror", "late", "", true, None),
    ("other_uuid", "mirror", "late", "", false, None),
    (
        "gone_update",
        "gone",
        "gone",
        "d",
        false,
        Some(Topic::Update(None)),
    ),
    (
        "gone_calls",
        "gone",
        "gone",
        "d",
        false,
        Some(Topic::Calls(None)),
    ),
    (
        "gone_nodes",
        "gone",
        "gone",
        "d",
        false,
        Some(Topic::Nodes(None)),
    ),
    (
        "gone_switched",
        "gone",
        "gone",
        "s",
        false,
        Some(Topic::Update(None)),
    ),
    (
        "gone_whole",
        "gone",
        "gone_whole",
        "",
        false,
        Some(Topic::Nodes(None)),
    ),
];

/// The bytes of files and of their pristine texts.
const FILES: [(&str, &str, bool); 6] = [
    ("", "", true),
    ("one\n", "one\n", true),
    ("one\n", "ten\n", false),
    ("one\r\n", "one\n", false),
    ("one\n", "one", false),
    ("", "one\n", false),
];

fn load<R: Files + AllocGlobal>(rt: &R, name: &str) -> Result<Loaded> {
    let alloc = rt.alloc();
    let file = fs::File::open(rt, format!(in alloc; "told/{name}.dump")?)?;
    match Loaded::load(
        alloc,
        file,
        Limits::default(),
        Texts::Sha1,
        &mut NoLoadListener,
    ) {
        Ok(loaded) => Ok(loaded),
        Err(refusal) => bail!("{name}: {refusal}"),
    }
}

// The lines and then the notices.
fn told(
    alloc: Global,
    history: History<'_>,
    copies: &InMemory<'_>,
    name: &str,
    topic: Option<Topic>,
) -> Result<Vec<u8>> {
    let (mut lines, notices) = match topic {
        Some(topic) => told_of(alloc, history, copies, topic, name)?,
        None => {
            let (_, lines, notices) = answers_of(alloc, history, copies, &[name])?;
            (lines, notices)
        }
    };
    lines.extend_from_slice(&notices)?;
    Ok(lines)
}

fn compare_row<R: Files + AllocGlobal + Print>(rt: &R, row: &Row) -> Result<()> {
    let (name, dump, database, below, any_uuid, topic) = *row;
    let alloc = rt.alloc();
    let loaded = load(rt, dump)?;
    let database = file_of(rt, "told", database, "db")?;
    let copies = InMemory {
        alloc,
        database: &database,
        below,
    };
    let history = loaded.history(Texts::Sha1, any_uuid);
    let found = told(alloc, history, &copies, name, topic)?;
    let wanted = file_of(rt, "told", name, "told")?;
    compare(rt, name, "what is told", &found, &wanted)
}

fn compare_files<R: AllocGlobal + Print>(rt: &R) -> Result<()> {
    let mut comparison = FileComparison::new(rt.alloc())?;
    for (file, text, wanted) in &FILES {
        let (mut file, mut text) = (file.as_bytes(), text.as_bytes());
        if comparison.have_same_bytes(&mut file, &mut text)? != *wanted {
            bail!("a file of {} bytes", file.len())
        }
    }
    println!(rt;
        "files and their pristine texts: {} pairs as expected",
        FILES.len()
    )?;
    Ok(())
}

/// Compares all of it.
pub(crate) fn check_told<R: Files + AllocGlobal + Print>(rt: &R) -> Result<()> {
    for row in &ROWS {
        compare_row(rt, row)?;
    }
    compare_files(rt)
}

//! A database that is made of nodes, with work that is left.

use anyhow::Result;
use std::alloc::Global;
use std::str;
use svn_digits::stand_in;
use svn_model::BaseNode;
use svn_types::{Digest, PropName, Props, RelPath, Rev, Text};
use svn_wcdb::TableRow;
use svn_wcrows::{
    LastChange, Numbers, Owner, Recorded, Tables, Work, lock_row, node_record, pristine_record,
    read_tables, read_work, work_rows, write_copy,
};

const OWNER: Owner = Owner {
    wc_id: 1,
    repos_id: 1,
};

/// A node: its path, its revision, its path in the repository, its text if it is a file, and a property that is `*`.
type Stated = (
    &'static str,
    u64,
    &'static str,
    Option<&'static str>,
    &'static str,
);

/// A copy of `trunk`, with a path of another revision and one that is switched. The last directory isn't complete.
const NODES: [Stated; 6] = [
    ("", 7, "trunk", None, "svn:ignore"),
    ("a", 7, "trunk/a", Some("first\n"), "p"),
    ("d", 7, "trunk/d", None, ""),
    ("d/link", 3, "trunk/d/link", Some("link run"), "svn:special"),
    (
        "d/run",
        7,
        "branches/b/run",
        Some("first\n"),
        "svn:executable",
    ),
    ("part", 7, "trunk/part", None, "incomplete"),
];

const TEXTS: [&str; 2] = ["first\n", "link run"];

/// What is left to do at a path.
#[derive(Clone, Copy)]
enum Kind {
    RemoveFile,
    RemoveDirectory,
    MakeDirectory,
    InstallFile,
}

const WORK: [(Kind, &str); 4] = [
    (Kind::RemoveFile, "gone/file"),
    (Kind::RemoveDirectory, "gone"),
    (Kind::MakeDirectory, "d"),
    (Kind::InstallFile, "d/run"),
];

fn path(alloc: Global, text: &str) -> Result<RelPath> {
    if text.is_empty() {
        Ok(RelPath::root(alloc))
    } else {
        Ok(RelPath::parse(alloc, text)?)
    }
}

fn props(alloc: Global, name: &str) -> Result<Props> {
    let mut props = Props::new(alloc);
    if !name.is_empty() {
        props.insert(
            PropName::parse(alloc, name)?,
            Text::from_slice(alloc, b"*")?,
        )?;
    }
    Ok(props)
}

fn node(alloc: Global, stated: &Stated) -> Result<BaseNode> {
    let (_, rev, repos_path, text, name) = stated;
    let rev = Rev(*rev);
    let repos_path = path(alloc, repos_path)?;
    let props = props(alloc, name)?;
    Ok(match text {
        Some(text) => BaseNode::File {
            rev,
            repos_path,
            text: stand_in(alloc, text.as_bytes())?,
            props,
        },
        None => BaseNode::Dir {
            rev,
            repos_path,
            complete: *name != "incomplete",
            props,
        },
    })
}

/// What each node's row records.
const RECORDED: Recorded<'static> = Recorded {
    change: Some(LastChange {
        rev: Rev(3),
        date: Some(1_700_000_000_000_000),
        author: Some(b"jo"),
    }),
    size_and_time: None,
    inherited: None,
};

// Puts a record in the next row, numbered from 1 on.
fn push_row(rows: &mut Vec<TableRow>, bytes: Text) -> Result<()> {
    let rowid = rows.len() as u64 + 1;
    rows.push(TableRow { rowid, bytes })?;
    Ok(())
}

fn nodes(alloc: Global) -> Result<Vec<(RelPath, BaseNode)>> {
    let mut nodes = Vec::new(alloc);
    for stated in &NODES {
        nodes.push((path(alloc, stated.0)?, node(alloc, stated)?))?;
    }
    Ok(nodes)
}

// The rows of the nodes.
fn push_nodes(
    alloc: Global,
    rows: &mut Vec<TableRow>,
    nodes: &[(RelPath, BaseNode)],
) -> Result<()> {
    for (path, node) in nodes {
        push_row(rows, node_record(alloc, OWNER, path, node, &RECORDED)?)?;
    }
    Ok(())
}

fn text_record(alloc: Global, text: &[u8]) -> Result<Text> {
    let word = stand_in(alloc, text)?;
    let md5 = Digest::of(text);
    let len = text.len() as u64;
    Ok(pristine_record(alloc, word.as_slice(), len, &md5)?)
}

fn push_texts(alloc: Global, rows: &mut Vec<TableRow>) -> Result<()> {
    for text in &TEXTS {
        push_row(rows, text_record(alloc, text.as_bytes())?)?;
    }
    Ok(())
}

fn work_item(alloc: Global, kind: Kind, text: &str) -> Result<Work> {
    let path = path(alloc, text)?;
    Ok(match kind {
        Kind::RemoveFile => Work::RemoveFile(path),
        Kind::RemoveDirectory => Work::RemoveDirectory(path),
        Kind::MakeDirectory => Work::MakeDirectory(path),
        Kind::InstallFile => Work::InstallFile(path),
    })
}

fn work(alloc: Global) -> Result<Vec<Work>> {
    let mut items = Vec::new(alloc);
    for (kind, text) in &WORK {
        items.push(work_item(alloc, *kind, text)?)?;
    }
    Ok(items)
}

// The rows of the tables but those of the nodes.
fn tables(alloc: Global) -> Result<Tables> {
    let uuid = b"8c2cd125-01f3-4a01-a4b5-22ec721dff0f";
    let mut tables = Tables::new(alloc, b"svn://h/repo", uuid)?;
    push_texts(alloc, &mut tables.pristine)?;
    tables.work_queue = work_rows(alloc, &work(alloc)?, 4)?;
    tables.wc_lock.push(lock_row(alloc, OWNER)?)?;
    Ok(tables)
}

// The bytes of the database.
fn bytes(alloc: Global) -> Result<Vec<u8>> {
    let nodes = nodes(alloc)?;
    let mut tables = tables(alloc)?;
    push_nodes(alloc, &mut tables.nodes, &nodes)?;
    tables.count_texts(alloc)?;
    Ok(write_copy(alloc, &tables, Numbers::with_work(9), &nodes)?)
}

/// Prints the database in hexadecimal digits.
pub(crate) fn print_hex<R: AllocGlobal + Print>(rt: &R) -> Result<()> {
    let digits = hex::encode(rt.alloc(), &bytes(rt.alloc())?)?;
    println!(rt; "{digits}")?;
    Ok(())
}

// Whether the work in the database is read as it was written.
fn is_work_read(alloc: Global, bytes: &[u8]) -> Result<bool> {
    let tables = read_tables(alloc, bytes)?;
    let work = work(alloc)?;
    Ok(read_work(alloc, &tables.work_queue)? == Some(work))
}

/// Prints the checksum of the database, and whether the work in it is read as it was written.
pub(crate) fn print<R: AllocGlobal + Print>(rt: &R) -> Result<()> {
    let bytes = bytes(rt.alloc())?;
    let same = is_work_read(rt.alloc(), &bytes)?;
    let sum = stand_in(rt.alloc(), &bytes)?;
    let sum = str::from_utf8(sum.as_slice())?;
    let len = bytes.len();
    println!(rt; "made: {len} bytes {sum}, the work is read again: {same}")?;
    Ok(())
}

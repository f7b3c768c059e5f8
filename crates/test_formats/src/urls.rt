//! URLs, as Subversion 1.14.2 writes them, and some that it doesn't.
use std::alloc::Global;
use std::process::Abort;
use std::test::Fail;
use svn_types::RelPath;
use svn_wire::{push_url, read_url};

const ROOT: &str = "svn+rec://h/main";

// A path, and its URL without the front.
type Row = (&'static str, &'static str);

static ROWS: &[Row] = &[
    ("", ""),
    ("trunk", "/trunk"),
    ("branches/b1/A", "/branches/b1/A"),
    ("a b/100%", "/a%20b/100%25"),
    (
        "x !\"#$%&'()*+,-.:;<=>?@[\\]^_`{|}~y\u{e9}",
        "/x%20!%22%23$%25&'()*+,-.:%3B%3C=%3E%3F@%5B%5C%5D%5E_%60%7B%7C%7D~y%C3%A9",
    ),
];

// A URL, and its path or the fault.
static READ: &[Row] = &[
    ("svn+rec://h/main", "."),
    ("svn+rec://h/main/", "."),
    ("svn+rec://h/main/%74r%75nk", "trunk"),
    ("svn+rec://h/main/a%2fb", "a/b"),
    ("svn+rec://h/main/a%zz", "a%zz"),
    ("svn+rec://h/main/%C3%a9", "\u{e9}"),
    ("svn+rec://h/mainly", "! a URL outside the repository"),
    ("svn+rec://h/mai", "! a URL outside the repository"),
    ("svn+rec://g/main/a", "! a URL outside the repository"),
    ("", "! a URL outside the repository"),
    ("svn+rec://h/main/%ff", "! a URL that isn't UTF-8"),
    ("svn+rec://h/main/a/", "! a name is empty"),
    ("svn+rec://h/main/a/%2e%2E", "! a name is `.` or `..`"),
    (
        "svn+rec://h/main/a%0A",
        "! a name has a character that no name may have",
    ),
];

fn rows() -> &'static [Row] {
    ROWS
}

fn read_rows() -> &'static [Row] {
    READ
}

fn url_of(alloc: Global, path: &str) -> Result<Vec<u8>, Fail> {
    let path = RelPath::parse(alloc, path)?;
    let mut url = Vec::new(alloc);
    push_url(&mut url, ROOT.as_bytes(), &path)?;
    Ok(url)
}

fn path_of(alloc: Global, url: &[u8]) -> Result<String, Fail> {
    match read_url(alloc, ROOT.as_bytes(), url) {
        Ok(path) => Ok(format!(in alloc; "{path}")?),
        Err(fault) => Ok(format!(in alloc; "! {fault}")?),
    }
}

fn is_read_as(rt: &impl Abort, alloc: Global, url: &[u8], path: &str) -> Result<(), Fail> {
    let read = path_of(alloc, url)?;
    assert_eq!(rt; read.as_str(), path);
    Ok(())
}

fn goes_both_ways(rt: &impl Abort, alloc: Global, row: &Row) -> Result<(), Fail> {
    let url = url_of(alloc, row.0)?;
    let wanted = format!(in alloc; "{ROOT}{}", row.1)?;
    assert!(rt; url.as_slice() == wanted.as_bytes(), "{:?}", row.0);
    is_read_as(rt, alloc, &url, if row.0.is_empty() { "." } else { row.0 })
}

#[test]
fn urls_are_written_and_read(rt: HostRuntime) -> Result<(), Fail> {
    for row in rows() {
        goes_both_ways(&rt, rt.alloc(), row)?;
    }
    Ok(())
}

#[test]
fn urls_are_read_or_refused(rt: HostRuntime) -> Result<(), Fail> {
    for (url, path) in read_rows() {
        is_read_as(&rt, rt.alloc(), url.as_bytes(), path)?;
    }
    Ok(())
}

//! The URLs of a checkout and of a switch: the repository's root, the path in it, and the revision.

use crate::command_line::Checkout;
use crate::fault::Fault;
use percent_encoding::percent_decode;
use std::alloc::Global;
use svn_types::{PathBytesFault, PathFault, RelPath, Rev};

/// What a checkout is of.
#[derive(Drop)]
pub(crate) struct Address<'a> {
    /// The URL of the repository's root.
    pub(crate) root: &'a str,
    /// The path in the repository.
    pub(crate) path: RelPath,
    /// The revision, if one is given.
    pub(crate) rev: Option<Rev>,
}

// The URL without the slashes at its end.
fn trimmed(url: &str) -> &str {
    url.trim_end_matches('/')
}

// The URL, and the revision after the last `@`: an `@` with nothing after it is the end of a URL that has one.
fn split_rev(url: &str) -> Result<(&str, Option<Rev>), Fault> {
    let Some((front, number)) = url.rsplit_once('@') else {
        return Ok((url, None));
    };
    if number.is_empty() {
        return Ok((front, None));
    }
    if number.contains('/') {
        return Ok((url, None));
    }
    match number.parse::<u64>() {
        Ok(number) => Ok((front, Some(Rev(number)))),
        Err(_) => Err(Fault::BadUrl),
    }
}

// What of a URL is below the root's, after a slash; nothing where it is the root's.
fn below<'a>(url: &'a str, root: &str) -> Result<&'a str, Fault> {
    let Some(rest) = url.strip_prefix(root) else {
        return Err(Fault::OtherRoot);
    };
    if rest.is_empty() {
        return Ok(rest);
    }
    match rest.strip_prefix('/') {
        Some(path) => Ok(path),
        None => Err(Fault::OtherRoot),
    }
}

// The path that a part of a URL spells, with its escapes read.
fn path_of(alloc: Global, text: &str) -> Result<RelPath, Fault> {
    let mut bytes = Vec::new(alloc);
    percent_decode(text.as_bytes()).append_to(&mut bytes)?;
    match RelPath::from_bytes(alloc, &bytes) {
        Ok(path) => Ok(path),
        Err(PathBytesFault::Path(PathFault::Memory)) => Err(Fault::Memory),
        Err(_) => Err(Fault::BadUrl),
    }
}

/// Reads the URL of a checkout.
pub(crate) fn address_of<'a>(alloc: Global, words: &Checkout<'a>) -> Result<Address<'a>, Fault> {
    let (url, rev) = split_rev(words.url)?;
    let url = trimmed(url);
    let root = match words.root {
        Some(root) => trimmed(root),
        None => url,
    };
    let path = path_of(alloc, below(url, root)?)?;
    Ok(Address { root, path, rev })
}

/// Reads where a switch leads, of a copy whose repository has this URL: the path in the repository, and the revision, if one is given.
pub(crate) fn switched_to(
    alloc: Global,
    url: &str,
    root: &[u8],
) -> Result<(RelPath, Option<Rev>), Fault> {
    let (url, rev) = split_rev(url)?;
    let url = trimmed(url);
    if url == "^" {
        return Ok((RelPath::root(alloc), rev));
    }
    if let Some(path) = url.strip_prefix("^/") {
        return Ok((path_of(alloc, path)?, rev));
    }
    let Ok(root) = str::from_utf8(root) else {
        return Err(Fault::OtherRoot);
    };
    Ok((path_of(alloc, below(url, trimmed(root))?)?, rev))
}

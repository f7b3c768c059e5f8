//! URLs of nodes, below that of the repository.
ghost use Rattle.std.specs.Prelude.{◌≡◌, ◌++◌, OnOk, Some, option_map};
ghost use Rattle.std.specs.List.{flat_map};
ghost use Rattle.percent_encoding.specs.Percent.{percent_decode};
ghost use Rattle.svn_wire.specs.declared.urls.UrlFault.TheVariants.{Memory};
ghost use Rattle.svn_wire.specs.Urls.{url_part, url_of, path_of_bytes, after_root, path_after, path_of_url, IsPathOr};

use percent_encoding::{AsciiSet, NON_ALPHANUMERIC, ascii_set, percent_decode, percent_encode};
use std::alloc::{AllocError, Global};
use svn_types::{Name, PathBytesFault, PathFault, RelPath};
use thiserror::Error;

/// The ASCII characters that a URL has only escaped, as Subversion 1.14 writes URLs. A slash is between names, and in none.
const ESCAPED: AsciiSet = ascii_set!(
    NON_ALPHANUMERIC
        .remove(b'!')
        .remove(b'$')
        .remove(b'&')
        .remove(b'\'')
        .remove(b'(')
        .remove(b')')
        .remove(b'*')
        .remove(b'+')
        .remove(b',')
        .remove(b'-')
        .remove(b'.')
        .remove(b'/')
        .remove(b':')
        .remove(b'=')
        .remove(b'@')
        .remove(b'_')
        .remove(b'~')
);

/// Why a URL has no path in the repository.
#[derive(Clone, Copy, Debug, PartialEq, Eq, Error)]
pub enum UrlFault {
    /// It is neither the repository's URL nor below it.
    #[error("a URL outside the repository")]
    Elsewhere,
    /// Without its escapes it isn't UTF-8.
    #[error("a URL that isn't UTF-8")]
    NotUtf8,
    /// What is below the repository's URL is no path.
    #[error("{0}")]
    BadPath(PathFault),
    /// An allocation failed.
    #[error("out of memory")]
    Memory,
}

impl From<AllocError> for UrlFault {
    ghost from_gives = { λ _ e. e ≡ Memory };

    fn from(_error: AllocError) -> UrlFault {
        UrlFault::Memory
    }
}

// A name with its escapes, and a slash before it.
fn push_part(out: &mut Vec<u8>, name: &Name) -> Result<(), AllocError>
    ensures { OnOk result (out.new.items ≡ out.old.items ++ url_part name.now) }
{
    let escaped = percent_encode(name.as_str().as_bytes(), ESCAPED).into_cow(*out.allocator())?;
    out.push(b'/')?;
    out.extend_from_slice(escaped.as_bytes())
}

/// Writes the URL of a path at the end: that of the repository, and of each name a slash and the name, with what no URL has escaped as `%XX`. After an error
/// its first bytes may be there.
pub fn push_url(out: &mut Vec<u8>, root: &[u8], path: &RelPath) -> Result<(), AllocError>
    ensures { OnOk result (out.new.items ≡ out.old.items ++ url_of root.now path.now) }
{
    out.extend_from_slice(root)?;
    push_parts(out, path.components())
}

fn push_parts(out: &mut Vec<u8>, names: &[Name]) -> Result<(), AllocError>
    ensures { OnOk result (out.new.items ≡ out.old.items ++ flat_map url_part names.now) }
{
    for name in names {
        push_part(out, name)?;
    }
    Ok(())
}

// The path of which these bytes are the text.
fn read_path(alloc: Global, bytes: &[u8]) -> Result<RelPath, UrlFault>
    ensures { IsPathOr (path_of_bytes bytes.now) result }
{
    match RelPath::from_bytes(alloc, bytes) {
        Ok(path) => Ok(path),
        Err(PathBytesFault::Path(PathFault::Memory)) => Err(UrlFault::Memory),
        Err(PathBytesFault::Path(fault)) => Err(UrlFault::BadPath(fault)),
        Err(PathBytesFault::NotUtf8) => Err(UrlFault::NotUtf8),
    }
}

// What is after the URL of the repository, if that is the front.
fn after_root<'a>(root: &[u8], url: &'a [u8]) -> Option<&'a [u8]>
    ensures { option_map (λ r. r.now) result ≡ after_root root.now url.now }
{
    url.strip_prefix(root)
}

// The path of this text with escapes.
fn read_escaped(alloc: Global, text: &[u8]) -> Result<RelPath, UrlFault>
    ensures { IsPathOr (path_of_bytes (percent_decode text.now)) result }
{
    let bytes = percent_decode(text).into_cow(alloc)?;
    read_path(alloc, &bytes)
}

// The path of what is after the URL of the repository.
fn read_after(alloc: Global, rest: &[u8]) -> Result<RelPath, UrlFault>
    ensures { IsPathOr (path_after (Some rest.now)) result }
{
    match rest {
        [] => Ok(RelPath::root(alloc)),
        [b'/', text @ ..] => read_escaped(alloc, text),
        _ => Err(UrlFault::Elsewhere),
    }
}

/// Reads the path of a URL in the repository whose URL is `root`, which has no slash at its end. Memory may come in place of any other refusal.
pub fn read_url(alloc: Global, root: &[u8], url: &[u8]) -> Result<RelPath, UrlFault>
    ensures { IsPathOr (path_of_url root.now url.now) result }
{
    match after_root(root, url) {
        Some(rest) => read_after(alloc, rest),
        None => Err(UrlFault::Elsewhere),
    }
}

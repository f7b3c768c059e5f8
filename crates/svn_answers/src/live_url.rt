//! The URL that a server is asked for.
ghost use Rattle.std.specs.Prelude.{◌≡◌, IfOk};
ghost use Rattle.svn_answers.specs.LiveUrls.{is_of_server, from_slash, server_url};

use std::alloc::{AllocError, Global};
use svn_types::Text;

// Whether it is of the access method of a server, direct or through a tunnel.
fn is_of_server(url: &[u8]) -> bool
    ensures { result ≡ is_of_server url.now }
{
    url.starts_with(b"svn://") || url.starts_with(b"svn+")
}

// What is after the host of a URL, from its slash on.
fn path_of(url: &[u8]) -> &[u8]
    ensures { result.now ≡ from_slash 2 url.now }
{
    let mut slashes = 2usize;
    let mut rest = url;
    'bytes: while let [byte, after @ ..] = rest {
        if *byte == b'/' {
            if slashes == 0 {
                return rest;
            }
            slashes -= 1;
        }
        rest = after;
    }
    rest
}

/// The URL by which a server is asked for the repository of a copy: the one that the copy has, or, where that is of another access method, its path below
/// `svn://`.
pub fn server_url(alloc: Global, url: &[u8]) -> Result<Text, AllocError>
    ensures { IfOk result (λ text. text ≡ server_url url.now) }
{
    if is_of_server(url) {
        return Text::from_slice(alloc, url);
    }
    let mut bytes = Vec::new(alloc);
    bytes.extend_from_slice(b"svn://")?;
    bytes.extend_from_slice(path_of(url))?;
    Ok(Text::new(bytes))
}

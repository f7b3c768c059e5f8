//! Where a client is in the repository, and what its paths, URLs and revisions name.

ghost use Rattle.std.specs.Prelude.{◌≡◌, Some, IfOk};
ghost use Rattle.svn_replies.specs.Refusals.{Gives, refusal_code};
ghost use Rattle.svn_replies.specs.Sessions.{IsOpened};
ghost use Rattle.svn_replies.specs.Named.{after_slash, path_named, path_in, place_named, url_named, known_rev, named_rev, node_in, node_of_kind};

use crate::fault::{Failure, Refused, code};
use crate::served::Served;
use std::alloc::{AllocError, Global};
use svn_repo::NodeId;
use svn_types::{Kind, PathBytesFault, PathFault, RelPath, Rev, Text, split_once};
use svn_wire::{UrlFault, read_url};

/// What a client named: the URL of the repository, and the path of the directory that it is in.
#[derive(Debug, Drop)]
pub struct Session {
    /// The URL.
    pub url: Text,
    /// The path.
    pub at: RelPath,
}

/// A path of a revision.
#[derive(Debug, Drop)]
pub struct Place {
    /// The revision.
    pub rev: Rev,
    /// The path.
    pub path: RelPath,
}

/// What is served to a client.
#[derive(Clone, Copy)]
pub struct View<'a> {
    /// Where memory comes from.
    pub alloc: Global,
    /// What is served.
    pub served: &'a Served,
    /// Where the client is.
    pub session: &'a Session,
}

/// A failure of this code.
pub fn failed(code: u64, message: String) -> Refused
    ensures { refusal_code result ≡ Some code }
{
    Refused::Failed(Failure::new(code, message))
}

// The bytes after a slash at their front, if there is one.
fn after_slash(bytes: &[u8]) -> &[u8]
    ensures { result.now ≡ after_slash bytes.now }
{
    match bytes {
        [b'/', rest @ ..] => rest,
        _ => bytes,
    }
}

/// A path of a command, which may have a slash before its first name.
pub fn read_path(alloc: Global, bytes: &[u8]) -> Result<RelPath, Refused>
    ensures { Gives (λ p. p) result (path_named bytes.now) }
{
    match RelPath::from_bytes(alloc, after_slash(bytes)) {
        Ok(path) => Ok(path),
        Err(PathBytesFault::Path(PathFault::Memory)) => Err(Refused::Memory),
        Err(PathBytesFault::Path(fault)) => {
            Err(failed(
                code::BAD_PATH,
                format!(in alloc; "a path that isn't one: {fault}")?,
            ))
        }
        Err(PathBytesFault::NotUtf8) => {
            Err(failed(
                code::BAD_PATH,
                format!(in alloc; "a path that isn't UTF-8")?,
            ))
        }
    }
}

// A URL without its path: its scheme and its host.
fn host_of(url: &[u8]) -> Option<&[u8]> {
    let (_scheme, rest) = split_once(url, b':')?;
    let rest = rest.strip_prefix(b"//")?;
    let path_len = match split_once(rest, b'/') {
        Some((_host, path)) => path.len().saturating_add(1),
        None => 0,
    };
    url.get(..url.len().saturating_sub(path_len))
}

// A URL that isn't that of the repository, or below it.
fn elsewhere(alloc: Global) -> Result<Refused, AllocError>
    ensures { IfOk result (λ refused. refusal_code refused ≡ Some 210005) }
{
    Ok(failed(
        code::NO_REPOSITORY,
        format!(in alloc; "no repository is at this URL")?,
    ))
}

/// The path of a URL in the repository.
fn path_of(alloc: Global, root: &[u8], url: &[u8]) -> Result<RelPath, Refused>
    ensures { Gives (λ p. p) result (url_named root.now url.now) }
{
    match read_url(alloc, root, url) {
        Ok(path) => Ok(path),
        Err(UrlFault::Memory) => Err(Refused::Memory),
        Err(UrlFault::Elsewhere) => Err(elsewhere(alloc)?),
        Err(fault) => Err(failed(code::BAD_PATH, format!(in alloc; "{fault}")?)),
    }
}

impl Session {
    /// The session of a client that names this URL: it is below that of the repository, which is a scheme, a host and where the repository is there.
    pub fn open(alloc: Global, served: &Served, url: &[u8]) -> Result<Session, Refused>
        ensures { IfOk result (IsOpened served.now.root url.now) }
    {
        let Some(host) = host_of(url) else {
            return Err(elsewhere(alloc)?);
        };
        let mut root = Vec::from_slice(alloc, host)?;
        root.extend_from_slice(served.root.as_slice())?;
        let at = path_of(alloc, &root, url)?;
        Ok(Session {
            url: Text::new(root),
            at,
        })
    }

    /// The path of a URL in the repository.
    pub fn path_of_url(&self, alloc: Global, url: &[u8]) -> Result<RelPath, Refused>
        ensures { Gives (λ p. p) result (url_named self.now.url url.now) }
    {
        path_of(alloc, self.url.as_slice(), url)
    }
}

// A path as a message names it: with a slash before its first name.
fn shown(alloc: Global, path: &RelPath) -> Result<String, AllocError> {
    if path.is_root() {
        Ok(format!(in alloc; "/")?)
    } else {
        Ok(format!(in alloc; "/{path}")?)
    }
}

impl View<'_> {
    /// The path in the repository of a path of a command.
    #[tactic(auto, unfolding(crate::specs::Named::path_in))]
    pub fn path(&self, bytes: &[u8]) -> Result<RelPath, Refused>
        ensures { Gives (λ p. p) result (path_in self.now.session.now.at bytes.now) }
    {
        let below = read_path(self.alloc, bytes)?;
        match self.session.at.join_path(self.alloc, &below) {
            Ok(path) => Ok(path),
            Err(PathFault::Memory) => Err(Refused::Memory),
            Err(fault) => Err(failed(code::BAD_PATH, format!(in self.alloc; "{fault}")?)),
        }
    }

    /// A revision that the repository has.
    pub fn known(&self, rev: Rev) -> Result<Rev, Refused>
        ensures { Gives (λ r. r) result (known_rev self.now.served.now.repo rev) }
    {
        if rev <= self.served.repo.latest() {
            return Ok(rev);
        }
        Err(failed(
            code::NO_REVISION,
            format!(in self.alloc; "No such revision {rev}")?,
        ))
    }

    /// The revision that is named, or the last.
    pub fn rev(&self, number: Option<u64>) -> Result<Rev, Refused>
        ensures { Gives (λ r. r) result (named_rev self.now.served.now.repo number) }
    {
        match number {
            Some(number) => self.known(Rev(number)),
            None => Ok(self.served.repo.latest()),
        }
    }

    /// The revision and the path that are named.
    #[tactic(auto, unfolding(crate::specs::Named::place_named))]
    pub fn place(&self, path: &[u8], rev: Option<u64>) -> Result<Place, Refused>
        ensures { Gives (λ place. (place.rev, place.path)) result (place_named self.now.served.now.repo self.now.session.now.at path.now rev) }
    {
        let rev = self.rev(rev)?;
        let path = self.path(path)?;
        Ok(Place { rev, path })
    }

    /// The node at a path.
    pub fn node(&self, rev: Rev, path: &RelPath) -> Result<NodeId, Refused>
        ensures { Gives (λ n. n) result (node_in self.now.served.now.repo rev path.now) }
    {
        match self.served.repo.lookup(rev, path) {
            Some(node) => Ok(node),
            None => {
                let path = shown(self.alloc, path)?;
                let message = format!(in self.alloc;
                    "File not found: revision {rev}, path '{path}'"
                )?;
                Err(failed(code::NOT_FOUND, message))
            }
        }
    }

    /// The node at a path, if it is of this kind.
    #[tactic(auto, unfolding(crate::specs::Named::node_of_kind))]
    pub(crate) fn node_of(&self, kind: Kind, rev: Rev, path: &RelPath) -> Result<NodeId, Refused>
        ensures { Gives (λ n. n) result (node_of_kind self.now.served.now.repo kind rev path.now) }
    {
        let node = self.node(rev, path)?;
        if self.served.repo.kind(node) == Some(kind) {
            return Ok(node);
        }
        let path = shown(self.alloc, path)?;
        match kind {
            Kind::File => Err(failed(
                code::NOT_FILE,
                format!(in self.alloc; "'{path}' is not a file in revision {rev}")?,
            )),
            Kind::Directory => Err(failed(
                code::NOT_DIRECTORY,
                format!(in self.alloc; "'{path}' is not a directory in revision {rev}")?,
            )),
        }
    }
}

//! The printed lines of a drive.

use crate::plain::acts::{Act, Deed};
use crate::plain::fault::Result;
use crate::plain::plain_path::PlainPath;
use crate::plain::words::{PROP_NAMES, Word};
use md5::{Digest, Md5};
use std::alloc::Global;
use std::collections::BTreeMap;
use std::fmt;
use svn_types::Kind;

// The checksum of a text, in hexadecimal digits; `-` of none.
#[derive(Clone, Copy)]
struct Checksum(Option<Word>);

impl fmt::Display for Checksum {
    fn fmt<W: fmt::Write>(&self, f: &mut fmt::Formatter<W>) -> fmt::Result {
        let Some(text) = self.0 else {
            return f.write_str("-");
        };
        let digest = Md5::digest(text.raw().as_bytes());
        for byte in &digest {
            let byte = *byte;
            write!(f, "{byte:02x}")?;
        }
        Ok(())
    }
}

/// The numbers of what is open, by path.
#[derive(Drop)]
pub(crate) struct Tokens {
    by_path: BTreeMap<PlainPath, u64>,
    next: u64,
}

impl Tokens {
    pub(crate) fn new(alloc: Global) -> Tokens {
        Tokens {
            by_path: BTreeMap::new(alloc),
            next: 0,
        }
    }

    fn give(&mut self, path: PlainPath) -> Result<u64> {
        let token = self.next;
        self.by_path.insert(path, token)?;
        self.next = token.wrapping_add(1);
        Ok(token)
    }

    fn get(&self, path: PlainPath) -> u64 {
        self.by_path.get(&path).copied().unwrap_or(u64::MAX)
    }

    // The number of what a call speaks of; what it opens or adds gets the next.
    fn of(&mut self, act: &Act) -> Result<u64> {
        match act.deed {
            Deed::Open { .. } | Deed::Add => self.give(act.path),
            _ => Ok(self.get(act.path)),
        }
    }

    fn above(&self, path: PlainPath) -> u64 {
        match path.parent() {
            Some(parent) => self.get(parent),
            None => u64::MAX,
        }
    }
}

// A word of a line after its first.
#[derive(Clone, Copy)]
enum Part {
    Path(PlainPath),
    Rev(u64),
    Token(u64),
    Sum(Checksum),
    Text(&'static str),
    None,
}

impl fmt::Display for Part {
    fn fmt<W: fmt::Write>(&self, f: &mut fmt::Formatter<W>) -> fmt::Result {
        if matches!(self, Part::None) {
            return Ok(());
        }
        f.write_str(" ")?;
        match self {
            Part::Path(path) => fmt::Display::fmt(path, f),
            Part::Rev(rev) => fmt::Display::fmt(rev, f),
            Part::Token(token) => write!(f, "#{token}"),
            Part::Sum(sum) => fmt::Display::fmt(sum, f),
            Part::Text(text) => f.write_str(text),
            Part::None => Ok(()),
        }
    }
}

fn opens(act: &Act) -> &'static str {
    match act.kind {
        Kind::Directory if act.path.is_root() => "open_root",
        Kind::Directory => "open_directory",
        Kind::File => "open_file",
    }
}

// The first word of a line.
fn verb(act: &Act) -> &'static str {
    let is_file = act.kind == Kind::File;
    match act.deed {
        Deed::Delete { .. } => "delete_entry",
        Deed::Open { .. } => opens(act),
        Deed::Add if is_file => "add_file",
        Deed::Add => "add_directory",
        Deed::Change { .. } if is_file => "change_file_prop",
        Deed::Change { .. } => "change_dir_prop",
        Deed::Text { .. } => "apply_text",
        Deed::Close { .. } if is_file => "close_file",
        Deed::Close { .. } => "close_directory",
    }
}

fn changed(token: Part, name: usize, value: Option<Word>) -> [Part; 4] {
    let name = Part::Text(PROP_NAMES.get(name).copied().unwrap_or(""));
    let value = match value {
        Some(value) => Part::Text(value.printed()),
        None => Part::None,
    };
    [token, name, value, Part::None]
}

// The words after it.
fn parts(act: &Act, parent: u64, token: u64) -> [Part; 4] {
    let (path, none) = (Part::Path(act.path), Part::None);
    let (parent, token) = (Part::Token(parent), Part::Token(token));
    match act.deed {
        Deed::Delete { rev } => [path, Part::Rev(rev), parent, none],
        Deed::Open { base } if act.path.is_root() => [Part::Rev(base), token, none, none],
        Deed::Open { base } => [path, parent, Part::Rev(base), token],
        Deed::Add => [path, parent, token, none],
        Deed::Change { name, value } => changed(token, name, value),
        Deed::Text { base, text } => {
            let (sum, text) = (Part::Sum(Checksum(base)), Part::Text(text.printed()));
            [token, sum, text, none]
        }
        Deed::Close { text } if act.kind == Kind::File => {
            [token, Part::Sum(Checksum(Some(text))), none, none]
        }
        Deed::Close { .. } => [token, none, none, none],
    }
}

/// The line of a call; what is opened or added gets the next number.
pub(crate) fn line(alloc: Global, tokens: &mut Tokens, act: &Act) -> Result<String> {
    let parent = tokens.above(act.path);
    let token = tokens.of(act)?;
    let verb = verb(act);
    let [first, second, third, fourth] = parts(act, parent, token);
    Ok(format!(in alloc; "{verb}{first}{second}{third}{fourth}")?)
}

//! Paths, as the model has them: short lists of names from a table.

use crate::plain::words::NAMES;
use std::fmt;

/// The most names that a place has.
pub(crate) const MAX_DEPTH: usize = 14;

/// A path: its names by their places in the table, counted from 1, and 0 after the last. So places are ordered as paths are: name by
/// name, a prefix first.
#[derive(Clone, Copy, PartialEq, Eq, PartialOrd, Ord)]
pub(crate) struct PlainPath {
    names: [u8; MAX_DEPTH],
}

/// The root.
pub(crate) const ROOT: PlainPath = PlainPath {
    names: [0; MAX_DEPTH],
};

impl PlainPath {
    pub(crate) fn names(&self) -> &[u8] {
        &self.names
    }

    pub(crate) fn depth(&self) -> usize {
        let mut depth = 0usize;
        for name in &self.names {
            if *name != 0 {
                depth = depth.saturating_add(1);
            }
        }
        depth
    }

    pub(crate) fn is_root(&self) -> bool {
        self.depth() == 0
    }

    /// The path one name longer; None where it has too many.
    pub(crate) fn join(self, name: u8) -> Option<PlainPath> {
        let depth = self.depth();
        let mut joined = self;
        let free = joined.names.get_mut(depth)?;
        *free = name;
        Some(joined)
    }

    /// The first that many names.
    pub(crate) fn prefix(self, length: usize) -> PlainPath {
        let mut prefix = self;
        for (at, name) in prefix.names.iter_mut().enumerate() {
            if at >= length {
                *name = 0;
            }
        }
        prefix
    }

    /// The path one name shorter; None at the root.
    pub(crate) fn parent(self) -> Option<PlainPath> {
        let length = self.depth().checked_sub(1)?;
        Some(self.prefix(length))
    }

    /// The last name; None at the root.
    pub(crate) fn last(self) -> Option<u8> {
        let length = self.depth().checked_sub(1)?;
        self.names.get(length).copied()
    }

    /// Whether it is the other, or is below it.
    pub(crate) fn is_within(&self, above: &PlainPath) -> bool {
        for (mine, its) in self.names.iter().zip(above.names.iter()) {
            if *its != 0 && *its != *mine {
                return false;
            }
        }
        true
    }

    /// The same place with other names after it.
    pub(crate) fn with(self, names: &[u8]) -> Option<PlainPath> {
        let mut joined = self;
        for name in names {
            if *name != 0 {
                joined = joined.join(*name)?;
            }
        }
        Some(joined)
    }

    /// A place within one path, put in the same way within another.
    pub(crate) fn moved(self, from: PlainPath, to: PlainPath) -> Option<PlainPath> {
        let behind = self.names.get(from.depth()..)?;
        to.with(behind)
    }
}

fn written(name: u8, is_printed: bool) -> &'static str {
    let at = usize::from(name).wrapping_sub(1);
    match NAMES.get(at) {
        Some((_raw, printed)) if is_printed => printed,
        Some((raw, _printed)) => raw,
        None => "",
    }
}

fn write_names<W: fmt::Write>(
    place: &PlainPath,
    is_printed: bool,
    f: &mut fmt::Formatter<W>,
) -> fmt::Result {
    let mut is_first = true;
    for name in &place.names {
        if *name != 0 {
            if !is_first {
                f.write_str("/")?;
            }
            f.write_str(written(*name, is_printed))?;
            is_first = false;
        }
    }
    Ok(())
}

/// A place as a word of a script.
impl fmt::Display for PlainPath {
    fn fmt<W: fmt::Write>(&self, f: &mut fmt::Formatter<W>) -> fmt::Result {
        if self.is_root() {
            return f.write_str(".");
        }
        write_names(self, true, f)
    }
}

/// A place as a text that the library reads as a path.
#[derive(Clone, Copy)]
pub(crate) struct Raw(pub(crate) PlainPath);

impl fmt::Display for Raw {
    fn fmt<W: fmt::Write>(&self, f: &mut fmt::Formatter<W>) -> fmt::Result {
        write_names(&self.0, false, f)
    }
}

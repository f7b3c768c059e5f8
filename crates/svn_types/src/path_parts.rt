//! The names of a path's block and their key, as the clones of the path share them.
ghost use Rattle.std.specs.Prelude.{◌≡◌, ◌≤◌, ◌∷◌, ◌++◌, [], length, drop, true, IfOk};
ghost use Rattle.svn_types.specs.Forms.{path_in, IsCut};
ghost use Rattle.svn_types.specs.Names.{depth_limit};
ghost use Rattle.svn_types.specs.PathKeys.{path_key, is_plain_path};

use crate::cut::{Cut, key_len};
use crate::long_path::LongPath;
use crate::name::Name;
use crate::path_form::PathForm;
use crate::path_size::{ONE_KEY, THREE_KEY, TWO_KEY};
use crate::pieces::Pieces;
use crate::short_key::ShortKey;
use crate::short_path::ShortPath;
use std::alloc::{AllocError, Global};
use std::marker::Model;
use std::sync::Arc;
use std::{slice, str};

/// The names of a block, from the root down, and their key. A contract sees them as the list of the names.
pub(crate) struct PathParts {
    form: PathForm,
}

impl Model for PathParts {
    ghost use Rattle.std.specs.Prelude.{ℕ, List};
    ghost use Rattle.svn_types.specs.Forms.{names_in};

    ghost Value = { List (List ℕ) };

    ghost view = { λ p. names_in p.form };
}

// The end of each name in a key.
const END: &str = "\u{1}";

impl PathParts {
    /// No name.
    pub(crate) fn root() -> PathParts
        ensures { result ≡ [] }
    {
        PathParts {
            form: PathForm::Root,
        }
    }

    /// This name alone.
    pub(crate) fn one(alloc: Global, name: Name) -> Result<PathParts, AllocError>
        ensures { IfOk result (λ p. p ≡ name ∷ []) }
    {
        let names = [name];
        if key_len(&names) > ONE_KEY {
            return PathParts::larger(alloc, &names);
        }
        let key = ShortKey::of(&names);
        Ok(PathParts {
            form: PathForm::One(Arc::new(alloc, ShortPath { key, names })?),
        })
    }

    /// These two names.
    pub(crate) fn two(alloc: Global, first: Name, second: Name) -> Result<PathParts, AllocError>
        ensures { IfOk result (λ p. p ≡ first ∷ second ∷ []) }
    {
        let names = [first, second];
        if key_len(&names) > TWO_KEY {
            return PathParts::larger(alloc, &names);
        }
        let key = ShortKey::of(&names);
        Ok(PathParts {
            form: PathForm::Two(Arc::new(alloc, ShortPath { key, names })?),
        })
    }

    /// These three names.
    pub(crate) fn three(
        alloc: Global,
        first: Name,
        second: Name,
        third: Name,
    ) -> Result<PathParts, AllocError>
        ensures { IfOk result (λ p. p ≡ first ∷ second ∷ third ∷ []) }
    {
        let names = [first, second, third];
        if key_len(&names) > THREE_KEY {
            return PathParts::larger(alloc, &names);
        }
        let key = ShortKey::of(&names);
        Ok(PathParts {
            form: PathForm::Three(Arc::new(alloc, ShortPath { key, names })?),
        })
    }

    // Clones of these two names.
    fn two_of(alloc: Global, first: &Name, second: &Name) -> Result<PathParts, AllocError>
        ensures { IfOk result (λ p. p ≡ first.now ∷ second.now ∷ []) }
    {
        let first = first.clone()?;
        PathParts::two(alloc, first, second.clone()?)
    }

    // Clones of these three names.
    fn three_of(
        alloc: Global,
        first: &Name,
        second: &Name,
        third: &Name,
    ) -> Result<PathParts, AllocError>
        ensures { IfOk result (λ p. p ≡ first.now ∷ second.now ∷ third.now ∷ []) }
    {
        let first = first.clone()?;
        let second = second.clone()?;
        PathParts::three(alloc, first, second, third.clone()?)
    }

    // These names, in one of the larger blocks or in memory of their own.
    fn larger(alloc: Global, names: &[Name]) -> Result<PathParts, AllocError>
        requires { length names.now ≤ depth_limit }
        ensures { IfOk result (λ p. p ≡ names.now) }
    {
        let len = key_len(names);
        match PathForm::in_block(alloc, names, len)? {
            Some(form) => Ok(PathParts { form }),
            None => PathParts::long(alloc, Vec::from_clones(alloc, names)?, len),
        }
    }

    // These names, whose key has that many bytes, in memory of their own.
    fn long(alloc: Global, names: Vec<Name>, len: usize) -> Result<PathParts, AllocError>
        requires { len ≡ length (path_key names.items) }
        ensures { IfOk result (λ p. p ≡ names.items) }
    {
        let path = LongPath::of_names(alloc, names, len)?;
        Ok(PathParts {
            form: PathForm::Long(Arc::new(alloc, path)?),
        })
    }

    /// These names. They stay where they are if no block has room for them and their key.
    pub(crate) fn of_list(alloc: Global, names: Vec<Name>) -> Result<PathParts, AllocError>
        requires { length names.items ≤ depth_limit }
        ensures { IfOk result (λ p. p ≡ names.items) }
    {
        let len = key_len(&names);
        match PathForm::in_block(alloc, &names, len)? {
            Some(form) => Ok(PathParts { form }),
            None => PathParts::long(alloc, names, len),
        }
    }

    /// These names, if a path may have that many.
    pub(crate) fn of(alloc: Global, names: &[Name]) -> Result<PathParts, AllocError>
        requires { length names.now ≤ depth_limit }
        ensures { IfOk result (λ p. p ≡ names.now) }
    {
        match names {
            [] => Ok(PathParts::root()),
            [name] => PathParts::one(alloc, name.clone()?),
            [first, second] => PathParts::two_of(alloc, first, second),
            [first, second, third] => PathParts::three_of(alloc, first, second, third),
            _ => PathParts::larger(alloc, names),
        }
    }

    /// The names of a path with this key, and one more.
    pub(crate) fn child(
        alloc: Global,
        above: &[Name],
        key: &str,
        last: &Name,
    ) -> Result<PathParts, AllocError>
        requires key { key.now ≡ path_key above.now }
        requires plain { is_plain_path above.now ≡ true }
        ensures { IfOk result (λ p. p ≡ above.now ++ last.now ∷ []) }
    {
        if above.is_empty() {
            return PathParts::one(alloc, last.clone()?);
        }
        let pieces = Pieces {
            names: above,
            more: slice::from_ref(last),
            above: key,
            below: last.as_str(),
            end: END,
        };
        PathParts::of_pieces(alloc, &pieces)
    }

    /// The names of these pieces, each of one or more names.
    pub(crate) fn of_pieces(alloc: Global, pieces: &Pieces<'_>) -> Result<PathParts, AllocError>
        ensures { IfOk result (λ p. p ≡ pieces.now.names.now ++ pieces.now.more.now) }
    {
        match (pieces.names, pieces.more) {
            ([first], [second]) => PathParts::two_of(alloc, first, second),
            ([first], [second, third]) => PathParts::three_of(alloc, first, second, third),
            ([first, second], [third]) => PathParts::three_of(alloc, first, second, third),
            _ => Ok(PathParts {
                form: PathForm::of(alloc, pieces)?,
            }),
        }
    }

    /// The names after a cut.
    pub(crate) fn names_behind(&self, cut: Cut) -> &[Name]
        requires { IsCut cut self.now }
        ensures { result.now ≡ path_in cut self.now }
    {
        let (_, names) = self.form.names().split_at(cut.names as usize);
        names
    }

    /// Their key.
    pub(crate) fn key_behind(&self, cut: Cut) -> &str
        requires { IsCut cut self.now }
        ensures key { result.now ≡ path_key (path_in cut self.now) }
        ensures plain { is_plain_path (path_in cut self.now) ≡ true }
    {
        let (_, bytes) = self.form.key().as_bytes().split_at(cut.bytes as usize);
        unsafe { str::from_utf8_unchecked(bytes) }
    }
}

impl Clone for PathParts {
    ghost is_clone = { λ parts copy. copy ≡ parts };

    fn clone(&self) -> Result<PathParts, AllocError> {
        Ok(PathParts {
            form: self.form.share()?,
        })
    }
}

// So that a caller's proof sees a call, and no case of where the names lie.
impl Drop for PathParts {
    fn drop(self) {
        let PathParts { form } = self;
        drop(form);
    }
}

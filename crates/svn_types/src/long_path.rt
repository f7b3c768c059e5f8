//! Paths of very many names, or of very long ones.
ghost use Rattle.std.specs.Prelude.{◌≡◌, ◌++◌, length, true, IfOk};
ghost use Rattle.svn_types.specs.PathKeys.{path_key, is_plain_path};

use crate::name::Name;
use crate::path_key::PathKey;
use crate::pieces::Pieces;
use std::alloc::{AllocError, Global};
use std::marker::Model;

/// Names and their key, each in memory of its own. A contract sees it as the list of the names.
#[derive(Drop)]
pub(crate) struct LongPath {
    names: Vec<Name>,
    key: PathKey,
}

impl Model for LongPath {
    ghost use Rattle.std.specs.Prelude.{◌≡◌, ℕ, List, true};
    ghost use Rattle.svn_types.specs.PathKeys.{path_key, is_plain_path};

    ghost Value = { List (List ℕ) };

    ghost view = { λ p. p.names.items };

    ghost invariant = { λ p. (is_plain_path p.names.items ≡ true) × (p.key ≡ path_key p.names.items) };
}

impl LongPath {
    /// The names of these pieces.
    pub(crate) fn of(alloc: Global, pieces: &Pieces<'_>) -> Result<LongPath, AllocError>
        ensures { IfOk result (λ p. p ≡ pieces.now.names.now ++ pieces.now.more.now) }
    {
        let mut names = Vec::with_capacity(alloc, pieces.count())?;
        names.extend_with_clones(pieces.names)?;
        names.extend_with_clones(pieces.more)?;
        let key = PathKey::joined(alloc, pieces.above, pieces.below, pieces.end)?;
        Ok(LongPath { names, key })
    }

    /// These names, which stay where they are. Their key has that many bytes.
    pub(crate) fn of_names(
        alloc: Global,
        names: Vec<Name>,
        len: usize,
    ) -> Result<LongPath, AllocError>
        requires { len ≡ length (path_key names.items) }
        ensures { IfOk result (λ p. p ≡ names.items) }
    {
        let key = PathKey::of(alloc, &names, len)?;
        Ok(LongPath { names, key })
    }

    /// The names, from the root down.
    pub(crate) fn names(&self) -> &[Name]
        ensures { result.now ≡ self.now }
    {
        &self.names
    }

    /// Their key.
    pub(crate) fn key(&self) -> &str
        ensures key { result.now ≡ path_key self.now }
        ensures plain { is_plain_path self.now ≡ true }
    {
        self.key.as_str()
    }
}

//! The last change of a node: the revision that made it, or that made the copy whose root it is.
ghost use Rattle.std.specs.Prelude.{◌≡◌, ◌↔◌, ◌⊎◌, ◌≤◌, IfOk, IfErr, IfSome, IsSome};
ghost use Rattle.std.specs.Option.{option_copied};
ghost use Rattle.svn_repo.specs.History.{look};
ghost use Rattle.svn_dump.specs.Indexes.{author_of};
ghost use Rattle.svn_history.specs.Made.{RootsRise};
ghost use Rattle.svn_history.specs.Changed.{latest_copy, reaches, origin, IsChangedIn, IsLastChange, date_at};

use crate::dates::micros_of;
use crate::made::made_in;
use std::alloc::Global;
use svn_dump::{CopyNote, DumpIndex};
use svn_repo::Repo;
use svn_types::{PathFault, RelPath, Rev};

/// The last change of a node, as Subversion has it (its created revision): when its text, its properties or its entries changed, it was made, or
/// it was copied.
#[derive(Clone, Copy, Debug, PartialEq, Eq)]
pub struct LastChange<'a> {
    /// The revision.
    pub rev: Rev,
    /// Its date, in microseconds from the beginning of 1970; None if the dump gives none that can be read.
    pub date: Option<i64>,
    /// Its author, if the dump gives one.
    pub author: Option<&'a [u8]>,
}

// Whether a copy is of a revision up to this one, and at the path or above it.
fn reaches(copy: &CopyNote, rev: Rev, path: &RelPath) -> bool
    ensures { result ≡ reaches rev path.now copy.now }
{
    copy.rev <= rev && path.is_within(&copy.path)
}

// The last copy up to a revision that is at the path or above it.
#[tactic(auto, using(std::proofs::lemmas::List::Sums::fold_more))]
fn latest_copy<'a>(copies: &'a [CopyNote], rev: Rev, path: &RelPath) -> Option<&'a CopyNote>
    ensures latest { option_copied result ≡ latest_copy copies.now rev path.now }
    ensures within { IfSome result (λ copy. copy.now.rev ≤ rev) }
{
    let mut latest = None;
    for copy in copies {
        if reaches(copy, rev, path) {
            latest = Some(copy);
        }
    }
    latest
}

// Where what was copied to a path comes from.
fn origin(alloc: Global, copy: &CopyNote, path: &RelPath) -> Result<RelPath, PathFault>
    ensures path { IfOk result (λ from. from ≡ origin copy.now path.now) }
    ensures fault { IfErr result (λ e. (e ≡ PathFault.Memory) ⊎ (e ≡ PathFault.TooManyComponents)) }
{
    let below = path.tail(alloc, copy.path.components().len())?;
    copy.source.path.join_path(alloc, &below)
}

// The revision of the last change of the node at a path of a revision that `made` made: it goes back from copy to copy, as long as the node is older.
#[tactic(auto, using(crate::specs::Changed::at_root, crate::specs::Changed::made_here, crate::specs::Changed::copied, crate::specs::Changed::below_copy))]
fn changed_in(
    alloc: Global,
    copies: &[CopyNote],
    made: Rev,
    rev: Rev,
    path: &RelPath,
) -> Result<Rev, PathFault>
    ensures changed { IfOk result (λ c. IsChangedIn copies.now made rev path.now c) }
    ensures fault { IfErr result (λ e. (e ≡ PathFault.Memory) ⊎ (e ≡ PathFault.TooManyComponents)) }
{
    let mut rev = rev;
    let mut path = path.clone()?;
    'copies: loop {
        if path.is_root() {
            return Ok(rev);
        }
        let Some(copy) = latest_copy(copies, rev, &path) else {
            return Ok(made);
        };
        if copy.rev <= made {
            return Ok(made);
        }
        if copy.path == path {
            return Ok(copy.rev);
        }
        path = origin(alloc, copy, &path)?;
        rev = copy.source.rev;
    }
}

// What the dump says of a revision.
fn change_of(index: &DumpIndex, rev: Rev) -> LastChange<'_>
    ensures rev { result.rev ≡ rev }
    ensures date { result.date ≡ date_at index.now rev }
    ensures author { option_copied result.author ≡ author_of index.now rev }
{
    let date = match index.date(rev) {
        Some(date) => micros_of(date),
        None => None,
    };
    LastChange {
        rev,
        date,
        author: index.author(rev),
    }
}

/// The last change of the node at a path of a revision; None where nothing is there. `repo` is what a dump was loaded into that began at its first
/// revision, and `index` what was noted of it ([`Loader::into_parts`](crate::Loader::into_parts)). It costs a binary search over the revisions, and
/// for each copy that it goes back through all copies of the dump. TooManyComponents where a source has more names than a path may have, which
/// no dump that was loaded has; else Memory alone. Take the result apart by `match`: `?` gets no proof where a result holds a reference.
pub fn last_change<'a>(
    alloc: Global,
    repo: &Repo,
    index: &'a DumpIndex,
    rev: Rev,
    path: &RelPath,
) -> Result<Option<LastChange<'a>>, PathFault>
    ensures found { IfOk result (λ found. IsSome found ↔ IsSome (look repo.now rev path.now)) }
    // that the roots rise is so of each repository that commits made (it isn't proved)
    ensures changed { RootsRise repo.now → IfOk result (λ found. IfSome found (λ change. IsLastChange repo.now index.now.copies.items rev path.now change.rev)) }
    ensures date { IfOk result (λ found. IfSome found (λ change. change.date ≡ date_at index.now change.rev)) }
    ensures author { IfOk result (λ found. IfSome found (λ change. option_copied change.author ≡ author_of index.now change.rev)) }
    ensures fault { IfErr result (λ e. (e ≡ PathFault.Memory) ⊎ (e ≡ PathFault.TooManyComponents)) }
{
    let Some(node) = repo.lookup(rev, path) else {
        return Ok(None);
    };
    let made = made_in(alloc, repo, node);
    match changed_in(alloc, index.copies(), made, rev, path) {
        Ok(changed) => Ok(Some(change_of(index, changed))),
        Err(fault) => Err(fault),
    }
}

//! Where the names of a path and its key lie.
ghost use Rattle.std.specs.Prelude.{◌≡◌, ◌+◌, ◌<◌, ◌≤◌, ◌++◌, length, true, IfOk, IfSome};
ghost use Rattle.std.specs.Arc.{arc_value};
ghost use Rattle.svn_types.specs.Forms.{names_in};
ghost use Rattle.svn_types.specs.PathKeys.{path_key, is_plain_path};

use crate::long_path::LongPath;
use crate::name::Name;
use crate::path_block::PathBlock;
use crate::path_size::{
    FEW_KEY, FEW_NAMES, MANY_KEY, MANY_NAMES, MORE_KEY, MORE_NAMES, ONE_KEY, SEVERAL_KEY,
    SEVERAL_NAMES, Size, THREE_KEY, TWO_KEY,
};
use crate::pieces::Pieces;
use crate::short_key::ShortKey;
use crate::short_path::ShortPath;
use std::alloc::{AllocError, Global};
use std::sync::Arc;

/// One, two or three names of up to 14 bytes always have a key that fits: such a path is one block of 40, 72 or 104 bytes. Others of up to
/// twelve names, whose key isn't too long, have one block of 136 to 344 bytes, and all others two or three.
#[derive(Drop)]
pub(crate) enum PathForm {
    Root,
    One(Arc<ShortPath<1, ONE_KEY>>),
    Two(Arc<ShortPath<2, TWO_KEY>>),
    Three(Arc<ShortPath<3, THREE_KEY>>),
    Few(Arc<PathBlock<FEW_NAMES, FEW_KEY>>),
    Several(Arc<PathBlock<SEVERAL_NAMES, SEVERAL_KEY>>),
    More(Arc<PathBlock<MORE_NAMES, MORE_KEY>>),
    Many(Arc<PathBlock<MANY_NAMES, MANY_KEY>>),
    Long(Arc<LongPath>),
}

// A block of names that fit, with their key.
fn block<const N: usize, const K: usize>(
    alloc: Global,
    pieces: &Pieces<'_>,
) -> Result<Arc<PathBlock<N, K>>, AllocError>
    requires small { (N < 256) × (K < 256) }
    requires room { length pieces.now.names.now + length pieces.now.more.now ≤ N }
    requires fits { length pieces.now.above.now + length pieces.now.below.now + length pieces.now.end.now ≤ K }
    ensures { IfOk result (λ a. arc_value a ≡ pieces.now.names.now ++ pieces.now.more.now) }
{
    let key = ShortKey::joined(pieces.above, pieces.below, pieces.end);
    Ok(Arc::new(alloc, PathBlock::of(pieces.names, pieces.more, key)?)?)
}

// A block of these names, which fit with their key.
fn block_of<const N: usize, const K: usize>(
    alloc: Global,
    names: &[Name],
) -> Result<Arc<PathBlock<N, K>>, AllocError>
    requires small { (N < 256) × (K < 256) }
    requires room { length names.now ≤ N }
    requires fits { length (path_key names.now) ≤ K }
    ensures { IfOk result (λ a. arc_value a ≡ names.now) }
{
    Ok(Arc::new(alloc, PathBlock::of(names, &[], ShortKey::of(names))?)?)
}

impl PathForm {
    /// The names of these pieces.
    pub(crate) fn of(alloc: Global, pieces: &Pieces<'_>) -> Result<PathForm, AllocError>
        ensures { IfOk result (λ f. names_in f ≡ pieces.now.names.now ++ pieces.now.more.now) }
    {
        Ok(match Size::of(pieces.count(), pieces.key_len()) {
            Size::Few => PathForm::Few(block(alloc, pieces)?),
            Size::Several => PathForm::Several(block(alloc, pieces)?),
            Size::More => PathForm::More(block(alloc, pieces)?),
            Size::Many => PathForm::Many(block(alloc, pieces)?),
            Size::Long => PathForm::Long(Arc::new(alloc, LongPath::of(alloc, pieces)?)?),
        })
    }

    /// These names, whose key has that many bytes, if one block has room for them.
    pub(crate) fn in_block(
        alloc: Global,
        names: &[Name],
        len: usize,
    ) -> Result<Option<PathForm>, AllocError>
        requires { len ≡ length (path_key names.now) }
        ensures { IfOk result (λ o. IfSome o (λ f. names_in f ≡ names.now)) }
    {
        Ok(Some(match Size::of(names.len(), len) {
            Size::Few => PathForm::Few(block_of(alloc, names)?),
            Size::Several => PathForm::Several(block_of(alloc, names)?),
            Size::More => PathForm::More(block_of(alloc, names)?),
            Size::Many => PathForm::Many(block_of(alloc, names)?),
            Size::Long => return Ok(None),
        }))
    }

    /// All names of the block.
    pub(crate) fn names(&self) -> &[Name]
        ensures { result.now ≡ names_in self.now }
    {
        match self {
            PathForm::Root => &[],
            PathForm::One(path) => path.names(),
            PathForm::Two(path) => path.names(),
            PathForm::Three(path) => path.names(),
            PathForm::Few(path) => path.names(),
            PathForm::Several(path) => path.names(),
            PathForm::More(path) => path.names(),
            PathForm::Many(path) => path.names(),
            PathForm::Long(path) => path.names(),
        }
    }

    /// Their key.
    pub(crate) fn key(&self) -> &str
        ensures key { result.now ≡ path_key (names_in self.now) }
        ensures plain { is_plain_path (names_in self.now) ≡ true }
    {
        match self {
            PathForm::Root => "",
            PathForm::One(path) => path.key(),
            PathForm::Two(path) => path.key(),
            PathForm::Three(path) => path.key(),
            PathForm::Few(path) => path.key(),
            PathForm::Several(path) => path.key(),
            PathForm::More(path) => path.key(),
            PathForm::Many(path) => path.key(),
            PathForm::Long(path) => path.key(),
        }
    }

    /// The same block once more.
    pub(crate) fn share(&self) -> Result<PathForm, AllocError>
        ensures { IfOk result (λ f. names_in f ≡ names_in self.now) }
    {
        Ok(match self {
            PathForm::Root => PathForm::Root,
            PathForm::One(path) => PathForm::One(path.clone()?),
            PathForm::Two(path) => PathForm::Two(path.clone()?),
            PathForm::Three(path) => PathForm::Three(path.clone()?),
            PathForm::Few(path) => PathForm::Few(path.clone()?),
            PathForm::Several(path) => PathForm::Several(path.clone()?),
            PathForm::More(path) => PathForm::More(path.clone()?),
            PathForm::Many(path) => PathForm::Many(path.clone()?),
            PathForm::Long(path) => PathForm::Long(path.clone()?),
        })
    }
}

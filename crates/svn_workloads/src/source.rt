//! What repositories and scripts are made from: a tree of files, random numbers, and texts.

use crate::dice::Dice;
use crate::tree::Tree;
use crate::words::Texts;
use std::alloc::{AllocError, Global};

/// A tree, and what chooses files of it and texts for them.
#[derive(Drop)]
pub(crate) struct Source {
    pub(crate) dice: Dice,
    pub(crate) texts: Texts,
    pub(crate) tree: Tree,
    /// A tenth of all texts are shorter.
    pub(crate) least: u64,
}

impl Source {
    /// A source with a tree of that many files.
    pub(crate) fn new(
        alloc: Global,
        dice: Dice,
        files: u64,
        least: u64,
    ) -> Result<Source, AllocError> {
        let mut dice = dice;
        let texts = Texts::new(alloc, &mut dice)?;
        let tree = Tree::new(alloc, &mut dice, files)?;
        Ok(Source {
            dice,
            texts,
            tree,
            least,
        })
    }
}

//! The texts that are held for files that an edit opened.

use crate::entered::Teller;
use crate::texts::TextMap;
use std::alloc::{AllocError, Global};
use std::collections::BTreeMap;
use svn_editor::Call;
use svn_types::{Digest, RelPath, Text};

/// The texts that are held for the files that an edit opened, by their MD5 checksums: calls have the checksums of these. An editor only refers to them, so
/// that what it leaves written is known when it goes.
#[derive(Drop)]
pub struct OpenedTexts {
    held: BTreeMap<[u8; 16], Text>,
}

impl OpenedTexts {
    /// None: no file was opened. It takes no memory.
    pub fn new(alloc: Global) -> OpenedTexts {
        OpenedTexts {
            held: BTreeMap::new(alloc),
        }
    }

    fn keep(&mut self, text: Option<Text>) -> Result<(), AllocError> {
        if let Some(text) = text {
            self.held.insert(text.checksum().0, text)?;
        }
        Ok(())
    }

    // Keeps the texts of a file, before the edit and after it.
    fn open<T: Teller>(
        &mut self,
        alloc: Global,
        teller: &T,
        path: &RelPath,
    ) -> Result<(), AllocError> {
        let texts = teller.held_at(alloc, path)?;
        self.keep(texts.old)?;
        self.keep(texts.new)
    }

    /// Keeps the texts whose checksums the calls of a file have, once it is opened, where texts stand for others.
    pub(crate) fn learn<T: Teller + TextMap>(
        &mut self,
        alloc: Global,
        teller: &T,
        call: &Call,
    ) -> Result<(), AllocError> {
        match call {
            Call::AddFile { path, .. } | Call::OpenFile { path, .. } if !teller.is_whole() => {
                self.open(alloc, teller, path)
            }
            _ => Ok(()),
        }
    }

    /// The text that is kept by this checksum.
    pub(crate) fn find(&self, sum: Digest) -> Option<&Text> {
        self.held.get(&sum.0)
    }
}

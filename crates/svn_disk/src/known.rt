//! The texts that a copy keeps, by which what is on disk is known to be nobody's edit.
ghost use Rattle.std.specs.Prelude.{◌≡◌, ◌||◌, ℕ, List, true, false, bytes_eq, IfOk, OnOk};
ghost use Rattle.svn_folder.specs.Entries.{has_leaf};
ghost use Rattle.svn_folder.specs.States.{seen};
ghost use Rattle.svn_disk.specs.Goes.{IsAlways};
ghost use Rattle.svn_disk.specs.Spared.{IsOwn, has_text, texts_in};
ghost use Rattle.svn_disk.specs.Finding.{has_word};

use crate::fault::DiskFault;
use crate::on_disk::{Found, find, readings};
use std::alloc::Global;
use std::collections::BTreeSet;
use svn_digits::STAND_IN_LEN;
use svn_folder::Folder;
use svn_types::RelPath;
use svn_wcdb::TableRow;
use svn_wcrows::text_at;

/// The texts that a copy keeps, by their stand-ins.
#[derive(Drop)]
pub(crate) struct KnownTexts {
    words: BTreeSet<[u8; STAND_IN_LEN]>,
}

impl KnownTexts {
    /// Those of the rows of PRISTINE.
    pub(crate) fn of(alloc: Global, rows: &[TableRow]) -> Result<KnownTexts, DiskFault>
        ensures { IfOk result (λ known. (t : List ℕ) → has_word known t ≡ true → texts_in rows.now t ≡ true) }
    {
        let mut known = KnownTexts {
            words: BTreeSet::new(alloc),
        };
        for row in rows {
            known.add_row(row)?;
        }
        Ok(known)
    }

    // Adds the one that a row of PRISTINE has.
    fn add_row(&mut self, row: &TableRow) -> Result<(), DiskFault>
        ensures { OnOk result ((t : List ℕ) → has_word self.new t ≡ true → (has_text row.now t || has_word self.old t) ≡ true) }
    {
        match text_at(row, 0) {
            Some(text) => self.add(text),
            None => Ok(()),
        }
    }

    /// Adds one by its stand-in, if it is one.
    pub(crate) fn add(&mut self, stand_in: &[u8]) -> Result<(), DiskFault>
        ensures { OnOk result ((t : List ℕ) → has_word self.new t ≡ true → (bytes_eq t stand_in.now || has_word self.old t) ≡ true) }
    {
        if let Ok(word) = <[u8; STAND_IN_LEN]>::try_from(stand_in) {
            self.words.insert(word)?;
        }
        Ok(())
    }

    // Whether a stand-in names one of them.
    fn has(&self, stand_in: &[u8]) -> bool
        ensures { result ≡ true → has_word self.now stand_in.now ≡ true }
    {
        match <[u8; STAND_IN_LEN]>::try_from(stand_in) {
            Ok(word) => self.words.contains(&word),
            Err(_) => false,
        }
    }

    /// Whether a file or a link is at a path. Changed where it has none of these texts, and so is somebody's edit.
    pub(crate) fn is_own_leaf<F: Folder>(
        &self,
        alloc: Global,
        folder: &F,
        path: &RelPath,
    ) -> Result<bool, DiskFault>
        ensures own { OnOk result (IsAlways (λ s. IsOwn (has_word self.now) (seen s path.now)) (F.past folder.now)) }
        ensures leafless { IfOk result (λ is. is ≡ false → IsAlways (λ s. has_leaf (seen s path.now) ≡ false) (F.past folder.now)) }
    {
        match find(alloc, folder, path)? {
            Found::Nothing => Ok(false),
            Found::Directory => Ok(false),
            Found::Leaf(text) => {
                if self.has(text.as_slice()) || self.has_reading(alloc, folder, path)? {
                    Ok(true)
                } else {
                    Err(DiskFault::Changed(path.clone()?))
                }
            }
        }
    }

    // Whether a file on disk is one of them, written in another way.
    fn has_reading<F: Folder>(
        &self,
        alloc: Global,
        folder: &F,
        path: &RelPath,
    ) -> Result<bool, DiskFault>
        ensures { IfOk result (λ has. has ≡ true → IsAlways (λ s. IsOwn (has_word self.now) (seen s path.now)) (F.past folder.now)) }
    {
        for text in &readings(alloc, folder, path)? {
            if self.has(text.as_slice()) {
                return Ok(true);
            }
        }
        Ok(false)
    }
}

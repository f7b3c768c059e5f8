//! Pristine texts, brought to disk.
ghost use Rattle.std.specs.Prelude.{◌≡◌, ◌↔◌, ℕ, List, true, false, drop, Ok, IfOk, OnOk, IsTrue};
ghost use Rattle.hex.specs.Hex.{decode_sized};
ghost use Rattle.svn_digits.specs.StandIns.{stand_in_of};
ghost use Rattle.svn_folder.specs.States.{seen};
ghost use Rattle.svn_disk.specs.Goes.{IsAlways};
ghost use Rattle.svn_disk.specs.Places.{IsTemporary, text_place};
ghost use Rattle.svn_disk.specs.Crashes.{HasName, IsTextIn, IsAdding};
ghost use Rattle.svn_disk.specs.Ends.{Turns, StaysBut, KeepsText, IsHeld, new_text_place};

use crate::fault::DiskFault;
use crate::layout::Admin;
use crate::source::{Source, TextSums};
use crate::steps::{rename, take};
use std::alloc::Global;
use std::collections::BTreeMap;
use svn_digits::stand_in_of;
use svn_folder::{Folder, Mode, Step, Summary};
use svn_types::{RelPath, Sha1Sum, Text};
use svn_wcdb::TableRow;
use svn_wcrows::{number_at, pristine_record, text_at};

/// Nobody writes to a pristine text.
const PRISTINE: Mode = Mode {
    executable: false,
    read_only: true,
};

/// The checksum that a stand-in is of. NoStandIn where it is none.
pub(crate) fn sum_of(alloc: Global, name: &Text) -> Result<Sha1Sum, DiskFault>
    ensures name { IfOk result (λ sum. stand_in_of sum ≡ name.now) }
    ensures sum { IfOk result (λ sum. decode_sized (drop 6 name.now) 20 ≡ Ok sum) }
{
    let Some(digits) = name.as_slice().strip_prefix(b"$sha1$") else {
        return Err(DiskFault::NoStandIn);
    };
    let mut sum = [0; 20];
    if hex::decode_to_slice(digits, &mut sum).is_err() {
        return Err(DiskFault::NoStandIn);
    }
    // upper-case digits would be taken too
    if stand_in_of(alloc, &sum)? == *name {
        Ok(Sha1Sum(sum))
    } else {
        Err(DiskFault::NoStandIn)
    }
}

// Whether it is a file with the checksum of this stand-in.
fn has_name(alloc: Global, found: &Summary, name: &Text) -> Result<bool, DiskFault>
    ensures { IfOk result (λ has. IsTrue has ↔ HasName name.now found.now) }
{
    match found {
        Summary::File { sha1, .. } => Ok(stand_in_of(alloc, &sha1.0)? == *name),
        Summary::Directory | Summary::Link(_) => Ok(false),
    }
}

/// Whether a text is in the folder under its name: a file with the checksum that its stand-in says.
pub(crate) fn has_text<F: Folder>(
    alloc: Global,
    folder: &F,
    admin: &Admin,
    name: &Text,
) -> Result<bool, DiskFault>
    ensures there { IfOk result (λ has. has ≡ true → IsAlways (λ s. IsTextIn admin.now.name (seen s) name.now) (F.past folder.now)) }
    ensures lacking { IfOk result (λ has. has ≡ false → IsAlways (λ s. IsTextIn admin.now.name (seen s) name.now → ⊥) (F.past folder.now)) }
{
    let place = admin.text(alloc, name.as_slice())?;
    match folder.sum(alloc, &place)? {
        Some(found) => has_name(alloc, &found, name),
        None => Ok(false),
    }
}

/// The texts that a copy keeps: their sizes in bytes, by their checksums.
#[derive(Drop)]
pub(crate) struct Texts {
    alloc: Global,
    // Those that were written, or that the folder was looked at for.
    sizes: BTreeMap<[u8; 20], u64>,
    // Those that have rows.
    listed: BTreeMap<[u8; 20], u64>,
}

impl Texts {
    /// None is kept yet.
    pub(crate) fn new(alloc: Global) -> Texts {
        Texts {
            alloc,
            sizes: BTreeMap::new(alloc),
            listed: BTreeMap::new(alloc),
        }
    }

    /// Those that rows of PRISTINE have. Whether each is in the folder is another matter.
    pub(crate) fn of_rows(alloc: Global, rows: &[TableRow]) -> Result<Texts, DiskFault> {
        let mut texts = Texts::new(alloc);
        for row in rows {
            if let (Some(name), Some(size)) = (text_at(row, 0), number_at(row, 2)) {
                let sum = sum_of(alloc, &Text::from_slice(alloc, name)?)?;
                texts.listed.insert(sum.0, size)?;
            }
        }
        Ok(texts)
    }

    /// Keeps the text of a file of a copy that is on disk: as `keep`, and writes it anew where it has a row, and the folder hasn't its bytes under its
    /// name. Each text is looked at once, so that none is written again once a file was made of it.
    pub(crate) fn keep_whole<F: Folder, S: Source>(
        &mut self,
        folder: &mut F,
        source: &mut S,
        admin: &Admin,
        rows: &mut Vec<TableRow>,
        file: (&RelPath, &Text),
    ) -> Result<u64, DiskFault>
        ensures adds { IsAdding admin.now.name (F.past folder.old) result (F.past folder.new) }
        ensures ends { OnOk result (Turns (KeepsText admin.now.name self.old.sizes.entries file.entry.1.now) (F.past folder.old) (F.past folder.new)) }
        ensures held { OnOk result (IsHeld self.new.sizes.entries file.entry.1.now) }
        ensures others { OnOk result ((name : List ℕ) → IsHeld self.old.sizes.entries name → IsHeld self.new.sizes.entries name) }
    {
        let (_, name) = file;
        let sum = sum_of(self.alloc, name)?;
        match self.listed.get(&sum.0) {
            Some(size) => {
                let size = *size;
                self.keep_listed(folder, source, admin, file, size)
            }
            None => self.keep(folder, source, admin, rows, file),
        }
    }

    // Keeps a text that has a row: looks at the folder for it, unless that was done.
    fn keep_listed<F: Folder, S: Source>(
        &mut self,
        folder: &mut F,
        source: &mut S,
        admin: &Admin,
        file: (&RelPath, &Text),
        size: u64,
    ) -> Result<u64, DiskFault>
        ensures adds { IsAdding admin.now.name (F.past folder.old) result (F.past folder.new) }
        ensures ends { OnOk result (Turns (KeepsText admin.now.name self.old.sizes.entries file.entry.1.now) (F.past folder.old) (F.past folder.new)) }
        ensures held { OnOk result (IsHeld self.new.sizes.entries file.entry.1.now) }
        ensures others { OnOk result ((name : List ℕ) → IsHeld self.old.sizes.entries name → IsHeld self.new.sizes.entries name) }
    {
        let (_, name) = file;
        let sum = sum_of(self.alloc, name)?;
        if let Some(size) = self.sizes.get(&sum.0) {
            return Ok(*size);
        }
        self.put_lost(folder, source, admin, file)?;
        self.sizes.insert(sum.0, size)?;
        Ok(size)
    }

    // Writes a text anew that the folder hasn't under its name.
    fn put_lost<F: Folder, S: Source>(
        &self,
        folder: &mut F,
        source: &mut S,
        admin: &Admin,
        file: (&RelPath, &Text),
    ) -> Result<(), DiskFault>
        ensures adds { IsAdding admin.now.name (F.past folder.old) result (F.past folder.new) }
        ensures stays { OnOk result (Turns (StaysBut (new_text_place admin.now.name) (text_place admin.now.name file.entry.1.now)) (F.past folder.old) (F.past folder.new)) }
    {
        let (path, text) = file;
        let sum = sum_of(self.alloc, text)?;
        if has_text(self.alloc, folder, admin, text)? {
            return Ok(());
        }
        if source.begin_text(&sum).is_none() {
            return Err(DiskFault::NoText(path.clone()?));
        }
        self.put(folder, source, admin, text)
    }

    // Gives a text that was written its name, unless it is there already: a text that is kept is never replaced.
    fn give_name<F: Folder>(
        &self,
        folder: &mut F,
        admin: &Admin,
        name: &Text,
        new: &RelPath,
    ) -> Result<(), DiskFault>
        requires { IsTemporary admin.now.name new.now }
        ensures adds { IsAdding admin.now.name (F.past folder.old) result (F.past folder.new) }
        ensures stays { OnOk result (Turns (StaysBut new.now (text_place admin.now.name name.now)) (F.past folder.old) (F.past folder.new)) }
    {
        let place = admin.text(self.alloc, name.as_slice())?;
        if has_text(self.alloc, folder, admin, name)? {
            return take(folder, Step::RemoveFile(new.clone()?));
        }
        rename(folder, new, &place)
    }

    // Writes a text under its name.
    fn put<F: Folder, S: Source>(
        &self,
        folder: &mut F,
        source: &mut S,
        admin: &Admin,
        name: &Text,
    ) -> Result<(), DiskFault>
        ensures adds { IsAdding admin.now.name (F.past folder.old) result (F.past folder.new) }
        ensures stays { OnOk result (Turns (StaysBut (new_text_place admin.now.name) (text_place admin.now.name name.now)) (F.past folder.old) (F.past folder.new)) }
    {
        let place = admin.text(self.alloc, name.as_slice())?;
        let new = admin.new_text(self.alloc)?;
        let Some(above) = place.parent(self.alloc)? else {
            return Err(DiskFault::NoStandIn);
        };
        admin.make_directory_if_none(self.alloc, folder, &above)?;
        admin.make_text(self.alloc, folder, &new, PRISTINE, source)?;
        self.give_name(folder, admin, name, &new)
    }

    // Adds the row of a text.
    fn push_row(
        &self,
        rows: &mut Vec<TableRow>,
        name: &Text,
        known: &TextSums,
    ) -> Result<(), DiskFault> {
        let bytes = pristine_record(self.alloc, name.as_slice(), known.len, &known.md5)?;
        let rowid = match rows.last() {
            Some(row) => row.rowid.saturating_add(1),
            None => 1,
        };
        rows.push(TableRow { rowid, bytes })?;
        Ok(())
    }

    /// Keeps the text of a file, and gives it a row, unless it is kept already. Returns its size in bytes. NoText where the source doesn't give it. Whether
    /// it is the text that is named is seen when it is read back.
    pub(crate) fn keep<F: Folder, S: Source>(
        &mut self,
        folder: &mut F,
        source: &mut S,
        admin: &Admin,
        rows: &mut Vec<TableRow>,
        file: (&RelPath, &Text),
    ) -> Result<u64, DiskFault>
        ensures adds { IsAdding admin.now.name (F.past folder.old) result (F.past folder.new) }
        ensures ends { OnOk result (Turns (KeepsText admin.now.name self.old.sizes.entries file.entry.1.now) (F.past folder.old) (F.past folder.new)) }
        ensures held { OnOk result (IsHeld self.new.sizes.entries file.entry.1.now) }
        ensures others { OnOk result ((name : List ℕ) → IsHeld self.old.sizes.entries name → IsHeld self.new.sizes.entries name) }
    {
        let (path, name) = file;
        let sum = sum_of(self.alloc, name)?;
        if let Some(size) = self.sizes.get(&sum.0) {
            return Ok(*size);
        }
        let Some(known) = source.begin_text(&sum) else {
            return Err(DiskFault::NoText(path.clone()?));
        };
        self.put(folder, source, admin, name)?;
        self.push_row(rows, name, &known)?;
        self.sizes.insert(sum.0, known.len)?;
        Ok(known.len)
    }
}

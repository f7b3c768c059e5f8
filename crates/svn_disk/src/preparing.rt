//! What a copy on disk is brought to, prepared beside it: its texts, its files under names of their own, and its databases.
ghost use Rattle.std.specs.Prelude.{◌≡◌, true, IfOk, OnOk};
ghost use Rattle.svn_disk.specs.Tasks.{makings_in, node_at, work_node, work_nodes};
ghost use Rattle.svn_disk.specs.Crashes.{AreNodesOf, IsAdding, OfText};
ghost use Rattle.svn_disk.specs.Ends.{Turns, files_at, files_of, IsHeld, StayHeld, is_noted, StayNoted, IsNoted, AreNoted, AreFiles, CopiesNode, AreCopied};

use crate::bringing::Bringing;
use crate::carry::files_in;
use crate::contents::copy_of;
use crate::database_image::Images;
use crate::fault::DiskFault;
use crate::node_file::file_at;
use crate::prepared::{Prepared, prepare_unless_locked};
use crate::rows::{RowMaker, Sizes};
use crate::source::Source;
use crate::task::Task;
use crate::temporary::clear_temporary;
use crate::texts::Texts;
use std::alloc::Global;
use std::collections::BTreeMap;
use svn_folder::Folder;
use svn_model::BaseNode;
use svn_types::RelPath;
use svn_wcdb::TableRow;
use svn_wcrows::{RowsFault, Tables, Work};

// What is kept while files are prepared: the texts and their rows.
#[derive(Drop)]
struct Keeping {
    texts: Texts,
    rows: Vec<TableRow>,
    sizes: Sizes,
}

/// A copy that is all prepared.
#[derive(Drop)]
pub(crate) struct Ready {
    /// Its databases.
    pub(crate) images: Images,
    /// The sizes of the files that are written anew.
    pub(crate) sizes: Sizes,
}

// The rows that are there, to which others are added.
fn kept_rows(alloc: Global, rows: &[TableRow]) -> Result<Vec<TableRow>, DiskFault> {
    let mut kept = Vec::new(alloc);
    for row in rows {
        kept.push(TableRow {
            rowid: row.rowid,
            bytes: row.bytes.clone()?,
        })?;
    }
    Ok(kept)
}

impl Bringing<'_> {
    // Whether the client has locked the file that comes to a path in the repository.
    fn is_locked(&self, path: &RelPath) -> bool {
        match self.wanted.copy.get(path) {
            Some(node) => self.existing.has_lock(node),
            None => false,
        }
    }

    // Keeps the text of the file that comes to a path, and prepares the file under the name of its own that has that number. Elsewhere where no file of the
    // new copy is there: a fault of this crate.
    fn prepare_file<F: Folder, S: Source>(
        &self,
        folder: &mut F,
        source: &mut S,
        keeping: &mut Keeping,
        file: (&RelPath, usize),
    ) -> Result<(), DiskFault>
        ensures adds { IsAdding self.now.admin.now.name (F.past folder.old) result (F.past folder.new) }
        ensures file { OnOk result (files_at (node_at self.now.wanted.now.copy file.entry.0.now) ≡ 1) }
        ensures held { OnOk result (OfText (IsHeld keeping.new.texts.sizes.entries) (node_at self.now.wanted.now.copy file.entry.0.now)) }
        ensures others { OnOk result (StayHeld keeping.old.texts.sizes.entries keeping.new.texts.sizes.entries) }
        ensures noted { OnOk result (is_noted keeping.new.sizes.entries file.entry.0.now ≡ true) }
        ensures all { OnOk result (StayNoted keeping.old.sizes.entries keeping.new.sizes.entries) }
        ensures ends { OnOk result (Turns (CopiesNode self.now.admin.now.name file.entry.1 (IsHeld keeping.old.texts.sizes.entries) (node_at self.now.wanted.now.copy file.entry.0.now)) (F.past folder.old) (F.past folder.new)) }
    {
        let (path, number) = file;
        let Some((name, props)) = file_at(&self.wanted.copy, path) else {
            return Err(DiskFault::Elsewhere(path.clone()?));
        };
        let rows = &mut keeping.rows;
        let size = keeping
            .texts
            .keep_whole(folder, source, self.admin, rows, (path, name))?;
        let time = Some(self.wanted.time);
        let what = Prepared { name, props, time };
        let is_locked = self.is_locked(path);
        let is_file = prepare_unless_locked(
            self.alloc,
            folder,
            self.admin,
            number,
            (&what, is_locked),
        )?;
        let size = if is_file { Some(size) } else { None };
        keeping.sizes.insert(path.clone()?, size)?;
        Ok(())
    }

    // Does so if some work is a file that comes.
    fn prepare_one<F: Folder, S: Source>(
        &self,
        folder: &mut F,
        source: &mut S,
        keeping: &mut Keeping,
        work: (&Work, usize),
    ) -> Result<(), DiskFault>
        ensures adds { IsAdding self.now.admin.now.name (F.past folder.old) result (F.past folder.new) }
        ensures file { OnOk result (files_at (work_node self.now.wanted.now.copy work.entry.0.now) ≡ files_of work.entry.0.now) }
        ensures held { OnOk result (OfText (IsHeld keeping.new.texts.sizes.entries) (work_node self.now.wanted.now.copy work.entry.0.now)) }
        ensures others { OnOk result (StayHeld keeping.old.texts.sizes.entries keeping.new.texts.sizes.entries) }
        ensures noted { OnOk result (IsNoted keeping.new.sizes.entries work.entry.0.now) }
        ensures all { OnOk result (StayNoted keeping.old.sizes.entries keeping.new.sizes.entries) }
        ensures ends { OnOk result (Turns (CopiesNode self.now.admin.now.name work.entry.1 (IsHeld keeping.old.texts.sizes.entries) (work_node self.now.wanted.now.copy work.entry.0.now)) (F.past folder.old) (F.past folder.new)) }
    {
        let (item, number) = work;
        match item {
            Work::InstallFile(path) => self.prepare_file(folder, source, keeping, (path, number)),
            Work::MakeDirectory(_) | Work::RemoveFile(_) | Work::RemoveDirectory(_) => Ok(()),
        }
    }

    // Does so for all files that come.
    fn prepare_files<F: Folder, S: Source>(
        &self,
        folder: &mut F,
        source: &mut S,
        keeping: &mut Keeping,
        work: &[Work],
    ) -> Result<(), DiskFault>
        ensures adds { IsAdding self.now.admin.now.name (F.past folder.old) result (F.past folder.new) }
        ensures files { OnOk result (AreFiles self.now.wanted.now.copy work.now) }
        ensures noted { OnOk result (AreNoted keeping.new.sizes.entries work.now) }
        ensures ends { OnOk result (Turns (λ before left. AreCopied self.now.admin.now.name 0 (work_nodes self.now.wanted.now.copy work.now) left) (F.past folder.old) (F.past folder.new)) }
    {
        let mut number = 0usize;
        for item in work {
            self.prepare_one(folder, source, keeping, (item, number))?;
            number = number.saturating_add(files_in(item));
        }
        Ok(())
    }

    // Refuses nodes that aren't those of the new copy: a fault of this crate.
    fn refuse_others(&self, nodes: &[(RelPath, BaseNode)]) -> Result<(), DiskFault>
        ensures { OnOk result (AreNodesOf self.now.wanted.now.copy nodes.now) }
    {
        let copy = copy_of(self.alloc, nodes)?;
        if copy.nodes() == self.wanted.copy.nodes() {
            Ok(())
        } else {
            Err(DiskFault::Rows(RowsFault::NodesDiffer))
        }
    }

    // The databases of the new copy, whose texts are kept and whose files are prepared.
    fn images<S: Source>(
        &self,
        source: &S,
        tables: Tables,
        keeping: Keeping,
    ) -> Result<Ready, DiskFault>
        ensures nodes { IfOk result (λ ready. AreNodesOf self.now.wanted.now.copy ready.images.nodes.items) }
        ensures sizes { IfOk result (λ ready. ready.sizes ≡ keeping.sizes) }
    {
        let Keeping { rows, sizes, .. } = keeping;
        let maker = RowMaker {
            alloc: self.alloc,
            source,
            existing: self.existing,
            wanted: self.wanted,
            sizes: &sizes,
        };
        let (node_rows, nodes) = maker.rows()?.into_parts();
        self.refuse_others(&nodes)?;
        let mut tables = tables;
        tables.nodes = node_rows;
        tables.pristine = rows;
        tables.count_texts(self.alloc)?;
        let images = Images {
            tables,
            nodes,
            owner: self.existing.owner,
            change_counter: self.existing.numbers.change_counter,
        };
        Ok(Ready { images, sizes })
    }

    // The tables that stay as they are. Those of nodes and of texts are made anew, and those of work and of its lock with each database.
    fn tables(&self) -> Result<Tables, DiskFault> {
        let old = &self.existing.tables;
        Ok(Tables {
            repository: kept_rows(self.alloc, &old.repository)?,
            wcroot: kept_rows(self.alloc, &old.wcroot)?,
            pristine: Vec::new(self.alloc),
            actual_node: kept_rows(self.alloc, &old.actual_node)?,
            lock: kept_rows(self.alloc, &old.lock)?,
            work_queue: Vec::new(self.alloc),
            wc_lock: Vec::new(self.alloc),
            nodes: Vec::new(self.alloc),
            externals: kept_rows(self.alloc, &old.externals)?,
            last_work: old.last_work,
        })
    }

    // What there is to begin with: the tables that stay, and the texts that have rows.
    fn begin(&self) -> Result<(Tables, Keeping), DiskFault> {
        let tables = self.tables()?;
        let rows = kept_rows(self.alloc, &self.existing.tables.pristine)?;
        let keeping = Keeping {
            texts: Texts::of_rows(self.alloc, &rows)?,
            rows,
            sizes: BTreeMap::new(self.alloc),
        };
        Ok((tables, keeping))
    }

    /// Keeps the texts, prepares the files, and makes the databases. NoText at the first file whose text isn't given; Folder, Rows, Path and Memory.
    pub(crate) fn prepare_all<F: Folder, S: Source>(
        &self,
        folder: &mut F,
        source: &mut S,
        task: &Task,
    ) -> Result<Ready, DiskFault>
        ensures adds { IsAdding self.now.admin.now.name (F.past folder.old) result (F.past folder.new) }
        ensures nodes { IfOk result (λ ready. AreNodesOf self.now.wanted.now.copy ready.images.nodes.items) }
        ensures files { OnOk result (AreFiles self.now.wanted.now.copy (makings_in task.now)) }
        ensures noted { IfOk result (λ ready. AreNoted ready.sizes.entries (makings_in task.now)) }
        ensures ends { OnOk result (Turns (λ before left. AreCopied self.now.admin.now.name 0 (work_nodes self.now.wanted.now.copy (makings_in task.now)) left) (F.past folder.old) (F.past folder.new)) }
    {
        clear_temporary(self.alloc, folder, self.admin)?;
        let (tables, mut keeping) = self.begin()?;
        self.prepare_files(folder, source, &mut keeping, task.makings())?;
        self.images(source, tables, keeping)
    }
}

//! A working copy that is on disk: its tables and its base tree.
ghost use Rattle.std.specs.Prelude.{◌≡◌, codes, Ok, IfOk, OnOk};
ghost use Rattle.svn_wcrows.specs.Copies.{StandsFor};
ghost use Rattle.svn_wcrows.specs.Tables.{seen_tables, tables_of};
ghost use Rattle.svn_folder.specs.States.{seen};
ghost use Rattle.svn_disk.specs.Goes.{IsAlways};
ghost use Rattle.svn_disk.specs.Places.{database_place};
ghost use Rattle.svn_disk.specs.Crashes.{AreNodesOf, HasBytes, IsDatabaseOf};
ghost use Rattle.svn_disk.specs.Queue.{HasDatabaseRows};

use crate::contents::copy_of;
use crate::database_image::Images;
use crate::fault::{DiskFault, OtherRepository};
use crate::layout::Admin;
use crate::on_disk::bytes_at;
use crate::read_back::has_database;
use std::alloc::Global;
use std::collections::{BTreeMap, BTreeSet};
use svn_folder::{DatabaseLock, Folder};
use svn_model::BaseNode;
use svn_types::{RelPath, Text};
use svn_wc::WorkingCopy;
use svn_wcdb::{BaseTree, Origin, TableRow, read_base_tree};
use svn_wcrows::{Numbers, Owner, Tables, number_at, numbers_of, read_tables, text_at};

/// The columns of NODES that are looked at, as they are in the schema.
const PATH: usize = 1;

const OP_DEPTH: usize = 2;

const REPOSITORY: usize = 4;

const SIZE: usize = 18;

const TIME: usize = 19;

const EXTERNAL: usize = 21;

/// A working copy that is on disk, as it was read.
#[derive(Drop)]
pub struct Existing {
    /// The bytes of its database.
    pub(crate) database: Text,
    /// Its tables.
    pub(crate) tables: Tables,
    /// The numbers of its database.
    pub(crate) numbers: Numbers,
    /// The numbers of its root and of its repository.
    pub(crate) owner: Owner,
    // The repository that it is of.
    origin: Origin,
    /// Its nodes in the order of their rows, files by the stand-ins of their texts.
    pub(crate) nodes: Vec<(RelPath, BaseNode)>,
    /// The same by their paths.
    pub(crate) copy: WorkingCopy,
    // The places of their rows among those of NODES.
    places: BTreeMap<RelPath, usize>,
    // The paths that the client has locked in the repository.
    locked: BTreeSet<RelPath>,
}

/// Whether a row of NODES is one of the base tree: no local change, and no file that `svn:externals` put there.
pub(crate) fn is_base(row: &TableRow) -> bool {
    number_at(row, OP_DEPTH) == Some(0) && number_at(row, EXTERNAL).unwrap_or(0) == 0
}

/// The path of a row, none where it isn't one that a copy may have.
pub(crate) fn path_of(alloc: Global, row: &TableRow) -> Result<Option<RelPath>, DiskFault> {
    let Some(text) = text_at(row, PATH) else {
        return Ok(None);
    };
    match RelPath::from_bytes(alloc, text) {
        Ok(path) => Ok(Some(path)),
        Err(_) => Ok(None),
    }
}

// The places of the rows of the base tree.
fn places_of(alloc: Global, rows: &[TableRow]) -> Result<BTreeMap<RelPath, usize>, DiskFault> {
    let mut places = BTreeMap::new(alloc);
    for (place, row) in rows.iter().enumerate() {
        if is_base(row) {
            if let Some(path) = path_of(alloc, row)? {
                places.insert(path, place)?;
            }
        }
    }
    Ok(places)
}

// The paths of rows of LOCK.
fn locked_in(alloc: Global, rows: &[TableRow]) -> Result<BTreeSet<RelPath>, DiskFault> {
    let mut locked = BTreeSet::new(alloc);
    for row in rows {
        if let Some(path) = path_of(alloc, row)? {
            locked.insert(path)?;
        }
    }
    Ok(locked)
}

// The number of the repository of the copy's root.
fn repository_of(rows: &[TableRow]) -> Option<u64> {
    let root = rows.iter().find(|row| is_base(row) && text_at(row, PATH) == Some(b"".as_slice()))?;
    number_at(root, REPOSITORY)
}

// The numbers of the root and of its repository.
fn owner_of(tables: &Tables) -> Result<Owner, DiskFault> {
    match (tables.wcroot.first(), repository_of(&tables.nodes)) {
        (Some(root), Some(repos_id)) => Ok(Owner {
            wc_id: root.rowid,
            repos_id,
        }),
        _ => Err(DiskFault::NoCopy),
    }
}

// Whether the database has a journal of a transaction that was begun and hasn't ended.
fn has_journal<F: Folder>(alloc: Global, folder: &F, admin: &Admin) -> Result<bool, DiskFault> {
    Ok(match bytes_at(alloc, folder, &admin.journal(alloc)?)? {
        Some(bytes) => !bytes.is_empty(),
        None => false,
    })
}

// Refuses a database that a program is about to change, or was: InUse where it is locked for that, Journal where a transaction was begun and hasn't ended.
fn refuse_writer<F: Folder>(alloc: Global, folder: &F, admin: &Admin) -> Result<(), DiskFault> {
    // a program takes the lock before it begins the journal, so the lock is looked at last
    let is_begun = has_journal(alloc, folder, admin)?;
    if folder.is_locked(&admin.database(alloc)?)? {
        return Err(DiskFault::InUse);
    }
    if is_begun {
        Err(DiskFault::Journal)
    } else {
        Ok(())
    }
}

// Keeps programs from the database until the lock is dropped. InUse where one is at it.
fn lock_database<F: Folder>(
    alloc: Global,
    folder: &F,
    admin: &Admin,
) -> Result<DatabaseLock, DiskFault> {
    match folder.lock(&admin.database(alloc)?)? {
        Some(lock) => Ok(lock),
        None => Err(DiskFault::InUse),
    }
}

// Refuses a database that hasn't these bytes. InUse.
fn refuse_other_bytes<F: Folder>(
    alloc: Global,
    folder: &F,
    admin: &Admin,
    database: &Text,
) -> Result<(), DiskFault>
    ensures { OnOk result (IsAlways (λ s. HasBytes database.now (seen s (database_place admin.now.name))) (F.past folder.now)) }
{
    if has_database(alloc, folder, admin, database)? {
        Ok(())
    } else {
        Err(DiskFault::InUse)
    }
}

/// Keeps programs from a database that has these bytes still, until the lock is dropped. InUse where a program has changed it since, or is about to.
pub(crate) fn lock_unchanged<F: Folder>(
    alloc: Global,
    folder: &F,
    admin: &Admin,
    database: &Text,
) -> Result<DatabaseLock, DiskFault>
    ensures { OnOk result (IsAlways (λ s. HasBytes database.now (seen s (database_place admin.now.name))) (F.past folder.now)) }
{
    let lock = lock_database(alloc, folder, admin)?;
    // where the folder has no locks, a program begins a journal before it changes anything
    if has_journal(alloc, folder, admin)? {
        return Err(DiskFault::InUse);
    }
    refuse_other_bytes(alloc, folder, admin, database)?;
    Ok(lock)
}

/// Refuses a database that was just put in place of another one, if a program had begun to change that one: Overwritten.
pub(crate) fn refuse_overwritten<F: Folder>(
    alloc: Global,
    folder: &F,
    admin: &Admin,
) -> Result<(), DiskFault> {
    if has_journal(alloc, folder, admin)? {
        Err(DiskFault::Overwritten)
    } else {
        Ok(())
    }
}

impl Existing {
    // The copy that the bytes of a database stand for.
    fn of_bytes(alloc: Global, database: Text) -> Result<Existing, DiskFault>
        ensures nodes { IfOk result (λ existing. AreNodesOf existing.copy existing.nodes.items) }
        ensures stands { IfOk result (λ existing. StandsFor existing.nodes.items database) }
        ensures tables { IfOk result (λ existing. tables_of database ≡ Ok (seen_tables existing.tables)) }
    {
        let tree = read_base_tree(alloc, database.as_slice())?;
        let copy = copy_of(alloc, &tree.nodes)?;
        let existing = Existing::of_parts(alloc, database, tree, copy)?;
        Ok(existing)
    }

    // The same, whose tree is known.
    fn of_parts(
        alloc: Global,
        database: Text,
        tree: BaseTree,
        copy: WorkingCopy,
    ) -> Result<Existing, DiskFault>
        ensures copy { IfOk result (λ existing. existing.copy ≡ copy) }
        ensures nodes { IfOk result (λ existing. existing.nodes.items ≡ tree.nodes.items) }
        ensures tables { IfOk result (λ existing. tables_of database ≡ Ok (seen_tables existing.tables)) }
    {
        let tables = read_tables(alloc, database.as_slice())?;
        let BaseTree { origin, nodes, .. } = tree;
        Ok(Existing {
            numbers: numbers_of(database.as_slice()),
            owner: owner_of(&tables)?,
            origin,
            copy,
            nodes,
            places: places_of(alloc, &tables.nodes)?,
            locked: locked_in(alloc, &tables.lock)?,
            tables,
            database,
        })
    }

    /// Reads the copy that a folder has. NoCopy where it has none; InUse and Journal where a client is about to change it; Database and Rows where it can't be read.
    pub fn read<F: Folder>(alloc: Global, folder: &F) -> Result<Existing, DiskFault>
        ensures nodes { IfOk result (λ existing. AreNodesOf existing.copy existing.nodes.items) }
        ensures database { IfOk result (λ existing. IsAlways (λ s. IsDatabaseOf existing.nodes.items (seen s (database_place (codes ".svn")))) (F.past folder.now)) }
        ensures rows { IfOk result (λ existing. IsAlways (HasDatabaseRows (seen_tables existing.tables)) (F.past folder.now)) }
    {
        let admin = Admin::of_copy(alloc)?;
        let path = admin.database(alloc)?;
        let Some(database) = bytes_at(alloc, folder, &path)? else {
            return Err(DiskFault::NoCopy);
        };
        refuse_writer(alloc, folder, &admin)?;
        Existing::of_bytes(alloc, database)
    }

    /// Its base tree, files by the stand-ins of their texts.
    pub fn copy(&self) -> &WorkingCopy
        ensures { result.now ≡ self.now.copy }
    {
        &self.copy
    }

    /// The repository that it is of.
    pub fn origin(&self) -> &Origin {
        &self.origin
    }

    /// Refuses a copy with work left, or that a client is at work in: Unfinished where the work is this library's, else Foreign.
    pub fn refuse_busy(&self) -> Result<(), DiskFault> {
        if !self.is_busy() {
            return Ok(());
        }
        Err(if self.numbers.is_marked() {
            DiskFault::Unfinished
        } else {
            DiskFault::Foreign
        })
    }

    /// Refuses a copy of another repository than the one with this UUID: Repository, Memory.
    pub fn refuse_other(&self, alloc: Global, uuid: &[u8]) -> Result<(), DiskFault> {
        if self.origin.uuid.as_slice() == uuid {
            return Ok(());
        }
        Err(DiskFault::Repository(OtherRepository {
            copy: self.origin.uuid.clone()?,
            wanted: Text::from_slice(alloc, uuid)?,
        }))
    }

    /// Keeps clients from the copy's database until the lock is dropped. InUse where one has changed the copy since it was read, or is about to.
    pub(crate) fn lock_unchanged<F: Folder>(
        &self,
        alloc: Global,
        folder: &F,
    ) -> Result<DatabaseLock, DiskFault>
        ensures { OnOk result (IsAlways (λ s. HasBytes self.now.database (seen s (database_place (codes ".svn")))) (F.past folder.now)) }
    {
        let admin = Admin::of_copy(alloc)?;
        lock_unchanged(alloc, folder, &admin, &self.database)
    }

    /// Whether a client, or an earlier run, has work left, or is at work.
    pub(crate) fn is_busy(&self) -> bool {
        !self.tables.work_queue.is_empty() || !self.tables.wc_lock.is_empty()
    }

    /// The databases that follow the one that is there.
    pub(crate) fn into_images(self) -> Images
        ensures { result.nodes.items ≡ self.nodes.items }
    {
        let Existing {
            tables,
            nodes,
            owner,
            numbers,
            ..
        } = self;
        Images {
            tables,
            nodes,
            owner,
            change_counter: numbers.change_counter,
        }
    }

    /// The row of a node.
    pub(crate) fn row_of(&self, path: &RelPath) -> Option<&TableRow> {
        self.tables.nodes.get(*self.places.get(path)?)
    }

    /// The time that is recorded of a file, in microseconds since 1970.
    pub(crate) fn time_of(&self, path: &RelPath) -> Option<u64> {
        number_at(self.row_of(path)?, TIME)
    }

    /// The size in bytes and the time in microseconds since 1970 that are recorded of a file.
    pub(crate) fn size_and_time_of(&self, path: &RelPath) -> Option<(u64, u64)> {
        let row = self.row_of(path)?;
        Some((number_at(row, SIZE)?, number_at(row, TIME)?))
    }

    /// Whether the client has locked a node in the repository.
    pub(crate) fn has_lock(&self, node: &BaseNode) -> bool {
        match node.repos_path() {
            Some(repos_path) => self.locked.contains(repos_path),
            None => false,
        }
    }
}

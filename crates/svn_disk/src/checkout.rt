//! A working copy, made anew.
ghost use Rattle.std.specs.Prelude.{◌≡◌, ℕ, List, ◌∷◌, [], codes, true, false, IfOk, OnOk};
ghost use Rattle.std.specs.List.{list_any};
ghost use Rattle.svn_wcrows.specs.Copies.{StandsFor};
ghost use Rattle.svn_folder.specs.declared.step.Step.TheVariants.{RenameDirectory};
ghost use Rattle.svn_folder.specs.States.{seen};
ghost use Rattle.svn_folder.specs.Syncing.{IsSyncedPast};
ghost use Rattle.svn_disk.specs.Crashes.{IsWhole, IsNoneOrWhole, IsFree, IsSafe, OfText, Leaves, LeavesAfter, Runs};
ghost use Rattle.svn_disk.specs.Ends.{Turns, AreAtPlaces, ArePlaced, AreReady, AreCopied, CopiesNode, IsHeld, number_after};
ghost use Rattle.svn_disk.specs.Goes.{Goes, Does, TakesOne, IsAlways};
ghost use Rattle.svn_disk.specs.Places.{is_inside, is_reserved, is_of_copy};
ghost use Rattle.svn_disk.specs.Plans.{present_nodes, work_of};

use crate::carry::{Exchange, carry_out, replace_database};
use crate::contents::Contents;
use crate::fault::DiskFault;
use crate::layout::{Admin, is_reserved};
use crate::node_file::file_of;
use crate::prepared::{Prepared, prepare};
use crate::read_back::read_back;
use crate::settle::settle;
use crate::source::Source;
use crate::steps::take;
use crate::texts::Texts;
use std::alloc::{AllocError, Global};
use svn_folder::{Entry, Folder, Mode, Step, SyncedFolder};
use svn_model::BaseNode;
use svn_types::{RelPath, Text};
use svn_wc::WorkingCopy;
use svn_wcdb::TableRow;
use svn_wcrows::{
    LastChange, Numbers, Owner, Recorded, Tables, lock_row, node_record, work_rows, write_copy,
};

/// The numbers of a copy that is made anew.
const OWNER: Owner = Owner {
    wc_id: 1,
    repos_id: 1,
};

/// What a client writes into the files `format` and `entries` of a copy, for older clients.
const FORMAT: &[u8] = b"12\n";

/// What a checkout is of.
#[derive(Clone, Copy)]
pub struct Checkout<'a> {
    /// The URL of the repository's root.
    pub url: &'a [u8],
    /// The repository's UUID.
    pub uuid: &'a [u8],
    /// The copy that is to be on disk.
    pub copy: &'a WorkingCopy,
    /// The properties that its root inherits in the repository, as `inherited_props` gives them.
    pub inherited: Option<&'a [u8]>,
    /// The time of its files, in microseconds since 1970.
    pub time: u64,
    /// Whether everything is brought to the disk, each time before it counts. Without that a loss of power may leave anything, and the end of the program
    /// what it leaves with it.
    pub sync: bool,
}

// What a checkout has done so far.
#[derive(Drop)]
struct Progress {
    tables: Tables,
    texts: Texts,
    // How many files have names of their own.
    files: usize,
}

// A checkout whose administrative folder is made, but for its name.
#[derive(Drop)]
struct LaidOut {
    progress: Progress,
    // The database that it has.
    image: Text,
}

// The databases of a copy that was made.
#[derive(Drop)]
struct Made {
    // The bytes of the one that it has.
    first: Text,
    // The one that it has once the work is done.
    end: Vec<u8>,
}

// What all of a checkout is made with.
#[derive(Clone, Copy)]
struct Making<'a> {
    alloc: Global,
    admin: &'a Admin,
    inherited: Option<&'a [u8]>,
    time: u64,
}

/// Refuses a copy with a node named as the administrative folder is, whose files would come to lie in it: Reserved. Subversion refuses it too.
pub fn refuse_reserved(copy: &WorkingCopy) -> Result<(), DiskFault>
    ensures { OnOk result (list_any (λ entry. is_reserved entry.0) copy.now ≡ false) }
{
    for (path, _) in copy.iter() {
        if is_reserved(path) {
            return Err(DiskFault::Reserved(path.clone()?));
        }
    }
    Ok(())
}

// Refuses a folder that is a copy's, or in which something is where the copy would have a node: of each name in the folder itself.
fn refuse_taken<F: Folder>(alloc: Global, folder: &F, copy: &WorkingCopy) -> Result<(), DiskFault> {
    if is_taken(alloc, folder, &Admin::of_copy(alloc)?)? {
        return Err(DiskFault::ACopy);
    }
    if is_taken(alloc, folder, &Admin::of_new(alloc)?)? {
        return Err(DiskFault::CutOff);
    }
    for (path, _) in copy.iter() {
        if path.components().len() == 1 && folder.look(alloc, path)?.is_some() {
            return Err(DiskFault::InTheWay(path.clone()?));
        }
    }
    Ok(())
}

// Whether the administrative folder is there.
fn is_taken<F: Folder>(alloc: Global, folder: &F, admin: &Admin) -> Result<bool, DiskFault> {
    Ok(folder.look(alloc, &admin.folder(alloc)?)?.is_some())
}

// Makes a file that older clients look for.
fn make_format<F: Folder>(
    alloc: Global,
    folder: &mut F,
    admin: &Admin,
    name: &str,
) -> Result<(), DiskFault>
    ensures { Goes (is_inside admin.now.name) (F.past folder.old) result (F.past folder.new) }
{
    let path = admin.path(alloc, name)?;
    let text = Text::from_slice(alloc, FORMAT)?;
    admin.make(folder, path, Entry::File(text, Mode::PLAIN))
}

// Makes the administrative folder, with those of the texts and of what has no name yet, and the files that older clients look for.
fn make_admin<F: Folder>(alloc: Global, folder: &mut F, admin: &Admin) -> Result<(), DiskFault>
    ensures { Goes (is_inside admin.now.name) (F.past folder.old) result (F.past folder.new) }
{
    admin.make(folder, admin.folder(alloc)?, Entry::Directory)?;
    admin.make(folder, admin.pristine(alloc)?, Entry::Directory)?;
    admin.make(folder, admin.temporary(alloc)?, Entry::Directory)?;
    make_format(alloc, folder, admin, "format")?;
    make_format(alloc, folder, admin, "entries")
}

impl Progress {
    fn begin(alloc: Global, what: &Checkout<'_>) -> Result<Progress, DiskFault>
        ensures { IfOk result (λ progress. progress.files ≡ 0) }
    {
        Ok(Progress {
            tables: Tables::new(alloc, what.url, what.uuid)?,
            texts: Texts::new(alloc),
            files: 0,
        })
    }

    // Adds the row of a node.
    fn push_row<S: Source>(
        &mut self,
        making: &Making<'_>,
        source: &S,
        entry: (&RelPath, &BaseNode),
        size: Option<u64>,
    ) -> Result<(), DiskFault>
        ensures texts { self.new.texts ≡ self.old.texts }
        ensures files { self.new.files ≡ self.old.files }
    {
        let (path, node) = entry;
        let change = match last_change(making.alloc, source, node) {
            Ok(change) => change,
            Err(_) => return Err(DiskFault::Memory),
        };
        let recorded = Recorded {
            change,
            size_and_time: size.map(|size| (size, making.time)),
            inherited: if path.is_root() {
                making.inherited
            } else {
                None
            },
        };
        let bytes = node_record(making.alloc, OWNER, path, node, &recorded)?;
        let rowid = (self.tables.nodes.len() as u64).saturating_add(1);
        self.tables.nodes.push(TableRow { rowid, bytes })?;
        Ok(())
    }
}

/// The last change of a node, if it is known.
pub(crate) fn last_change<'a, S: Source>(
    alloc: Global,
    source: &'a S,
    node: &BaseNode,
) -> Result<Option<LastChange<'a>>, AllocError> {
    match (node.rev(), node.repos_path()) {
        (Some(rev), Some(repos_path)) => source.last_change(alloc, rev, repos_path),
        _ => Ok(None),
    }
}

// Keeps the text of a file, and prepares the file.
fn prepare_file<F: Folder, S: Source>(
    making: &Making<'_>,
    folder: &mut F,
    source: &mut S,
    progress: &mut Progress,
    entry: (&RelPath, &BaseNode),
) -> Result<(), DiskFault>
    ensures steps { Goes (is_inside making.now.admin.now.name) (F.past folder.old) result (F.past folder.new) }
    ensures files { OnOk result (progress.new.files ≡ number_after entry.entry.1.now progress.old.files) }
    ensures held { OnOk result (OfText (IsHeld progress.new.texts.sizes.entries) entry.entry.1.now) }
    ensures others { OnOk result ((name : List ℕ) → IsHeld progress.old.texts.sizes.entries name → IsHeld progress.new.texts.sizes.entries name) }
    ensures ends { OnOk result (Turns (CopiesNode making.now.admin.now.name progress.old.files (IsHeld progress.old.texts.sizes.entries) entry.entry.1.now) (F.past folder.old) (F.past folder.new)) }
{
    let (path, node) = entry;
    let Some((name, props)) = file_of(node) else {
        return Ok(());
    };
    let rows = &mut progress.tables.pristine;
    let size = progress
        .texts
        .keep(folder, source, making.admin, rows, (path, name))?;
    let file = Prepared {
        name,
        props,
        time: Some(making.time),
    };
    let is_file = prepare(making.alloc, folder, making.admin, progress.files, &file)?;
    let size = if is_file { Some(size) } else { None };
    progress.push_row(making, source, entry, size)?;
    progress.files = progress.files.saturating_add(1);
    Ok(())
}

// Prepares a node: a file. A directory has a row alone.
fn prepare_node<F: Folder, S: Source>(
    making: &Making<'_>,
    folder: &mut F,
    source: &mut S,
    progress: &mut Progress,
    entry: (&RelPath, &BaseNode),
) -> Result<(), DiskFault>
    ensures steps { Goes (is_inside making.now.admin.now.name) (F.past folder.old) result (F.past folder.new) }
    ensures files { OnOk result (progress.new.files ≡ number_after entry.entry.1.now progress.old.files) }
    ensures held { OnOk result (OfText (IsHeld progress.new.texts.sizes.entries) entry.entry.1.now) }
    ensures others { OnOk result ((name : List ℕ) → IsHeld progress.old.texts.sizes.entries name → IsHeld progress.new.texts.sizes.entries name) }
    ensures ends { OnOk result (Turns (CopiesNode making.now.admin.now.name progress.old.files (IsHeld progress.old.texts.sizes.entries) entry.entry.1.now) (F.past folder.old) (F.past folder.new)) }
{
    let (_, node) = entry;
    if !node.is_directory() {
        return prepare_file(making, folder, source, progress, entry);
    }
    progress.push_row(making, source, entry, None)
}

// Brings the texts to the folder, and each file under a name of its own.
fn prepare_all<F: Folder, S: Source>(
    making: &Making<'_>,
    folder: &mut F,
    source: &mut S,
    what: &Checkout<'_>,
) -> Result<Progress, DiskFault>
    ensures steps { Goes (is_inside making.now.admin.now.name) (F.past folder.old) result (F.past folder.new) }
    ensures ends { OnOk result (Turns (λ before left. AreCopied making.now.admin.now.name 0 what.now.copy.now left) (F.past folder.old) (F.past folder.new)) }
{
    // a map has fewer entries than a number counts
    let _count = what.copy.nodes().len();
    let mut progress = Progress::begin(making.alloc, what)?;
    for (path, node) in what.copy.iter() {
        prepare_node(making, folder, source, &mut progress, (path, node))?;
    }
    progress.tables.count_texts(making.alloc)?;
    Ok(progress)
}

// The database of a copy with work to do, which keeps clients from it.
fn image_with_work(
    alloc: Global,
    progress: &mut Progress,
    contents: &Contents,
) -> Result<Vec<u8>, DiskFault>
    ensures { IfOk result (λ image. StandsFor contents.now.nodes.items image.items) }
{
    progress.tables.work_queue = work_rows(alloc, &contents.work, 0)?;
    progress.tables.last_work = contents.work.len() as u64;
    let mut locks = Vec::new(alloc);
    locks.push(lock_row(alloc, OWNER)?)?;
    progress.tables.wc_lock = locks;
    Ok(write_copy(
        alloc,
        &progress.tables,
        Numbers::with_work(1),
        &contents.nodes,
    )?)
}

// The database of a copy with no work left.
fn image_at_end(
    alloc: Global,
    progress: &mut Progress,
    contents: &Contents,
) -> Result<Vec<u8>, DiskFault>
    ensures { IfOk result (λ image. StandsFor contents.now.nodes.items image.items) }
{
    progress.tables.work_queue = Vec::new(alloc);
    progress.tables.wc_lock = Vec::new(alloc);
    Ok(write_copy(alloc, &progress.tables, Numbers::at_end(2), &contents.nodes)?)
}

// Makes all of the copy that is in the administrative folder, and each file under a name of its own.
fn lay_out<F: Folder, S: Source>(
    alloc: Global,
    folder: &mut F,
    source: &mut S,
    what: &Checkout<'_>,
    contents: &Contents,
    admin: &Admin,
) -> Result<LaidOut, DiskFault>
    ensures steps { Goes (is_inside admin.now.name) (F.past folder.old) result (F.past folder.new) }
    ensures image { IfOk result (λ laid. StandsFor contents.now.nodes.items laid.image) }
    ensures ends { OnOk result (Turns (λ before left. AreCopied admin.now.name 0 what.now.copy.now left) (F.past folder.old) (F.past folder.new)) }
{
    make_admin(alloc, folder, admin)?;
    let making = Making {
        alloc,
        admin,
        inherited: what.inherited,
        time: what.time,
    };
    let mut progress = prepare_all(&making, folder, source, what)?;
    let image = Text::new(image_with_work(alloc, &mut progress, contents)?);
    let database = Entry::File(image.clone()?, Mode::PLAIN);
    admin.make(folder, admin.database(alloc)?, database)?;
    Ok(LaidOut { progress, image })
}

// The same, and all of it is on the disk and was read back.
fn lay_out_on_disk<F: Folder, S: Source>(
    alloc: Global,
    folder: &mut SyncedFolder<F>,
    source: &mut S,
    what: &Checkout<'_>,
    contents: &Contents,
    admin: &Admin,
) -> Result<LaidOut, DiskFault>
    requires { contents.now.nodes.items ≡ present_nodes what.now.copy.now }
    ensures steps { Goes (is_inside admin.now.name) (F.past folder.old.folder) result (F.past folder.new.folder) }
    ensures synced { what.now.sync ≡ true → OnOk result (IsSyncedPast (F.past folder.new.folder)) }
    ensures whole { OnOk result (IsAlways (λ s. IsWhole admin.now.name (present_nodes what.now.copy.now) (seen s)) (F.past folder.new.folder)) }
    ensures ends { OnOk result (Turns (λ before left. AreReady admin.now.name 0 what.now.copy.now left) (F.past folder.old.folder) (F.past folder.new.folder)) }
{
    let laid = lay_out(alloc, folder, source, what, contents, admin)?;
    settle(alloc, folder, what.sync)?;
    read_back(alloc, folder, admin, what.copy, &laid.image)?;
    Ok(laid)
}

// The administrative folder gets its name.
fn name_folder<F: Folder>(alloc: Global, folder: &mut F) -> Result<(), DiskFault>
    ensures does { Does (RenameDirectory (codes ".svn-new") (codes ".svn") ∷ []) (F.past folder.old) result (F.past folder.new) }
    ensures one { TakesOne (RenameDirectory (codes ".svn-new") (codes ".svn")) (F.past folder.old) result (F.past folder.new) }
{
    let from = Admin::of_new(alloc)?.name.clone()?;
    let to = Admin::of_copy(alloc)?.name.clone()?;
    take(folder, Step::RenameDirectory { from, to })
}

// Makes the copy, with work left.
fn make_copy<F: Folder, S: Source>(
    alloc: Global,
    folder: &mut SyncedFolder<F>,
    source: &mut S,
    what: &Checkout<'_>,
    contents: &Contents,
) -> Result<Made, DiskFault>
    requires { contents.now.nodes.items ≡ present_nodes what.now.copy.now }
    ensures steps { Goes (is_of_copy what.now.copy.now) (F.past folder.old.folder) result (F.past folder.new.folder) }
    ensures crash { what.now.sync ≡ true → Runs IsFree (IsNoneOrWhole (present_nodes what.now.copy.now)) (IsSafe (codes ".svn") (present_nodes what.now.copy.now)) (F.past folder.old.folder) result (F.past folder.new.folder) }
    ensures image { IfOk result (λ made. StandsFor (present_nodes what.now.copy.now) made.end.items) }
    ensures ends { OnOk result (Turns (λ before left. AreReady (codes ".svn") 0 what.now.copy.now left) (F.past folder.old.folder) (F.past folder.new.folder)) }
{
    let admin = Admin::of_new(alloc)?;
    let laid = lay_out_on_disk(alloc, folder, source, what, contents, &admin)?;
    let LaidOut { progress, image } = laid;
    let mut progress = progress;
    let end = image_at_end(alloc, &mut progress, contents)?;
    name_folder(alloc, folder)?;
    Ok(Made { first: image, end })
}

// Does the work of a copy that was made, and puts the database without it in place of the other.
fn finish_copy<F: Folder>(
    alloc: Global,
    folder: &mut F,
    what: &Checkout<'_>,
    contents: &Contents,
    made: Made,
) -> Result<(), DiskFault>
    requires reserved { list_any (λ entry. is_reserved entry.0) what.now.copy.now ≡ false }
    requires work { contents.now.work.items ≡ work_of what.now.copy.now }
    requires image { StandsFor (present_nodes what.now.copy.now) made.end.items }
    ensures steps { Goes (is_of_copy what.now.copy.now) (F.past folder.old) result (F.past folder.new) }
    ensures crash { what.now.sync ≡ true → Runs (IsSafe (codes ".svn") (present_nodes what.now.copy.now)) (IsNoneOrWhole (present_nodes what.now.copy.now)) (IsSafe (codes ".svn") (present_nodes what.now.copy.now)) (F.past folder.old) result (F.past folder.new) }
    ensures ends { OnOk result (Turns (ArePlaced (codes ".svn") 0 (work_of what.now.copy.now)) (F.past folder.old) (F.past folder.new)) }
{
    // no two nodes are at one path
    what.copy.law();
    let admin = Admin::of_copy(alloc)?;
    carry_out(alloc, folder, &admin, &contents.work, what.sync)?;
    let Made { first, end } = made;
    let exchange = Exchange {
        now: &first,
        image: end,
    };
    replace_database(alloc, folder, &admin, exchange, what.sync)
}

/// Refuses what [`check_out`] refuses of a copy and a folder before it changes anything: Reserved, ACopy, CutOff, InTheWay, Folder, Memory. Nothing may be
/// where the folder would be.
pub fn refuse_check_out<F: Folder>(
    alloc: Global,
    folder: &F,
    copy: &WorkingCopy,
) -> Result<(), DiskFault> {
    refuse_reserved(copy)?;
    refuse_taken(alloc, folder, copy)
}

/// Makes a working copy in a folder that is there.
///
/// Refused before anything is changed: Reserved at the first node named `.svn`, ACopy where the folder is a working copy's, CutOff where a checkout was
/// cut off, InTheWay at the first path of the copy in the folder itself that is taken. Then NoText at the first file whose text isn't given, NoStandIn
/// where a text is no stand-in by SHA-1, Folder where a step fails, InTheWay where something came to be where a directory would be, Rows, Path and Memory.
/// Before the administrative folder has its name there is no copy; from then on there is the whole copy, with work left that `svn cleanup` does too: with
/// `sync`, whenever the program or the power stops. InUse where a client has changed that copy's database, or is about to, and Overwritten where one began to
/// when the last database took its place.
pub fn check_out<F: Folder, S: Source>(
    alloc: Global,
    folder: &mut SyncedFolder<F>,
    source: &mut S,
    what: &Checkout<'_>,
) -> Result<(), DiskFault>
    ensures steps { Goes (is_of_copy what.now.copy.now) (F.past folder.old.folder) result (F.past folder.new.folder) }
    ensures crash { what.now.sync ≡ true → Leaves (IsNoneOrWhole (present_nodes what.now.copy.now)) (F.past folder.old.folder) (F.past folder.new.folder) }
    ensures after { what.now.sync ≡ true → OnOk result (LeavesAfter (IsWhole (codes ".svn") (present_nodes what.now.copy.now)) (F.past folder.old.folder) (F.past folder.new.folder)) }
    ensures ends { OnOk result (Turns (λ before left. AreAtPlaces what.now.copy.now left) (F.past folder.old.folder) (F.past folder.new.folder)) }
{
    // no two nodes are at one path, and the root is a directory
    what.copy.law();
    refuse_reserved(what.copy)?;
    refuse_taken(alloc, folder, what.copy)?;
    let contents = Contents::of(alloc, what.copy)?;
    let made = make_copy(alloc, folder, source, what, &contents)?;
    finish_copy(alloc, folder, what, &contents, made)
}

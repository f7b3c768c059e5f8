//! Working copies on disk, read and not changed.
ghost use Rattle.svnaudit.specs.Faults.{is_memory};

use crate::database::Database;
use crate::fault::Fault;
use crate::folder::Folder;
use crate::nested::{tell_externals, tell_nested};
use crate::pristine::{PristineFile, open_pristine};
use std::rt::Files;
use svn_answers::{Copies, Opened};
use svn_disk_audit::Examiner;
use svn_types::{RelPath, Text};
use svn_wcdb::BaseTree;

/// The working copies of folders.
#[derive(Clone, Copy)]
pub(crate) struct Folders<'a, T> {
    pub(crate) rt: &'a T,
}

/// A folder whose pristine texts are opened, and its database.
#[derive(Drop)]
pub(crate) struct OpenFolder<'a, T> {
    rt: &'a T,
    name: String,
    folder: Folder,
    database: Database,
}

impl<T: Files + Eprint + AllocGlobal + Clone + Drop> Examiner for OpenFolder<'_, T> {
    type Fault = Fault;

    type Text = PristineFile<T::File>;

    fn examine(&mut self, tree: &BaseTree) -> Result<(), Fault> {
        tell_externals(self.rt, &self.name, tree)?;
        tell_nested(self.rt, &self.name, &self.folder, tree)
    }

    fn pristine(&mut self, path: &RelPath, name: &Text) -> Result<PristineFile<T::File>, Fault> {
        open_pristine(self.rt, &self.folder, path, name)
    }
}

impl<'a, T: Files + Eprint + AllocGlobal + Clone + Drop> Copies for Folders<'a, T> {
    type Fault = Fault;

    type Examiner = OpenFolder<'a, T>;

    ghost lacks_memory = { λ _ fault. is_memory fault };

    fn is_memory(&self, fault: &Fault) -> bool {
        matches!(fault, Fault::Memory)
    }

    fn open(&self, name: &str) -> Result<Opened<OpenFolder<'a, T>>, Fault> {
        let folder = Folder::find(self.rt, name)?;
        let database = folder.database(self.rt.alloc())?;
        Ok(Opened {
            database: database.read(self.rt)?,
            below: folder.below().clone()?,
            examiner: OpenFolder {
                rt: self.rt,
                name: name.to_string(self.rt.alloc())?,
                folder,
                database,
            },
        })
    }

    fn look_again(
        &self,
        _name: &str,
        database: &[u8],
        examiner: &OpenFolder<'a, T>,
    ) -> Result<(), Fault> {
        examiner.database.look_again(self.rt, database)
    }
}

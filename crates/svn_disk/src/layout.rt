//! Where a working copy keeps what it knows: the names below `.svn`.
ghost use Rattle.std.specs.Prelude.{◌≡◌, ◌∷◌, ◌++◌, [], true, IfOk, OnOk, codes};
ghost use Rattle.svn_types.specs.Names.{path_of_text};
ghost use Rattle.svn_digits.specs.StandIns.{is_stand_in};
ghost use Rattle.svn_disk.specs.Places.{text_place, database_place, new_database_place, temporary_place, is_reserved, is_outside, IsTemporary};
ghost use Rattle.svn_disk.specs.Ends.{own_place, new_text_place};

use crate::fault::DiskFault;
use std::alloc::Global;
use svn_types::{Name, RelPath};
use svn_wcdb::pristine_path;

/// The administrative folder of a working copy, under the name that it has while a copy is made or once it is there.
#[derive(Debug, Drop)]
pub(crate) struct Admin {
    /// Its name in the working copy's folder.
    pub(crate) name: Name,
}

/// The name that it has.
const NAME: &str = ".svn";

/// The name that it has while a copy is made: a client takes no folder for a copy's before it has its name.
const NEW: &str = ".svn-new";

/// Whether a path has the name of the administrative folder in it.
pub(crate) fn is_reserved(path: &RelPath) -> bool
    ensures { result ≡ is_reserved path.now }
{
    path.components().iter().any(|name| name.as_str() == NAME)
}

/// Whether a path isn't in the administrative folder, nor that of the copy itself.
pub(crate) fn is_outside(path: &RelPath) -> bool
    ensures { result ≡ is_outside path.now }
{
    match path.components().first() {
        Some(name) => name.as_str() != NAME,
        None => false,
    }
}

impl Admin {
    /// That of a working copy.
    pub(crate) fn of_copy(alloc: Global) -> Result<Admin, DiskFault>
        ensures { IfOk result (λ a. a.name ≡ codes ".svn") }
    {
        Ok(Admin {
            name: Name::parse(alloc, NAME)?,
        })
    }

    /// That of a copy that is made.
    pub(crate) fn of_new(alloc: Global) -> Result<Admin, DiskFault>
        ensures { IfOk result (λ a. a.name ≡ codes ".svn-new") }
    {
        Ok(Admin {
            name: Name::parse(alloc, NEW)?,
        })
    }

    /// The folder itself.
    pub(crate) fn folder(&self, alloc: Global) -> Result<RelPath, DiskFault>
        ensures { IfOk result (λ p. p ≡ self.now.name ∷ []) }
    {
        let path = RelPath::root(alloc).join(alloc, &self.name)?;
        Ok(path)
    }

    /// What is under a name in it.
    pub(crate) fn path(&self, alloc: Global, name: &str) -> Result<RelPath, DiskFault>
        ensures { IfOk result (λ p. p ≡ self.now.name ∷ path_of_text name.now) }
    {
        let below = RelPath::parse(alloc, name)?;
        let path = self.folder(alloc)?.join_path(alloc, &below)?;
        Ok(path)
    }

    /// The database.
    pub(crate) fn database(&self, alloc: Global) -> Result<RelPath, DiskFault>
        ensures { IfOk result (λ p. p ≡ database_place self.now.name) }
    {
        self.path(alloc, "wc.db")
    }

    /// The journal that is beside the database during a transaction.
    pub(crate) fn journal(&self, alloc: Global) -> Result<RelPath, DiskFault> {
        self.path(alloc, "wc.db-journal")
    }

    /// The database, before it has its name.
    pub(crate) fn new_database(&self, alloc: Global) -> Result<RelPath, DiskFault>
        ensures { IfOk result (λ p. p ≡ new_database_place self.now.name) }
    {
        self.path(alloc, "tmp/new-wc.db")
    }

    /// The folder of what has no name yet.
    pub(crate) fn temporary(&self, alloc: Global) -> Result<RelPath, DiskFault>
        ensures { IfOk result (λ p. p ≡ temporary_place self.now.name) }
    {
        self.path(alloc, "tmp")
    }

    /// The folder of the pristine texts.
    pub(crate) fn pristine(&self, alloc: Global) -> Result<RelPath, DiskFault>
        ensures { IfOk result (λ p. p ≡ self.now.name ∷ codes "pristine" ∷ []) }
    {
        self.path(alloc, "pristine")
    }

    /// The pristine text that a stand-in names.
    pub(crate) fn text(&self, alloc: Global, stand_in: &[u8]) -> Result<RelPath, DiskFault>
        ensures place { IfOk result (λ p. p ≡ text_place self.now.name stand_in.now) }
        ensures stands { OnOk result (is_stand_in stand_in.now ≡ true) }
    {
        let Some(below) = pristine_path(alloc, stand_in)? else {
            return Err(DiskFault::NoStandIn);
        };
        let Ok(below) = str::from_utf8(below.as_slice()) else {
            return Err(DiskFault::NoStandIn);
        };
        let place = RelPath::parse(alloc, below)?;
        let path = self.pristine(alloc)?.join_path(alloc, &place)?;
        Ok(path)
    }

    /// A pristine text, before it has its name.
    pub(crate) fn new_text(&self, alloc: Global) -> Result<RelPath, DiskFault>
        ensures { IfOk result (λ p. p ≡ new_text_place self.now.name) }
    {
        self.path(alloc, "tmp/new-text")
    }

    /// The file of that number, before it has its place.
    pub(crate) fn new_file(&self, alloc: Global, number: usize) -> Result<RelPath, DiskFault>
        ensures temporary { IfOk result (λ p. IsTemporary self.now.name p) }
        ensures place { IfOk result (λ p. p ≡ own_place self.now.name number) }
    {
        let text = format!(in alloc; "new-{number}")?;
        let name = Name::parse(alloc, &text)?;
        let path = self.temporary(alloc)?.join(alloc, &name)?;
        Ok(path)
    }
}

//! The history of a dump.
ghost use Rattle.std.specs.Prelude.{◌≡◌, IfOk, IfErr};
ghost use Rattle.svn_answers.specs.Answers.{compared};
ghost use Rattle.svn_answers.specs.Lines.{or_zero};
ghost use Rattle.svn_answers.specs.Loadings.{IsReady, IsLoaded, IsAtFront, IsRefusalOf, IsFrontRefusal, IsDumpRefusal};

use crate::asked::History;
use crate::revisions::or_zero;
use std::alloc::Global;
use std::fmt;
use std::io::Read;
use svn_dump::{DumpFault, Limits, Reader, Texts};
use svn_history::{LoadFault, LoadListener, Loader, Refusal};
use svn_repo::Repo;
use svn_types::{Rev, Text};

/// The history of a whole dump, and what the dump says before it.
#[derive(Drop)]
pub struct Loaded {
    /// The history.
    pub repo: Repo,
    /// The UUID of its repository, if the dump gives one.
    pub uuid: Option<Text>,
    /// The number of the dump's first revision, if it has any. Those before it are empty in the history.
    pub first: Option<Rev>,
}

/// A dump that is refused: where, and why. It is printed as a [`Refusal`].
#[derive(Debug, Drop)]
pub struct DumpRefusal {
    /// How many bytes of the dump are before the record.
    pub byte: u64,
    /// The revision that began last, if one has.
    pub rev: Option<Rev>,
    /// The path that the record gives, if it gives one, by its bytes in the dump.
    pub path: Option<Text>,
    /// Why.
    pub fault: LoadFault,
}

impl DumpRefusal {
    /// At no record: before the first, or where memory ran out.
    pub fn at_front(fault: LoadFault) -> DumpRefusal
        ensures { IsAtFront result fault }
    {
        DumpRefusal {
            byte: 0,
            rev: None,
            path: None,
            fault,
        }
    }

    /// What a loader refused. Memory where an allocation failed, or where nothing was refused.
    pub fn of<R: Read + Drop>(alloc: Global, loader: &Loader<R>) -> DumpRefusal
        ensures { IsRefusalOf loader.now result }
    {
        let Some(refusal) = loader.refusal() else {
            return DumpRefusal::at_front(LoadFault::Memory);
        };
        let path = match refusal.path {
            Some(path) => match Text::from_slice(alloc, path) {
                Ok(path) => Some(path),
                Err(_) => return DumpRefusal::at_front(LoadFault::Memory),
            },
            None => None,
        };
        DumpRefusal {
            byte: refusal.byte,
            rev: refusal.rev,
            path,
            fault: refusal.fault,
        }
    }
}

impl fmt::Display for DumpRefusal {
    fn fmt<W: fmt::Write>(&self, f: &mut fmt::Formatter<W>) -> fmt::Result {
        let refusal = Refusal {
            byte: self.byte,
            rev: self.rev,
            path: match &self.path {
                Some(path) => Some(path.as_slice()),
                None => None,
            },
            fault: self.fault,
        };
        write!(f, "{refusal}")
    }
}

fn loader_of<R: Read + Drop>(
    alloc: Global,
    input: R,
    limits: Limits,
    texts: Texts,
) -> Result<Loader<R>, DumpRefusal>
    ensures ready { IfOk result (λ l. IsReady R.remaining limits texts (R.remaining input) l) }
    ensures refused { IfErr result (IsFrontRefusal limits (R.remaining input)) }
    ensures going { IfOk result (λ l. l.refused ≡ None) }
{
    let Ok(repo) = Repo::new(alloc) else {
        return Err(DumpRefusal::at_front(LoadFault::Memory));
    };
    match Reader::new(alloc, input, limits, texts) {
        Ok(records) => Ok(Loader::new(alloc, records, repo)),
        Err(fault) => Err(DumpRefusal::at_front(LoadFault::from(fault))),
    }
}

// The UUID of the repository.
fn uuid_of<R: Read + Drop>(alloc: Global, loader: &Loader<R>) -> Result<Option<Text>, DumpRefusal>
    ensures uuid { IfOk result (λ uuid. uuid ≡ loader.now.front.uuid) }
    ensures fault { IfErr result (λ e. IsAtFront e LoadFault.Memory) }
{
    let Some(uuid) = loader.uuid() else {
        return Ok(None);
    };
    match Text::from_slice(alloc, uuid) {
        Ok(uuid) => Ok(Some(uuid)),
        Err(_) => Err(DumpRefusal::at_front(LoadFault::Memory)),
    }
}

impl Loaded {
    /// Loads a whole dump, of which at most `limits` is held at a time and whose texts are kept in that way, and reports each revision to a listener.
    /// Refused as [`Reader::new`] and [`Loader::load_all_with`] refuse it.
    pub fn load<R: Read + Drop, L: LoadListener>(
        alloc: Global,
        input: R,
        limits: Limits,
        texts: Texts,
        listener: &mut L,
    ) -> Result<Loaded, DumpRefusal>
        ensures loaded { IfOk result (λ l. IsLoaded limits texts (R.remaining input) l) }
        ensures refused { IfErr result (IsDumpRefusal limits texts (R.remaining input)) }
    {
        let mut loader = loader_of(alloc, input, limits, texts)?;
        match loader.load_all_with(listener) {
            Ok(()) => {}
            Err(_fault) => return Err(DumpRefusal::of(alloc, &loader)),
        }
        let uuid = uuid_of(alloc, &loader)?;
        let first = loader.first_revision();
        Ok(Loaded {
            repo: loader.into_repo(),
            uuid,
            first,
        })
    }

    /// What copies are compared with, where texts are kept as they were loaded; whether copies of another UUID are taken is for the caller to say.
    pub fn history(&self, texts: Texts, any_uuid: bool) -> History<'_>
        ensures { compared result ≡ record { history = self.now.repo; texts = texts; uuid = self.now.uuid; any_uuid = any_uuid; first = or_zero self.now.first } }
    {
        History {
            repo: &self.repo,
            texts,
            uuid: match &self.uuid {
                Some(uuid) => Some(uuid.as_slice()),
                None => None,
            },
            any_uuid,
            first: or_zero(self.first),
        }
    }
}

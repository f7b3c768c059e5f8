//! A false copy that is put right while a client is at work: after each step the client locks the database, begins to write to it, or changes it.

use crate::copies::{Known, TEXTS};
use crate::mends::{Falsehood, what};
use crate::stops::look;
use anyhow::{Result, bail};
use std::alloc::Global;
use svn_disk::{DiskFault, mend, resume};
use svn_folder::{Entry, Folder, FolderFault, MemoryFolder, Mode, Step, Summary, SyncedFolder};
use svn_types::{Name, RelPath, Text};

const DATABASE: &str = ".svn/wc.db";

const JOURNAL: &str = ".svn/wc.db-journal";

/// The place of the last digit of the number in a database that each change raises.
const CHANGE_COUNTER: usize = 27;

/// What the client does.
#[derive(Clone, Copy, Debug, PartialEq, Eq)]
enum Act {
    Locks,
    Begins,
    Changes,
}

// A folder in which a client acts once so many steps were taken.
#[derive(Drop)]
struct Shared {
    alloc: Global,
    folder: MemoryFolder,
    act: Act,
    after: usize,
    // The database that the client has left.
    left: Option<Entry>,
}

impl Shared {
    // The path with that text.
    fn path(&self, text: &str) -> Result<RelPath, FolderFault> {
        match RelPath::parse(self.alloc, text) {
            Ok(path) => Ok(path),
            Err(_) => Err(FolderFault::Memory),
        }
    }

    // Makes a file where none is.
    fn put(&mut self, text: &str, entry: Entry) -> Result<(), FolderFault> {
        let path = self.path(text)?;
        self.folder.take(Step::Make {
            path,
            entry,
            modified: None,
        })
    }

    // The client changes the database.
    fn change(&mut self) -> Result<(), FolderFault> {
        let path = self.path(DATABASE)?;
        let Some(Entry::File(bytes, mode)) = self.folder.look(self.alloc, &path)? else {
            return Ok(());
        };
        let mut changed = Vec::from_slice(self.alloc, bytes.as_slice())?;
        if let Some(count) = changed.get_mut(CHANGE_COUNTER) {
            *count = count.wrapping_add(1);
        }
        let entry = Entry::File(Text::new(changed), mode);
        self.left = Some(entry.clone()?);
        self.folder.take(Step::RemoveFile(path))?;
        self.put(DATABASE, entry)
    }

    // The client does what it does.
    fn do_act(&mut self) -> Result<(), FolderFault> {
        match self.act {
            Act::Locks => Ok(()),
            Act::Begins => {
                let bytes = Text::from_slice(self.alloc, b"begun")?;
                self.put(JOURNAL, Entry::File(bytes, Mode::PLAIN))
            }
            Act::Changes => self.change(),
        }
    }

    // Fails if the database isn't the one that the client has left.
    fn check(&self) -> Result<()> {
        if self.left.is_some() && look(self.alloc, &self.folder, DATABASE)? != self.left {
            bail!("the client's database was overwritten")
        }
        Ok(())
    }

    // The client ends what it has begun.
    fn end(&mut self) -> Result<()> {
        let path = self.path(JOURNAL)?;
        if self.folder.look(self.alloc, &path)?.is_some() {
            self.folder.take(Step::RemoveFile(path))?;
        }
        Ok(())
    }
}

impl Folder for Shared {
    fn take(&mut self, step: Step) -> Result<(), FolderFault> {
        self.folder.take(step)?;
        if self.folder.steps().len() == self.after {
            self.do_act()
        } else {
            Ok(())
        }
    }

    fn look(&self, alloc: Global, path: &RelPath) -> Result<Option<Entry>, FolderFault> {
        self.folder.look(alloc, path)
    }

    fn sum(&self, alloc: Global, path: &RelPath) -> Result<Option<Summary>, FolderFault> {
        self.folder.sum(alloc, path)
    }

    fn list(&self, alloc: Global, path: &RelPath) -> Result<Vec<Name>, FolderFault> {
        self.folder.list(alloc, path)
    }

    fn is_locked(&self, _path: &RelPath) -> Result<bool, FolderFault> {
        Ok(self.act == Act::Locks && self.folder.steps().len() >= self.after)
    }
}

// Puts the copy right, or completes what is left of that.
fn run(folder: Shared, all: &Falsehood, is_begun: bool) -> Result<(Shared, Option<DiskFault>)> {
    let alloc = folder.alloc;
    if is_begun {
        let mut folder = folder;
        let fault = resume(alloc, &mut folder, true).err();
        return Ok((folder, fault));
    }
    let mut folder = SyncedFolder::new(alloc, folder);
    let mut source = Known::new(&TEXTS);
    let fault = mend(alloc, &mut folder, &mut source, &what(&all.repo)).err();
    let SyncedFolder { folder, .. } = folder;
    Ok((folder, fault))
}

// Does so beside a client that acts after so many steps, and says how it ended, and which copy is there. Once the client has ended, what is left is completed.
fn run_beside(alloc: Global, all: &Falsehood, act: Act, steps: (usize, usize)) -> Result<String> {
    let (begun, after) = steps;
    let folder = Shared {
        alloc,
        folder: all.between.stopped(alloc, begun)?,
        act,
        after: all.between.made.saturating_add(begun).saturating_add(after),
        left: None,
    };
    let (mut folder, fault) = run(folder, all, begun > 0)?;
    folder.check()?;
    folder.end()?;
    let word = all.between.word_of(alloc, &folder.folder)?;
    if word == "the new copy" && act != Act::Changes {
        resume(alloc, &mut folder.folder, true)?;
        all.check_whole(alloc, &folder.folder)?;
    }
    Ok(match fault {
        Some(fault) => format!(in alloc; "{fault} ({word})")?,
        None => format!(in alloc; "done ({word})")?,
    })
}

// The same after each number of steps.
fn try_act<R: Print + AllocGlobal>(rt: &R, all: &Falsehood, act: Act, begun: usize) -> Result<()> {
    let mut last = String::new(rt.alloc());
    'steps: for after in 1..all.between.steps().saturating_add(1) {
        let said = run_beside(rt.alloc(), all, act, (begun, after))?;
        if said != last {
            println!(rt; "a client {act:?}, after {begun} and {after}: {said}")?;
            last = said;
        }
    }
    Ok(())
}

/// Has a client act after each step of a mend, and of its completion.
pub(crate) fn try_clients<R: Print + AllocGlobal>(rt: &R, all: &Falsehood) -> Result<()> {
    for act in [Act::Locks, Act::Begins, Act::Changes] {
        for begun in [0, 40] {
            try_act(rt, all, act, begun)?;
        }
    }
    Ok(())
}

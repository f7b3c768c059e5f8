//! A small history, and where its texts come from.

use anyhow::Result;
use std::alloc::{AllocError, Global};
use svn_digits::stand_in;
use svn_disk::{Checkout, Source, TextSums, check_out};
use svn_folder::{
    Folder, MemoryFolder, Pieces, StoppedFolder, SyncedFolder, an_empty_folder_is_synced,
};
use svn_repo::{Change, PropName, Repo};
use svn_types::{Digest, RelPath, Rev, Sha1Sum, Text};
use svn_wc::WorkingCopy;
use svn_wcrows::LastChange;

/// The UUID of the repository.
pub(crate) const UUID: &[u8] = b"8c2cd125-01f3-4a01-a4b5-22ec721dff0f";

/// The files of the history: their paths, texts, and the property that each has.
const FILES: [(&str, &str, &str); 5] = [
    ("a", "first\n", "svn:executable"),
    ("d/b", "second\n", "p"),
    ("d/same", "first\n", "svn:needs-lock"),
    ("d/e/empty", "", "q"),
    ("link", "link a", "svn:special"),
];

/// Their texts, and those of the copies that are put right or updated.
pub(crate) const TEXTS: [&str; 16] = [
    "first\n",
    "second\n",
    "",
    "link a",
    "extra\n",
    "same\n",
    "gone\n",
    "a file\n",
    "in other\n",
    "props\n",
    "old text\n",
    "missing\n",
    "new text\n",
    "in kind\n",
    "link text",
    "text of the branch\n",
];

/// A folder in memory that stops, and knows what of it is on the disk.
pub(crate) type Stopping = SyncedFolder<StoppedFolder<MemoryFolder>>;

/// Texts, of which one is begun.
#[derive(Clone, Copy)]
pub(crate) struct Known {
    texts: &'static [&'static str],
    begun: Option<&'static [u8]>,
}

impl Known {
    /// These texts, of which none is begun.
    pub(crate) fn new(texts: &'static [&'static str]) -> Known {
        Known { texts, begun: None }
    }
}

impl Pieces for Known {
    fn next_piece(&mut self, alloc: Global) -> Option<Text> {
        let text = self.begun?;
        if text.is_empty() {
            return None;
        }
        // three bytes at once
        let (piece, left) = text.split_at(text.len().min(3));
        self.begun = Some(left);
        Text::from_slice(alloc, piece).ok()
    }
}

impl Source for Known {
    fn begin_text(&mut self, sha1: &Sha1Sum) -> Option<TextSums> {
        for text in self.texts {
            if Sha1Sum::of(text.as_bytes()) == *sha1 {
                self.begun = Some(text.as_bytes());
                return Some(TextSums {
                    len: text.len() as u64,
                    md5: Digest::of(text.as_bytes()),
                });
            }
        }
        None
    }

    fn last_change(
        &self,
        _alloc: Global,
        rev: Rev,
        _path: &RelPath,
    ) -> Result<Option<LastChange<'_>>, AllocError> {
        Ok(Some(LastChange {
            rev,
            date: Some(1_700_000_000_000_000),
            author: Some(b"jo"),
        }))
    }
}

fn push_file(alloc: Global, changes: &mut Vec<Change>, file: &(&str, &str, &str)) -> Result<()> {
    let (path, text, name) = file;
    let path = RelPath::parse(alloc, path)?;
    changes.push(Change::PutFile {
        path: path.clone()?,
        text: stand_in(alloc, text.as_bytes())?,
    })?;
    changes.push(Change::SetProp {
        path,
        name: PropName::parse(alloc, name)?,
        value: Some(Text::from_slice(alloc, b"*")?),
    })?;
    Ok(())
}

// The directories, if there is a file in them, and the files.
fn changes(alloc: Global, files: usize) -> Result<Vec<Change>> {
    let mut changes = Vec::new(alloc);
    if files > 1 {
        for path in ["d", "d/e"] {
            let path = RelPath::parse(alloc, path)?;
            changes.push(Change::MakeDir { path })?;
        }
    }
    for file in FILES.iter().take(files) {
        push_file(alloc, &mut changes, file)?;
    }
    Ok(changes)
}

/// The copy of a revision with so many of the files, at most 5.
pub(crate) fn copy(alloc: Global, files: usize) -> Result<WorkingCopy> {
    let mut repo = Repo::new(alloc)?;
    repo.commit(&changes(alloc, files)?)?;
    Ok(WorkingCopy::checkout(alloc, &repo, Rev(1))?)
}

/// Makes it in a folder.
pub(crate) fn make<F: Folder>(
    alloc: Global,
    folder: &mut SyncedFolder<F>,
    copy: &WorkingCopy,
) -> Result<()> {
    let what = Checkout {
        url: b"svn://h/repo",
        uuid: UUID,
        copy,
        inherited: None,
        time: 1_700_000_000_000_000,
        sync: true,
    };
    check_out(alloc, folder, &mut Known::new(&TEXTS), &what)?;
    Ok(())
}

/// An empty folder in memory that takes so many steps.
pub(crate) fn empty(alloc: Global, limit: u64) -> Stopping {
    an_empty_folder_is_synced();
    SyncedFolder::new(alloc, StoppedFolder::new(MemoryFolder::new(alloc), limit))
}

/// The folder in memory, as it was left.
pub(crate) fn inner(folder: Stopping) -> MemoryFolder {
    let SyncedFolder { folder, .. } = folder;
    folder.folder
}

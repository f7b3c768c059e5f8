//! The calls of the delta editor.
ghost use Rattle.std.specs.Prelude.{◌≡◌};
ghost use Rattle.std.specs.Option.{option_copied};
ghost use Rattle.svn_editor.specs.Calls.{is_last, is_abort, entry_of, parent_of, token_of};

use crate::token::Token;
use svn_types::{Digest, PropName, RelPath, Rev, Text};

/// One call of an edit, as in `svn_delta.h`.
///
/// The opening and adding calls give a token to what they open, and later calls name it by that token, which is where
/// Subversion has a baton. The tokens of an edit are 0, 1, 2 and so on, in the order of these calls. A path is one from the root
/// of the edit, of at most 128 names, and a path of an entry is its directory's with one name more. Texts and values have no bound
/// here: the receiver refuses those of over 1,048,576 bytes.
#[derive(Clone, Debug, PartialEq, Eq, Drop)]
pub enum Call {
    /// The revision that the edit leads to. It is the first call.
    SetTargetRevision {
        /// The target.
        rev: Rev,
    },
    /// Opens the root directory, which the receiver has at `base`. Its token is 0.
    OpenRoot {
        /// The revision at which the receiver has the root.
        base: Rev,
        /// The root's token.
        token: Token,
    },
    /// Removes an entry of the directory `parent`, which the receiver has at `rev`, with everything below it.
    DeleteEntry {
        /// The path of the entry.
        path: RelPath,
        /// The revision at which the receiver has the entry (in Subversion the last one in which it was there, or none).
        rev: Rev,
        /// The token of its directory.
        parent: Token,
    },
    /// Makes an empty directory in the directory `parent`, and opens it. There are no copy sources.
    AddDirectory {
        /// The path of the directory.
        path: RelPath,
        /// The token of the directory above.
        parent: Token,
        /// The new directory's token.
        token: Token,
    },
    /// Opens a directory in the directory `parent`, which the receiver has at `base`.
    OpenDirectory {
        /// The path of the directory.
        path: RelPath,
        /// The token of the directory above.
        parent: Token,
        /// The revision at which the receiver has the directory.
        base: Rev,
        /// The opened directory's token.
        token: Token,
    },
    /// Sets a property of an open directory, or removes it where there is no value.
    ChangeDirProp {
        /// The token of the directory.
        token: Token,
        /// The name of the property.
        name: PropName,
        /// Its new value, none where it is removed.
        value: Option<Text>,
    },
    /// Ends the changes of a directory.
    CloseDirectory {
        /// The token of the directory.
        token: Token,
    },
    /// Makes an empty file in the directory `parent`, and opens it. There are no copy sources.
    AddFile {
        /// The path of the file.
        path: RelPath,
        /// The token of its directory.
        parent: Token,
        /// The new file's token.
        token: Token,
    },
    /// Opens a file in the directory `parent`, which the receiver has at `base`.
    OpenFile {
        /// The path of the file.
        path: RelPath,
        /// The token of its directory.
        parent: Token,
        /// The revision at which the receiver has the file.
        base: Rev,
        /// The opened file's token.
        token: Token,
    },
    /// Sets a property of an open file, or removes it where there is no value.
    ChangeFileProp {
        /// The token of the file.
        token: Token,
        /// The name of the property.
        name: PropName,
        /// Its new value, none where it is removed.
        value: Option<Text>,
    },
    /// Gives a file its whole text (in Subversion a delta against the old one).
    ApplyText {
        /// The token of the file.
        token: Token,
        /// The checksum of the text that it replaces, if the sender gives it.
        base_md5: Option<Digest>,
        /// The new text.
        text: Text,
    },
    /// Ends the changes of a file.
    CloseFile {
        /// The token of the file.
        token: Token,
        /// The checksum of the file's text from then on, if the sender gives it.
        text_md5: Option<Digest>,
    },
    /// Ends the edit: no call follows.
    CloseEdit,
    /// Gives the edit up: no call follows. What was done before stays done.
    AbortEdit,
}

impl Call {
    /// Whether no call may follow this one: it ends the edit or gives it up.
    pub fn is_last(&self) -> bool
        ensures { result ≡ is_last self.now }
    {
        matches!(self, Call::CloseEdit | Call::AbortEdit)
    }

    /// Whether it gives the edit up.
    pub fn is_abort(&self) -> bool
        ensures { result ≡ is_abort self.now }
    {
        matches!(self, Call::AbortEdit)
    }

    /// The path of the entry that it deletes, adds or opens; no other call has one. What the others are about has the path with which the call
    /// came that gave their [`token`](Call::token), the root for `OpenRoot`.
    #[inline(always)]
    pub fn path(&self) -> Option<&RelPath>
        ensures { option_copied result ≡ entry_of self.now }
    {
        match self {
            Call::DeleteEntry { path, .. }
            | Call::AddDirectory { path, .. }
            | Call::OpenDirectory { path, .. }
            | Call::AddFile { path, .. }
            | Call::OpenFile { path, .. } => Some(path),
            _ => None,
        }
    }

    /// The token of the directory in which it deletes, adds or opens an entry.
    #[inline(always)]
    pub fn parent(&self) -> Option<Token>
        ensures { result ≡ parent_of self.now }
    {
        match self {
            Call::DeleteEntry { parent, .. }
            | Call::AddDirectory { parent, .. }
            | Call::OpenDirectory { parent, .. }
            | Call::AddFile { parent, .. }
            | Call::OpenFile { parent, .. } => Some(*parent),
            _ => None,
        }
    }

    /// The token of the file or directory that it opens, adds, changes or closes.
    #[inline(always)]
    pub fn token(&self) -> Option<Token>
        ensures { result ≡ token_of self.now }
    {
        match self {
            Call::OpenRoot { token, .. }
            | Call::AddDirectory { token, .. }
            | Call::OpenDirectory { token, .. }
            | Call::AddFile { token, .. }
            | Call::OpenFile { token, .. }
            | Call::ChangeDirProp { token, .. }
            | Call::CloseDirectory { token }
            | Call::ChangeFileProp { token, .. }
            | Call::ApplyText { token, .. }
            | Call::CloseFile { token, .. } => Some(*token),
            _ => None,
        }
    }
}

//! What is at a path of a working copy.
ghost use Rattle.std.specs.Prelude.{◌≡◌, Some};
ghost use Rattle.std.specs.Option.{option_copied};
ghost use Rattle.svn_model.specs.Nodes.{is_present, is_dir, is_incomplete, present_kind, present_revision, present_path, present_props, file_text};

use svn_types::{Kind, Props, RelPath, Rev, Text};

/// What a working copy has at a path, as it came from the repository (a node of the base tree, `svn_wc.h`). There are no local changes.
#[derive(Clone, Debug, PartialEq, Eq, Drop)]
pub enum BaseNode {
    /// A file: what is at `repos_path` in revision `rev`.
    File {
        /// The revision that it has.
        rev: Rev,
        /// Its path in the repository, of at most 64 names.
        repos_path: RelPath,
        /// Its text.
        text: Text,
        /// Its properties.
        props: Props,
    },
    /// A directory: what is at `repos_path` in revision `rev`. While it isn't complete, entries may be missing and properties may be others.
    Dir {
        /// The revision that it has, or is on its way to.
        rev: Rev,
        /// Its path in the repository, of at most 64 names.
        repos_path: RelPath,
        /// Whether it has an entry for each of the node's, and the node's properties; an edit that opened it and didn't close it leaves it incomplete.
        complete: bool,
        /// Its properties.
        props: Props,
    },
    /// The directory above has such an entry, and this copy has nothing there.
    NotPresent,
}

impl BaseNode {
    /// Whether there is a file or a directory.
    #[inline]
    pub fn is_present(&self) -> bool
        ensures { result ≡ is_present (Some self.now) }
    {
        match self {
            BaseNode::File { .. } | BaseNode::Dir { .. } => true,
            BaseNode::NotPresent => false,
        }
    }

    /// Whether it is a directory.
    #[inline]
    pub fn is_directory(&self) -> bool
        ensures { result ≡ is_dir (Some self.now) }
    {
        matches!(self, BaseNode::Dir { .. })
    }

    /// Whether it is a directory that isn't complete (`svn_wc_status_incomplete`).
    #[inline]
    pub fn is_incomplete(&self) -> bool
        ensures { result ≡ is_incomplete (Some self.now) }
    {
        match self {
            BaseNode::Dir { complete, .. } => !*complete,
            BaseNode::File { .. } | BaseNode::NotPresent => false,
        }
    }

    /// A file or a directory; None where it is not present.
    #[inline]
    pub fn kind(&self) -> Option<Kind>
        ensures { result ≡ present_kind self.now }
    {
        match self {
            BaseNode::File { .. } => Some(Kind::File),
            BaseNode::Dir { .. } => Some(Kind::Directory),
            BaseNode::NotPresent => None,
        }
    }

    /// The revision that it has; None where it is not present.
    #[inline]
    pub fn rev(&self) -> Option<Rev>
        ensures { result ≡ present_revision self.now }
    {
        match self {
            BaseNode::File { rev, .. } | BaseNode::Dir { rev, .. } => Some(*rev),
            BaseNode::NotPresent => None,
        }
    }

    /// Its path in the repository; None where it is not present.
    #[inline]
    pub fn repos_path(&self) -> Option<&RelPath>
        ensures { option_copied result ≡ present_path self.now }
    {
        match self {
            BaseNode::File { repos_path, .. } | BaseNode::Dir { repos_path, .. } => Some(
                repos_path,
            ),
            BaseNode::NotPresent => None,
        }
    }

    /// Its properties; None where it is not present.
    #[inline]
    pub fn props(&self) -> Option<&Props>
        ensures { option_copied result ≡ present_props self.now }
    {
        match self {
            BaseNode::File { props, .. } | BaseNode::Dir { props, .. } => Some(props),
            BaseNode::NotPresent => None,
        }
    }

    /// The text of a file.
    #[inline]
    pub fn text(&self) -> Option<&Text>
        ensures { option_copied result ≡ file_text self.now }
    {
        match self {
            BaseNode::File { text, .. } => Some(text),
            BaseNode::Dir { .. } | BaseNode::NotPresent => None,
        }
    }
}

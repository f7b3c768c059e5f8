//! What a file of a working copy is on disk, by its text and its properties (`svn_props.h`).
ghost use Rattle.std.specs.Prelude.{◌≡◌, ◌++◌, true, false, codes, Some, IfOk, IfSome};
ghost use Rattle.std.specs.Option.{option_map};
ghost use Rattle.svn_disk.specs.Plans.{text_of_node};
ghost use Rattle.svn_disk.specs.Tasks.{node_at};
ghost use Rattle.svn_disk.specs.Changes.{has_to_come};

use crate::normal::{Keywords, with_line_ends, without_values};
use std::alloc::{AllocError, Global};
use svn_folder::Mode;
use svn_model::BaseNode;
use svn_types::{Props, RelPath, Text};
use svn_wc::WorkingCopy;

/// What the text of a symbolic link begins with.
pub(crate) const LINK: &[u8] = b"link ";

const LINE_ENDS: &str = "svn:eol-style";

const KEYWORDS: &str = "svn:keywords";

const NEEDS_LOCK: &str = "svn:needs-lock";

/// The properties whose values say how a text is written to disk.
const TRANSLATIONS: [&str; 2] = [LINE_ENDS, KEYWORDS];

// The value of the property of that name.
fn value<'a>(props: &'a Props, name: &str) -> Option<&'a Text> {
    for (found, value) in props.iter() {
        if found.as_str() == name {
            return Some(value);
        }
    }
    None
}

// Whether a node has the property of that name.
fn has(props: &Props, name: &str) -> bool {
    value(props, name).is_some()
}

/// How a file may be used: `svn:executable` makes it a program, and `svn:needs-lock` keeps everybody from writing to it.
pub(crate) fn mode_of(props: &Props) -> Mode {
    Mode {
        executable: has(props, "svn:executable"),
        read_only: has(props, NEEDS_LOCK),
    }
}

/// The properties of a file that the client has locked in the repository, as far as they say how it may be used: anybody may write to it.
pub(crate) fn props_if_locked(alloc: Global, props: &Props) -> Result<Props, AllocError> {
    let mut others = Props::new(alloc);
    for (name, value) in props.iter() {
        if name.as_str() != NEEDS_LOCK {
            others.insert(name.clone()?, value.clone()?)?;
        }
    }
    Ok(others)
}

/// The text and the properties of a file of a copy; none if the copy has no file at the path.
pub(crate) fn file_at<'a>(copy: &'a WorkingCopy, path: &RelPath) -> Option<(&'a Text, &'a Props)>
    ensures { option_map (λ found. found.0.now) result ≡ text_of_node (node_at copy.now path.now) }
{
    match copy.get(path) {
        Some(node) => file_of(node),
        None => None,
    }
}

/// Whether a file is a symbolic link on disk, if its text says of which: the property `svn:special`.
pub(crate) fn is_special(props: &Props) -> bool {
    has(props, "svn:special")
}

/// The target of the symbolic link that a text says, if it does.
pub(crate) fn link_target(alloc: Global, text: &Text) -> Result<Option<Text>, AllocError>
    ensures { IfOk result (λ found. IfSome found (λ target. text.now ≡ codes "link " ++ target)) }
{
    match text.as_slice().strip_prefix(LINK) {
        Some(target) => Ok(Some(Text::from_slice(alloc, target)?)),
        None => Ok(None),
    }
}

/// The stand-in of a file's text and its properties; none of what is no file.
pub(crate) fn file_of(node: &BaseNode) -> Option<(&Text, &Props)>
    ensures { option_map (λ file. file.0.now) result ≡ text_of_node node.now }
{
    match node {
        BaseNode::File { text, props, .. } => Some((text, props)),
        BaseNode::Dir { .. } | BaseNode::NotPresent => None,
    }
}

/// Whether a file may be written to disk in another way than its text is in the repository.
pub(crate) fn is_translated_on_disk(props: &Props) -> bool {
    TRANSLATIONS.iter().any(|name| has(props, name))
}

// The line ends that a text has in the repository; none where they stay as they are.
fn line_end_of(props: &Props) -> Option<&'static [u8]> {
    match value(props, LINE_ENDS)?.as_slice().trim_ascii() {
        b"native" | b"LF" => Some(b"\n"),
        b"CRLF" => Some(b"\r\n"),
        b"CR" => Some(b"\r"),
        _ => None,
    }
}

/// The text of the repository that bytes on disk stand for, by a file's properties.
pub(crate) fn text_of(alloc: Global, bytes: &[u8], props: &Props) -> Result<Vec<u8>, AllocError> {
    let plain = match value(props, KEYWORDS) {
        Some(words) => without_values(alloc, bytes, Keywords::Named(words.as_slice()))?,
        None => Vec::from_slice(alloc, bytes)?,
    };
    match line_end_of(props) {
        Some(end) => with_line_ends(alloc, &plain, end),
        None => Ok(plain),
    }
}

// Whether both have the same value of each property that says how a text is written to disk.
fn is_written_alike(props: &Props, others: &Props) -> bool {
    TRANSLATIONS
        .iter()
        .all(|name| value(props, name) == value(others, name))
}

/// Whether two nodes of one kind are the same on disk: two directories, or two files with the same text, used and written in the same way.
pub(crate) fn is_same_on_disk(node: &BaseNode, other: &BaseNode) -> bool
    ensures { result ≡ true → has_to_come (Some node.now) (Some other.now) ≡ false }
{
    let (Some((text, props)), Some((other_text, others))) = (file_of(node), file_of(other)) else {
        return node.is_directory() && other.is_directory();
    };
    text == other_text
        && mode_of(props) == mode_of(others)
        && is_special(props) == is_special(others)
        && is_written_alike(props, others)
}

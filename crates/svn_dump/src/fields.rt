//! Headers whose values have a type.
ghost use Rattle.std.specs.Prelude.{◌≡◌};
ghost use Rattle.svn_dump.specs.Reading.{Gives};
ghost use Rattle.svn_dump.specs.HeaderNames.{name_of};
ghost use Rattle.svn_dump.specs.Fields.{number_value, sum_value, true_value, without_slash, path_of_bytes, path_of, path_value, kind_value, named_action, action_value, source_value};

use crate::fault::{DumpFault, Reason};
use crate::header_name::HeaderName;
use crate::headers::Headers;
use crate::record::{Action, CopySource};
use hex::FromHex;
use std::alloc::Global;
use svn_digits::read_number;
use svn_types::{Digest, Kind, PathBytesFault, PathFault, RelPath, Rev, Sha1Sum};

/// The value of a header that is a number, if it is given.
pub(crate) fn number_in(headers: &Headers<'_>, name: HeaderName) -> Result<Option<u64>, DumpFault>
    ensures { Gives (λ n. n) result (number_value headers.now (name_of name)) }
{
    let Some(value) = headers.value(name)? else {
        return Ok(None);
    };
    match read_number(value) {
        Some(number) => Ok(Some(number)),
        None => Err(DumpFault::Refused(Reason::NotANumber)),
    }
}

/// The value of a header that is an MD5 checksum, if it is given.
pub(crate) fn md5_in(headers: &Headers<'_>, name: HeaderName) -> Result<Option<Digest>, DumpFault>
    ensures { Gives (λ sum. sum) result (sum_value 16 headers.now (name_of name)) }
{
    let Some(value) = headers.value(name)? else {
        return Ok(None);
    };
    match <[u8; 16]>::from_hex(value) {
        Ok(sum) => Ok(Some(Digest(sum))),
        Err(_) => Err(DumpFault::Refused(Reason::NotAChecksum)),
    }
}

/// The value of a header that is a SHA-1 checksum, if it is given.
pub(crate) fn sha1_in(headers: &Headers<'_>, name: HeaderName) -> Result<Option<Sha1Sum>, DumpFault>
    ensures { Gives (λ sum. sum) result (sum_value 20 headers.now (name_of name)) }
{
    let Some(value) = headers.value(name)? else {
        return Ok(None);
    };
    match <[u8; 20]>::from_hex(value) {
        Ok(sum) => Ok(Some(Sha1Sum(sum))),
        Err(_) => Err(DumpFault::Refused(Reason::NotAChecksum)),
    }
}

/// Whether a header is given as `true`.
pub(crate) fn is_true(headers: &Headers<'_>, name: HeaderName) -> Result<bool, DumpFault>
    ensures { Gives (λ b. b) result (true_value headers.now (name_of name)) }
{
    let value = headers.value(name)?;
    Ok(matches!(value, Some(b"true")))
}

// The text without a slash at its front.
fn without_slash(text: &[u8]) -> &[u8]
    ensures { result.now ≡ without_slash text.now }
{
    match text {
        [b'/', rest @ ..] => rest,
        _ => text,
    }
}

// The path that bytes spell.
#[tactic(auto, using(crate::proofs::FieldLemmas::path_of_text_bytes, crate::proofs::FieldLemmas::path_of_other_bytes))]
fn parse_bytes(alloc: Global, bytes: &[u8]) -> Result<RelPath, DumpFault>
    ensures { Gives (λ path. path) result (path_of_bytes bytes.now) }
{
    match RelPath::from_bytes(alloc, bytes) {
        Ok(path) => Ok(path),
        Err(PathBytesFault::NotUtf8) => Err(DumpFault::Refused(Reason::NotUtf8)),
        Err(PathBytesFault::Path(PathFault::Memory)) => Err(DumpFault::Memory),
        Err(PathBytesFault::Path(fault)) => Err(DumpFault::Refused(Reason::BadPath(fault))),
    }
}

/// The path that a value spells; a slash at its front is passed over.
pub(crate) fn read_path(alloc: Global, value: &[u8]) -> Result<RelPath, DumpFault>
    ensures { Gives (λ path. path) result (path_of value.now) }
{
    parse_bytes(alloc, without_slash(value))
}

/// A node's path; without one it is the root's.
pub(crate) fn path_in(alloc: Global, headers: &Headers<'_>) -> Result<RelPath, DumpFault>
    ensures { Gives (λ path. path) result (path_value headers.now) }
{
    match headers.value(HeaderName::NodePath)? {
        Some(value) => read_path(alloc, value),
        None => read_path(alloc, b""),
    }
}

/// A node's kind, if it is given.
pub(crate) fn kind_in(headers: &Headers<'_>) -> Result<Option<Kind>, DumpFault>
    ensures { Gives (λ kind. kind) result (kind_value headers.now) }
{
    match headers.value(HeaderName::NodeKind)? {
        None => Ok(None),
        Some(b"file") => Ok(Some(Kind::File)),
        Some(b"dir") => Ok(Some(Kind::Directory)),
        Some(_) => Err(DumpFault::Refused(Reason::NotAKind)),
    }
}

// The action that a word names.
fn action_of(word: &[u8]) -> Option<Action>
    ensures { result ≡ named_action word.now }
{
    if word == b"add".as_slice() {
        Some(Action::Add)
    } else if word == b"change".as_slice() {
        Some(Action::Change)
    } else if word == b"delete".as_slice() {
        Some(Action::Delete)
    } else if word == b"replace".as_slice() {
        Some(Action::Replace)
    } else {
        None
    }
}

/// What is done to a node.
pub(crate) fn action_in(headers: &Headers<'_>) -> Result<Action, DumpFault>
    ensures { Gives (λ action. action) result (action_value headers.now) }
{
    let Some(word) = headers.value(HeaderName::NodeAction)? else {
        return Err(DumpFault::Refused(Reason::NotAnAction));
    };
    match action_of(word) {
        Some(action) => Ok(action),
        None => Err(DumpFault::Refused(Reason::NotAnAction)),
    }
}

/// The source of a copy, if it is given.
pub(crate) fn source_in(
    alloc: Global,
    headers: &Headers<'_>,
) -> Result<Option<CopySource>, DumpFault>
    ensures { Gives (λ source. source) result (source_value headers.now) }
{
    let rev = number_in(headers, HeaderName::CopyRev)?;
    let path = headers.value(HeaderName::CopyPath)?;
    match (rev, path) {
        (None, None) => Ok(None),
        (Some(rev), Some(path)) => {
            let path = read_path(alloc, path)?;
            let rev = Rev(rev);
            Ok(Some(CopySource { rev, path }))
        }
        _ => Err(DumpFault::Refused(Reason::HalfSource)),
    }
}

//! Calls as constants.
use std::alloc::Global;
use std::test::Fail;
use svn_editor::{Call, Digest, Token};
use svn_types::{PropName, RelPath, Rev, Text};

/// The bytes of a checksum, if there is one.
pub(crate) type Md5 = Option<[u8; 16]>;

/// A call with texts in the place of its path, its name and its bytes. Its fields are in the order in which they are printed.
#[derive(Clone, Copy)]
pub(crate) enum Row {
    SetTargetRevision(u64),
    OpenRoot(u64, u64),
    DeleteEntry(&'static str, u64, u64),
    AddDirectory(&'static str, u64, u64),
    OpenDirectory(&'static str, u64, u64, u64),
    ChangeDirProp(u64, &'static str, Option<&'static str>),
    CloseDirectory(u64),
    AddFile(&'static str, u64, u64),
    OpenFile(&'static str, u64, u64, u64),
    ApplyText(u64, Md5, &'static str),
    ChangeFileProp(u64, &'static str, Option<&'static str>),
    CloseFile(u64, Md5),
    CloseEdit,
    AbortEdit,
}

/// The path of a text.
pub(crate) fn path(alloc: Global, text: &str) -> Result<RelPath, Fail> {
    Ok(RelPath::parse(alloc, text)?)
}

fn bytes(alloc: Global, text: &str) -> Result<Text, Fail> {
    Ok(Text::new(Vec::from_slice(alloc, text.as_bytes())?))
}

fn value(alloc: Global, text: Option<&str>) -> Result<Option<Text>, Fail> {
    match text {
        Some(text) => Ok(Some(bytes(alloc, text)?)),
        None => Ok(None),
    }
}

fn digest(md5: Md5) -> Option<Digest> {
    match md5 {
        Some(bytes) => Some(Digest(bytes)),
        None => None,
    }
}

// A call without a path, a name and bytes.
fn short_call(row: Row) -> Call {
    match row {
        Row::SetTargetRevision(rev) => Call::SetTargetRevision { rev: Rev(rev) },
        Row::OpenRoot(base, token) => Call::OpenRoot {
            base: Rev(base),
            token: Token(token),
        },
        Row::CloseDirectory(token) => Call::CloseDirectory {
            token: Token(token),
        },
        Row::CloseFile(token, md5) => Call::CloseFile {
            token: Token(token),
            text_md5: digest(md5),
        },
        Row::CloseEdit => Call::CloseEdit,
        _ => Call::AbortEdit,
    }
}

fn dir_prop(alloc: Global, token: u64, name: &str, text: Option<&str>) -> Result<Call, Fail> {
    let value = value(alloc, text)?;
    Ok(Call::ChangeDirProp {
        token: Token(token),
        name: PropName::parse(alloc, name)?,
        value,
    })
}

fn file_prop(alloc: Global, token: u64, name: &str, text: Option<&str>) -> Result<Call, Fail> {
    let value = value(alloc, text)?;
    Ok(Call::ChangeFileProp {
        token: Token(token),
        name: PropName::parse(alloc, name)?,
        value,
    })
}

fn apply_text(alloc: Global, token: u64, md5: Md5, text: &str) -> Result<Call, Fail> {
    Ok(Call::ApplyText {
        token: Token(token),
        base_md5: digest(md5),
        text: bytes(alloc, text)?,
    })
}

// Any call that isn't about an entry.
fn change_call(alloc: Global, row: Row) -> Result<Call, Fail> {
    match row {
        Row::ChangeDirProp(token, name, text) => dir_prop(alloc, token, name, text),
        Row::ChangeFileProp(token, name, text) => file_prop(alloc, token, name, text),
        Row::ApplyText(token, md5, text) => apply_text(alloc, token, md5, text),
        _ => Ok(short_call(row)),
    }
}

// The path of the entry that a call is about.
fn entry_of(row: Row) -> Option<&'static str> {
    match row {
        Row::DeleteEntry(at, ..)
        | Row::AddDirectory(at, ..)
        | Row::OpenDirectory(at, ..)
        | Row::AddFile(at, ..)
        | Row::OpenFile(at, ..) => Some(at),
        _ => None,
    }
}

// A call about the entry at a path.
fn entry_call(path: RelPath, row: Row) -> Call {
    match row {
        Row::DeleteEntry(_, rev, parent) => Call::DeleteEntry {
            path,
            rev: Rev(rev),
            parent: Token(parent),
        },
        Row::AddDirectory(_, parent, token) => Call::AddDirectory {
            path,
            parent: Token(parent),
            token: Token(token),
        },
        Row::OpenDirectory(_, parent, base, token) => Call::OpenDirectory {
            path,
            parent: Token(parent),
            base: Rev(base),
            token: Token(token),
        },
        Row::AddFile(_, parent, token) => Call::AddFile {
            path,
            parent: Token(parent),
            token: Token(token),
        },
        Row::OpenFile(_, parent, base, token) => Call::OpenFile {
            path,
            parent: Token(parent),
            base: Rev(base),
            token: Token(token),
        },
        _ => short_call(row),
    }
}

/// The call of a row.
pub(crate) fn call(alloc: Global, row: Row) -> Result<Call, Fail> {
    match entry_of(row) {
        Some(at) => Ok(entry_call(path(alloc, at)?, row)),
        None => change_call(alloc, row),
    }
}

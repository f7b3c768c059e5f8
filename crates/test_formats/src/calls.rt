//! The commands that calls are: those of a recorded `svnserve` 1.14.2, with numbers for its tokens.
use crate::stand_ins::MemoryFile;
use std::alloc::{AllocError, Global};
use std::str;
use std::test::Fail;
use svn_editor::{Call, Editor, Token};
use svn_types::{Digest, PropName, RelPath, Rev, Text};
use svn_wire_calls::{
    Entered, HeldTexts, OpenedTexts, SendFault, Stretch, Teller, TextMap, TextSums, WireEditor,
    push_call,
};

/// A call of a row, at the path of the row.
#[derive(Clone, Copy)]
enum Made {
    Target,
    Root,
    Delete,
    AddDirectory,
    OpenDirectory,
    Change,
    Remove,
    AddFile,
    OpenFile,
    Empty,
    Close,
    Unsummed,
    End,
}

// A call, its path, and its command.
static ROWS: [(Made, &str, &str); 13] = [
    (Made::Target, "", "( target-rev ( 10 ) ) "),
    (Made::Root, "", "( open-root ( ( 10 ) 1:0 ) ) "),
    (Made::Delete, "A/B", "( delete-entry ( 3:A/B ( 6 ) 1:1 ) ) "),
    (
        Made::AddDirectory,
        "A/B",
        "( add-dir ( 3:A/B 1:1 1:2 ( ) ) ) ",
    ),
    (
        Made::OpenDirectory,
        "A",
        "( open-dir ( 1:A 1:0 1:1 ( 3 ) ) ) ",
    ),
    (
        Made::Change,
        "",
        "( change-dir-prop ( 1:1 10:svn:ignore ( 3:*.o ) ) ) ",
    ),
    (Made::Remove, "", "( change-file-prop ( 2:12 1:p ( ) ) ) "),
    (
        Made::AddFile,
        "A/B/new",
        "( add-file ( 7:A/B/new 1:2 2:12 ( ) ) ) ",
    ),
    (
        Made::OpenFile,
        "A/mu",
        "( open-file ( 4:A/mu 1:1 2:12 ( 3 ) ) ) ",
    ),
    (
        Made::Empty,
        "",
        "( apply-textdelta ( 2:12 ( 32:d41d8cd98f00b204e9800998ecf8427e ) ) ) ( textdelta-chunk ( 2:12 4:SVN\0 ) ) ( textdelta-end ( 2:12 ) ) ",
    ),
    (
        Made::Close,
        "",
        "( close-file ( 2:12 ( 32:d41d8cd98f00b204e9800998ecf8427e ) ) ) ",
    ),
    (Made::Unsummed, "", "( close-file ( 2:12 ( ) ) ) "),
    (Made::End, "", "( close-edit ( ) ) "),
];

// The MD5 of no bytes.
const EMPTY: Digest = Digest([
    0xd4, 0x1d, 0x8c, 0xd9, 0x8f, 0x00, 0xb2, 0x04, 0xe9, 0x80, 0x09, 0x98, 0xec, 0xf8, 0x42, 0x7e,
]);

const FILE: Token = Token(12);

// A call that adds or opens something at a path.
fn placed(made: Made, path: RelPath) -> Option<Call> {
    match made {
        Made::Delete => Some(Call::DeleteEntry {
            path,
            rev: Rev(6),
            parent: Token(1),
        }),
        Made::AddDirectory => Some(Call::AddDirectory {
            path,
            parent: Token(1),
            token: Token(2),
        }),
        Made::OpenDirectory => Some(Call::OpenDirectory {
            path,
            parent: Token(0),
            base: Rev(3),
            token: Token(1),
        }),
        Made::AddFile => Some(Call::AddFile {
            path,
            parent: Token(2),
            token: FILE,
        }),
        Made::OpenFile => Some(Call::OpenFile {
            path,
            parent: Token(1),
            base: Rev(3),
            token: FILE,
        }),
        _ => None,
    }
}

fn changed(alloc: Global) -> Result<Call, Fail> {
    Ok(Call::ChangeDirProp {
        token: Token(1),
        name: PropName::parse(alloc, "svn:ignore")?,
        value: Some(Text::from_str(alloc, "*.o")?),
    })
}

fn removed(alloc: Global) -> Result<Call, Fail> {
    Ok(Call::ChangeFileProp {
        token: FILE,
        name: PropName::parse(alloc, "p")?,
        value: None,
    })
}

// A call without a path.
fn other(alloc: Global, made: Made) -> Result<Call, Fail> {
    match made {
        Made::Target => Ok(Call::SetTargetRevision { rev: Rev(10) }),
        Made::Root => Ok(Call::OpenRoot {
            base: Rev(10),
            token: Token(0),
        }),
        Made::Change => changed(alloc),
        Made::Remove => removed(alloc),
        Made::Empty => Ok(Call::ApplyText {
            token: FILE,
            base_md5: Some(EMPTY),
            text: Text::new(Vec::new(alloc)),
        }),
        Made::Close => Ok(Call::CloseFile {
            token: FILE,
            text_md5: Some(EMPTY),
        }),
        Made::Unsummed => Ok(Call::CloseFile {
            token: FILE,
            text_md5: None,
        }),
        _ => Ok(Call::CloseEdit),
    }
}

fn call_of(alloc: Global, made: Made, path: &str) -> Result<Call, Fail> {
    match placed(made, RelPath::parse(alloc, path)?) {
        Some(call) => Ok(call),
        None => other(alloc, made),
    }
}

#[test]
fn calls_are_commands(rt: HostRuntime) -> Result<(), Fail> {
    for (made, path, command) in &ROWS {
        let mut out = Vec::new(rt.alloc());
        push_call(&mut out, &call_of(rt.alloc(), *made, path)?)?;
        assert_eq!(rt; str::from_utf8(&out)?, *command);
    }
    Ok(())
}

/// Says that each node was changed in revision 6, by nobody.
#[derive(Clone, Copy)]
struct Sixth;

impl Teller for Sixth {
    ghost tells = { λ _ _ _. Unit {0} };

    fn tell(&self, _alloc: Global, _path: &RelPath) -> Result<Option<Entered>, AllocError> {
        Ok(Some(Entered {
            rev: Rev(6),
            date: None,
            author: None,
        }))
    }

    fn held_at(&self, _alloc: Global, _path: &RelPath) -> Result<HeldTexts, AllocError> {
        Ok(HeldTexts {
            old: None,
            new: None,
        })
    }
}

// Each text stands for itself.
impl TextMap for Sixth {
    ghost stands_for = { λ _ _ _. Unit {0} };

    ghost sums = { λ _ _ _. Unit {0} };

    fn is_whole(&self) -> bool {
        true
    }

    fn place(&self, _alloc: Global, _held: &Text) -> Result<Option<Stretch>, SendFault> {
        Ok(None)
    }

    fn is_text(&self, _alloc: Global, _held: &Text, _found: &TextSums) -> Result<bool, SendFault> {
        Ok(false)
    }

    fn known_sum(&self, _alloc: Global, held: &Text) -> Result<Option<Digest>, SendFault> {
        Ok(Some(held.checksum()))
    }
}

// Calls, and what is written of them with what is said of nodes.
static DRIVE: [Made; 5] = [
    Made::Target,
    Made::AddDirectory,
    Made::AddFile,
    Made::Unsummed,
    Made::End,
];

static WRITTEN: &str = "( target-rev ( 10 ) ) ( add-dir ( 1:a 1:1 1:2 ( ) ) ) \
    ( change-dir-prop ( 1:2 23:svn:entry:committed-rev ( 1:6 ) ) ) ( add-file ( 1:a 1:2 2:12 ( ) ) ) \
    ( change-file-prop ( 2:12 23:svn:entry:committed-rev ( 1:6 ) ) ) ( close-file ( 2:12 ( ) ) ) ( close-edit ( ) ) ";

fn written(alloc: Global) -> Result<Vec<u8>, Fail> {
    let mut out = Vec::new(alloc);
    let mut texts = MemoryFile::new("");
    let mut opened = OpenedTexts::new(alloc);
    let mut editor = WireEditor::new(alloc, &mut out, &mut texts, &mut opened, Sixth);
    for made in &DRIVE {
        editor.call(call_of(alloc, *made, "a")?)?;
    }
    Ok(out)
}

#[test]
fn nodes_are_told_of(rt: HostRuntime) -> Result<(), Fail> {
    let out = written(rt.alloc())?;
    assert_eq!(rt; str::from_utf8(&out)?, WRITTEN);
    Ok(())
}

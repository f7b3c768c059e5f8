//! Calls whose texts stand for others, which are in a file.
use std::alloc::{AllocError, Global};
use std::io;
use std::io::{ErrorKind, Read, Seek, SeekFrom};
use std::test::Fail;
use svn_editor::{Call, EditFault, Editor, Token};
use svn_types::{Digest, RelPath, Text};
use svn_wire_calls::{
    Entered, HeldTexts, OpenedTexts, SendFault, Stretch, Teller, TextMap, TextSums, WireEditor,
};

/// A file that is in memory.
#[derive(Drop)]
pub(crate) struct MemoryFile {
    bytes: &'static str,
    at: usize,
}

impl MemoryFile {
    pub(crate) fn new(bytes: &'static str) -> MemoryFile {
        MemoryFile { bytes, at: 0 }
    }
}

impl Read for MemoryFile {
    fn read(&mut self, buf: &mut [u8]) -> io::Result<usize> {
        let mut rest = self.bytes.as_bytes().get(self.at..).unwrap_or(&[]);
        let count = rest.read(buf)?;
        self.at = self.at.saturating_add(count);
        Ok(count)
    }
}

impl Seek for MemoryFile {
    fn seek(&mut self, to: SeekFrom) -> io::Result<u64> {
        match to {
            SeekFrom::Start(at) => {
                self.at = at as usize;
                Ok(at)
            }
            _ => Err(io::Error::from(ErrorKind::Unsupported)),
        }
    }
}

/// Each text stands for the four bytes of a file after its first two, if they are `abc` and a line feed.
#[derive(Clone, Copy)]
struct Fourth;

// What the file should have.
const TEXT: &str = "abc\n";

impl Teller for Fourth {
    ghost tells = { λ _ _ _. Unit {0} };

    fn tell(&self, _alloc: Global, _path: &RelPath) -> Result<Option<Entered>, AllocError> {
        Ok(None)
    }

    fn held_at(&self, alloc: Global, _path: &RelPath) -> Result<HeldTexts, AllocError> {
        Ok(HeldTexts {
            old: None,
            new: Some(held(alloc)?),
        })
    }
}

impl TextMap for Fourth {
    ghost stands_for = { λ _ _ _. Unit {0} };

    ghost sums = { λ _ _ _. Unit {0} };

    fn is_whole(&self) -> bool {
        false
    }

    fn place(&self, _alloc: Global, _held: &Text) -> Result<Option<Stretch>, SendFault> {
        Ok(Some(Stretch { begin: 2, len: 4 }))
    }

    fn is_text(&self, _alloc: Global, _held: &Text, found: &TextSums) -> Result<bool, SendFault> {
        Ok(found.md5 == Digest::of(TEXT.as_bytes()))
    }

    fn known_sum(&self, _alloc: Global, _held: &Text) -> Result<Option<Digest>, SendFault> {
        Ok(Some(Digest::of(TEXT.as_bytes())))
    }
}

fn held(alloc: Global) -> Result<Text, AllocError> {
    Text::from_str(alloc, "held")
}

const FILE: Token = Token(1);

fn call_at(alloc: Global, at: usize, summed: &str) -> Result<Call, Fail> {
    Ok(match at {
        0 => Call::AddFile {
            path: RelPath::parse(alloc, "f")?,
            parent: Token(0),
            token: FILE,
        },
        1 => Call::ApplyText {
            token: FILE,
            base_md5: None,
            text: held(alloc)?,
        },
        _ => Call::CloseFile {
            token: FILE,
            text_md5: Some(Digest::of(summed.as_bytes())),
        },
    })
}

// What is written of three calls, the last with the checksum of a text, and the last refusal.
fn written(
    alloc: Global,
    file: &'static str,
    summed: &str,
) -> Result<(Vec<u8>, Option<EditFault>), Fail> {
    let mut out = Vec::new(alloc);
    let mut texts = MemoryFile::new(file);
    let mut refusal = None;
    let mut opened = OpenedTexts::new(alloc);
    let mut editor = WireEditor::new(alloc, &mut out, &mut texts, &mut opened, Fourth);
    for at in 0..3usize {
        if let Err(fault) = editor.call(call_at(alloc, at, summed)?) {
            refusal = Some(fault);
        }
    }
    drop(editor);
    Ok((out, refusal))
}

/// The commands of the three calls, before the delta's window and after it, with the checksum of the file's text (as `md5sum` has it).
const FRONT: &str =
    "( add-file ( 1:f 1:0 1:1 ( ) ) ) ( apply-textdelta ( 1:1 ( ) ) ) ( textdelta-chunk ( 1:1 14:SVN\0";

const END: &str =
    "abc\n ) ) ( textdelta-end ( 1:1 ) ) ( close-file ( 1:1 ( 32:0bee89b07a248e27c83fc3d5951213c1 ) ) ) ";

#[test]
fn texts_are_read_off_the_file(rt: HostRuntime) -> Result<(), Fail> {
    let (out, refusal) = written(rt.alloc(), "--abc\n--", "held")?;
    assert!(rt; out.starts_with(FRONT.as_bytes()));
    assert!(rt; out.ends_with(END.as_bytes()));
    assert!(rt; refusal.is_none());
    Ok(())
}

#[test]
fn another_text_stops_the_edit(rt: HostRuntime) -> Result<(), Fail> {
    let (_, refusal) = written(rt.alloc(), "--abd\n--", "held")?;
    assert!(rt; refusal == Some(EditFault::Stopped));
    let (_, refusal) = written(rt.alloc(), "--abc", "held")?;
    assert!(rt; refusal == Some(EditFault::Stopped));
    Ok(())
}

#[test]
fn an_unknown_checksum_stops_the_edit(rt: HostRuntime) -> Result<(), Fail> {
    let (out, refusal) = written(rt.alloc(), "--abc\n--", "other")?;
    assert!(rt; out.ends_with("( textdelta-end ( 1:1 ) ) ".as_bytes()));
    assert!(rt; refusal == Some(EditFault::Stopped));
    Ok(())
}

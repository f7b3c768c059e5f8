//! What is served, and what is written to a client.

use anyhow::{Result, bail};
use std::alloc::Global;
use std::io;
use std::io::{ErrorKind, Read, Seek, SeekFrom, Write};
use std::mem::replace;
use svn_drive::DriveOptions;
use svn_dump::{Action, Limits, NodeRecord, PropSection, Reader, Record, Texts};
use svn_history::Loader;
use svn_replies::{Changes, PathChange, PathChanges, Revisions};
pub(crate) use svn_replies::{Holds, Served};
use svn_repo::Repo;
use svn_served::{ServeFault, serve};
use svn_types::{PropName, Props, Text};

/// The revisions' dates and messages; all but the first are of one author.
const REVISIONS: &[(&str, &str)] = &[
    ("2026-01-01T00:00:00.000000Z", ""),
    ("2026-01-02T01:00:00.000000Z", "layout"),
    ("2026-01-03T02:00:00.000000Z", "files"),
    ("2026-01-04T03:00:00.000000Z", "change"),
    ("2026-01-05T04:00:00.000000Z", "branch"),
    ("2026-01-06T05:00:00.000000Z", "change b"),
    ("2026-01-07T06:00:00.000000Z", "gone"),
    ("2026-01-08T07:00:00.000000Z", "move"),
];

fn insert(alloc: Global, props: &mut Props, name: &str, value: &str) -> Result<()> {
    match PropName::parse(alloc, name) {
        Ok(name) => Ok(props.insert(name, Text::from_str(alloc, value)?)?),
        Err(fault) => bail!("{fault}"),
    }
}

fn revisions(alloc: Global) -> Result<Revisions> {
    let mut all = Vec::new(alloc);
    for (date, message) in REVISIONS {
        let mut props = Props::new(alloc);
        insert(alloc, &mut props, "svn:date", date)?;
        if !message.is_empty() {
            insert(alloc, &mut props, "svn:author", "ann")?;
            insert(alloc, &mut props, "svn:log", message)?;
        }
        all.push(props)?;
    }
    Ok(Revisions::new(all))
}

// Whether a record gives properties; all records of new nodes have a section of them.
fn gives_props(node: &NodeRecord) -> bool {
    match &node.props {
        Some(PropSection::Whole(props)) => node.action == Action::Change || !props.is_empty(),
        Some(PropSection::Delta(_)) => true,
        None => false,
    }
}

fn change_of(node: NodeRecord) -> PathChange {
    let props = gives_props(&node);
    let NodeRecord {
        path,
        kind,
        action,
        source,
        text,
        ..
    } = node;
    PathChange {
        path,
        action,
        kind,
        source,
        text: text.is_some(),
        props,
    }
}

fn in_order(changes: Vec<PathChange>) -> Result<PathChanges> {
    let mut changes = changes;
    changes.sort_by(|one, other| one.path.cmp(&other.path))?;
    Ok(PathChanges::new(changes))
}

// Adds what a record says to what the revisions before changed, and to what this one did.
fn note(
    alloc: Global,
    record: Record,
    revs: &mut Vec<PathChanges>,
    last: &mut Vec<PathChange>,
) -> Result<()> {
    match record {
        Record::Revision { rev } => {
            if rev.0 > 0 {
                revs.push(in_order(replace(last, Vec::new(alloc)))?)?;
            }
        }
        Record::Node(node) => last.push(change_of(node))?,
        Record::Other => {}
    }
    Ok(())
}

// What the revisions of a dump changed, as its records say.
fn changes(alloc: Global, dump: &[u8]) -> Result<Changes> {
    let mut reader = Reader::new(alloc, dump, Limits::default(), Texts::Whole)?;
    let mut revs = Vec::new(alloc);
    let mut last = Vec::new(alloc);
    for _ in 0..u64::MAX {
        match reader.next_record()? {
            Some(record) => note(alloc, record, &mut revs, &mut last)?,
            None => break,
        }
    }
    revs.push(in_order(last)?)?;
    Ok(Changes::new(revs))
}

/// The history of a dump, whose repository is `repo` at its host, with its texts in memory or as stand-ins.
pub(crate) fn load(alloc: Global, dump: &[u8], holds: Holds) -> Result<Served> {
    let texts = match holds {
        Holds::Texts => Texts::Whole,
        Holds::StandIns => Texts::Sha1,
    };
    let reader = Reader::new(alloc, dump, Limits::default(), texts)?.with_index();
    let mut loader = Loader::new(alloc, reader, Repo::new(alloc)?);
    loader.load_all()?;
    let uuid = match loader.uuid() {
        Some(uuid) => Text::from_slice(alloc, uuid)?,
        None => bail!("no UUID"),
    };
    let (repo, Some(index)) = loader.into_parts() else {
        bail!("no index")
    };
    Ok(Served {
        repo,
        index,
        holds,
        revisions: revisions(alloc)?,
        changes: changes(alloc, dump)?,
        uuid,
        root: Text::from_str(alloc, "/repo")?,
        options: DriveOptions::default(),
    })
}

/// What is written to a client, and why the connection ended before its input did.
#[derive(Drop)]
pub(crate) struct Written {
    pub(crate) bytes: Vec<u8>,
    pub(crate) fault: Option<ServeFault>,
}

// A client's bytes, seven at a time.
#[derive(Drop)]
struct Pieces<'a> {
    bytes: &'a [u8],
}

impl Read for Pieces<'_> {
    fn read(&mut self, buf: &mut [u8]) -> io::Result<usize> {
        let count = buf.len().min(7);
        self.bytes.read(&mut buf[..count])
    }
}

/// A dump that is in memory, as the file of its texts.
#[derive(Drop)]
struct DumpFile<'a> {
    bytes: &'a [u8],
    at: usize,
}

impl Read for DumpFile<'_> {
    fn read(&mut self, buf: &mut [u8]) -> io::Result<usize> {
        let mut rest = self.bytes.get(self.at..).unwrap_or(&[]);
        let count = rest.read(buf)?;
        self.at = self.at.saturating_add(count);
        Ok(count)
    }
}

impl Seek for DumpFile<'_> {
    fn seek(&mut self, to: SeekFrom) -> io::Result<u64> {
        match to {
            SeekFrom::Start(at) => {
                self.at = at as usize;
                Ok(at)
            }
            _ => Err(io::Error::from(ErrorKind::Unsupported)),
        }
    }
}

/// What is written to a client that sends these bytes, of a dump that is served.
pub(crate) fn answers_to(
    alloc: Global,
    served: &Served,
    dump: &[u8],
    client: &[u8],
) -> Result<Written> {
    let mut bytes = Vec::new(alloc);
    let mut texts = DumpFile { bytes: dump, at: 0 };
    let mut reader = Pieces { bytes: client };
    let fault = serve(alloc, served, &mut texts, &mut reader, &mut bytes).err();
    Ok(Written { bytes, fault })
}

/// A client that takes so many bytes, and no more.
#[derive(Drop)]
struct Room {
    bytes: Vec<u8>,
    room: usize,
}

impl Write for Room {
    fn write(&mut self, buf: &[u8]) -> io::Result<usize> {
        let count = buf.len().min(self.room.saturating_sub(self.bytes.len()));
        if count == 0 && !buf.is_empty() {
            return Err(io::Error::from(ErrorKind::BrokenPipe));
        }
        match self.bytes.extend_from_slice(&buf[..count]) {
            Ok(()) => Ok(count),
            Err(_) => Err(io::Error::from(ErrorKind::OutOfMemory)),
        }
    }

    fn flush(&mut self) -> io::Result<()> {
        Ok(())
    }
}

/// What is written to a client that sends these bytes, and takes so many.
pub(crate) fn answers_within(
    alloc: Global,
    served: &Served,
    dump: &[u8],
    client: &[u8],
    room: usize,
) -> Result<Written> {
    let bytes = Vec::new(alloc);
    let mut writer = Room { bytes, room };
    let mut texts = DumpFile { bytes: dump, at: 0 };
    let mut reader = Pieces { bytes: client };
    let fault = serve(alloc, served, &mut texts, &mut reader, &mut writer).err();
    let Room { bytes, .. } = writer;
    Ok(Written { bytes, fault })
}

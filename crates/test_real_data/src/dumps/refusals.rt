//! Dumps that are refused: each where and why.

use super::history::{load_all, tree};
use anyhow::Result;
use std::alloc::Global;
use svn_dump::{DumpFault, Limits, Reader, Reason, Texts};
use svn_history::{LoadFault, Loader};
use svn_repo::{CommitFault, Repo};
use svn_types::{PathFault, Rev};
use svndiff::SvndiffFault;

const LIMITS: Limits = Limits {
    headers: 400,
    props: 64,
    text: 64,
};

// The front of each dump: a revision, and the beginning of the next one.
const FRONT: &str =
    "SVN-fs-dump-format-version: 2\n\nRevision-number: 1\n\nNode-path: d\nNode-kind: dir\nNode-action: add\n\n\nNode-path: f\nNode-kind: file\nNode-action: add\n\n\nRevision-number: 2\n\n";

// Where the record begins that is refused.
const AT: u64 = 166;

// What revision 1 has.
const FIRST: &str = ". dir 1 .\nd dir 1 d\nf file 1 f \"\"\n";

const FIRST_BY_SHA1: &str =
    ". dir 1 .\nd dir 1 d\nf file 1 f $sha1$da39a3ee5e6b4b0d3255bfef95601890afd80709\n";

const FIRST_BY_MD5: &str =
    ". dir 1 .\nd dir 1 d\nf file 1 f $md5$d41d8cd98f00b204e9800998ecf8427e\n";

type Record = (&'static str, Reason);

type RecordBy = (&'static str, Texts, Reason);

static BAD_RECORDS: [Record; 32] = [
    (
        "Node-path: a\nNode-kind: file\nNode-action: add\nNode-kind: dir\n\n\n",
        Reason::Twice,
    ),
    ("Node-path: a\nNode-kind\n\n", Reason::NotAHeader),
    ("Revision-number: 3 \n\n", Reason::NotANumber),
    (
        "Node-path: a\nNode-kind: file\nNode-action: add\nText-content-length: 1x\n\n",
        Reason::NotANumber,
    ),
    (
        "Node-path: a\nNode-kind: file\nNode-action: add\nText-content-length: 18446744073709551616\n\n",
        Reason::NotANumber,
    ),
    (
        "Node-path: a\nNode-kind: file\nNode-action: add\nText-content-md5: f97c5d29941bfb1b2fdab0874906ab8\nText-content-length: 3\nContent-length: 3\n\none\n\n",
        Reason::NotAChecksum,
    ),
    (
        "Node-path: a\nNode-kind: file\nNode-action: add\nText-content-sha1: f97c5d29941bfb1b2fdab0874906ab82\nText-content-length: 3\nContent-length: 3\n\none\n\n",
        Reason::NotAChecksum,
    ),
    ("Node-kind: file\n\n", Reason::UnknownRecord),
    (
        "Node-path: a/../b\nNode-action: delete\n\n\n",
        Reason::BadPath(PathFault::Dots),
    ),
    (
        "Node-path: a//b\nNode-action: delete\n\n\n",
        Reason::BadPath(PathFault::EmptyComponent),
    ),
    (
        "Node-path: a\x09b\nNode-action: delete\n\n\n",
        Reason::BadPath(PathFault::BadCharacter),
    ),
    (
        "Node-path: xxxxxxxxxxxxxxxxxxxxxxxxxxxxxxxxxxxxxxxxxxxxxxxxxxxxxxxxxxxxxxxxxxxxxxxxxxxxxxxxxxxxxxxxxxxxxxxxxxxxxxxxxxxxxxxxxxxxxxxxxxxxxxxxxxxxxxxxxxxxxxxxxxxxxxxxxxxxxxxxxxxxxxxxxxxxxxxxxxxxxxxxxxxxxxxxxxxxxxxxxxxxxxxxxxxxxxxxxxxxxxxxxxxxxxxxxxxxxxxxxxxxxxxxxxxxxxxx\nNode-action: delete\n\n\n",
        Reason::BadPath(PathFault::NameTooLong),
    ),
    (
        "Node-path: x/x/x/x/x/x/x/x/x/x/x/x/x/x/x/x/x/x/x/x/x/x/x/x/x/x/x/x/x/x/x/x/x/x/x/x/x/x/x/x/x/x/x/x/x/x/x/x/x/x/x/x/x/x/x/x/x/x/x/x/x/x/x/x/x/x/x/x/x/x/x/x/x/x/x/x/x/x/x/x/x/x/x/x/x/x/x/x/x/x/x/x/x/x/x/x/x/x/x/x/x/x/x/x/x/x/x/x/x/x/x/x/x/x/x/x/x/x/x/x/x/x/x/x/x/x/x/x/x\nNode-action: delete\n\n\n",
        Reason::BadPath(PathFault::TooManyComponents),
    ),
    (
        "Node-path: a\nNode-kind: link\nNode-action: add\n\n\n",
        Reason::NotAKind,
    ),
    (
        "Node-path: a\nNode-kind: file\nNode-action: move\n\n\n",
        Reason::NotAnAction,
    ),
    ("Node-path: a\nNode-kind: file\n\n\n", Reason::NotAnAction),
    (
        "Node-path: a\nNode-kind: file\nNode-action: add\nNode-copyfrom-rev: 1\n\n\n",
        Reason::HalfSource,
    ),
    (
        "Node-path: a\nNode-kind: file\nNode-action: add\nNode-copyfrom-path: f\n\n\n",
        Reason::HalfSource,
    ),
    (
        "Node-path: a\nNode-kind: file\nNode-action: add\nText-content-length: 3\nContent-length: 4\n\none\n\n",
        Reason::Lengths,
    ),
    (
        "Node-path: a\nNode-kind: file\nNode-action: add\nProp-content-length: 18446744073709551615\nText-content-length: 1\nContent-length: 0\n\n\n",
        Reason::Lengths,
    ),
    (
        "Node-path: a\nNode-kind: file\nNode-action: add\nProp-content-length: 65\nContent-length: 65\n\nxxxxxxxxxxxxxxxxxxxxxxxxxxxxxxxxxxxxxxxxxxxxxxxxxxxxxxxxxxxxxxxxx\n\n",
        Reason::PropsTooLong(65, 64),
    ),
    (
        "Node-path: a\nNode-kind: file\nNode-action: add\nProp-content-length: 11\nContent-length: 11\n\nPROPS-END\n\n\n\n",
        Reason::NotProperties,
    ),
    (
        "Node-path: a\nNode-kind: file\nNode-action: add\nProp-content-length: 22\nContent-length: 22\n\nK 1\np\nV 2\nv\nPROPS-END\n\n\n",
        Reason::NotProperties,
    ),
    (
        "Node-path: a\nNode-kind: file\nNode-action: add\nProp-content-length: 16\nContent-length: 16\n\nK 1\np\nPROPS-END\n\n\n",
        Reason::NotProperties,
    ),
    (
        "Node-path: a\nNode-kind: file\nNode-action: add\nProp-content-length: 21\nContent-length: 21\n\nK 1\n \nV 0\n\nPROPS-END\n\n\n",
        Reason::BadPropName(PathFault::BadCharacter),
    ),
    (
        "Node-path: a\nNode-kind: file\nNode-action: add\nText-content-length: 65\nContent-length: 65\n\nxxxxxxxxxxxxxxxxxxxxxxxxxxxxxxxxxxxxxxxxxxxxxxxxxxxxxxxxxxxxxxxxx\n\n",
        Reason::TextTooLong(65, 64),
    ),
    (
        "Node-path: a\nNode-kind: file\nNode-action: add\nText-content-length: 9223372036854775808\nContent-length: 9223372036854775808\n\n\n\n",
        Reason::TextTooLong(9223372036854775808, 64),
    ),
    (
        "Node-path: a\nNode-kind: file\nNode-action: add\nText-content-md5: f97c5d29941bfb1b2fdab0874906ab82\nText-content-length: 3\nContent-length: 3\n\ntwo\n\n",
        Reason::WrongMd5,
    ),
    (
        "Node-path: a\nNode-kind: file\nNode-action: add\nText-content-md5: b8a9f715dbb64fd5c56e7783c6820a61\nText-content-sha1: fe05bcdcdc4928012781a5f1a2a77cbb5398e106\nText-content-length: 3\nContent-length: 3\n\ntwo\n\n",
        Reason::WrongSha1,
    ),
    (
        "Node-path: a\nNode-kind: file\nNode-action: add\nText-content-length: 9\nContent-length: 9\n\none\n\n",
        Reason::CutOff,
    ),
    (
        "Node-path: a\nNode-kind: file\nNode-action: add\n",
        Reason::CutOff,
    ),
    (
        "Node-path: a\nOther: xxxxxxxxxxxxxxxxxxxxxxxxxxxxxxxxxxxxxxxxxxxxxxxxxxxxxxxxxxxxxxxxxxxxxxxxxxxxxxxxxxxxxxxxxxxxxxxxxxxxxxxxxxxxxxxxxxxxxxxxxxxxxxxxxxxxxxxxxxxxxxxxxxxxxxxxxxxxxxxxxxxxxxxxxxxxxxxxxxxxxxxxxxxxxxxxxxxxxxxxxxxxxxxxxxxxxxxxxxxxxxxxxxxxxxxxxxxxxxxxxxxxxxxxxxxxxxxxxxxxxxxxxxxxxxxxxxxxxxxxxxxxxxxxxxxxxxxxxxxxxxxxxxxxxxxxxxxxxxxxxxxxxxxxxxxxxxxxxxxxxxxxxxxxxxxxxxxxxxxxxxxxxxxxxxxxxxxxxxxxxxxxxxxxxxxxxxxxxxxx\n\n",
        Reason::HeadersTooLong,
    ),
];

// The same where texts are kept as their checksums, each with the other checksum.
static BAD_BY_SUM: [RecordBy; 2] = [
    (
        "Node-path: a\nNode-kind: file\nNode-action: add\nText-delta: true\nText-content-length: 9\nText-content-md5: 900150983cd24fb0d6963f7d28e17f72\nContent-length: 9\n\nSVN\x00\x00\x00\x01\x00\x01\n\n",
        Texts::Sha1,
        Reason::NoSha1,
    ),
    (
        "Node-path: a\nNode-kind: file\nNode-action: add\nText-delta: true\nText-content-length: 9\nText-content-sha1: a9993e364706816aba3e25717850c26c9cd0d89d\nContent-length: 9\n\nSVN\x00\x00\x00\x01\x00\x01\n\n",
        Texts::Md5,
        Reason::NoMd5,
    ),
];

type BadChange = (&'static str, LoadFault, u64);

// Records that can be read, with the newest revision then: one that begins a revision ends the one before.
static BAD_CHANGES: [BadChange; 13] = [
    ("Revision-number: 1\n\n", LoadFault::NotRising, 2),
    ("Revision-number: 2\n\n", LoadFault::NotRising, 2),
    (
        "Revision-number: 100000001\n\n",
        LoadFault::TooManyRevisions,
        2,
    ),
    ("Node-path: a\nNode-action: add\n\n\n", LoadFault::NoKind, 1),
    (
        "Node-path: a\nNode-kind: file\nNode-action: change\n\n\n",
        LoadFault::Commit(CommitFault::Missing),
        1,
    ),
    (
        "Node-path: a\nNode-action: delete\n\n\n",
        LoadFault::Commit(CommitFault::Missing),
        1,
    ),
    (
        "Node-path: f\nNode-kind: file\nNode-action: add\n\n\n",
        LoadFault::Commit(CommitFault::Exists),
        1,
    ),
    (
        "Node-path: f/a\nNode-kind: file\nNode-action: add\n\n\n",
        LoadFault::Commit(CommitFault::NotDir),
        1,
    ),
    (
        "Node-path: d\nNode-kind: dir\nNode-action: change\nText-content-length: 3\nContent-length: 3\n\none\n\n",
        LoadFault::Commit(CommitFault::NotFile),
        1,
    ),
    (
        "Node-path: \nNode-action: delete\n\n\n",
        LoadFault::Commit(CommitFault::IsRoot),
        1,
    ),
    (
        "Node-path: a\nNode-kind: file\nNode-action: add\nNode-copyfrom-rev: 2\nNode-copyfrom-path: f\n\n\n",
        LoadFault::Commit(CommitFault::NoSuchRevision),
        1,
    ),
    (
        "Node-path: a\nNode-kind: file\nNode-action: add\nNode-copyfrom-rev: 1\nNode-copyfrom-path: a\n\n\n",
        LoadFault::Commit(CommitFault::Missing),
        1,
    ),
    (
        "Node-path: a\nNode-kind: file\nNode-action: add\nText-delta: true\nText-content-length: 4\nContent-length: 4\n\nSVN\x01\n\n",
        LoadFault::Delta(SvndiffFault::Header),
        1,
    ),
];

// What isn't a dump.
static BAD_FRONTS: [Record; 5] = [
    ("", Reason::NotADump),
    ("SVN\n\n", Reason::NotADump),
    ("UUID: 1\n\n", Reason::NotADump),
    ("SVN-fs-dump-format-version: 4\n\n", Reason::Version(4)),
    ("SVN-fs-dump-format-version: 2\n", Reason::CutOff),
];

// (A function is proved with all of a table that it names, so these do no more. Of a byte string that is each byte, so these are texts.)
fn bad_records() -> &'static [Record] {
    &BAD_RECORDS
}

fn bad_by_sum() -> &'static [RecordBy] {
    &BAD_BY_SUM
}

fn bad_changes() -> &'static [BadChange] {
    &BAD_CHANGES
}

fn bad_fronts() -> &'static [Record] {
    &BAD_FRONTS
}

// Whether what was loaded before is there.
fn has_first(alloc: Global, repo: &Repo, texts: Texts, latest: u64) -> Result<bool> {
    let wanted = match texts {
        Texts::Whole => FIRST,
        Texts::Sha1 => FIRST_BY_SHA1,
        Texts::Md5 => FIRST_BY_MD5,
    };
    Ok(repo.latest() == Rev(latest) && tree(alloc, repo, 1)?.as_str() == wanted)
}

// A loader of the front with a record after it.
fn loader_of(alloc: Global, dump: &[u8], texts: Texts) -> Result<Loader<&[u8]>> {
    let reader = Reader::new(alloc, dump, LIMITS, texts)?;
    Ok(Loader::new(alloc, reader, Repo::new(alloc)?))
}

// The front with a record after it.
fn dump_with(alloc: Global, record: &[u8]) -> Result<Vec<u8>> {
    let mut dump = FRONT.as_bytes().to_vec(alloc)?;
    dump.extend_from_slice(record)?;
    Ok(dump)
}

// Whether a record is refused for this reason, where it begins, and the revisions before are there.
fn is_refused(
    alloc: Global,
    record: &[u8],
    texts: Texts,
    fault: LoadFault,
    latest: u64,
) -> Result<bool> {
    let dump = dump_with(alloc, record)?;
    let mut loader = loader_of(alloc, &dump, texts)?;
    let refused = load_all(&mut loader);
    let at = loader.records().begun();
    let repo = loader.into_repo();
    Ok(refused == Err(fault) && at == AT && has_first(alloc, &repo, texts, latest)?)
}

// Notes a row that isn't refused as it should be.
fn note(out: &mut String, table: &str, row: usize, is_refused: bool) -> Result<()> {
    if !is_refused {
        writeln!(out, "row {row} of {table} is refused otherwise, or taken")?;
    }
    Ok(())
}

// Whether a record is refused while it is read, in revision 2.
fn is_unread(alloc: Global, record: &[u8], texts: Texts, reason: Reason) -> Result<bool> {
    let fault = LoadFault::Dump(DumpFault::Refused(reason));
    is_refused(alloc, record, texts, fault, 1)
}

fn note_record(out: &mut String, row: usize, record: &Record) -> Result<()> {
    let (text, reason) = *record;
    let is_refused = is_unread(*out.allocator(), text.as_bytes(), Texts::Whole, reason)?;
    note(out, "the records", row, is_refused)
}

fn note_records(out: &mut String) -> Result<()> {
    for (row, record) in bad_records().iter().enumerate() {
        note_record(out, row, record)?;
    }
    Ok(())
}

// A path that is no text.
fn note_bytes(out: &mut String) -> Result<()> {
    let record = b"Node-path: a\xff\nNode-action: delete\n\n\n";
    let is_refused = is_unread(*out.allocator(), record, Texts::Whole, Reason::NotUtf8)?;
    note(out, "the records of bytes", 0, is_refused)
}

fn note_record_by_sum(out: &mut String, row: usize, record: &RecordBy) -> Result<()> {
    let (text, texts, reason) = *record;
    let is_refused = is_unread(*out.allocator(), text.as_bytes(), texts, reason)?;
    note(out, "the records by checksums", row, is_refused)
}

fn note_records_by_sum(out: &mut String) -> Result<()> {
    for (row, record) in bad_by_sum().iter().enumerate() {
        note_record_by_sum(out, row, record)?;
    }
    Ok(())
}

fn note_change(out: &mut String, row: usize, changes: &BadChange) -> Result<()> {
    let (text, fault, latest) = *changes;
    let alloc = *out.allocator();
    let is_refused = is_refused(alloc, text.as_bytes(), Texts::Whole, fault, latest)?;
    note(out, "the changes", row, is_refused)
}

fn note_changes(out: &mut String) -> Result<()> {
    for (row, changes) in bad_changes().iter().enumerate() {
        note_change(out, row, changes)?;
    }
    Ok(())
}

fn is_front_refused(alloc: Global, front: &Record) -> bool {
    let (text, reason) = *front;
    let refused = Reader::new(alloc, text.as_bytes(), LIMITS, Texts::Whole).err();
    refused == Some(DumpFault::Refused(reason))
}

fn note_fronts(out: &mut String) -> Result<()> {
    for (row, front) in bad_fronts().iter().enumerate() {
        let is_refused = is_front_refused(*out.allocator(), front);
        note(out, "the fronts", row, is_refused)?;
    }
    Ok(())
}

// A node before revision 1.
const EARLY: &str =
    "SVN-fs-dump-format-version: 2\n\nRevision-number: 0\n\nNode-path: a\nNode-kind: file\nNode-action: add\n\n\n";

fn note_early_node(out: &mut String) -> Result<()> {
    let mut loader = loader_of(*out.allocator(), EARLY.as_bytes(), Texts::Whole)?;
    let refused = load_all(&mut loader);
    let is_refused = refused == Err(LoadFault::NoRevision) && loader.records().begun() == 51;
    note(out, "the early nodes", 0, is_refused)
}

fn note_all(out: &mut String) -> Result<()> {
    note_fronts(out)?;
    note_early_node(out)?;
    note_records(out)?;
    note_bytes(out)?;
    note_records_by_sum(out)?;
    note_changes(out)
}

/// A line for each row that isn't refused as it should be.
pub fn other_refusals(alloc: Global) -> Result<String> {
    let mut out = String::new(alloc);
    note_all(&mut out)?;
    Ok(out)
}

//! Dumps, read record by record.
ghost use Rattle.std.specs.Prelude.{◌≡◌, ◌≤◌, ◌≢◌, ◌↔◌, [], false, codes, IfOk, OnOk, IsSome, IsTrue};
ghost use Rattle.std.specs.Option.{option_copied};
ghost use Rattle.svn_dump.specs.Blocks.{block_at};
ghost use Rattle.svn_dump.specs.Headers.{header_value, if_once};
ghost use Rattle.svn_dump.specs.HeaderNames.{name_of};
ghost use Rattle.svn_dump.specs.Reading.{Gives, Reads, FailsWith};
ghost use Rattle.svn_dump.specs.Records.{is_given, other_subject, subject_of, node_of, format_value, node_at, passed_at, headed_at, record_at};
ghost use Rattle.svn_dump.specs.Counts.{Counts, Grows};
ghost use Rattle.svn_dump.specs.Indexes.{NotedBy, IsNoted};
ghost use Rattle.svn_dump.specs.declared.record.Record.TheVariants.{Revision};
ghost use Rattle.svn_dump.specs.Readers.{left_in, Opens, headers_len, Shows, UnlessBroken};

use crate::fault::{DumpFault, Reason};
use crate::fields::{action_in, kind_in, number_in, path_in, source_in};
use crate::header_name::HeaderName;
use crate::headers::Headers;
use crate::index::DumpIndex;
use crate::input::{Input, Source, read_block};
use crate::notes::Notes;
use crate::record::{NodeRecord, Record};
use crate::revision::pass_revision;
use crate::sections::{
    Keeping, Limits, Texts, read_prop_section, read_text_section, skip_sections,
};
use crate::shape::{lengths_in, shape_in};
use std::alloc::{AllocError, Global};
use std::io::Read;
use svn_types::Rev;

/// A dump, read record by record (`svn_repos_parse_dumpstream3` of `svn_repos.h`).
#[derive(Drop)]
pub struct Reader<R> {
    source: Source<R>,
    alloc: Global,
    limits: Limits,
    texts: Texts,
    // The headers of the record that was read last, and how many bytes are before them.
    block: Vec<u8>,
    begun: u64,
    // What the records said beside the history, if that was asked for.
    index: Option<DumpIndex>,
}

// What a record is about.
enum Subject {
    Other,
    Revision(Rev),
    Node,
}

// The format of a dump, from the headers of its first record.
fn read_format(headers: &Headers<'_>) -> Result<u64, DumpFault>
    ensures { Gives (λ n. n) result (format_value headers.now) }
{
    let Some(format) = number_in(headers, HeaderName::Format)? else {
        return Err(DumpFault::Refused(Reason::NotADump));
    };
    if 2 <= format && format <= 3 {
        Ok(format)
    } else {
        Err(DumpFault::Refused(Reason::Version(format)))
    }
}

fn is_given(headers: &Headers<'_>, name: HeaderName) -> Result<bool, DumpFault>
    ensures { Gives (λ b. b) result (is_given headers.now (name_of name)) }
{
    Ok(headers.value(name)?.is_some())
}

#[tactic(auto, unfolding(crate::specs::Records::subject_of))]
fn subject_of(headers: &Headers<'_>) -> Result<Subject, DumpFault>
    ensures { Gives (λ subject. subject) result (subject_of headers.now) }
{
    if !headers.are_headers() {
        return Err(DumpFault::Refused(Reason::NotAHeader));
    }
    match number_in(headers, HeaderName::Revision)? {
        Some(number) => Ok(Subject::Revision(Rev(number))),
        None => other_subject(headers),
    }
}

// What a record is about that isn't a revision.
fn other_subject(headers: &Headers<'_>) -> Result<Subject, DumpFault>
    ensures { Gives (λ subject. subject) result (other_subject headers.now) }
{
    let is_node = is_given(headers, HeaderName::NodePath)?;
    let has_uuid = is_given(headers, HeaderName::Uuid)?;
    let has_format = is_given(headers, HeaderName::Format)?;
    if is_node {
        Ok(Subject::Node)
    } else if has_uuid || has_format {
        Ok(Subject::Other)
    } else {
        Err(DumpFault::Refused(Reason::UnknownRecord))
    }
}

// A node's record without its sections.
#[tactic(auto, unfolding(crate::specs::Records::node_of))]
fn node_in(alloc: Global, headers: &Headers<'_>) -> Result<NodeRecord, DumpFault>
    ensures { Gives (λ node. node) result (node_of headers.now) }
{
    let path = path_in(alloc, headers)?;
    let kind = kind_in(headers)?;
    let action = action_in(headers)?;
    let source = source_in(alloc, headers)?;
    Ok(NodeRecord {
        path,
        kind,
        action,
        source,
        props: None,
        text: None,
    })
}

// Reads the node that the headers begin.
#[tactic(auto, unfolding(crate::specs::Records::node_at))]
fn read_node<S: Input>(
    keeping: Keeping,
    source: &mut S,
    headers: &Headers<'_>,
    notes: &mut Notes,
) -> Result<Record, DumpFault>
    ensures bytes { Reads (λ r. r) (S.remaining source.old) (S.remaining source.new) result (node_at keeping.limits keeping.texts headers.now) }
    ensures counted { Counts (S.taken source.old) (S.remaining source.old) (S.taken source.new) (S.remaining source.new) }
    ensures grows { S.taken source.old ≤ S.taken source.new }
    ensures failed { FailsWith (S.failed source.old) (S.failed source.new) result }
{
    let mut node = node_in(keeping.alloc, headers)?;
    let shape = shape_in(headers)?;
    node.props = read_prop_section(keeping.alloc, source, &shape, keeping.limits.props)?;
    node.text = read_text_section(keeping, source, &shape, notes)?;
    Ok(Record::Node(node))
}

// Passes over what belongs to the headers.
fn pass<S: Input>(source: &mut S, headers: &Headers<'_>, what: Record) -> Result<Record, DumpFault>
    ensures bytes { Reads (λ r. r) (S.remaining source.old) (S.remaining source.new) result (passed_at what headers.now) }
    ensures counted { Counts (S.taken source.old) (S.remaining source.old) (S.taken source.new) (S.remaining source.new) }
    ensures grows { S.taken source.old ≤ S.taken source.new }
    ensures failed { FailsWith (S.failed source.old) (S.failed source.new) result }
{
    let lengths = lengths_in(headers)?;
    match skip_sections(source, lengths) {
        Ok(()) => Ok(what),
        Err(fault) => Err(fault),
    }
}

// Passes over what belongs to a revision's headers, and notes what its properties say.
fn read_revision<S: Input>(
    keeping: Keeping,
    source: &mut S,
    headers: &Headers<'_>,
    rev: Rev,
    notes: &mut Notes,
) -> Result<Record, DumpFault>
    ensures bytes { Reads (λ r. r) (S.remaining source.old) (S.remaining source.new) result (passed_at (Revision rev) headers.now) }
    ensures counted { Counts (S.taken source.old) (S.remaining source.old) (S.taken source.new) (S.remaining source.new) }
    ensures grows { S.taken source.old ≤ S.taken source.new }
    ensures failed { FailsWith (S.failed source.old) (S.failed source.new) result }
{
    let lengths = lengths_in(headers)?;
    match pass_revision(keeping, source, lengths, notes) {
        Ok(()) => Ok(Record::Revision { rev }),
        Err(fault) => Err(fault),
    }
}

// Reads the record that the headers begin.
fn read_headed<S: Input>(
    keeping: Keeping,
    source: &mut S,
    headers: &Headers<'_>,
    notes: &mut Notes,
) -> Result<Record, DumpFault>
    ensures bytes { Reads (λ r. r) (S.remaining source.old) (S.remaining source.new) result (headed_at keeping.limits keeping.texts headers.now) }
    ensures counted { Counts (S.taken source.old) (S.remaining source.old) (S.taken source.new) (S.remaining source.new) }
    ensures grows { S.taken source.old ≤ S.taken source.new }
    ensures failed { FailsWith (S.failed source.old) (S.failed source.new) result }
{
    match subject_of(headers)? {
        Subject::Node => read_node(keeping, source, headers, notes),
        Subject::Revision(rev) => read_revision(keeping, source, headers, rev, notes),
        Subject::Other => pass(source, headers, Record::Other),
    }
}

// How many bytes a record's headers have, with the empty line that ends them; none at the end of all.
fn headers_len(block: &[u8]) -> u64
    ensures { result ≡ headers_len block.now }
{
    if block.is_empty() {
        0
    } else {
        block.len() as u64 + 1
    }
}

impl<R: Read + Drop> Reader<R> {
    /// A dump that is read from here on. It reads the first record, which gives the format. At most `limits` is held at a time.
    #[tactic(auto, unfolding(crate::specs::Records::format_at))]
    pub fn new(
        alloc: Global,
        input: R,
        limits: Limits,
        texts: Texts,
    ) -> Result<Reader<R>, DumpFault>
        ensures bytes { Opens limits (R.remaining input) (left_in R.remaining) result }
        ensures limits { IfOk result (λ r. r.limits ≡ limits) }
        ensures texts { IfOk result (λ r. r.texts ≡ texts) }
        ensures counted { IfOk result (λ r. Counts 0 (R.remaining input) r.source.taken (left_in R.remaining r)) }
        ensures shown { IfOk result (λ r. Shows limits 0 (R.remaining input) r.begun r.block.items) }
        ensures unfailed { IfOk result (λ r. r.source.failed ≡ false) }
    {
        let mut source = Source::new(alloc, input)?;
        let block = read_block(alloc, &mut source, limits.headers)?;
        let begun = source.taken().saturating_sub(headers_len(&block));
        let _format = read_format(&Headers::of(&block))?;
        Ok(Reader {
            source,
            alloc,
            limits,
            texts,
            block,
            begun,
            index: None,
        })
    }

    /// The same reader, which keeps an index of what it reads from here on ([`DumpIndex`]). What it returns stays the same.
    pub fn with_index(self) -> Reader<R>
        ensures source { result.source ≡ self.source }
        ensures block { result.block ≡ self.block }
        ensures begun { result.begun ≡ self.begun }
        ensures limits { result.limits ≡ self.limits }
        ensures texts { result.texts ≡ self.texts }
    {
        let Reader {
            source,
            alloc,
            limits,
            texts,
            block,
            begun,
            index,
        } = self;
        drop(index);
        Reader {
            source,
            alloc,
            limits,
            texts,
            block,
            begun,
            index: Some(DumpIndex::new(alloc)),
        }
    }

    /// The index of what was read, if one is kept.
    pub fn index(&self) -> Option<&DumpIndex>
        ensures { option_copied result ≡ self.now.index }
    {
        self.index.as_ref()
    }

    /// The index of what was read, if one is kept. The dump is read no further.
    pub fn into_index(self) -> Option<DumpIndex>
        ensures { result ≡ self.index }
    {
        let Reader { index, .. } = self;
        index
    }

    /// How texts are kept.
    pub fn texts(&self) -> Texts
        ensures { result ≡ self.now.texts }
    {
        self.texts
    }

    /// Where the record begins that was read last, or refused: so many bytes of the dump are before its headers. Where these are at fault, they and
    /// the blank lines before them begin there; after the end it is the dump's length.
    pub fn begun(&self) -> u64
        ensures { result ≡ self.now.begun }
    {
        self.begun
    }

    /// The path of the node whose record was read last, or refused, if its headers could be read and give one: its bytes as they are in the dump.
    pub fn path(&self) -> Option<&[u8]>
        ensures { option_copied result ≡ if_once (header_value self.now.block.items (codes "Node-path")) }
    {
        match Headers::of(&self.block).value(HeaderName::NodePath) {
            Ok(path) => path,
            Err(_) => None,
        }
    }

    /// The UUID that the headers of the record give that was read last, or refused, if they could be read and give one: its bytes as they are in the
    /// dump.
    pub fn uuid(&self) -> Option<&[u8]>
        ensures { option_copied result ≡ if_once (header_value self.now.block.items (codes "UUID")) }
    {
        match Headers::of(&self.block).value(HeaderName::Uuid) {
            Ok(uuid) => uuid,
            Err(_) => None,
        }
    }

    // Reads the headers of the next record; whether there is one.
    fn read_headers(&mut self) -> Result<bool, DumpFault>
        ensures headers { Reads (λ _. self.new.block.items) (left_in R.remaining self.old) (left_in R.remaining self.new) result (block_at false self.old.limits.headers) }
        ensures found { IfOk result (λ found. IsTrue found ↔ (self.new.block.items ≢ [])) }
        ensures counted { Counts self.old.source.taken (left_in R.remaining self.old) self.new.source.taken (left_in R.remaining self.new) }
        ensures grown { IfOk result (λ found. IsTrue found → Grows self.old.source.taken 1 self.new.source.taken) }
        ensures failed { FailsWith self.old.source.failed self.new.source.failed result }
        ensures shown { UnlessBroken result (Shows self.old.limits self.old.source.taken (left_in R.remaining self.old) self.new.begun self.new.block.items) }
        ensures limits { self.new.limits ≡ self.old.limits }
        ensures texts { self.new.texts ≡ self.old.texts }
        ensures index { self.new.index ≡ self.old.index }
    {
        self.block.clear();
        self.begun = self.source.taken();
        self.block = read_block(self.alloc, &mut self.source, self.limits.headers)?;
        self.begun = self.source.taken().saturating_sub(headers_len(&self.block));
        Ok(!self.block.is_empty())
    }

    // Reads the record that the headers begin.
    fn read_record(&mut self, notes: &mut Notes) -> Result<Record, DumpFault>
        ensures bytes { Reads (λ r. r) (left_in R.remaining self.old) (left_in R.remaining self.new) result (headed_at self.old.limits self.old.texts self.old.block.items) }
        ensures counted { Counts self.old.source.taken (left_in R.remaining self.old) self.new.source.taken (left_in R.remaining self.new) }
        ensures grows { self.old.source.taken ≤ self.new.source.taken }
        ensures failed { FailsWith self.old.source.failed self.new.source.failed result }
        ensures block { self.new.block ≡ self.old.block }
        ensures begun { self.new.begun ≡ self.old.begun }
        ensures limits { self.new.limits ≡ self.old.limits }
        ensures texts { self.new.texts ≡ self.old.texts }
        ensures index { self.new.index ≡ self.old.index }
    {
        let Reader {
            source,
            alloc,
            limits,
            texts,
            block,
            ..
        } = self;
        let keeping = Keeping {
            alloc: *alloc,
            limits: *limits,
            texts: *texts,
        };
        let headers = Headers::of(block);
        read_headed(keeping, source, &headers, notes)
    }

    // Puts what was noted of a record into the index, if one is kept.
    fn note(&mut self, what: &Record, notes: Notes) -> Result<(), AllocError>
        ensures noted { OnOk result (NotedBy what.now self.old.source.taken self.old.index self.new.index) }
        ensures source { self.new.source ≡ self.old.source }
        ensures block { self.new.block ≡ self.old.block }
        ensures begun { self.new.begun ≡ self.old.begun }
        ensures limits { self.new.limits ≡ self.old.limits }
        ensures texts { self.new.texts ≡ self.old.texts }
    {
        match &mut self.index {
            Some(index) => index.note(what, notes, self.source.taken()),
            None => Ok(()),
        }
    }

    /// The next record; None at the end. It is the one that `record_at` gives for the bytes that are left, and just its bytes are taken; a refusal is
    /// the first fault from left to right. After an error the reader is somewhere within the record, and what it reads next is unspecified.
    #[tactic(auto, using(crate::proofs::RecordLemmas::no_record, crate::proofs::RecordLemmas::no_headers, crate::proofs::RecordLemmas::one_record, crate::proofs::RecordLemmas::bad_record, crate::proofs::Pieces::no_memory))]
    pub fn next_record(&mut self) -> Result<Option<Record>, DumpFault>
        ensures bytes { Reads (λ r. r) (left_in R.remaining self.old) (left_in R.remaining self.new) result (record_at self.old.limits self.old.texts) }
        ensures counted { Counts self.old.source.taken (left_in R.remaining self.old) self.new.source.taken (left_in R.remaining self.new) }
        ensures grown { IfOk result (λ r. IsSome r → Grows self.old.source.taken 1 self.new.source.taken) }
        ensures failed { FailsWith self.old.source.failed self.new.source.failed result }
        ensures shown { UnlessBroken result (Shows self.old.limits self.old.source.taken (left_in R.remaining self.old) self.new.begun self.new.block.items) }
        ensures limits { self.new.limits ≡ self.old.limits }
        ensures texts { self.new.texts ≡ self.old.texts }
        ensures noted { IfOk result (λ found. IsNoted found self.new.source.taken self.old.index self.new.index) }
    {
        if !self.read_headers()? {
            return Ok(None);
        }
        let mut notes = Notes::new(self.index.is_some());
        let record = self.read_record(&mut notes)?;
        if self.note(&record, notes).is_err() {
            return Err(DumpFault::Memory);
        }
        Ok(Some(record))
    }
}

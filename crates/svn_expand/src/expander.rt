//! A dump, expanded record by record.
ghost use Rattle.std.specs.Prelude.{◌≡◌, IfOk, option_map, option_and_then};
ghost use Rattle.std.specs.Option.{option_copied};
ghost use Rattle.svn_dump.specs.Indexes.{date_of, author_of};
ghost use Rattle.svn_dump.specs.Readers.{left_in};
ghost use Rattle.svn_dump.specs.declared.sections.Texts.TheVariants as kept;
ghost use Rattle.svn_dump.specs.Written.{format_record};
ghost use Rattle.svn_expand.specs.Records.{ExpandsNext, IsExpanded, IsWhole, IsWholeText, IsWritten, noted_in, revision_bytes, text_or, uuid_in};

use crate::delta::make_text;
use crate::fault::{ExpandFault, StoreFault};
use crate::origins::Origins;
use crate::spans::Spans;
use crate::written::{revision_bytes, uuid_bytes};
use std::alloc::{AllocError, Global};
use std::io::Read;
use svn_dump::{
    Action, Limits, NodeRecord, Reader, Record, TextDelta, TextSection, Texts, push_format,
    push_node,
};
use svn_types::{Rev, Text};

/// The most bytes of a text that is expanded, and of a delta: 1 GiB.
pub const MAX_TEXT: usize = 1 << 30;

/// An empty line after the empty line that ends a record's text.
const END: u64 = 2;

/// The expansion of a dump, as far as it was written.
pub trait Store {
    /// So many bytes of it, before which so many are. What is returned is compared with the checksum of the text that is there.
    fn read_at(&mut self, alloc: Global, begin: u64, len: usize) -> Result<Vec<u8>, StoreFault>;
}

/// A dump that is expanded record by record.
#[derive(Drop)]
pub struct Expander<R> {
    alloc: Global,
    records: Reader<R>,
    // The revision that began last.
    rev: Rev,
    // How many bytes the expansion has so far.
    written: u64,
    texts: Spans,
    origins: Origins,
    ghost whole: { records.texts ≡ kept.Whole },
}

// Whether a node is put there of which nothing was there before.
fn is_new(node: &NodeRecord) -> bool {
    match node.action {
        Action::Add | Action::Replace => node.source.is_none(),
        Action::Change | Action::Delete => false,
    }
}

// The text that a delta is applied to.
fn base_of<S: Store>(
    alloc: Global,
    texts: &Spans,
    store: &mut S,
    node: &NodeRecord,
    delta: &TextDelta,
) -> Result<Vec<u8>, ExpandFault> {
    let Some(sum) = delta.base_md5 else {
        if is_new(node) {
            return Ok(Vec::new(alloc));
        }
        return Err(ExpandFault::NoBaseSum);
    };
    match texts.get(sum) {
        Some(span) if span.len == 0 => Ok(Vec::new(alloc)),
        Some(span) => Ok(store.read_at(alloc, span.begin, span.len)?),
        None => Err(ExpandFault::NoBase),
    }
}

// The text that a node's delta makes, if it has one.
#[tactic(auto, using(crate::specs::Records::no_text, crate::specs::Records::whole, crate::specs::Records::made))]
fn made_text<S: Store>(
    alloc: Global,
    texts: &Spans,
    store: &mut S,
    node: &NodeRecord,
) -> Result<Option<Text>, ExpandFault>
    ensures { IfOk result (λ found. IsWholeText node.now.text (text_or node.now.text found)) }
{
    match &node.text {
        Some(TextSection::Delta(delta)) => {
            let base = base_of(alloc, texts, store, node, delta)?;
            Ok(Some(make_text(alloc, &base, delta, MAX_TEXT)?))
        }
        Some(TextSection::Whole(_)) => Ok(None),
        None => Ok(None),
    }
}

// The record, with a text in the place of its own if there is one.
fn with_text(node: NodeRecord, text: Option<Text>) -> NodeRecord
    ensures { result ≡ record node { text = text_or node.text text } }
{
    match text {
        Some(text) => NodeRecord {
            text: Some(TextSection::Whole(text)),
            ..node
        },
        None => node,
    }
}

// The record with its text whole.
fn whole_node<S: Store>(
    alloc: Global,
    texts: &Spans,
    store: &mut S,
    node: NodeRecord,
) -> Result<NodeRecord, ExpandFault>
    ensures { IfOk result (λ whole. IsWhole node whole) }
{
    let text = made_text(alloc, texts, store, &node)?;
    Ok(with_text(node, text))
}

// Its number.
fn number_of(rev: Rev) -> u64
    ensures { result ≡ rev }
{
    rev.0
}

// The date of a revision that a reader has begun.
fn date_in<R: Read + Drop>(records: &Reader<R>, rev: Rev) -> Option<&[u8]>
    ensures { option_copied result ≡ option_and_then (λ i. date_of i rev) records.now.index }
{
    match records.index() {
        Some(index) => index.date(rev),
        None => None,
    }
}

// The author of a revision that a reader has begun.
fn author_in<R: Read + Drop>(records: &Reader<R>, rev: Rev) -> Option<&[u8]>
    ensures { option_copied result ≡ option_and_then (λ i. author_of i rev) records.now.index }
{
    match records.index() {
        Some(index) => index.author(rev),
        None => None,
    }
}

// What is written of a revision that a reader has begun.
fn revision_of<R: Read + Drop>(
    alloc: Global,
    records: &Reader<R>,
    rev: Rev,
) -> Result<Vec<u8>, AllocError>
    ensures { IfOk result (λ bytes. bytes.items ≡ revision_bytes rev (noted_in records.now.index rev)) }
{
    let date = date_in(records, rev);
    let author = author_in(records, rev);
    let bytes = revision_bytes(alloc, number_of(rev), date, author)?;
    Ok(bytes)
}

impl<R: Read + Drop> Expander<R> {
    /// A dump that is expanded from here on. It reads the first record, which gives the format.
    pub fn new(alloc: Global, input: R) -> Result<Expander<R>, ExpandFault> {
        let limits = Limits {
            text: MAX_TEXT,
            ..Limits::default()
        };
        let records = Reader::new(alloc, input, limits, Texts::Whole)?.with_index();
        Ok(Expander {
            alloc,
            records,
            rev: Rev(0),
            written: 0,
            texts: Spans::new(alloc)?,
            origins: Origins::new(alloc),
        })
    }

    /// The revision that began last; r0 before the first.
    pub fn rev(&self) -> Rev {
        self.rev
    }

    /// The dump, as far as it was read.
    pub fn records(&self) -> &Reader<R> {
        &self.records
    }

    /// Where the records of the expansion come from.
    pub fn into_origins(self) -> Origins {
        let Expander { origins, .. } = self;
        origins
    }

    /// What the expansion begins with. It is written first, once.
    pub fn begin(&mut self) -> Result<Vec<u8>, ExpandFault>
        ensures bytes { IfOk result (λ bytes. bytes.items ≡ format_record 3) }
        ensures records { self.new.records ≡ self.old.records }
    {
        let mut bytes = Vec::new(self.alloc);
        push_format(&mut bytes, 3)?;
        self.written = bytes.len() as u64;
        Ok(bytes)
    }

    // What is written of a node.
    fn expand_node<S: Store>(
        &mut self,
        store: &mut S,
        node: NodeRecord,
    ) -> Result<Vec<u8>, ExpandFault>
        ensures bytes { IfOk result (λ bytes. IsWritten node bytes.items) }
        ensures records { self.new.records ≡ self.old.records }
    {
        let node = whole_node(self.alloc, &self.texts, store, node)?;
        let mut bytes = Vec::new(self.alloc);
        push_node(&mut bytes, &node)?;
        if let Some(TextSection::Whole(text)) = &node.text {
            let end = self.written.saturating_add(bytes.len() as u64);
            self.texts.note(text, end.saturating_sub(END))?;
        }
        Ok(bytes)
    }

    // What is written of a revision.
    fn expand_revision(&mut self, rev: Rev) -> Result<Vec<u8>, ExpandFault>
        ensures bytes { IfOk result (λ bytes. bytes.items ≡ revision_bytes rev (noted_in self.old.records.index rev)) }
        ensures records { self.new.records ≡ self.old.records }
    {
        self.rev = rev;
        Ok(revision_of(self.alloc, &self.records, rev)?)
    }

    // What is written of a record.
    #[tactic(auto, using(crate::specs::Records::other, crate::specs::Records::revision, crate::specs::Records::node))]
    fn expand<S: Store>(&mut self, store: &mut S, what: Record) -> Result<Vec<u8>, ExpandFault>
        ensures bytes { IfOk result (λ bytes. IsExpanded (uuid_in self.old.records) self.old.records.index what bytes.items) }
        ensures records { self.new.records ≡ self.old.records }
    {
        match what {
            Record::Other => Ok(uuid_bytes(self.alloc, self.records.uuid())?),
            Record::Revision { rev } => Ok(self.expand_revision(rev)?),
            Record::Node(node) => Ok(self.expand_node(store, node)?),
        }
    }

    // Notes where a record begins, and that so many bytes are written of it.
    fn note(&mut self, len: usize) -> Result<(), ExpandFault>
        ensures records { self.new.records ≡ self.old.records }
    {
        self.origins.push(self.written, self.records.begun())?;
        self.written = self.written.saturating_add(len as u64);
        Ok(())
    }

    /// What is written of the next record, at the end of the expansion; None at the end of the dump. `store` is the expansion with all that was
    /// returned so far.
    pub fn next_record<S: Store>(&mut self, store: &mut S) -> Result<Option<Vec<u8>>, ExpandFault>
        ensures next { IfOk result (λ found. ExpandsNext self.old.records.limits (left_in R.remaining self.old.records) (left_in R.remaining self.new.records) (uuid_in self.new.records) self.new.records.index (option_map (λ bytes. bytes.items) found)) }
        ensures limits { self.new.records.limits ≡ self.old.records.limits }
    {
        let Some(what) = self.records.next_record()? else {
            return Ok(None);
        };
        let bytes = self.expand(store, what)?;
        self.note(bytes.len())?;
        Ok(Some(bytes))
    }
}

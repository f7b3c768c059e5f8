//! Rows of NODES, made of base nodes.
ghost use Rattle.std.specs.Prelude.{◌≡◌, ◌<◌, ◌^◌, length, pos, Ok, IfOk, OnOk, IfSome, OnSome, option_map};
ghost use Rattle.sqlite_value.specs.Value.{owned};
ghost use Rattle.sqlite_value.specs.declared.value.Value.TheVariants as stored;
ghost use Rattle.law_dump.specs.Laws.{IsPath};
ghost use Rattle.svn_wcdb.specs.Nodes.{row_of};
ghost use Rattle.svn_wcrows.specs.Laws.{IsRowNode};
ghost use Rattle.svn_wcrows.specs.Skels.{props_bytes};
ghost use Rattle.svn_wcrows.specs.Rows.{text_value, blob_value, props_column, parent_column, presence_of, word_of, depth_of, AreColumnsOf, row_with, node_row};

use crate::fault::RowsFault;
use crate::lawful::{path_is_lawful, props_are_lawful};
use crate::paths::path_column;
use crate::properties::push_props;
use sqlite_value::value::ValueRef;
use std::alloc::{AllocError, Global};
use svn_image::record;
use svn_model::BaseNode;
use svn_types::{Props, RelPath, Rev, Text};

/// The numbers of a working copy's root and of its repository, which each of its rows has.
#[derive(Clone, Copy, Debug, PartialEq, Eq)]
pub struct Owner {
    /// The root's row of WCROOT.
    pub wc_id: u64,
    /// The repository's row of REPOSITORY.
    pub repos_id: u64,
}

/// When a node was changed last in the repository, and by whom.
#[derive(Clone, Copy, Debug)]
pub struct LastChange<'a> {
    /// The revision that made it as it is.
    pub rev: Rev,
    /// That revision's date in microseconds since 1970, if it has one.
    pub date: Option<i64>,
    /// That revision's author, if it has one.
    pub author: Option<&'a [u8]>,
}

/// What a row of NODES records of a node beside what came from the repository.
#[derive(Clone, Copy, Debug)]
pub struct Recorded<'a> {
    /// Its last change.
    pub change: Option<LastChange<'a>>,
    /// The size in bytes of a file on disk and its time in microseconds since 1970, as long as the file isn't edited.
    pub size_and_time: Option<(u64, u64)>,
    /// The properties that the root of a copy, or of a switched path, inherits from above it in the repository, as a list of atoms.
    pub inherited: Option<&'a [u8]>,
}

impl Recorded<'_> {
    /// Nothing.
    pub const NOTHING: Recorded<'static> = Recorded {
        change: None,
        size_and_time: None,
        inherited: None,
    };
}

// What the columns of a node that is there have.
#[derive(Drop)]
struct Columns {
    path: String,
    parent: Option<String>,
    repos_path: String,
    rev: Rev,
    kind: Kind,
    props: Option<Vec<u8>>,
    checksum: Option<Text>,
    recorded: OwnRecorded,
}

// What kind of node it is.
#[derive(Clone, Copy, Debug, PartialEq, Eq)]
enum Kind {
    File,
    // A directory, and whether it is complete.
    Directory(bool),
}

// What is recorded, as texts of its own.
#[derive(Drop)]
struct OwnRecorded {
    change: Option<(Rev, Option<i64>)>,
    author: Option<Text>,
    size_and_time: Option<(u64, u64)>,
    inherited: Option<Text>,
}

// The value of a number.
pub(crate) fn number(number: u64) -> Result<ValueRef<'static>, RowsFault>
    ensures { IfOk result (λ value. owned value ≡ stored.Int (pos number)) }
{
    match i64::try_from(number) {
        Ok(number) => Ok(ValueRef::Int(number)),
        Err(_) => Err(RowsFault::TooLarge),
    }
}

// The value of a text, NULL where there is none.
pub(crate) fn string_or_null(text: &Option<String>) -> ValueRef<'_>
    ensures { owned result ≡ text_value (option_map (λ t. t.bytes.items) text.now) }
{
    match text {
        Some(text) => ValueRef::Text(text.as_bytes()),
        None => ValueRef::Null,
    }
}

fn text_or_null(text: &Option<Text>) -> ValueRef<'_>
    ensures { owned result ≡ text_value text.now }
{
    match text {
        Some(text) => ValueRef::Text(text.as_slice()),
        None => ValueRef::Null,
    }
}

fn list_or_null(bytes: &Option<Vec<u8>>) -> ValueRef<'_>
    ensures { owned result ≡ blob_value (option_map (λ b. b.items) bytes.now) }
{
    match bytes {
        Some(bytes) => ValueRef::Blob(bytes),
        None => ValueRef::Null,
    }
}

fn blob_or_null(bytes: &Option<Text>) -> ValueRef<'_> {
    match bytes {
        Some(bytes) => ValueRef::Blob(bytes.as_slice()),
        None => ValueRef::Null,
    }
}

fn presence_of(kind: Kind) -> &'static [u8]
    ensures { result.now ≡ presence_of kind }
{
    match kind {
        Kind::File | Kind::Directory(true) => b"normal",
        Kind::Directory(false) => b"incomplete",
    }
}

fn word_of(kind: Kind) -> &'static [u8]
    ensures { result.now ≡ word_of kind }
{
    match kind {
        Kind::File => b"file",
        Kind::Directory(_) => b"dir",
    }
}

fn depth_of(kind: Kind) -> ValueRef<'static>
    ensures { owned result ≡ text_value (depth_of kind) }
{
    match kind {
        Kind::File => ValueRef::Null,
        Kind::Directory(_) => ValueRef::Text(b"infinity"),
    }
}

// A node has a list of its properties, or NULL where it has none.
fn props_of(alloc: Global, props: &Props) -> Result<Option<Vec<u8>>, AllocError>
    ensures column { IfOk result (λ column. option_map (λ b. b.items) column ≡ props_column props.now) }
    ensures fits { OnOk result (length (props_bytes props.now) < 2 ^ 64) }
{
    if props.is_empty() {
        return Ok(None);
    }
    let mut bytes = Vec::new(alloc);
    push_props(&mut bytes, props)?;
    Ok(Some(bytes))
}

// The path above a path, none of the root.
pub(crate) fn parent_of(alloc: Global, path: &RelPath) -> Result<Option<String>, AllocError>
    ensures { IfOk result (λ column. option_map (λ t. t.bytes.items) column ≡ parent_column path.now) }
{
    match path.parent(alloc)? {
        Some(parent) => Ok(Some(path_column(alloc, &parent)?)),
        None => Ok(None),
    }
}

fn text_of(alloc: Global, bytes: Option<&[u8]>) -> Result<Option<Text>, AllocError> {
    match bytes {
        Some(bytes) => Ok(Some(Text::from_slice(alloc, bytes)?)),
        None => Ok(None),
    }
}

// The revision and the date of the last change.
fn change_of(recorded: &Recorded<'_>) -> Option<(Rev, Option<i64>)> {
    match &recorded.change {
        Some(change) => Some((change.rev, change.date)),
        None => None,
    }
}

fn author_of(alloc: Global, recorded: &Recorded<'_>) -> Result<Option<Text>, AllocError> {
    match &recorded.change {
        Some(change) => text_of(alloc, change.author),
        None => Ok(None),
    }
}

fn own(alloc: Global, recorded: &Recorded<'_>) -> Result<OwnRecorded, AllocError> {
    Ok(OwnRecorded {
        change: change_of(recorded),
        author: author_of(alloc, recorded)?,
        size_and_time: recorded.size_and_time,
        inherited: text_of(alloc, recorded.inherited)?,
    })
}

impl OwnRecorded {
    fn rev(&self) -> Result<ValueRef<'static>, RowsFault> {
        match self.change {
            Some((rev, _)) => number(rev.0),
            None => Ok(ValueRef::Null),
        }
    }

    fn date(&self) -> ValueRef<'static> {
        match self.change {
            Some((_, Some(date))) => ValueRef::Int(date),
            Some((_, None)) | None => ValueRef::Null,
        }
    }

    fn size(&self) -> Result<ValueRef<'static>, RowsFault> {
        match self.size_and_time {
            Some((size, _)) => number(size),
            None => Ok(ValueRef::Null),
        }
    }

    fn time(&self) -> Result<ValueRef<'static>, RowsFault> {
        match self.size_and_time {
            Some((_, time)) => number(time),
            None => Ok(ValueRef::Null),
        }
    }
}

fn directory_columns(
    alloc: Global,
    path: &RelPath,
    node: &BaseNode,
    recorded: &Recorded<'_>,
) -> Result<Option<Columns>, AllocError>
    ensures columns { IfOk result (λ found. IfSome found (AreColumnsOf path.now node.now)) }
    ensures node { IfOk result (λ found. OnSome found (IsRowNode node.now)) }
{
    let BaseNode::Dir {
        rev,
        repos_path,
        complete,
        props,
    } = node
    else {
        return Ok(None);
    };
    path_is_lawful(repos_path);
    props_are_lawful(props);
    Ok(Some(Columns {
        path: path_column(alloc, path)?,
        parent: parent_of(alloc, path)?,
        repos_path: path_column(alloc, repos_path)?,
        rev: *rev,
        kind: Kind::Directory(*complete),
        props: props_of(alloc, props)?,
        checksum: None,
        recorded: own(alloc, recorded)?,
    }))
}

fn file_columns(
    alloc: Global,
    path: &RelPath,
    node: &BaseNode,
    recorded: &Recorded<'_>,
) -> Result<Option<Columns>, AllocError>
    ensures columns { IfOk result (λ found. IfSome found (AreColumnsOf path.now node.now)) }
    ensures node { IfOk result (λ found. OnSome found (IsRowNode node.now)) }
{
    let BaseNode::File {
        rev,
        repos_path,
        text,
        props,
    } = node
    else {
        return Ok(None);
    };
    path_is_lawful(repos_path);
    props_are_lawful(props);
    Ok(Some(Columns {
        path: path_column(alloc, path)?,
        parent: parent_of(alloc, path)?,
        repos_path: path_column(alloc, repos_path)?,
        rev: *rev,
        kind: Kind::File,
        props: props_of(alloc, props)?,
        checksum: Some(text.clone()?),
        recorded: own(alloc, recorded)?,
    }))
}

// Each column that a base node is made of.
impl Columns {
    fn path(&self) -> ValueRef<'_>
        ensures { owned result ≡ stored.Text self.now.path.bytes.items }
    {
        ValueRef::Text(self.path.as_bytes())
    }

    fn parent(&self) -> ValueRef<'_>
        ensures { owned result ≡ text_value (option_map (λ t. t.bytes.items) self.now.parent) }
    {
        string_or_null(&self.parent)
    }

    fn repos_path(&self) -> ValueRef<'_>
        ensures { owned result ≡ stored.Text self.now.repos_path.bytes.items }
    {
        ValueRef::Text(self.repos_path.as_bytes())
    }

    fn rev(&self) -> Result<ValueRef<'static>, RowsFault>
        ensures { IfOk result (λ value. owned value ≡ stored.Int (pos self.now.rev)) }
    {
        number(self.rev.0)
    }

    fn presence(&self) -> ValueRef<'static>
        ensures { owned result ≡ stored.Text (presence_of self.now.kind) }
    {
        ValueRef::Text(presence_of(self.kind))
    }

    fn word(&self) -> ValueRef<'static>
        ensures { owned result ≡ stored.Text (word_of self.now.kind) }
    {
        ValueRef::Text(word_of(self.kind))
    }

    fn props(&self) -> ValueRef<'_>
        ensures { owned result ≡ blob_value (option_map (λ b. b.items) self.now.props) }
    {
        list_or_null(&self.props)
    }

    fn depth(&self) -> ValueRef<'static>
        ensures { owned result ≡ text_value (depth_of self.now.kind) }
    {
        depth_of(self.kind)
    }

    fn checksum(&self) -> ValueRef<'_>
        ensures { owned result ≡ text_value self.now.checksum }
    {
        text_or_null(&self.checksum)
    }

    fn author(&self) -> ValueRef<'_> {
        text_or_null(&self.recorded.author)
    }

    fn inherited(&self) -> ValueRef<'_> {
        blob_or_null(&self.recorded.inherited)
    }
}

// The record, by the places of the columns (`wc-metadata.sql`).
fn record_of(alloc: Global, owner: Owner, columns: &Columns) -> Result<Text, RowsFault>
    ensures { IfOk result (λ bytes. row_of bytes ≡ Ok (row_with owner columns.now)) }
{
    let values = [
        number(owner.wc_id)?,
        columns.path(),
        ValueRef::Int(0),
        columns.parent(),
        number(owner.repos_id)?,
        columns.repos_path(),
        columns.rev()?,
        columns.presence(),
        ValueRef::Null,
        ValueRef::Null,
        columns.word(),
        columns.props(),
        columns.depth(),
        columns.checksum(),
        ValueRef::Null,
        columns.recorded.rev()?,
        columns.recorded.date(),
        columns.author(),
        columns.recorded.size()?,
        columns.recorded.time()?,
        ValueRef::Null,
        ValueRef::Null,
        columns.inherited(),
    ];
    Ok(record(alloc, &values)?)
}

/// The record of a node of the base tree, at a path of the working copy. It is read back as that node ([`nodes_are_read_back`](crate::nodes_are_read_back)).
/// NotPresent, TooLarge, Image and Memory.
pub fn node_record(
    alloc: Global,
    owner: Owner,
    path: &RelPath,
    node: &BaseNode,
    recorded: &Recorded<'_>,
) -> Result<Text, RowsFault>
    ensures row { IfOk result (λ bytes. row_of bytes ≡ Ok (node_row owner path.now node.now)) }
    ensures path { OnOk result (IsPath path.now) }
    ensures node { OnOk result (IsRowNode node.now) }
{
    path_is_lawful(path);
    if let Some(columns) = directory_columns(alloc, path, node, recorded)? {
        return record_of(alloc, owner, &columns);
    }
    match file_columns(alloc, path, node, recorded)? {
        Some(columns) => record_of(alloc, owner, &columns),
        None => Err(RowsFault::NotPresent),
    }
}

//! Dumps, written record by record.
ghost use Rattle.std.specs.Prelude.{◌≡◌, ◌+◌, ◌++◌, [], ◌∷◌, ◌<◌, ◌^◌, length, codes, None, Some, unwrap_or, option_map, OnOk, IfOk};
ghost use Rattle.std.specs.List.{flat_map};
ghost use Rattle.md5.specs.Md5.{md5};
ghost use Rattle.sha1.specs.Sha1.{sha1};
ghost use Rattle.svn_types.specs.PathTexts.{path_text};
ghost use Rattle.svn_dump.specs.Written.{line, number_line, run, entry, entries, prop_bytes, prop_section, text_section, kind_line, action_word, source_lines, subject_lines, prop_lines, sum_line, sum_lines, base_sum_lines, delta_lines, text_lines, length_line, length_lines, headers, written, revision_record, format_record};

use crate::record::{Action, CopySource, NodeRecord, PropSection, TextDelta, TextSection};
use itoa::Buffer;
use std::alloc::{AllocError, Global};
use svn_types::{Digest, Kind, Name, PropChange, PropName, Props, RelPath, Rev, Sha1Sum, Text};

fn push_line(out: &mut Vec<u8>, name: &[u8], value: &[u8]) -> Result<(), AllocError>
    ensures { OnOk result (out.new.items ≡ out.old.items ++ line name.now value.now) }
{
    out.extend_from_slice(name)?;
    out.extend_from_slice(b": ")?;
    out.extend_from_slice(value)?;
    Ok(out.push(b'\n')?)
}

fn push_number(out: &mut Vec<u8>, name: &[u8], number: u64) -> Result<(), AllocError>
    ensures { OnOk result (out.new.items ≡ out.old.items ++ number_line name.now number) }
{
    let mut buffer = Buffer::new();
    push_line(out, name, buffer.format(number).as_bytes())
}

// Names, and a slash before each.
fn push_below(out: &mut Vec<u8>, names: &[Name]) -> Result<(), AllocError>
    ensures { OnOk result (out.new.items ≡ out.old.items ++ flat_map (λ m. 47 ∷ m) names.now) }
{
    for name in names {
        out.push(b'/')?;
        out.extend_from_slice(name.as_str().as_bytes())?;
    }
    Ok(())
}

// The names of a path with a slash between them: the root is no bytes.
fn push_path(out: &mut Vec<u8>, path: &RelPath) -> Result<(), AllocError>
    ensures { OnOk result (out.new.items ≡ out.old.items ++ path_text path.now) }
{
    let Some((first, rest)) = path.components().split_first() else {
        return Ok(());
    };
    out.extend_from_slice(first.as_str().as_bytes())?;
    push_below(out, rest)
}

fn push_path_line(out: &mut Vec<u8>, name: &[u8], path: &RelPath) -> Result<(), AllocError>
    ensures { OnOk result (out.new.items ≡ out.old.items ++ line name.now (path_text path.now)) }
{
    out.extend_from_slice(name)?;
    out.extend_from_slice(b": ")?;
    push_path(out, path)?;
    Ok(out.push(b'\n')?)
}

// A line of a letter and a number of bytes, and those.
fn push_run(out: &mut Vec<u8>, letter: u8, bytes: &[u8]) -> Result<(), AllocError>
    ensures { OnOk result (out.new.items ≡ out.old.items ++ run letter bytes.now) }
{
    let mut buffer = Buffer::new();
    out.push(letter)?;
    out.push(b' ')?;
    out.extend_from_slice(buffer.format(bytes.len()).as_bytes())?;
    out.push(b'\n')?;
    out.extend_from_slice(bytes)?;
    Ok(out.push(b'\n')?)
}

fn push_set(out: &mut Vec<u8>, name: &PropName, value: &Text) -> Result<(), AllocError>
    ensures { OnOk result (out.new.items ≡ out.old.items ++ entry name.now (Some value.now)) }
{
    push_run(out, b'K', name.as_str().as_bytes())?;
    push_run(out, b'V', value.as_slice())
}

fn push_change(out: &mut Vec<u8>, change: &PropChange) -> Result<(), AllocError>
    ensures { OnOk result (out.new.items ≡ out.old.items ++ entry change.now.0 change.now.1) }
{
    let (name, value) = change;
    match value {
        Some(value) => push_set(out, name, value),
        None => push_run(out, b'D', name.as_str().as_bytes()),
    }
}

fn push_props(out: &mut Vec<u8>, props: &Props) -> Result<(), AllocError>
    ensures { OnOk result (out.new.items ≡ out.old.items ++ flat_map (λ p. entry p.0 (Some p.1)) props.now) }
{
    for (name, value) in props.as_map() {
        push_set(out, name, value)?;
    }
    Ok(())
}

fn push_changes(out: &mut Vec<u8>, changes: &[PropChange]) -> Result<(), AllocError>
    ensures { OnOk result (out.new.items ≡ out.old.items ++ flat_map (λ c. entry c.0 c.1) changes.now) }
{
    for change in changes {
        push_change(out, change)?;
    }
    Ok(())
}

fn push_entries(out: &mut Vec<u8>, props: &PropSection) -> Result<(), AllocError>
    ensures { OnOk result (out.new.items ≡ out.old.items ++ entries props.now) }
{
    match props {
        PropSection::Whole(props) => push_props(out, props),
        PropSection::Delta(changes) => push_changes(out, changes.as_slice()),
    }
}

// The bytes of a property section.
fn prop_bytes(alloc: Global, props: &PropSection) -> Result<Vec<u8>, AllocError>
    ensures { IfOk result (λ bytes. bytes.items ≡ prop_bytes props.now) }
{
    let mut bytes = Vec::new(alloc);
    push_entries(&mut bytes, props)?;
    bytes.extend_from_slice(b"PROPS-END\n")?;
    Ok(bytes)
}

// The property section, if there is one, and how long it is.
fn prop_section(
    alloc: Global,
    props: &Option<PropSection>,
) -> Result<(Vec<u8>, Option<usize>), AllocError>
    ensures bytes { IfOk result (λ s. s.0.items ≡ unwrap_or (prop_section props.now) []) }
    ensures len { IfOk result (λ s. s.1 ≡ option_map length (prop_section props.now)) }
    ensures small { IfOk result (λ s. unwrap_or s.1 0 < 2 ^ 63) }
{
    match props {
        None => Ok((Vec::new(alloc), None)),
        Some(props) => {
            let bytes = prop_bytes(alloc, props)?;
            let len = bytes.len();
            Ok((bytes, Some(len)))
        }
    }
}

// The text section, if there is one, and how long it is.
fn text_section(text: &Option<TextSection>) -> (&[u8], Option<usize>)
    ensures bytes { result.0.now ≡ unwrap_or (text_section text.now) [] }
    ensures len { result.1 ≡ option_map length (text_section text.now) }
    ensures small { unwrap_or result.1 0 < 2 ^ 63 }
{
    let bytes = match text {
        None => return (b"", None),
        Some(TextSection::Whole(text)) => text.as_slice(),
        Some(TextSection::Delta(text)) => text.delta.as_slice(),
    };
    (bytes, Some(bytes.len()))
}

fn push_kind(out: &mut Vec<u8>, kind: Option<Kind>) -> Result<(), AllocError>
    ensures { OnOk result (out.new.items ≡ out.old.items ++ kind_line kind) }
{
    match kind {
        Some(Kind::File) => push_line(out, b"Node-kind", b"file"),
        Some(Kind::Directory) => push_line(out, b"Node-kind", b"dir"),
        None => Ok(()),
    }
}

fn word_of(action: Action) -> &'static [u8]
    ensures { result.now ≡ action_word action }
{
    match action {
        Action::Add => b"add",
        Action::Change => b"change",
        Action::Delete => b"delete",
        Action::Replace => b"replace",
    }
}

fn push_source(out: &mut Vec<u8>, source: &Option<CopySource>) -> Result<(), AllocError>
    ensures { OnOk result (out.new.items ≡ out.old.items ++ source_lines source.now) }
{
    let Some(source) = source else {
        return Ok(());
    };
    push_number(out, b"Node-copyfrom-rev", source.rev.0)?;
    push_path_line(out, b"Node-copyfrom-path", &source.path)
}

// What the record is about.
fn push_subject(out: &mut Vec<u8>, node: &NodeRecord) -> Result<(), AllocError>
    ensures { OnOk result (out.new.items ≡ out.old.items ++ subject_lines node.now) }
{
    push_path_line(out, b"Node-path", &node.path)?;
    push_kind(out, node.kind)?;
    push_line(out, b"Node-action", word_of(node.action))?;
    push_source(out, &node.source)
}

fn push_prop_lines(out: &mut Vec<u8>, props: &Option<PropSection>) -> Result<(), AllocError>
    ensures { OnOk result (out.new.items ≡ out.old.items ++ prop_lines props.now) }
{
    match props {
        Some(PropSection::Delta(_)) => push_line(out, b"Prop-delta", b"true"),
        _ => Ok(()),
    }
}

fn push_md5(out: &mut Vec<u8>, name: &[u8], sum: Option<Digest>) -> Result<(), AllocError>
    ensures { OnOk result (out.new.items ≡ out.old.items ++ sum_line name.now sum) }
{
    let Some(sum) = sum else {
        return Ok(());
    };
    let word = hex::encode(*out.allocator(), &sum.0[..])?;
    push_line(out, name, word.as_bytes())
}

fn push_sha1(out: &mut Vec<u8>, name: &[u8], sum: Option<Sha1Sum>) -> Result<(), AllocError>
    ensures { OnOk result (out.new.items ≡ out.old.items ++ sum_line name.now sum) }
{
    let Some(sum) = sum else {
        return Ok(());
    };
    let word = hex::encode(*out.allocator(), &sum.0[..])?;
    push_line(out, name, word.as_bytes())
}

fn push_sums(
    out: &mut Vec<u8>,
    first: Option<Digest>,
    second: Option<Sha1Sum>,
) -> Result<(), AllocError>
    ensures { OnOk result (out.new.items ≡ out.old.items ++ sum_lines first second) }
{
    push_md5(out, b"Text-content-md5", first)?;
    push_sha1(out, b"Text-content-sha1", second)
}

fn push_base_sums(
    out: &mut Vec<u8>,
    first: Option<Digest>,
    second: Option<Sha1Sum>,
) -> Result<(), AllocError>
    ensures { OnOk result (out.new.items ≡ out.old.items ++ base_sum_lines first second) }
{
    push_md5(out, b"Text-delta-base-md5", first)?;
    push_sha1(out, b"Text-delta-base-sha1", second)
}

fn push_whole_sums(out: &mut Vec<u8>, text: &Text) -> Result<(), AllocError>
    ensures { OnOk result (out.new.items ≡ out.old.items ++ sum_lines (Some (md5 text.now)) (Some (sha1 text.now))) }
{
    let sum = Sha1Sum::of(text.as_slice());
    push_sums(out, Some(text.checksum()), Some(sum))
}

fn push_delta_lines(out: &mut Vec<u8>, text: &TextDelta) -> Result<(), AllocError>
    ensures { OnOk result (out.new.items ≡ out.old.items ++ delta_lines text.now) }
{
    push_line(out, b"Text-delta", b"true")?;
    push_base_sums(out, text.base_md5, text.base_sha1)?;
    push_sums(out, text.md5, text.sha1)
}

fn push_text_lines(out: &mut Vec<u8>, text: &Option<TextSection>) -> Result<(), AllocError>
    ensures { OnOk result (out.new.items ≡ out.old.items ++ text_lines text.now) }
{
    match text {
        Some(TextSection::Whole(text)) => push_whole_sums(out, text),
        Some(TextSection::Delta(text)) => push_delta_lines(out, text),
        None => Ok(()),
    }
}

fn push_length(out: &mut Vec<u8>, name: &[u8], len: Option<usize>) -> Result<(), AllocError>
    ensures { OnOk result (out.new.items ≡ out.old.items ++ length_line name.now len) }
{
    match len {
        Some(len) => push_number(out, name, len as u64),
        None => Ok(()),
    }
}

fn push_lengths(
    out: &mut Vec<u8>,
    props: Option<usize>,
    text: Option<usize>,
) -> Result<(), AllocError>
    requires { unwrap_or props 0 + unwrap_or text 0 < 2 ^ 64 }
    ensures { OnOk result (out.new.items ≡ out.old.items ++ length_lines props text) }
{
    push_length(out, b"Prop-content-length", props)?;
    push_length(out, b"Text-content-length", text)?;
    if props.is_none() && text.is_none() {
        return Ok(());
    }
    let both = props.unwrap_or(0) + text.unwrap_or(0);
    push_number(out, b"Content-length", both as u64)
}

// The headers of a node whose sections are so long.
fn push_headers(
    out: &mut Vec<u8>,
    node: &NodeRecord,
    props: Option<usize>,
    text: Option<usize>,
) -> Result<(), AllocError>
    requires { unwrap_or props 0 + unwrap_or text 0 < 2 ^ 64 }
    ensures { OnOk result (out.new.items ≡ out.old.items ++ headers node.now props text) }
{
    push_subject(out, node)?;
    push_prop_lines(out, &node.props)?;
    push_text_lines(out, &node.text)?;
    push_lengths(out, props, text)
}

/// Writes a node's record at the end. After an error its first bytes may be there.
pub fn push_node(out: &mut Vec<u8>, node: &NodeRecord) -> Result<(), AllocError>
    ensures { OnOk result (out.new.items ≡ out.old.items ++ written node.now) }
{
    let (props, props_len) = prop_section(*out.allocator(), &node.props)?;
    let (text, text_len) = text_section(&node.text);
    push_headers(out, node, props_len, text_len)?;
    out.push(b'\n')?;
    out.extend_from_slice(&props)?;
    out.extend_from_slice(text)?;
    Ok(out.extend_from_slice(b"\n\n")?)
}

/// Writes the beginning of a revision without properties at the end. After an error its first bytes may be there.
pub fn push_revision(out: &mut Vec<u8>, rev: Rev) -> Result<(), AllocError>
    ensures { OnOk result (out.new.items ≡ out.old.items ++ revision_record rev) }
{
    push_number(out, b"Revision-number", rev.0)?;
    push_line(out, b"Prop-content-length", b"10")?;
    push_line(out, b"Content-length", b"10")?;
    Ok(out.extend_from_slice(b"\nPROPS-END\n\n")?)
}

/// Writes the beginning of a dump at the end: format 2, or 3 where there are deltas. After an error its first bytes may be there.
pub fn push_format(out: &mut Vec<u8>, format: u64) -> Result<(), AllocError>
    ensures { OnOk result (out.new.items ≡ out.old.items ++ format_record format) }
{
    push_number(out, b"SVN-fs-dump-format-version", format)?;
    Ok(out.push(b'\n')?)
}

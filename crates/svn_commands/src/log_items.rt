//! What is written of a revision in a log.
ghost use Rattle.std.specs.Prelude.{◌≡◌, ◌++◌, [], length, slice_get, if◌then◌else◌, IfOk, OnOk};
ghost use Rattle.std.specs.List.{flat_map};
ghost use Rattle.std.specs.Option.{option_copied};
ghost use Rattle.svn_wire_calls.specs.Calls.{optional};
ghost use Rattle.svn_replies.specs.Answers.{listed, pair_bytes};
ghost use Rattle.svn_replies.specs.Commands.{kind_at};
ghost use Rattle.svn_commands.specs.Asking.{names_as, wanted_as};
ghost use Rattle.svn_commands.specs.LogItems.{is_the_text, is_named, has_field, wants, wants_also, wanted_value, field_bytes, others, or_no_props, others_bytes, action_word, kind_word, kind_before, kind_of, source_bytes, what_bytes, change_fields, changes_bytes, item_end, item_fields, item_bytes};

use crate::history::{copy_over, source_path};
use crate::log_fields::{Names, Wanted};
use std::alloc::AllocError;
use svn_dump::{Action, CopySource};
use svn_replies::{
    PathChange, View, push_bool, push_close, push_open, push_optional, push_pair, push_rev,
    push_whole_path,
};
use svn_types::{Kind, Props, RelPath, Rev, Text};
use svn_wire::{Token, push_number, push_text, push_word};

fn is_the_text(token: &Token, name: &[u8]) -> bool
    ensures { result ≡ is_the_text name.now token.now }
{
    match token {
        Token::Text(text) => text.as_slice() == name,
        _ => false,
    }
}

fn is_named(names: &[Token], name: &[u8]) -> bool
    ensures { result ≡ is_named names.now name.now }
{
    names.iter().any(|token| is_the_text(token, name))
}

// Those that have fields of their own.
fn has_field(name: &[u8]) -> bool
    ensures { result ≡ has_field name.now }
{
    name == b"svn:author".as_slice()
        || name == b"svn:date".as_slice()
        || name == b"svn:log".as_slice()
}

// Whether one of these is wanted.
fn wants(names: Names<'_>, name: &[u8]) -> bool
    ensures { result ≡ wants (names_as names.entry) name.now }
{
    match names {
        Names::Usual | Names::Every => true,
        Names::Named(names) => is_named(names, name),
    }
}

// Whether one is wanted beside these.
fn wants_also(names: Names<'_>, name: &[u8]) -> bool
    ensures { result ≡ wants_also (names_as names.entry) name.now }
{
    match names {
        Names::Usual => false,
        Names::Every => !has_field(name),
        Names::Named(names) => !has_field(name) && is_named(names, name),
    }
}

// A property that has a field of its own, if it is wanted.
fn wanted_value<'a>(view: View<'a>, names: Names<'_>, rev: Rev, name: &[u8]) -> Option<&'a Text>
    ensures { option_copied result ≡ wanted_value view.entry.served.now (names_as names.entry) rev name.now }
{
    if wants(names, name) {
        view.served.revisions.value(rev, name)
    } else {
        None
    }
}

// Author, date and message.
fn push_fields(
    view: View<'_>,
    names: Names<'_>,
    rev: Rev,
    out: &mut Vec<u8>,
) -> Result<(), AllocError>
    ensures { OnOk result (out.new.items ≡ out.old.items ++ field_bytes view.entry.served.now (names_as names.entry) rev) }
{
    push_optional(out, wanted_value(view, names, rev, b"svn:author"))?;
    push_optional(out, wanted_value(view, names, rev, b"svn:date"))?;
    push_optional(out, wanted_value(view, names, rev, b"svn:log"))
}

fn one_if(is_counted: bool) -> usize
    ensures { result ≡ (if is_counted then 1 else 0) }
{
    if is_counted { 1 } else { 0 }
}

// How many other properties are wanted.
fn others_len(names: Names<'_>, props: &Props) -> usize
    ensures { result ≡ length (others (names_as names.entry) props.now) }
{
    let most = props.len();
    let mut count: usize = 0;
    for (name, _value) in props.iter() {
        count += one_if(wants_also(names, name.as_str().as_bytes()));
    }
    count
}

fn push_if_wanted(
    out: &mut Vec<u8>,
    names: Names<'_>,
    name: &[u8],
    value: &Text,
) -> Result<(), AllocError>
    ensures { OnOk result (out.new.items ≡ out.old.items ++ (if wants_also (names_as names.entry) name.now then pair_bytes name.now value.now else [])) }
{
    if wants_also(names, name) {
        push_pair(out, name, value.as_slice())
    } else {
        Ok(())
    }
}

fn push_other_pairs(out: &mut Vec<u8>, names: Names<'_>, props: &Props) -> Result<(), AllocError>
    ensures { OnOk result (out.new.items ≡ out.old.items ++ flat_map (λ prop. pair_bytes prop.0 prop.1) (others (names_as names.entry) props.now)) }
{
    for (name, value) in props.iter() {
        push_if_wanted(out, names, name.as_str().as_bytes(), value)?;
    }
    Ok(())
}

// The other properties that are wanted, and how many they are.
fn push_others(out: &mut Vec<u8>, names: Names<'_>, props: &Props) -> Result<(), AllocError>
    ensures { OnOk result (out.new.items ≡ out.old.items ++ others_bytes (names_as names.entry) props.now) }
{
    push_number(out, others_len(names, props) as u64)?;
    push_open(out)?;
    push_other_pairs(out, names, props)?;
    push_close(out)
}

fn push_others_at(
    view: View<'_>,
    names: Names<'_>,
    rev: Rev,
    out: &mut Vec<u8>,
) -> Result<(), AllocError>
    ensures { OnOk result (out.new.items ≡ out.old.items ++ others_bytes (names_as names.entry) (or_no_props (slice_get view.entry.served.now.revisions rev))) }
{
    match view.served.revisions.props(rev) {
        Some(props) => push_others(out, names, props),
        None => {
            push_number(out, 0)?;
            out.extend_from_slice(b"( ) ")
        }
    }
}

fn action_word(action: Action) -> &'static [u8]
    ensures { result.now ≡ action_word action }
{
    match action {
        Action::Add => b"A",
        Action::Change => b"M",
        Action::Delete => b"D",
        Action::Replace => b"R",
    }
}

fn kind_word(kind: Option<Kind>) -> &'static [u8]
    ensures { result.now ≡ kind_word kind }
{
    match kind {
        Some(Kind::File) => b"file",
        Some(Kind::Directory) => b"dir",
        None => b"none",
    }
}

fn kind_at(view: View<'_>, rev: Rev, path: &RelPath) -> Option<Kind>
    ensures { result ≡ kind_at view.entry.served.now.repo rev path.now }
{
    let node = view.served.repo.lookup(rev, path)?;
    view.served.repo.kind(node)
}

// What was at a path before the changes of a revision: in the revision before, or where a copy of this one is from.
fn kind_before(view: View<'_>, rev: Rev, path: &RelPath) -> Result<Option<Kind>, AllocError>
    ensures { IfOk result (λ kind. kind ≡ kind_before view.entry.served.now rev path.now) }
{
    let Some(copy) = copy_over(view.served, rev, path) else {
        return Ok(kind_at(view, Rev(rev.0.saturating_sub(1)), path));
    };
    match source_path(view.alloc, copy, path)? {
        Some(from) => Ok(kind_at(view, copy.source.rev, &from)),
        None => Ok(None),
    }
}

fn kind_of(view: View<'_>, rev: Rev, change: &PathChange) -> Result<Option<Kind>, AllocError>
    ensures { IfOk result (λ kind. kind ≡ kind_of view.entry.served.now rev change.now) }
{
    match change.kind {
        Some(kind) => Ok(Some(kind)),
        None => kind_before(view, rev, &change.path),
    }
}

fn push_source(out: &mut Vec<u8>, source: &Option<CopySource>) -> Result<(), AllocError>
    ensures { OnOk result (out.new.items ≡ out.old.items ++ source_bytes source.now) }
{
    match source {
        Some(source) => {
            push_whole_path(out, &source.path)?;
            push_rev(out, source.rev)
        }
        None => Ok(()),
    }
}

// Kind, and whether the text and the properties were changed.
fn push_what(
    view: View<'_>,
    rev: Rev,
    change: &PathChange,
    out: &mut Vec<u8>,
) -> Result<(), AllocError>
    ensures { OnOk result (out.new.items ≡ out.old.items ++ what_bytes view.entry.served.now rev change.now) }
{
    let kind = kind_of(view, rev, change)?;
    // here it is a string
    push_text(out, kind_word(kind))?;
    push_bool(out, change.text)?;
    push_bool(out, change.props)
}

// A list of where what is there was copied from.
fn push_source_list(out: &mut Vec<u8>, source: &Option<CopySource>) -> Result<(), AllocError>
    ensures { OnOk result (out.new.items ≡ out.old.items ++ listed (source_bytes source.now)) }
{
    push_open(out)?;
    push_source(out, source)?;
    push_close(out)
}

fn push_what_list(
    view: View<'_>,
    rev: Rev,
    change: &PathChange,
    out: &mut Vec<u8>,
) -> Result<(), AllocError>
    ensures { OnOk result (out.new.items ≡ out.old.items ++ listed (what_bytes view.entry.served.now rev change.now)) }
{
    push_open(out)?;
    push_what(view, rev, change, out)?;
    push_close(out)
}

// Path, action, source and kind.
fn push_change_fields(
    view: View<'_>,
    rev: Rev,
    change: &PathChange,
    out: &mut Vec<u8>,
) -> Result<(), AllocError>
    ensures { OnOk result (out.new.items ≡ out.old.items ++ change_fields view.entry.served.now rev change.now) }
{
    push_whole_path(out, &change.path)?;
    push_word(out, action_word(change.action))?;
    push_source_list(out, &change.source)?;
    push_what_list(view, rev, change, out)
}

fn push_change(
    view: View<'_>,
    rev: Rev,
    change: &PathChange,
    out: &mut Vec<u8>,
) -> Result<(), AllocError>
    ensures { OnOk result (out.new.items ≡ out.old.items ++ listed (change_fields view.entry.served.now rev change.now)) }
{
    push_open(out)?;
    push_change_fields(view, rev, change, out)?;
    push_close(out)
}

// The paths that a revision changed, where they are wanted.
fn push_changes(view: View<'_>, wanted: bool, rev: Rev, out: &mut Vec<u8>) -> Result<(), AllocError>
    ensures { OnOk result (out.new.items ≡ out.old.items ++ changes_bytes wanted view.entry.served.now rev) }
{
    if !wanted {
        return Ok(());
    }
    for change in view.served.changes.of(rev) {
        push_change(view, rev, change, out)?;
    }
    Ok(())
}

fn push_changes_list(
    view: View<'_>,
    wanted: bool,
    rev: Rev,
    out: &mut Vec<u8>,
) -> Result<(), AllocError>
    ensures { OnOk result (out.new.items ≡ out.old.items ++ listed (changes_bytes wanted view.entry.served.now rev)) }
{
    push_open(out)?;
    push_changes(view, wanted, rev, out)?;
    push_close(out)
}

// That nothing was merged in a revision and its number is one, its other properties, and that it isn't taken back.
fn push_item_end(
    view: View<'_>,
    names: Names<'_>,
    rev: Rev,
    out: &mut Vec<u8>,
) -> Result<(), AllocError>
    ensures { OnOk result (out.new.items ≡ out.old.items ++ item_end view.entry.served.now (names_as names.entry) rev) }
{
    out.extend_from_slice(b"false false ")?;
    push_others_at(view, names, rev, out)?;
    out.extend_from_slice(b"false ")
}

fn push_item_fields(
    view: View<'_>,
    wanted: Wanted<'_>,
    rev: Rev,
    out: &mut Vec<u8>,
) -> Result<(), AllocError>
    ensures { OnOk result (out.new.items ≡ out.old.items ++ item_fields view.entry.served.now (wanted_as wanted.entry) rev) }
{
    push_changes_list(view, wanted.changes, rev, out)?;
    push_rev(out, rev)?;
    push_fields(view, wanted.names, rev, out)?;
    push_item_end(view, wanted.names, rev, out)
}

/// What is wanted of a revision.
pub(crate) fn push_item(
    view: View<'_>,
    wanted: Wanted<'_>,
    rev: Rev,
    out: &mut Vec<u8>,
) -> Result<(), AllocError>
    ensures { OnOk result (out.new.items ≡ out.old.items ++ item_bytes view.entry.served.now (wanted_as wanted.entry) rev) }
{
    push_open(out)?;
    push_item_fields(view, wanted, rev, out)?;
    push_close(out)
}

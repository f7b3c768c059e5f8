//! `log`: the revisions that changed paths.
ghost use Rattle.std.specs.Prelude.{◌≡◌, ◌≢◌, ◌≤◌, ◌+◌, ◌-◌, ◌++◌, [], ◌∷◌, ℕ, List, true, false, max, if◌then◌else◌, IfOk, OnOk};
ghost use Rattle.std.specs.List.{filter, flat_map, list_any};
ghost use Rattle.svn_types.specs.Paths.{is_within};
ghost use Rattle.svn_replies.specs.Refusals.{Gives};
ghost use Rattle.svn_commands.specs.declared.history.Segment.{Segment};
ghost use Rattle.svn_commands.specs.Asking.{log_as, wanted_as};
ghost use Rattle.svn_commands.specs.Lists.{Lists};
ghost use Rattle.svn_commands.specs.Log.{path_there, path_of_token, paths_there, log_of, followed, is_touched, is_changed_at, is_changed, is_logged, is_full, logged, AreTraced, IsLog};
ghost use Rattle.svn_commands.specs.LogItems.{item_bytes};
ghost use Rattle.svn_commands.specs.Segments.{AreSegments};

use crate::ends::{push_all_sent, push_none_sent};
use crate::history::{Segment, has_rev, trace};
use crate::log_fields::{Wanted, log_fields};
use crate::log_items::push_item;
use std::alloc::AllocError;
use svn_replies::{PathChange, Refused, Served, View};
use svn_types::{RelPath, Rev};
use svn_wire::Token;

/// What is asked for: paths of the younger of two revisions.
#[derive(Drop)]
struct LogAsked<'a> {
    paths: Vec<RelPath>,
    start: Rev,
    end: Rev,
    wanted: Wanted<'a>,
}

// The path of a string, at which a node is.
#[tactic(auto, unfolding(crate::specs::Log::path_there))]
fn path_there(view: View<'_>, rev: Rev, text: &[u8]) -> Result<RelPath, Refused>
    ensures { Gives (λ p. p) result (path_there view.entry.served.now.repo view.entry.session.now.at rev text.now) }
{
    let path = view.path(text)?;
    let _node = view.node(rev, &path)?;
    Ok(path)
}

fn path_of_token(view: View<'_>, rev: Rev, token: &Token) -> Result<RelPath, Refused>
    ensures { Gives (λ p. p) result (path_of_token view.entry.served.now.repo view.entry.session.now.at rev token.now) }
{
    match token {
        Token::Text(text) => path_there(view, rev, text.as_slice()),
        _ => Err(Refused::BadFields),
    }
}

// Those of all, or why the first of them is none.
fn paths_there(view: View<'_>, rev: Rev, tokens: &[Token]) -> Result<Vec<RelPath>, Refused>
    ensures { Gives (λ paths. paths.items) result (paths_there view.entry.served.now.repo view.entry.session.now.at rev tokens.now) }
{
    let mut paths = Vec::new(view.alloc);
    for token in tokens {
        let path = path_of_token(view, rev, token)?;
        paths.push(path)?;
    }
    Ok(paths)
}

#[tactic(auto, unfolding(crate::specs::Log::log_of))]
fn read_log<'a>(view: View<'_>, fields: &'a [Token]) -> Result<LogAsked<'a>, Refused>
    ensures { Gives log_as result (log_of view.entry.served.now.repo view.entry.session.now.at fields.now) }
{
    let Some(asked) = log_fields(fields) else {
        return Err(Refused::BadFields);
    };
    let start = view.rev(asked.start)?;
    let end = view.rev(asked.end)?;
    let last = Rev(start.0.max(end.0));
    let paths = paths_there(view, last, asked.paths)?;
    Ok(LogAsked {
        paths,
        start,
        end,
        wanted: asked.wanted,
    })
}

// A copy ends the history of a path where copies aren't followed.
fn followed(strict: bool, segments: Vec<Segment>) -> Vec<Segment>
    ensures { result.items ≡ followed strict segments.items }
{
    let mut segments = segments;
    if strict {
        segments.truncate(1);
    }
    segments
}

// Where the node at a path was, as far as copies are followed.
fn push_traced(
    view: View<'_>,
    asked: &LogAsked<'_>,
    path: &RelPath,
    all: &mut Vec<Segment>,
) -> Result<(), AllocError>
    ensures { OnOk result ((one : List Segment) × AreSegments view.entry.served.now (max asked.now.start asked.now.end) path.now one × (all.new.items ≡ all.old.items ++ followed asked.now.wanted.strict one)) }
{
    let last = Rev(asked.start.0.max(asked.end.0));
    let segments = trace(view.served, view.alloc, last, path)?;
    let mut segments = followed(asked.wanted.strict, segments);
    all.append(&mut segments)
}

// Where the nodes at all paths were.
fn traced(view: View<'_>, asked: &LogAsked<'_>) -> Result<Vec<Segment>, AllocError>
    ensures { IfOk result (λ all. AreTraced view.entry.served.now asked.now.wanted.strict (max asked.now.start asked.now.end) asked.now.paths.items all.items) }
{
    let mut all = Vec::new(view.alloc);
    for path in &asked.paths {
        push_traced(view, asked, path, &mut all)?;
    }
    Ok(all)
}

fn is_within(change: &PathChange, path: &RelPath) -> bool
    ensures { result ≡ is_within path.now change.now.path }
{
    change.path.is_within(path)
}

// Whether one of the changes is at a path or below it.
fn is_one_within(changes: &[PathChange], path: &RelPath) -> bool
    ensures { result ≡ list_any (λ change. is_within path.now change.path) changes.now }
{
    changes.iter().any(|change| is_within(change, path))
}

// Whether a revision changed what is at a path or below it; the root changes in each.
fn is_touched(served: &Served, rev: Rev, path: &RelPath) -> bool
    ensures { result ≡ is_touched served.now rev path.now }
{
    path.is_root() || is_one_within(served.changes.of(rev), path)
}

fn is_changed_at(served: &Served, rev: Rev, first: Rev, path: &Option<RelPath>) -> bool
    ensures { result ≡ is_changed_at served.now rev first path.now }
{
    match path {
        Some(path) => rev == first || is_touched(served, rev, path),
        None => false,
    }
}

// Whether a revision changed the node of a segment, or put it there.
fn is_changed(served: &Served, rev: Rev, segment: &Segment) -> bool
    ensures { result ≡ is_changed served.now rev segment.now }
{
    has_rev(segment, rev) && is_changed_at(served, rev, segment.first, &segment.path)
}

// Whether a revision changed one of the nodes.
fn is_logged(served: &Served, segments: &[Segment], rev: Rev) -> bool
    ensures { result ≡ is_logged served.now segments.now rev }
{
    segments
        .iter()
        .any(|segment| is_changed(served, rev, segment))
}

fn push_if_logged(
    served: &Served,
    segments: &[Segment],
    rev: Rev,
    found: &mut Vec<Rev>,
) -> Result<(), AllocError>
    ensures { OnOk result (found.new.items ≡ found.old.items ++ filter (is_logged served.now segments.now) (rev ∷ [])) }
{
    if is_logged(served, segments, rev) {
        found.push(rev)?;
    }
    Ok(())
}

// Whether no more are wanted; 0: all of them are.
fn is_full(limit: u64, len: usize) -> bool
    ensures { result ≡ is_full limit len }
{
    0 < limit && limit <= len as u64
}

// The revision after one, on the way to another.
fn next_rev(younger: bool, rev: Rev, end: Rev) -> Rev
    requires other { rev ≢ end }
    requires up { younger ≡ true → rev ≤ end }
    requires down { younger ≡ false → end ≤ rev }
    ensures { result ≡ (if younger then rev + 1 else rev - 1) }
{
    if younger {
        Rev(rev.0 + 1)
    } else {
        Rev(rev.0 - 1)
    }
}

// The revisions from one to the other that changed one of the nodes, in this order, no more than are wanted.
fn logged(
    view: View<'_>,
    asked: &LogAsked<'_>,
    segments: &[Segment],
) -> Result<Vec<Rev>, AllocError>
    ensures { IfOk result (λ revs. revs.items ≡ logged view.entry.served.now (log_as asked.now) segments.now) }
{
    let younger = asked.start <= asked.end;
    let mut found = Vec::new(view.alloc);
    let mut rev = asked.start;
    'revs: loop {
        push_if_logged(view.served, segments, rev, &mut found)?;
        if rev == asked.end {
            return Ok(found);
        }
        if is_full(asked.wanted.limit, found.len()) {
            return Ok(found);
        }
        rev = next_rev(younger, rev, asked.end);
    }
}

fn push_items(
    view: View<'_>,
    wanted: Wanted<'_>,
    revs: &[Rev],
    out: &mut Vec<u8>,
) -> Result<(), AllocError>
    ensures { OnOk result (out.new.items ≡ out.old.items ++ flat_map (item_bytes view.entry.served.now (wanted_as wanted.entry)) revs.now) }
{
    for rev in revs {
        push_item(view, wanted, *rev, out)?;
    }
    Ok(())
}

fn push_log(view: View<'_>, asked: &LogAsked<'_>, out: &mut Vec<u8>) -> Result<(), AllocError>
    ensures { OnOk result ((bytes : List ℕ) × IsLog view.entry.served.now (log_as asked.now) bytes × (out.new.items ≡ out.old.items ++ bytes)) }
{
    let segments = traced(view, asked)?;
    let revs = logged(view, asked, &segments)?;
    push_items(view, asked.wanted, &revs, out)
}

/// `log`: the revisions that changed paths, in the order that is asked for.
pub(crate) fn answer_log(view: View<'_>, fields: &[Token], out: &mut Vec<u8>) -> Result<(), Refused>
    ensures { Lists (IsLog view.entry.served.now) out.old.items result out.new.items (log_of view.entry.served.now.repo view.entry.session.now.at fields.now) }
{
    match read_log(view, fields) {
        Ok(asked) => {
            push_log(view, &asked, out)?;
            Ok(push_all_sent(out)?)
        }
        Err(refused) => Err(push_none_sent(out, refused)),
    }
}

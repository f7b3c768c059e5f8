//! Working copies that Subversion made, compared with dumps of their repositories: those that aren't true, which Subversion calls clean, and others, whose
//! updates are compared with what Subversion made of them; and the lines of updates whose calls are written by hand.
//!
//! `data/copies` has for each copy NAME.dump, the history; NAME.db, its database; and NAME.untrue, what is untrue. Where there are NAME.lines and NAME.after.db,
//! these are the lines that `svn update` printed, sorted, and the database after it. `examples/subversion/copy_data.sh` has Subversion make them.
mod answers;
mod by_hand;
mod files;
mod one_text;
mod sparse;
mod told;

use crate::names::names_of;
use answers::check_copies;
use anyhow::{Result, bail};
use by_hand::{Row, calls_of, copy_of_rows, rows};
use files::{copy_in, file_of, history_of};
use one_text::audit_with_texts;
use sparse::check_sparse;
use std::alloc::Global;
use std::fmt::Display;
use std::rt::Files;
use svn_audit::{untrue_paths, update_lines};
use svn_drive::{Request, drive_request};
use svn_dump::Texts;
use svn_editor::Recorder;
use svn_repo::Repo;
use svn_wc::{Applier, WorkingCopy};
use told::check_told;

// Whether what was found is what is wanted.
fn compare<R: Print>(rt: &R, name: &str, what: &str, found: &[u8], wanted: &[u8]) -> Result<()> {
    if found == wanted {
        println!(rt; "{name}: {what} as expected")?;
    } else {
        println!(rt; "{name}: {what} DIFFERS")?;
    }
    Ok(())
}

// The values, each on a line.
fn lines_of<D: Display>(alloc: Global, values: &[D]) -> Result<String> {
    let mut text = String::new(alloc);
    for value in values {
        text.push_str(&format!(in alloc; "{value}\n")?)?;
    }
    Ok(text)
}

// The lines of an update to the last revision, sorted.
fn lines_in_order(alloc: Global, repo: &Repo, copy: &WorkingCopy) -> Result<String> {
    let report = copy.crawl(alloc)?;
    let mut calls = Recorder::new(alloc);
    drive_request(
        alloc,
        repo,
        &report,
        &Request::update(repo.latest()),
        &mut calls,
    )?;
    let mut lines = Vec::new(alloc);
    for line in &update_lines(alloc, copy, calls.calls())? {
        lines.push(format!(in alloc; "{line}")?)?;
    }
    lines.sort()?;
    lines_of(alloc, &lines)
}

// Updates a copy to the last revision.
fn update(alloc: Global, repo: &Repo, copy: &mut WorkingCopy) -> Result<()> {
    let report = copy.crawl(alloc)?;
    let mut applier = Applier::new(alloc, copy)?;
    drive_request(
        alloc,
        repo,
        &report,
        &Request::update(repo.latest()),
        &mut applier,
    )?;
    Ok(())
}

// The copy that a database has.
fn copy_of<R: Files + AllocGlobal>(rt: &R, name: &str, ending: &str) -> Result<WorkingCopy> {
    copy_in(rt, &format!(in rt.alloc(); "copies/{name}.{ending}")?)
}

fn repo_of<R: Files + AllocGlobal>(rt: &R, name: &str) -> Result<Repo> {
    let dump = format!(in rt.alloc(); "copies/{name}.dump")?;
    history_of(rt, &dump, Texts::Sha1)
}

fn compare_lines<R: Files + AllocGlobal + Print>(
    rt: &R,
    name: &str,
    repo: &Repo,
    copy: &WorkingCopy,
) -> Result<()> {
    let wanted = file_of(rt, "copies", name, "lines")?;
    let lines = lines_in_order(rt.alloc(), repo, copy)?;
    compare(rt, name, "the lines", lines.as_bytes(), &wanted)
}

// Compares the nodes of a copy that was updated.
fn compare_nodes<R: Files + AllocGlobal + Print>(
    rt: &R,
    name: &str,
    copy: &WorkingCopy,
) -> Result<()> {
    let nodes = format!(in rt.alloc(); "{copy}")?;
    let after = copy_of(rt, name, "after.db")?;
    let wanted = format!(in rt.alloc(); "{after}")?;
    compare(
        rt,
        name,
        "the nodes after the update",
        nodes.as_bytes(),
        wanted.as_bytes(),
    )
}

fn compare_update<R: Files + AllocGlobal + Print>(
    rt: &R,
    name: &str,
    repo: &Repo,
    mut copy: WorkingCopy,
) -> Result<()> {
    compare_lines(rt, name, repo, &copy)?;
    update(rt.alloc(), repo, &mut copy)?;
    compare_nodes(rt, name, &copy)
}

// What is untrue of a copy, in lines.
fn untrue_lines(alloc: Global, name: &str, repo: &Repo, copy: &WorkingCopy) -> Result<String> {
    let untrue = untrue_paths(alloc, repo, copy)?;
    if copy.check_true(repo).is_ok() != untrue.is_empty() {
        bail!("{name}: the two tests of truth differ")
    }
    lines_of(alloc, &untrue)
}

fn compare_copy<R: Files + AllocGlobal + Print>(rt: &R, name: &str) -> Result<()> {
    let repo = repo_of(rt, name)?;
    let copy = copy_of(rt, name, "db")?;
    let found = untrue_lines(rt.alloc(), name, &repo, &copy)?;
    let wanted = file_of(rt, "copies", name, "untrue")?;
    compare(rt, name, "what is untrue", found.as_bytes(), &wanted)?;
    if found.as_bytes().is_empty() {
        compare_update(rt, name, &repo, copy)?;
    }
    Ok(())
}

// The lines of calls that are written by hand.
fn compare_row<R: AllocGlobal + Print>(rt: &R, copy: &WorkingCopy, row: &Row) -> Result<()> {
    let alloc = rt.alloc();
    let calls = calls_of(alloc, row)?;
    let found = lines_of(alloc, &update_lines(alloc, copy, &calls)?)?;
    compare(
        rt,
        row.name,
        "the lines",
        found.as_bytes(),
        row.lines.as_bytes(),
    )
}

/// Compares all of it.
pub(crate) fn run<R: Files + AllocGlobal + Print + Clone + Drop>(rt: &R) -> Result<()> {
    for name in &names_of(rt, "copies", ".dump")? {
        compare_copy(rt, name)?;
    }
    let copy = copy_of_rows(rt.alloc())?;
    for row in rows() {
        compare_row(rt, &copy, row)?;
    }
    audit_with_texts(rt)?;
    check_copies(rt)?;
    check_sparse(rt)?;
    check_told(rt)
}

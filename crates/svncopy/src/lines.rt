//! The lines of `svn update`.

use crate::command_line::UpdateWords;
use crate::fault::Fault;
use svn_audit::{NodeChange, UpdateLine};
use svn_disk_update::Updated;
use svn_types::RelPath;

// The word of a call without what the client leaves out of it in its lines.
fn plain(word: &str) -> &str {
    let word = word.trim_end_matches('/');
    match word.strip_prefix("./") {
        Some(rest) => rest,
        None if word.is_empty() => "/",
        None => word,
    }
}

fn letter(node: NodeChange) -> &'static str {
    match node {
        NodeChange::Unchanged => " ",
        NodeChange::Added => "A",
        NodeChange::Deleted => "D",
        NodeChange::Updated => "U",
    }
}

fn done<E: Drop>(printed: Result<(), E>) -> Result<(), Fault> {
    match printed {
        Ok(()) => Ok(()),
        Err(_) => Err(Fault::Write),
    }
}

// Prints two columns, and a path below the word.
fn print_path<T: Print>(
    rt: &T,
    word: &str,
    columns: (&str, &str),
    path: &RelPath,
) -> Result<(), Fault> {
    let (node, props) = columns;
    if path.is_root() {
        return done(println!(rt; "{node}{props}   {word}"));
    }
    if word == "." {
        return done(println!(rt; "{node}{props}   {path}"));
    }
    done(println!(rt; "{node}{props}   {word}/{path}"))
}

fn print_line<T: Print>(rt: &T, word: &str, line: &UpdateLine) -> Result<(), Fault> {
    let props = if line.props { "U" } else { " " };
    print_path(rt, word, (letter(line.node), props), &line.path)
}

// Prints that something is made again.
fn print_restored<T: Print>(rt: &T, word: &str, path: &RelPath) -> Result<(), Fault> {
    if path.is_root() {
        return done(println!(rt; "Restored '{word}'"));
    }
    if word == "." {
        return done(println!(rt; "Restored '{path}'"));
    }
    done(println!(rt; "Restored '{word}/{path}'"))
}

// Prints the last line. A copy to which nothing comes is at the revision all the same.
fn print_end<T: Print>(rt: &T, words: &UpdateWords<'_>, updated: &Updated) -> Result<(), Fault> {
    let rev = updated.rev.0;
    if let Some(calls) = updated.stopped {
        return done(println!(rt; "Stopped after {calls} calls on the way to revision {rev}."));
    }
    if updated.lines.is_empty() {
        return done(println!(rt; "At revision {rev}."));
    }
    if words.dry_run {
        return done(println!(rt; "Would be updated to revision {rev}."));
    }
    done(println!(rt; "Updated to revision {rev}."))
}

/// Prints what is updated.
pub(crate) fn print_header<T: Print>(rt: &T, word: &str) -> Result<(), Fault> {
    let word = plain(word);
    done(println!(rt; "Updating '{word}':"))
}

// Prints a line for each path.
fn print_each<T: Print>(rt: &T, word: &str, updated: &Updated) -> Result<(), Fault> {
    for path in &updated.restored {
        print_restored(rt, word, path)?;
    }
    print_lines(rt, word, &updated.lines)
}

fn print_lines<T: Print>(rt: &T, word: &str, lines: &[UpdateLine]) -> Result<(), Fault> {
    for line in lines {
        print_line(rt, word, line)?;
    }
    Ok(())
}

/// Prints what was done, or would be.
pub(crate) fn print_all<T: Print>(
    rt: &T,
    words: &UpdateWords<'_>,
    updated: &Updated,
) -> Result<(), Fault> {
    let word = plain(words.folder);
    print_each(rt, word, updated)?;
    print_end(rt, words, updated)
}

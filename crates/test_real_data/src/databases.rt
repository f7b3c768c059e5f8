//! Prints the base nodes of each database that is named, or why it is refused; then what the first two are refused for where they are damaged.
mod damage;
mod hostile;
mod tally;

use anyhow::Result;
use std::alloc::Global;
use std::fs;
use std::rt::Files;
use svn_model::BaseNode;
use svn_types::{Props, RelPath};
use svn_wcdb::{BaseTree, Pristines, read_base_tree};

fn push_props(out: &mut String, path: &RelPath, props: &Props) -> Result<()> {
    let alloc = *out.allocator();
    for (name, value) in props {
        let digits = hex::encode(alloc, value.as_slice())?;
        writeln!(out, "{path} prop {name} {digits}")?;
    }
    Ok(())
}

fn push_node(out: &mut String, path: &RelPath, node: &BaseNode) -> Result<()> {
    match node {
        BaseNode::Dir {
            rev,
            repos_path,
            complete,
            props,
        } => {
            let end = if *complete { "" } else { " incomplete" };
            writeln!(out, "{path} dir {rev} {repos_path}{end}")?;
            push_props(out, path, props)
        }
        BaseNode::File {
            rev,
            repos_path,
            text,
            props,
        } => {
            let digits = hex::encode(*out.allocator(), text.as_slice())?;
            writeln!(out, "{path} file {rev} {repos_path} {digits}")?;
            push_props(out, path, props)
        }
        BaseNode::NotPresent => {
            writeln!(out, "{path} not-present")?;
            Ok(())
        }
    }
}

// How many bytes the pristine texts have together.
fn size_of(pristines: &Pristines) -> u64 {
    let mut sum = 0u64;
    for (_, size) in pristines.iter() {
        sum = sum.saturating_add(*size);
    }
    sum
}

// The lines of a base tree.
fn tree_lines(alloc: Global, tree: &BaseTree) -> Result<String> {
    let mut out = String::new(alloc);
    for (path, node) in &tree.nodes {
        push_node(&mut out, path, node)?;
    }
    let texts = &tree.pristines;
    out.push_str(&format!(in alloc;
        "{} pristine texts of {} bytes\n",
        texts.len(),
        size_of(texts)
    )?)?;
    let notes = tree.notes;
    out.push_str(&format!(in alloc;
        "{} changes, {} externals, {} actual, {} locks, {} work\n",
        notes.changes, notes.externals, notes.actual, notes.locks, notes.work
    )?)?;
    Ok(out)
}

// The bytes of a file.
fn read<R: Files + AllocGlobal>(rt: &R, name: &str) -> Result<Vec<u8>> {
    Ok(fs::read(rt, format!(in rt.alloc(); "databases/{name}")?)?)
}

fn print_database<R: Files + AllocGlobal + Print>(rt: &R, name: &str) -> Result<()> {
    let bytes = read(rt, name)?;
    match read_base_tree(rt.alloc(), &bytes) {
        Ok(tree) => print!(rt; "{name}\n{}", tree_lines(rt.alloc(), &tree)?)?,
        Err(refusal) => println!(rt; "{name} refused: {refusal}")?,
    }
    Ok(())
}

/// The words are the name of the program, that of the list of damages, and those of databases. The first is small: it is cut at each place and each of
/// its bytes is changed. The second is damaged by the list.
pub(crate) fn run<R: Files + AllocGlobal + Print>(rt: &R, words: &[String]) -> Result<()> {
    for name in words.iter().skip(2) {
        print_database(rt, name)?;
    }
    if let [_, list, small, name, ..] = words {
        hostile::print_tallies(rt, &read(rt, small)?)?;
        damage::print_refusals(rt, &read(rt, name)?, &read(rt, list)?)?;
    }
    Ok(())
}

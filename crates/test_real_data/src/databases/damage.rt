//! Damaged databases, and what they are refused for.

use anyhow::Result;
use std::alloc::Global;
use std::str;
use svn_wcdb::read_base_tree;

// What reading gives: the refusal, or that there is none.
fn outcome(alloc: Global, bytes: &[u8]) -> Result<String> {
    match read_base_tree(alloc, bytes) {
        Ok(tree) => Ok(format!(in alloc; "{} nodes", tree.nodes.len())?),
        Err(refusal) => Ok(format!(in alloc; "{refusal}")?),
    }
}

// Puts new bytes in place of those at an offset.
fn put(bytes: &mut Vec<u8>, at: usize, new: &[u8]) {
    for i in 0..new.len() {
        let Some(place) = at.checked_add(i) else {
            return;
        };
        if place < bytes.len() {
            bytes[place] = new[i];
        }
    }
}

fn name_of(line: &str) -> &str {
    match line.split_once(' ') {
        Some((name, _)) => name,
        None => line,
    }
}

// A line is a name, and offsets with the bytes to put there.
fn damaged(bytes: &mut Vec<u8>, line: &str) -> Result<()> {
    let alloc = *bytes.allocator();
    let words: Vec<&str> = line.split_whitespace().collect(alloc)?;
    for i in 1..words.len() {
        if i % 2 == 0 {
            let at = words[i - 1].parse::<usize>()?;
            put(bytes, at, &hex::decode(alloc, words[i])?);
        }
    }
    Ok(())
}

/// Prints for each line of the list what the damage gives that it describes.
pub(crate) fn print_refusals<R: AllocGlobal + Print>(
    rt: &R,
    bytes: &[u8],
    list: &[u8],
) -> Result<()> {
    let alloc = rt.alloc();
    for line in str::from_utf8(list)?.lines() {
        let mut copy = Vec::from_slice(alloc, bytes)?;
        damaged(&mut copy, line)?;
        println!(rt; "{}: {}", name_of(line), outcome(alloc, &copy)?)?;
    }
    Ok(())
}

//! What Subversion wrote: databases of working copies, connections with its server, sessions of its client, which are served here, and a dump, of which the
//! last changes are found. What is printed is what SQLite and Subversion say of them, or what was worked out by hand.
#![tactic(auto)]

mod changes;
mod connections;
mod databases;
mod sessions;

use anyhow::Result;
use std::env;

// The words are the name of the program and those of databases; of the word `hex` alone the database that is made, in hexadecimal digits.
fn main(rt: HostRuntime) -> Result<()> {
    let words: Vec<String> = env::args(&rt)?.collect(rt.alloc())?;
    let words = words.get(1..).unwrap_or_default();
    if words.len() == 1 {
        return databases::print_hex(&rt);
    }
    databases::print(&rt, words)?;
    connections::print(&rt)?;
    sessions::print(&rt)?;
    changes::print(&rt, rt.stdin())
}

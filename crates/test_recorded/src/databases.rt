//! Databases of working copies that Subversion's client wrote, read and written again, and one that is made of nodes which are stated here. What is printed of
//! them is what SQLite says (`examples/subversion/stored_databases.sh`).

mod made;
mod stored;

use anyhow::Result;
pub(crate) use made::print_hex;
use std::rt::Files;

/// Prints what is read of databases, and of the one that is made.
pub(crate) fn print<R: Files + AllocGlobal + Print>(rt: &R, names: &[String]) -> Result<()> {
    for name in names {
        stored::print(rt, name)?;
    }
    made::print(rt)
}

//! What Subversion wrote, read and compared with what Subversion itself says of it: text deltas, dumps, databases of working
//! copies, and working copies with their histories; and what a script makes. Each is a module; all but the first and the last have a
//! folder of data.
#![tactic(auto)]

mod copies;
mod databases;
mod deltas;
mod dumps;
mod names;
mod say;
mod scripts;

use anyhow::Result;
use std::env;

// The words are those of the databases.
fn main(rt: HostRuntime) -> Result<()> {
    deltas::run(&rt)?;
    dumps::run(&rt)?;
    let words: Vec<String> = env::args(&rt)?.collect(rt.alloc())?;
    databases::run(&rt, &words)?;
    copies::run(&rt)?;
    scripts::run(&rt)
}

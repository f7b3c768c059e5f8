//! Programs that use the library, each a module: a tour in a few lines, a run that is followed, an editor and a report of one's own, and the scripts of
//! `examples/`. They run in turn. `docs/EMBEDDING.md` shows parts of them.
#![tactic(auto)]

mod following;
mod history;
mod own_editor;
mod own_report;
mod scripts;
mod tour;

use anyhow::Result;

fn main(rt: HostRuntime) -> Result<()> {
    tour::run(&rt, rt.alloc())?;
    following::run(&rt, rt.alloc())?;
    own_editor::run(&rt, rt.alloc())?;
    own_report::run(&rt, rt.alloc())?;
    scripts::run(&rt)?;
    Ok(())
}

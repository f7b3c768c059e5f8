// Scripts that begin with a repository that is given.
use crate::whole_scripts::scripts::{IN_TURN, MANY_CALLS, ScriptRun};
use std::alloc::Global;
use std::process::Abort;
use std::sync::Wait;
use std::test::Fail;
use std::thread::Threads;
use svn_update::{Change, RelPath, Repo, ScriptFault, Settings, run_script_on};

fn make_directory(alloc: Global, repo: &mut Repo, path: &str) -> Result<(), Fail> {
    let path = RelPath::parse(alloc, path)?;
    repo.commit(&[Change::MakeDir { path }])?;
    Ok(())
}

// Two revisions, each with one directory more.
fn repository(alloc: Global) -> Result<Repo, Fail> {
    let mut repo = Repo::new(alloc)?;
    make_directory(alloc, &mut repo, "d")?;
    make_directory(alloc, &mut repo, "e")?;
    Ok(repo)
}

fn run(
    rt: &(impl AllocGlobal + Threads + Wait + Sync),
    repo: Repo,
    settings: &Settings,
    script: &str,
) -> ScriptRun {
    let mut reader = script.as_bytes();
    let mut output = Vec::new(rt.alloc());
    let ended = run_script_on(rt, rt.alloc(), repo, &mut reader, &mut output, settings);
    ScriptRun { ended, output }
}

const SCRIPT: &str = "checkout 1\nupdate 2\nshow\nmkdir e/x\ncommit\n";

const OUTPUT: &str = "ok\nclosed 6\n. dir 2 .\nd dir 2 d\ne dir 2 e\ncommitted 3\n";

fn prints(
    rt: &(impl Abort + AllocGlobal + Threads + Wait + Sync),
    settings: &Settings,
) -> Result<(), Fail> {
    let repo = repository(rt.alloc())?;
    run(rt, repo, settings, SCRIPT).is(rt, Ok(()), OUTPUT);
    Ok(())
}

#[test]
fn its_revisions_are_there(rt: HostRuntime) -> Result<(), Fail> {
    prints(&rt, &IN_TURN)?;
    prints(&rt, &MANY_CALLS)
}

#[test]
fn a_bad_line_ends_it(rt: HostRuntime) -> Result<(), Fail> {
    let repo = repository(rt.alloc())?;
    let bad = Err(ScriptFault::BadLine(2));
    run(&rt, repo, &IN_TURN, "checkout 2\nx\n").is(&rt, bad, "ok\n");
    Ok(())
}

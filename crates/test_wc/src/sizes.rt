// The deepest paths, wide directories, and the longest texts.
use crate::builders::ONE_FILE;
use crate::steps::{Case, same, writes};
use std::alloc::{AllocError, Global};
use std::process::Abort;
use std::test::Fail;

// `d/d/d`, with that many names.
fn chain(alloc: Global, names: usize) -> Result<String, AllocError> {
    let mut path = String::new(alloc);
    for depth in 0..names {
        path.push_str(if depth > 0 { "/d" } else { "d" })?;
    }
    Ok(path)
}

fn push_mkdir(alloc: Global, script: &mut String, names: usize) -> Result<(), AllocError> {
    let path = chain(alloc, names)?;
    write!(script, "mkdir {path}; ")
}

// A repository with a chain of 64 directories, checked out.
fn deep_copy(alloc: Global) -> Result<String, AllocError> {
    let mut script = String::new(alloc);
    for names in 1..65usize {
        push_mkdir(alloc, &mut script, names)?;
    }
    script.push_str("commit; checkout 1 .; ")?;
    Ok(script)
}

fn switches_the_last(rt: &impl Abort, alloc: Global, deep: &str) -> Result<(), Fail> {
    let last = chain(alloc, 64)?;
    let script = format!(in alloc; "switch {last} . 1; count; check; forget {last}; count")?;
    writes(rt, alloc, deep, (&script, "129 nodes; true; 65 nodes; "))
}

fn refuses_a_root_below_it(rt: &impl Abort, alloc: Global, deep: &str) -> Result<(), Fail> {
    let script = format!(in alloc; "switch {} . 1; count", chain(alloc, 65)?)?;
    writes(rt, alloc, deep, (&script, "refused 5; 65 nodes; "))
}

fn switches_below_it(rt: &impl Abort, alloc: Global, deep: &str) -> Result<(), Fail> {
    let below = chain(alloc, 65)?;
    let script = format!(in alloc; "switch {below} d 1; count; check; report")?;
    let wanted = format!(in alloc; "129 nodes; true; set . 1; link {below} d 1; ")?;
    writes(rt, alloc, deep, (&script, &wanted))
}

// A path has at most 64 names more than its repository path, so at most 128.
#[test]
fn switches_at_the_deepest_paths(rt: HostRuntime) -> Result<(), Fail> {
    let deep = deep_copy(rt.alloc())?;
    switches_the_last(&rt, rt.alloc(), &deep)?;
    refuses_a_root_below_it(&rt, rt.alloc(), &deep)?;
    switches_below_it(&rt, rt.alloc(), &deep)
}

const OPENED: &str = "edit; set_target_revision 2; open_root 1 #0; ";

fn push_directory(alloc: Global, script: &mut String, depth: usize) -> Result<(), AllocError> {
    let path = chain(alloc, depth)?;
    let parent = depth.saturating_sub(1);
    write!(script, "add_directory {path} #{parent} #{depth}; ")
}

fn directories_down_to(alloc: Global, depth: usize) -> Result<String, AllocError> {
    let mut script = String::from_str(alloc, OPENED)?;
    for names in 1..=depth {
        push_directory(alloc, &mut script, names)?;
    }
    script.push_str("abort_edit; stop; count")?;
    Ok(script)
}

#[test]
fn adds_directories_down_to_64_names(rt: HostRuntime) -> Result<(), Fail> {
    let script = directories_down_to(rt.alloc(), 65)?;
    let wanted = "accepted 67 refused 48 pools 1; 66 nodes; ";
    writes(&rt, rt.alloc(), ONE_FILE, (&script, wanted))
}

fn push_file(script: &mut String, file: u64) -> Result<(), AllocError> {
    write!(
        script,
        "add_file g{file} #0 #{file}; apply_text #{file} - a; close_file #{file} A; "
    )
}

fn files_up_to(alloc: Global, last: u64) -> Result<String, AllocError> {
    let mut script = String::from_str(alloc, OPENED)?;
    for file in 1..=last {
        push_file(&mut script, file)?;
    }
    script.push_str("close_directory #0; close_edit; stop; count")?;
    Ok(script)
}

#[test]
fn adds_a_thousand_files(rt: HostRuntime) -> Result<(), Fail> {
    let script = files_up_to(rt.alloc(), 1_000)?;
    let wanted = "accepted 3004 pools 1; 1002 nodes; ";
    writes(&rt, rt.alloc(), ONE_FILE, (&script, wanted))
}

#[test]
fn takes_the_longest_texts(rt: HostRuntime) -> Result<(), Fail> {
    const CASES: &[Case<'static>] = &[(
        "edit; set_target_revision 2; open_root 1 #0; open_file f #0 1 #1; change_file_prop #1 p x*1048576; apply_text #1 A x*1048576; close_file #1; close_directory #0; close_edit; stop; length f",
        "accepted 8 pools 1; 1048576 bytes; ",
    )];
    same(&rt, rt.alloc(), ONE_FILE, CASES)
}

// The innermost directory is the root's tree once more, and the innermost of that starts empty.
fn linked_to_the_root(alloc: Global) -> Result<String, AllocError> {
    let link = chain(alloc, 64)?;
    let innermost = chain(alloc, 128)?;
    format!(in alloc; "drive 1; set . 1; link {link} . 1; set {innermost} 1 start_empty")
}

fn push_open(alloc: Global, calls: &mut String, depth: usize) -> Result<(), AllocError> {
    let path = chain(alloc, depth)?;
    let parent = depth.saturating_sub(1);
    write!(calls, "open_directory {path} #{parent} 1 #{depth}; ")
}

fn push_closes(calls: &mut String, last: usize) -> Result<(), AllocError> {
    for above in 0..=last {
        write!(calls, "close_directory #{}; ", last.saturating_sub(above))?;
    }
    Ok(())
}

// All directories are opened, and closed again.
fn calls_down_to(alloc: Global, last: usize) -> Result<String, AllocError> {
    let mut calls = String::from_str(alloc, "set_target_revision 1; open_root 1 #0; ")?;
    for depth in 1..=last {
        push_open(alloc, &mut calls, depth)?;
    }
    push_closes(&mut calls, last)?;
    calls.push_str("close_edit; Ok(Closed { calls: 260 }); ")?;
    Ok(calls)
}

// A report as deep as paths go: 64 directories, one in the other, and in the innermost a link to the root.
#[test]
fn a_report_reaches_paths_of_128_names(rt: HostRuntime) -> Result<(), Fail> {
    let deep = deep_copy(rt.alloc())?;
    let script = linked_to_the_root(rt.alloc())?;
    let calls = calls_down_to(rt.alloc(), 128)?;
    writes(&rt, rt.alloc(), &deep, (&script, &calls))
}

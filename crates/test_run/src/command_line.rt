// The words of the command line.
use std::alloc::{AllocError, Global};
use std::process::Abort;
use svn_script::{Settings, read_words};

// The words, and the capacity and the form that they give.
static SETTINGS: [(&[&str], usize, bool); 5] = [
    (&["svnup"], 64, false),
    (&["svnup", "--capacity", "1", "--in-turn"], 1, true),
    (&["svnup", "--in-turn", "--capacity=1"], 1, true),
    (&["svnup", "--capacity", "4096"], 4096, false),
    (&["svnup", "--in-turn"], 64, true),
];

fn gives(
    rt: &impl Abort,
    alloc: Global,
    words: &'static [&'static str],
    capacity: usize,
    in_turn: bool,
) {
    let found = read_words(alloc, words).ok();
    assert_eq!(rt; found, Some(Settings { capacity, in_turn }), "{words:?}");
}

#[test]
fn words_give_settings(rt: HostRuntime) {
    for (words, capacity, in_turn) in &SETTINGS {
        gives(&rt, rt.alloc(), words, *capacity, *in_turn);
    }
}

#[test]
fn no_words_give_the_defaults(rt: HostRuntime) {
    let wanted = Settings {
        capacity: 64,
        in_turn: false,
    };
    assert_eq!(rt; Settings::default(), wanted);
}

// Words that are refused, and a part of what is said of them.
static REFUSED: [(&[&str], &str); 15] = [
    (&["svnup", "--capacity", "0"], "'0'"),
    (&["svnup", "--capacity", "4097"], "'4097'"),
    (&["svnup", "--capacity"], "--capacity"),
    (&["svnup", "--other"], "'--other'"),
    (&["svnup", "x"], "'x'"),
    // the help names the manual, the statuses and an example
    (&["svnup", "--help"], "docs/SCRIPT.md"),
    (&["svnup", "--help"], "Status 2"),
    (&["svnup", "--help"], "| svnup"),
    (&["svnup", "--help"], "--capacity <N>"),
    (&["svnup", "--help"], "--in-turn"),
    (&["svnup", "-h"], "docs/SCRIPT.md"),
    (&["svnup", "-h"], "Status 2"),
    (&["svnup", "-h"], "| svnup"),
    (&["svnup", "-h"], "--capacity <N>"),
    (&["svnup", "-h"], "--in-turn"),
];

// The number and the status of the fault of words, and what is said of it.
fn fault_of(alloc: Global, words: &'static [&'static str]) -> Result<String, AllocError> {
    match read_words(alloc, words) {
        Ok(_) => String::from_str(alloc, "no fault"),
        Err(fault) => format!(in alloc; "{} {} {fault}", fault.number(), fault.status()),
    }
}

// Bad words have the number 71 and the status 2.
fn is_refused(
    rt: &impl Abort,
    alloc: Global,
    words: &'static [&'static str],
    part: &str,
) -> Result<(), AllocError> {
    let told = fault_of(alloc, words)?;
    assert!(rt;
        told.as_str().starts_with("71 2 ") && told.as_str().contains(part),
        "{told}"
    );
    Ok(())
}

#[test]
fn bad_words_are_told(rt: HostRuntime) -> Result<(), AllocError> {
    for (words, part) in &REFUSED {
        is_refused(&rt, rt.alloc(), words, part)?;
    }
    Ok(())
}

// What is too long, too deep or too many.
use crate::whole_scripts::scripts::{IN_TURN, ends};
use std::alloc::{AllocError, Global};
use std::process::Abort;
use std::sync::Wait;
use std::thread::Threads;
use svn_update::Settings;

// Lines that begin so, then this, repeated, then the rest of them; and what they print.
struct Long {
    first: &'static str,
    part: &'static str,
    count: usize,
    last: &'static str,
    output: &'static str,
}

static LONG: [Long; 8] = [
    Long {
        first: "put f ",
        part: "a",
        count: 1048576,
        last: "\ncommit\n",
        output: "committed 1\n",
    },
    Long {
        first: "put f ",
        part: "a",
        count: 1048577,
        last: "\ncommit\n",
        output: "refused TooLong\n",
    },
    // the root comes first, then the length, then the way down
    Long {
        first: "put . ",
        part: "a",
        count: 1048577,
        last: "\ncommit\n",
        output: "refused IsRoot\n",
    },
    Long {
        first: "put g/h ",
        part: "a",
        count: 1048577,
        last: "\ncommit\n",
        output: "refused TooLong\n",
    },
    Long {
        first: "prop . p ",
        part: "a",
        count: 1048576,
        last: "\ncommit\n",
        output: "committed 1\n",
    },
    Long {
        first: "prop g p ",
        part: "a",
        count: 1048577,
        last: "\ncommit\n",
        output: "refused TooLong\n",
    },
    // a repository path of 65 names, before it is looked for
    Long {
        first: "checkout 0\nswitch g ",
        part: "a/",
        count: 64,
        last: "a 0\n",
        output: "ok\nrefused TooDeep\n",
    },
    Long {
        first: "checkout 0\nswitch g ",
        part: "a/",
        count: 63,
        last: "a 0\n",
        output: "ok\nrefused Missing\n",
    },
];

fn is_answered(
    rt: &(impl Abort + AllocGlobal + Threads + Wait + Sync),
    row: &Long,
) -> Result<(), AllocError> {
    let long = row.part.repeat(rt.alloc(), row.count)?;
    let script = format!(in rt.alloc(); "{}{long}{}", row.first, row.last)?;
    ends(rt, &IN_TURN, script.as_str().as_bytes(), Ok(()), row.output);
    Ok(())
}

#[test]
fn long_and_deep_words(rt: HostRuntime) -> Result<(), AllocError> {
    for row in &LONG {
        is_answered(&rt, row)?;
    }
    Ok(())
}

// Lines that make that many directories, each in the one before, in one revision.
fn nested_lines(alloc: Global, depth: usize) -> Result<String, AllocError> {
    let mut script = String::new(alloc);
    let mut path = String::from_str(alloc, "a")?;
    for _ in 0..depth {
        writeln!(script, "mkdir {path}")?;
        path.push_str("/a")?;
    }
    script.push_str("commit\n")?;
    Ok(script)
}

// The tree comes by the target's number, 65 directories opened or added, as many closed, and the end; it goes by the number, open, delete,
// close and end. One directory more is refused, and so there is no revision 1.
const NESTED: &[(usize, &str)] = &[
    (64, "committed 1\nok\nclosed 132\nclosed 5\n"),
    (
        65,
        "refused TooDeep\nok\nrefused NoSuchRevision\nclosed 4\n",
    ),
];

fn comes_and_goes(
    rt: &(impl Abort + AllocGlobal + Threads + Wait + Sync),
    depth: usize,
    output: &str,
) -> Result<(), AllocError> {
    let mut script = nested_lines(rt.alloc(), depth)?;
    script.push_str("checkout 0\nupdate 1\nupdate 0\n")?;
    ends(rt, &IN_TURN, script.as_str().as_bytes(), Ok(()), output);
    Ok(())
}

#[test]
fn trees_have_a_greatest_depth(rt: HostRuntime) -> Result<(), AllocError> {
    for (depth, output) in NESTED {
        comes_and_goes(&rt, *depth, output)?;
    }
    Ok(())
}

// A path has at most 64 names more than the repository path that it shows, which is the root's here. An update then touches each of the 63
// directories above it and the root, for what is reported below them.
const SWITCHED: &[(usize, &str)] = &[
    (63, "committed 1\nok\nok\nclosed 130\n"),
    (64, "committed 1\nok\nrefused TooDeep\nclosed 4\n"),
];

fn is_switched(
    rt: &(impl Abort + AllocGlobal + Threads + Wait + Sync),
    above: usize,
    output: &str,
) -> Result<(), AllocError> {
    let above = "a/".repeat(rt.alloc(), above)?;
    let mut script = nested_lines(rt.alloc(), 64)?;
    write!(script, "checkout 1\nswitch {above}b . 1\nupdate 1\n")?;
    ends(rt, &IN_TURN, script.as_str().as_bytes(), Ok(()), output);
    Ok(())
}

#[test]
fn switched_paths_have_a_greatest_depth(rt: HostRuntime) -> Result<(), AllocError> {
    for (above, output) in SWITCHED {
        is_switched(&rt, *above, output)?;
    }
    Ok(())
}

const UPDATED: &str =
    "put f a\ncommit\ncheckout 0\nupdate 1\nupdate 9\nswitch-to f 1\nswitch-to . 1\n";

// A queue of that many calls. Where two threads run, its capacity is looked at after the target.
fn updates(
    rt: &(impl Abort + AllocGlobal + Threads + Wait + Sync),
    capacity: usize,
    in_turn: bool,
    output: &str,
) {
    let settings = Settings { capacity, in_turn };
    ends(rt, &settings, UPDATED.as_bytes(), Ok(()), output);
}

const RUNS: &str =
    "committed 1\nok\nclosed 7\nrefused NoSuchRevision\nrefused OtherRoot\nclosed 4\n";

const REFUSED: &str =
    "committed 1\nok\nrefused Capacity\nrefused NoSuchRevision\nrefused OtherRoot\nrefused Capacity\n";

// A capacity, whether it is run on one thread, and what comes.
static QUEUES: [(usize, bool, &str); 7] = [
    (1, false, RUNS),
    (2, false, RUNS),
    (4096, false, RUNS),
    (0, false, REFUSED),
    (0, true, RUNS),
    (4097, false, REFUSED),
    (4097, true, RUNS),
];

#[test]
fn queues_have_a_capacity(rt: HostRuntime) {
    for (capacity, in_turn, output) in &QUEUES {
        updates(&rt, *capacity, *in_turn, output);
    }
}

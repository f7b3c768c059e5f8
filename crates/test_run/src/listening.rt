// What a listener hears of a run: each call that was accepted, with its path.
use crate::histories::Step::{Commit, MakeDir, Put};
use crate::histories::{Step, repository};
use std::alloc::{AllocError, Global};
use std::sync::Wait;
use std::test::Fail;
use std::thread::Threads;
use svn_drive::Request;
use svn_editor::Call;
use svn_repo::Repo;
use svn_run::{Listener, NoGate, Outcome, run, run_in_turn};
use svn_types::{RelPath, Rev};
use svn_wc::WorkingCopy;

const HISTORY: [Step; 4] = [MakeDir("d"), MakeDir("d/e"), Put("d/e/x", "a"), Commit];

// The calls of an update from the empty revision, each after its path.
const HEARD: &str = "
- set_target_revision 1
. open_root 0 #0
d add_directory d #0 #1
d/e add_directory d/e #1 #2
d/e/x add_file d/e/x #2 #3
d/e/x apply_text #3 - a
d/e/x close_file #3 0cc175b9c0f1b6a831c399e269772661
d/e close_directory #2
d close_directory #1
. close_directory #0
- close_edit
";

const HEARD_LATE: &str = "
- set_target_revision 1
. open_root 0 #0
d add_directory d #0 #1
d/e add_directory d/e #1 #2
d/e/x add_file d/e/x #2 #3
d/e close_directory #2
d close_directory #1
. close_directory #0
d/e/x apply_text #3 - a
d/e/x close_file #3 0cc175b9c0f1b6a831c399e269772661
- close_edit
";

const HEARD_OF_THREE: &str = "
- set_target_revision 1
. open_root 0 #0
d add_directory d #0 #1
";

// Writes what it hears, until an allocation fails.
#[derive(Drop)]
struct Log {
    text: String,
}

fn add_line(text: &mut String, call: &Call, path: Option<&RelPath>) -> Result<(), AllocError> {
    match path {
        Some(path) => writeln!(text, "{path} {call}"),
        None => writeln!(text, "- {call}"),
    }
}

impl Listener for Log {
    fn accepted(&mut self, call: &Call, path: Option<&RelPath>) {
        let _answer = add_line(&mut self.text, call, path);
    }
}

// A run on two threads, with a queue of that many calls, or else on one.
fn run_with<R: Threads + Wait + Sync>(
    rt: &R,
    alloc: Global,
    repo: &Repo,
    copy: &mut WorkingCopy,
    request: &Request,
    capacity: Option<usize>,
    log: &mut Log,
) -> Result<Outcome, Fail> {
    if copy.check_true(repo).is_err() {
        return Err(Fail::from("the copy is not true"));
    }
    match capacity {
        Some(capacity) => {
            let (outcome, _passed) = run(rt, alloc, repo, copy, request, capacity, &NoGate, log)?;
            Ok(outcome)
        }
        None => Ok(run_in_turn(alloc, repo, copy, request, log)?),
    }
}

// What is heard of an update from the empty revision.
fn heard<R: Threads + Wait + Sync>(
    rt: &R,
    alloc: Global,
    request: &Request,
    capacity: Option<usize>,
) -> Result<String, Fail> {
    let repo = repository(alloc, &HISTORY)?;
    let mut copy = WorkingCopy::checkout(alloc, &repo, Rev(0))?;
    let mut log = Log {
        text: String::new(alloc),
    };
    log.text.push_str("\n")?;
    run_with(rt, alloc, &repo, &mut copy, request, capacity, &mut log)?;
    let Log { text } = log;
    Ok(text)
}

#[test]
fn a_listener_hears_of_each_accepted_call(rt: HostRuntime) -> Result<(), Fail> {
    let requests = [
        (Request::update(Rev(1)), HEARD),
        (Request::update(Rev(1)).late_texts(), HEARD_LATE),
        (Request::update(Rev(1)).cancel_after(3), HEARD_OF_THREE),
    ];
    for (request, wanted) in &requests {
        for capacity in [None, Some(1), Some(64)] {
            let text = heard(&rt, rt.alloc(), request, capacity)?;
            assert!(rt; text.as_str() == *wanted, "{text}");
        }
    }
    Ok(())
}

//! A run that is followed: the path of each file is printed as the file is finished.

use crate::history::{Row, Step, repository};
use anyhow::Result;
use std::alloc::Global;
use yumbeltir::{Call, Listener, RelPath, Repo, Request, Rev, WorkingCopy, run_in_turn};

const FIRST: &[Row] = &[
    ("a", Step::Put("1")),
    ("d", Step::MakeDir),
    ("d/b", Step::Put("1")),
];

const SECOND: &[Row] = &[("a", Step::Put("2")), ("d/c", Step::Put("2"))];

#[derive(Drop)]
struct Progress<'a, R: Print> {
    rt: &'a R,
}

impl<R: Print> Listener for Progress<'_, R> {
    fn accepted(&mut self, call: &Call, path: Option<&RelPath>) {
        if let (Call::CloseFile { .. }, Some(path)) = (call, path) {
            // a line that can't be printed stops nothing
            let _ = println!(self.rt; "{path}");
        }
    }
}

// Updates the copy to the last revision, and prints how that ended.
fn follow<R: Print>(rt: &R, alloc: Global, repo: &Repo, copy: &mut WorkingCopy) -> Result<()> {
    if copy.check_true(repo).is_ok() {
        let request = Request::update(repo.latest());
        let outcome = run_in_turn(alloc, repo, copy, &request, &mut Progress { rt })?;
        println!(rt; "{outcome}")?;
    }
    Ok(())
}

/// Updates a copy of revision 1.
pub(crate) fn run<R: Print>(rt: &R, alloc: Global) -> Result<()> {
    let repo = repository(alloc, &[FIRST, SECOND])?;
    let mut copy = WorkingCopy::checkout(alloc, &repo, Rev(1))?;
    follow(rt, alloc, &repo, &mut copy)
}

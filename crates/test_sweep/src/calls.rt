//! A row by the library's calls, one for each line. A refused call leaves things as they were; one that ran out of memory is made again, and
//! after a run that was given up the copy is true and the same run, made again, ends at its target.
use crate::copies::{build, drive_copy, report};
use crate::printed::has;
use crate::rows::Row;
use crate::runs::{Form, Wanted, run_to_end};
use crate::trouble::{Refusal, Trouble, same};
use std::alloc::Global;
use std::sync::Wait;
use std::thread::Threads;
use svn_repo::{Change, Repo};
use svn_script::{Command, read_command};
use svn_types::Rev;
use svn_wc::WorkingCopy;

fn commit_once(repo: &mut Repo, changes: &[Change]) -> Result<(), Trouble> {
    repo.commit(changes)?;
    Ok(())
}

// A refused commit makes no revision.
fn commit(repo: &mut Repo, changes: &[Change]) -> Result<(), Trouble> {
    let before = repo.latest();
    match commit_once(repo, changes) {
        Err(Trouble::Memory) if repo.latest() == before => commit_once(repo, changes),
        Err(Trouble::Memory) => Err(Trouble::Other("a refused commit makes a revision")),
        answer => answer,
    }
}

// What the lines of a row work on. The copy is one of revision 0 at first.
#[derive(Drop)]
struct State {
    alloc: Global,
    form: Form,
    repo: Repo,
    pending: Vec<Change>,
    copy: WorkingCopy,
}

impl State {
    fn new(alloc: Global, form: Form) -> Result<State, Trouble> {
        let repo = Repo::new(alloc)?;
        let copy = WorkingCopy::checkout(alloc, &repo, Rev(0))?;
        Ok(State {
            alloc,
            form,
            repo,
            pending: Vec::new(alloc),
            copy,
        })
    }

    fn commit(&mut self) -> Result<(), Trouble> {
        let answer = commit(&mut self.repo, &self.pending);
        self.pending.clear();
        answer
    }

    fn keep(&mut self, change: Change) -> Result<(), Trouble> {
        match self.pending.push(change) {
            Ok(()) => Ok(()),
            Err(_) => Err(Trouble::Memory),
        }
    }

    // All commands but changes and runs.
    fn answer(&mut self, command: &Command, printed: &str) -> Result<(), Trouble> {
        let alloc = self.alloc;
        match command {
            Command::Commit => self.commit(),
            Command::Report => report(alloc, &self.copy, printed),
            Command::Drive { rev, late } => {
                drive_copy(alloc, &self.repo, &self.copy, *rev, *late, printed)
            }
            Command::Show => has(alloc, &self.copy, printed, "a copy has something else"),
            _ => build(alloc, &self.repo, &mut self.copy, command),
        }
    }

    fn obey<R: Threads + Wait + Sync>(
        &mut self,
        rt: &R,
        command: &Command,
        printed: &str,
    ) -> Result<(), Trouble> {
        match Wanted::by(self.form, command) {
            Some(wanted) => run_to_end(
                rt,
                self.alloc,
                &self.repo,
                &mut self.copy,
                &wanted,
                printed,
            ),
            None => self.answer(command, printed),
        }
    }

    fn take<R: Threads + Wait + Sync>(
        &mut self,
        rt: &R,
        line: &str,
        printed: &str,
    ) -> Result<(), Trouble> {
        match read_command(self.alloc, line.as_bytes())? {
            Command::Nothing => Ok(()),
            Command::Change(change) => self.keep(change),
            command => self.obey(rt, &command, printed),
        }
    }
}

fn is_refused(alloc: Global, refusal: Refusal, printed: &str) -> Result<(), Trouble> {
    let found = format!(in alloc; "{refusal}\n")?;
    same(&found, printed, "a command is refused otherwise")
}

fn take_line<R: Threads + Wait + Sync>(
    rt: &R,
    alloc: Global,
    state: &mut State,
    line: &str,
    printed: &str,
) -> Result<(), Trouble> {
    match state.take(rt, line, printed) {
        Err(Trouble::Refused(refusal)) => is_refused(alloc, refusal, printed),
        answer => answer,
    }
}

fn take_all<R: Threads + Wait + Sync>(
    rt: &R,
    alloc: Global,
    state: &mut State,
    row: &Row,
) -> Result<(), Trouble> {
    for (line, printed) in row.lines {
        take_line(rt, alloc, state, line, printed)?;
    }
    Ok(())
}

/// Makes the calls of a row.
pub(crate) fn call_row<R: Threads + Wait + Sync>(
    rt: &R,
    alloc: Global,
    row: &Row,
    form: Form,
) -> Result<(), Trouble> {
    let mut state = State::new(alloc, form)?;
    take_all(rt, alloc, &mut state, row)
}

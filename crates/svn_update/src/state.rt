//! What a script works on, and what its commands do.
ghost use Rattle.std.specs.Prelude.{◌≡◌, ◌∷◌, ◌++◌, [], OnOk, OnErr};
ghost use Rattle.std.specs.Io.KnownBytes.{Appends};
ghost use Rattle.svn_update.specs.Answers.{answer_text};
ghost use Rattle.svn_update.specs.ScriptStates.{state_on};
ghost use Rattle.svn_update.specs.Commands.{AddsChange, Does};

use crate::answer::{Answer, AnswerLines, Refusal};
use crate::runs::asked_for;
use law_copy::commits_keep_copies_true;
use std::alloc::{AllocError, Global};
use std::io;
use std::io::Write;
use std::marker::Model;
use std::sync::Wait;
use std::thread::Threads;
use svn_editor::Mode;
use svn_repo::{Change, CommitFault, Repo};
use svn_script::{Command, Settings};
use svn_wc::WorkingCopy;

/// A repository, the changes for its next commit, and a working copy once one was checked out. A contract sees it as these three. The copy is true
/// of the repository at any moment, so no command tests it before a drive or a run.
#[derive(Drop)]
pub(crate) struct State {
    pub(crate) alloc: Global,
    pub(crate) repo: Repo,
    pending: Vec<Change>,
    pub(crate) copy: Option<WorkingCopy>,
}

impl Model for State {
    ghost use Rattle.svn_update.specs.ScriptStates.{ScriptState, CopyIsTrue};

    ghost Value = { ScriptState };

    ghost view = { λ s. record { repo = s.repo; pending = s.pending.items; copy = s.copy } };

    ghost invariant = { λ s. CopyIsTrue s.repo s.copy };
}

impl State {
    /// A repository, no changes and no working copy.
    pub(crate) fn on(alloc: Global, repo: Repo) -> State
        ensures { result ≡ state_on repo }
    {
        State {
            alloc,
            repo,
            pending: Vec::new(alloc),
            copy: None,
        }
    }

    /// One more change for the next commit. AllocError if an allocation fails: the state is as it was.
    pub(crate) fn push_change(&mut self, change: Change) -> Result<(), AllocError>
        ensures pushed { OnOk result (self.new ≡ record self.old { pending = self.old.pending ++ change ∷ [] }) }
        ensures refused { OnErr result (self.new ≡ self.old) }
    {
        match self.pending.push(change) {
            Ok(()) => Ok(()),
            Err(_) => Err(AllocError),
        }
    }

    fn add_change(&mut self, change: Change) -> Answer
        ensures { AddsChange change self.old self.new result }
    {
        match self.push_change(change) {
            Ok(()) => Answer::Silent,
            Err(_) => Answer::Refused(Refusal::Memory),
        }
    }

    fn commit(&mut self, settings: Settings) -> Answer
        ensures { Does settings Command.Commit self.old self.new result }
    {
        // what the copy came from is in the grown repository too
        self.repo.law();
        commits_keep_copies_true();
        let committed = self.repo.commit(&self.pending);
        self.pending.clear();
        match committed {
            Ok(rev) => Answer::Committed(rev),
            Err(fault) => Answer::Refused(Refusal::Commit(fault)),
        }
    }

    fn show(&self, settings: Settings) -> Answer
        ensures { Does settings Command.Show self.now self.now result }
    {
        match &self.copy {
            Some(_) => Answer::Nodes,
            None => Answer::Refused(Refusal::NoCopy),
        }
    }

    /// Does what a command says, its runs as the settings say.
    pub(crate) fn run<T: Threads + Wait + Sync>(
        &mut self,
        rt: &T,
        settings: Settings,
        command: Command,
    ) -> Answer
        ensures { Does settings command self.old self.new result }
    {
        match command {
            Command::Nothing => Answer::Silent,
            Command::Change(change) => self.add_change(change),
            Command::Commit => self.commit(settings),
            Command::Checkout { rev, path } => self.checkout(&path, rev),
            Command::Place { path, rev } => self.place(&path, rev),
            Command::Switch {
                path,
                repos_path,
                rev,
            } => self.switch(&path, &repos_path, rev),
            Command::Forget { path } => self.forget(&path),
            Command::Report => self.report(),
            Command::Drive { rev, late } => self.drive(rev, late),
            Command::Update {
                rev,
                cancel_after,
                late,
            } => {
                let request = asked_for(Mode::Update, rev, cancel_after, late);
                self.run_to(rt, settings, &request)
            }
            Command::SwitchTo {
                repos_path,
                rev,
                cancel_after,
                late,
            } => {
                let request = asked_for(Mode::SwitchTo(repos_path), rev, cancel_after, late);
                self.run_to(rt, settings, &request)
            }
            Command::Show => self.show(settings),
        }
    }

    /// Prints the result of a command.
    pub(crate) fn print<W: Write>(&self, answer: &Answer, writer: &mut W) -> io::Result<()>
        ensures { OnOk result (Appends (W.contents writer.old) (W.contents writer.new) (answer_text self.now.copy answer.now)) }
    {
        let lines = AnswerLines {
            answer,
            copy: &self.copy,
        };
        write!(writer, "{lines}")
    }
}

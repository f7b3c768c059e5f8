//! What the commands on the working copy do.
ghost use Rattle.std.specs.Prelude.{◌≡◌, None};
ghost use Rattle.svn_editor.specs.declared.mode.Mode.TheVariants.{Update};
ghost use Rattle.svn_model.specs.Checks.{target_fault};
ghost use Rattle.svn_model.specs.Drive.{IsDrive};
ghost use Rattle.svn_model.specs.Crawl.{crawl};
ghost use Rattle.svn_drive.specs.Requests.{requested, input_of, drive_for};
ghost use Rattle.svn_run.specs.UpdateTheorem.{asked};
ghost use Rattle.svn_update.specs.Commands.{AnswersCheckout, AnswersPlace, AnswersSwitch, AnswersForget, AnswersReport, AnswersDrive, AnswersRun, KeepsRepo, OnCopy, answer_built, IsRecorded};

use crate::answer::{Answer, Refusal};
use crate::kept_calls::KeptCalls;
use crate::runs::run_copy;
use crate::state::State;
use law_drive::the_calls_are_a_drive;
use law_update::crawl_says_what_stands;
use std::sync::Wait;
use std::thread::Threads;
use svn_drive::{DriveOptions, Request, drive};
use svn_model::WcFault;
use svn_report::Report;
use svn_script::Settings;
use svn_types::{RelPath, Rev};
use svn_wc::WorkingCopy;

// What is printed of a copy that a command would change.
fn built(answer: Result<(), WcFault>) -> Answer
    ensures { result ≡ answer_built answer }
{
    match answer {
        Ok(()) => Answer::Done,
        Err(fault) => Answer::Refused(Refusal::Copy(fault)),
    }
}

impl State {
    /// Makes the working copy anew. A refusal leaves the one that was there.
    pub(crate) fn checkout(&mut self, path: &RelPath, rev: Rev) -> Answer
        ensures keeps { KeepsRepo self.old self.new }
        ensures answer { AnswersCheckout self.old.repo path.now rev self.old.copy self.new.copy result }
    {
        match WorkingCopy::checkout_at(self.alloc, &self.repo, path, rev) {
            Ok(copy) => {
                // its nodes are in path order
                copy.law();
                self.copy = Some(copy);
                Answer::Done
            }
            Err(fault) => Answer::Refused(Refusal::Copy(fault)),
        }
    }

    pub(crate) fn place(&mut self, path: &RelPath, rev: Rev) -> Answer
        ensures keeps { KeepsRepo self.old self.new }
        ensures answer { OnCopy (λ w. AnswersPlace self.old.repo w path.now rev self.new.copy result) self.old.copy self.new.copy result }
    {
        let Some(copy) = &mut self.copy else {
            return Answer::Refused(Refusal::NoCopy);
        };
        let placed = copy.place(&self.repo, path, rev);
        copy.law();
        built(placed)
    }

    pub(crate) fn switch(&mut self, path: &RelPath, repos_path: &RelPath, rev: Rev) -> Answer
        ensures keeps { KeepsRepo self.old self.new }
        ensures answer { OnCopy (λ w. AnswersSwitch self.old.repo w path.now repos_path.now rev self.new.copy result) self.old.copy self.new.copy result }
    {
        let Some(copy) = &mut self.copy else {
            return Answer::Refused(Refusal::NoCopy);
        };
        let switched = copy.switch(&self.repo, path, repos_path, rev);
        copy.law();
        built(switched)
    }

    pub(crate) fn forget(&mut self, path: &RelPath) -> Answer
        ensures keeps { KeepsRepo self.old self.new }
        ensures answer { OnCopy (λ w. AnswersForget w path.now self.new.copy result) self.old.copy self.new.copy result }
    {
        let Some(copy) = &mut self.copy else {
            return Answer::Refused(Refusal::NoCopy);
        };
        let forgotten = copy.forget(path);
        copy.law();
        built(forgotten)
    }

    pub(crate) fn report(&self) -> Answer
        ensures { OnCopy (λ w. AnswersReport w result) self.now.copy self.now.copy result }
    {
        let Some(copy) = &self.copy else {
            return Answer::Refused(Refusal::NoCopy);
        };
        copy.law();
        match copy.crawl(self.alloc) {
            Ok(report) => Answer::Reported(report),
            Err(fault) => Answer::Refused(Refusal::Copy(fault)),
        }
    }

    /// Drives what the copy reports, and keeps the calls.
    pub(crate) fn drive(&self, rev: Rev, late: bool) -> Answer
        ensures { OnCopy (λ w. AnswersDrive self.now.repo w (input_of self.now.repo (crawl w) (requested rev Update late None)) late result) self.now.copy self.now.copy result }
    {
        let Some(copy) = &self.copy else {
            return Answer::Refused(Refusal::NoCopy);
        };
        self.repo.law();
        copy.law();
        crawl_says_what_stands();
        the_calls_are_a_drive();
        match copy.crawl(self.alloc) {
            Ok(report) => self.drive_report(&report, rev, late),
            Err(fault) => Answer::Refused(Refusal::Copy(fault)),
        }
    }

    // Drives a report.
    fn drive_report(&self, report: &Report, rev: Rev, late: bool) -> Answer
        requires drive { let w = requested rev Update late None in target_fault (input_of self.now.repo report.now w) ≡ None → IsDrive (input_of self.now.repo report.now w) late (drive_for self.now.repo report.now w) }
        ensures { IsRecorded (input_of self.now.repo report.now (requested rev Update late None)) late result }
    {
        let mut kept = KeptCalls::new(self.alloc);
        let options = DriveOptions {
            cancel_after: None,
            late_texts: late,
        };
        match drive(self.alloc, &self.repo, report, rev, options, &mut kept) {
            Ok(_) => Answer::Driven(kept),
            Err(fault) => Answer::Refused(Refusal::Drive(fault)),
        }
    }

    /// Updates the copy, or switches it whole.
    pub(crate) fn run_to<T: Threads + Wait + Sync>(
        &mut self,
        rt: &T,
        settings: Settings,
        request: &Request,
    ) -> Answer
        ensures keeps { KeepsRepo self.old self.new }
        ensures answer { OnCopy (λ w. AnswersRun settings (asked self.old.repo w request.now) self.new.copy result) self.old.copy self.new.copy result }
    {
        let Some(copy) = &mut self.copy else {
            return Answer::Refused(Refusal::NoCopy);
        };
        let ended = run_copy(rt, self.alloc, settings, &self.repo, copy, request);
        copy.law();
        match ended {
            Ok(outcome) => Answer::Ended(outcome),
            Err(fault) => Answer::Refused(Refusal::Run(fault)),
        }
    }
}

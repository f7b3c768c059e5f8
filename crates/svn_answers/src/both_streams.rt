//! Answers on both streams: what is written of copies, and the lines of what is heard of them.
ghost use Rattle.std.specs.Prelude.{◌≡◌, false, ℕ, List, map, IfOk};
ghost use Rattle.std.specs.Io.KnownBytes.{Appends};
ghost use Rattle.svn_answers.specs.Answers.{Checks, Tells, compared};
ghost use Rattle.std.specs.Option.{option_copied};
ghost use Rattle.svn_answers.specs.LiveAnswers.{LiveChecks};
ghost use Rattle.svn_answers.specs.NoticeLines.{WritesText, notice_lines};
ghost use Rattle.svn_answers.specs.Notices.{Heard};

use crate::asked::Asked;
use crate::copies::Copies;
use crate::fault::{AnswerFault, TellFault};
use crate::live::{Live, LiveAnswerFault, Server};
use crate::notice_lines::WrittenNotices;
use crate::telling::Inquiry;
use crate::verdict::Verdict;
use std::fmt;
use std::io::Write;
use svn_live_audit::LiveListener;

impl<C: Copies> Asked<'_, C> {
    /// As [`Asked::check`], with each notice written as a line.
    pub fn check_written<W: Write, E: Write>(
        &self,
        names: &[&str],
        output: &mut W,
        errors: &mut WrittenNotices<'_, C, E>,
    ) -> Result<Verdict, AnswerFault>
        ensures { IfOk result (λ v. (text : List ℕ) × (heard : Heard C.Fault) × Checks C.Fault (C.opens self.now.copies.now) (C.stayed self.now.copies.now) (compared self.now.history) (map (λ name. name.now) names.now) v text heard × Appends (W.contents output.old) (W.contents output.new) text × WritesText errors.old.failed (E.contents errors.old.output) errors.new.failed (E.contents errors.new.output) (notice_lines (C.lacks_memory errors.old.copies.now) ⟦<TellFault<C::Fault> as fmt::Display>⟧.output heard)) }
    {
        self.check(names, output, errors)
    }

    /// As [`Asked::answer`], with each notice written as a line.
    pub fn answer_written<W: Write, E: Write>(
        &self,
        inquiry: Inquiry,
        name: &str,
        output: &mut W,
        errors: &mut WrittenNotices<'_, C, E>,
    ) -> Result<Verdict, AnswerFault>
        ensures { IfOk result (λ v. (text : List ℕ) × (heard : Heard C.Fault) × Tells C.Fault (C.opens self.now.copies.now) (C.stayed self.now.copies.now) (compared self.now.history) inquiry name.now v text heard × Appends (W.contents output.old) (W.contents output.new) text × WritesText errors.old.failed (E.contents errors.old.output) errors.new.failed (E.contents errors.new.output) (notice_lines (C.lacks_memory errors.old.copies.now) ⟦<TellFault<C::Fault> as fmt::Display>⟧.output heard)) }
    {
        self.answer(inquiry, name, output, errors)
    }
}

impl<'a, C: Copies, S: Server + Drop> Live<'a, C, S> {
    /// As [`Live::check`], with each notice written as a line.
    pub fn check_written<W: Write, E: Write, L: LiveListener>(
        &mut self,
        names: &[&str],
        output: &mut W,
        errors: &mut WrittenNotices<'_, C, E>,
        listener: &mut L,
    ) -> Result<Verdict, LiveAnswerFault<S::Fault>>
        ensures { IfOk result (λ v. (text : List ℕ) × (heard : Heard C.Fault) × LiveChecks S.Input.remaining C.Fault (C.opens self.old.copies.now) (C.stayed self.old.copies.now) (option_copied self.old.url) (map (λ name. name.now) names.now) v text heard self.old.line self.new.line × Appends (W.contents output.old) (W.contents output.new) text × WritesText errors.old.failed (E.contents errors.old.output) errors.new.failed (E.contents errors.new.output) (notice_lines (C.lacks_memory errors.old.copies.now) ⟦<TellFault<C::Fault> as fmt::Display>⟧.output heard)) }
    {
        self.check(names, output, errors, listener)
    }
}

//! Questions about working copies, and their answers.
ghost use Rattle.std.specs.Prelude.{◌≡◌, ℕ, false, List, map, IfOk, IfErr, OnOk, Ok};
ghost use Rattle.std.specs.Io.KnownBytes.{Appends};
ghost use Rattle.std.specs.Option.{option_copied};
ghost use Rattle.svn_wcdb.specs.declared.depth.Takes.TheVariants as takes;
ghost use Rattle.svn_wcdb.specs.Sparse.{seen_left_out};
ghost use Rattle.svn_answers.specs.Answers.{Answer, IsAudited, IsCopyFault, IsAnswer, IsTellable, Checks, answer_text, notices_of, verdict_of, compared, has_early, wanted_uuid};
ghost use Rattle.svn_answers.specs.Entries.{entry_of};
ghost use Rattle.svn_answers.specs.Lines.{checked_text};
ghost use Rattle.svn_answers.specs.Notices.{Heard, HearsAll};

use crate::checked::Checked;
use crate::copies::{Copies, Opened};
use crate::entry::entry_of;
use crate::examination::Examination;
use crate::fault::{AnswerFault, CopyFault, TellFault};
use crate::notices::{Notices, hear_fault, hear_notes};
use crate::revisions::{or_zero, span_of};
use crate::source::Source;
use crate::untold::{has_untold, has_untold_root};
use crate::verdict::Verdict;
use std::alloc::{AllocError, Global};
use std::io::Write;
use svn_disk_audit::{AuditFault, Audited, Question, Reading, audit};
use svn_dump::Texts;
use svn_repo::Repo;
use svn_types::{Name, RelPath};
use svn_wc::WorkingCopy;
use svn_wcdb::{Notes, Takes};

/// What working copies are compared with.
#[derive(Clone, Copy)]
pub struct History<'a> {
    /// The repository.
    pub repo: &'a Repo,
    /// How it keeps texts, and the copies then too.
    pub texts: Texts,
    /// Its UUID, if the dump has one.
    pub uuid: Option<&'a [u8]>,
    /// Whether copies of another UUID are taken too.
    pub any_uuid: bool,
    /// The number of the dump's first revision, 0 where it has none: it doesn't tell of those before.
    pub first: u64,
}

/// What a working copy on disk has.
#[derive(Drop)]
pub struct OnDisk {
    /// The copy, and what isn't true of it.
    pub audited: Audited,
    /// What was passed over.
    pub notes: Option<Notes>,
    /// Whether its repository may be another by its UUID.
    pub any_uuid: bool,
    /// Whether it has the repository's root, whose properties the dump may not tell.
    pub untold_root: bool,
    /// The entry that it is of the directory above it, where an update of that can delete it. None is looked for where sparse copies are taken.
    pub entry: Option<Name>,
}

// Whether there are nodes of revisions before the first of a dump, which doesn't tell of them. Revision 0 has nothing.
fn has_early(first: u64, copy: &WorkingCopy) -> bool
    ensures { result ≡ has_early first copy.now }
{
    first > 1 && or_zero(span_of(copy).first) < first
}

// The entry that a folder is of the directory above it, where none but whole copies are taken.
fn entry_in(
    alloc: Global,
    takes: Takes,
    database: &[u8],
    below: &RelPath,
    copy: &WorkingCopy,
) -> Result<Option<Name>, AllocError>
    ensures { IfOk result (λ entry. entry ≡ entry_of takes database.now below.now copy.now) }
{
    match takes {
        Takes::Whole => entry_of(alloc, database, below, copy),
        Takes::Sparse => Ok(None),
    }
}

/// What is asked of working copies: they are opened, and compared with a history.
#[derive(Drop)]
pub struct Asked<'a, C> {
    /// The allocator.
    pub alloc: Global,
    /// The history.
    pub history: History<'a>,
    /// What opens the copies.
    pub copies: &'a C,
}

impl<C: Copies> Asked<'_, C> {
    // The UUID that a copy must have, if one is asked for.
    fn wanted_uuid(&self) -> Option<&[u8]>
        ensures { option_copied result ≡ wanted_uuid (compared self.now.history) }
    {
        if self.history.any_uuid {
            None
        } else {
            self.history.uuid
        }
    }

    // Audits the copy that a word names, whatever the revisions of its nodes are.
    fn audit_opened(&self, takes: Takes, name: &str) -> Result<OnDisk, CopyFault<C::Fault>>
        ensures audited { IfOk result (λ d. IsAudited takes (C.opens self.now.copies.now) (C.stayed self.now.copies.now) (compared self.now.history) name.now d) }
        ensures refused { IfErr result (λ e. IsCopyFault takes (C.opens self.now.copies.now) (C.stayed self.now.copies.now) (compared self.now.history) name.now e) }
    {
        let Opened {
            database,
            below,
            examiner,
        } = match self.copies.open(name) {
            Ok(opened) => opened,
            Err(fault) => return Err(CopyFault::Refused(fault)),
        };
        let mut examination = Examination {
            alloc: self.alloc,
            uuid: self.wanted_uuid(),
            notes: None,
            examiner,
        };
        let reading = Reading {
            takes,
            texts: self.history.texts,
            below: &below,
        };
        let question = Question {
            repo: self.history.repo,
            reading,
        };
        let audited = audit(self.alloc, question, &database, &mut examination);
        if let Err(fault) = self
            .copies
            .look_again(name, &database, &examination.examiner)
        {
            return Err(CopyFault::Refused(fault));
        }
        let audited = match audited {
            Ok(audited) => audited,
            Err(fault) => return Err(CopyFault::Audit(fault)),
        };
        let Ok(entry) = entry_in(self.alloc, takes, &database, &below, &audited.copy) else {
            return Err(CopyFault::Audit(AuditFault::Memory));
        };
        Ok(OnDisk {
            untold_root: has_untold_root(self.history.first, &audited.copy),
            audited,
            notes: examination.notes,
            any_uuid: self.history.any_uuid,
            entry,
        })
    }

    /// Audits the copy that a word names, or the part of one that is in the folder of that name, as a copy of its own, which may be sparse where such
    /// copies are taken. Refused as the opener refuses it, then where it was changed while it was read, then as [`audit`] refuses it: so no fault is
    /// reported of bytes that were read while they changed. Then Early, where it has nodes of revisions before the first of the dump, or none of any revision;
    /// then Untold, where the repository's root is untrue by a property, and the dump begins late.
    pub fn audit_copy(&self, takes: Takes, name: &str) -> Result<OnDisk, CopyFault<C::Fault>>
        ensures audited { IfOk result (λ d. IsTellable takes (C.opens self.now.copies.now) (C.stayed self.now.copies.now) (compared self.now.history) name.now d) }
        ensures refused { IfErr result (λ e. IsCopyFault takes (C.opens self.now.copies.now) (C.stayed self.now.copies.now) (compared self.now.history) name.now e) }
    {
        let found = self.audit_opened(takes, name)?;
        let first = self.history.first;
        if has_early(first, &found.audited.copy) {
            return Err(CopyFault::Early(first));
        }
        if has_untold(first, &found.audited) {
            return Err(CopyFault::Untold(first));
        }
        Ok(found)
    }

    // Answers the question of one copy.
    fn check_one<W: Write, N: Notices<C::Fault>>(
        &self,
        name: &str,
        output: &mut W,
        notices: &mut N,
    ) -> Result<Verdict, AnswerFault>
        ensures { IfOk result (λ v. (a : Answer C.Fault) × IsAnswer takes.Sparse (C.opens self.now.copies.now) (C.stayed self.now.copies.now) (compared self.now.history) name.now a × (v ≡ verdict_of a) × Appends (W.contents output.old) (W.contents output.new) (answer_text name.now a) × HearsAll N.hears (notices_of name.now a) notices.old notices.new) }
    {
        match self.audit_copy(Takes::Sparse, name) {
            Ok(found) => {
                hear_notes(name, found.notes, notices);
                write_checked(name, &found, output)?;
                Ok(Verdict::on(&found.audited.untrue))
            }
            Err(fault) => {
                hear_fault(name, TellFault::Copy(fault), notices);
                Ok(Verdict::Refused)
            }
        }
    }

    /// Answers whether the copies that words name are true of the history: writes the lines of each that is audited, in the order of the words, and returns
    /// the worst of all verdicts. A copy that is refused doesn't keep the others from their answer: why, and what was passed over of a copy, is heard
    /// in the order of the words. Write where the writer fails; no more copies are audited then. It is flushed after each copy.
    pub fn check<W: Write, N: Notices<C::Fault>>(
        &self,
        names: &[&str],
        output: &mut W,
        notices: &mut N,
    ) -> Result<Verdict, AnswerFault>
        ensures answers { IfOk result (λ v. (text : List ℕ) × (heard : Heard C.Fault) × Checks C.Fault (C.opens self.now.copies.now) (C.stayed self.now.copies.now) (compared self.now.history) (map (λ name. name.now) names.now) v text heard × Appends (W.contents output.old) (W.contents output.new) text × HearsAll N.hears heard notices.old notices.new) }
    {
        let mut verdict = Verdict::True;
        for name in names {
            let answer = self.check_one(name, output, notices)?;
            verdict = verdict.worse(answer);
        }
        Ok(verdict)
    }
}

/// Writes the lines of a copy.
pub(crate) fn write_checked<W: Write>(
    name: &str,
    found: &OnDisk,
    output: &mut W,
) -> Result<(), AnswerFault>
    ensures { OnOk result (Appends (W.contents output.old) (W.contents output.new) (checked_text name.now found.now.audited.copy found.now.audited.untrue.items (seen_left_out found.now.audited.left_out) (found.now.any_uuid, found.now.untold_root))) }
{
    let checked = Checked {
        name: Source(name),
        copy: &found.audited.copy,
        untrue: &found.audited.untrue,
        left_out: &found.audited.left_out,
        any_uuid: found.any_uuid,
        untold_root: found.untold_root,
    };
    if write!(output, "{checked}").is_err() || output.flush().is_err() {
        return Err(AnswerFault::Write);
    }
    Ok(())
}

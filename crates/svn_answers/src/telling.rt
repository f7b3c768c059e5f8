//! What is asked of one copy, and its answer.
ghost use Rattle.std.specs.Prelude.{◌≡◌, ◌≢◌, false, ℕ, List, [], ◌∷◌, IfOk, IfErr, OnOk};
ghost use Rattle.svn_audit.specs.declared.reason.Untrue.{Untrue};
ghost use Rattle.std.specs.Io.KnownBytes.{Appends};
ghost use Rattle.svn_answers.specs.declared.fault.TellFault.TheVariants as faults;
ghost use Rattle.svn_answers.specs.declared.topic.TopicFault.TheVariants.{Write as NotWritten};
ghost use Rattle.svn_wcdb.specs.declared.depth.Takes.TheVariants as takes;
ghost use Rattle.svn_answers.specs.Answers.{Answer, IsAnswer, IsTellFault, IsToldOf, Tells, compared, passed_over};
ghost use Rattle.svn_answers.specs.Notices.{Heard, HearsAll};

use crate::asked::{Asked, OnDisk};
use crate::copies::Copies;
use crate::fault::{AnswerFault, TellFault};
use crate::notices::{Notices, hear_fault, hear_notes};
use crate::topic::{Topic, TopicFault};
use crate::topics::{Told, write_topic};
use crate::verdict::Verdict;
use std::io::Write;
use svn_audit::Untrue;
use svn_disk_audit::Audited;
use svn_wcdb::Takes;

/// What is asked of a copy.
#[derive(Clone, Copy, Debug, PartialEq, Eq)]
pub struct Inquiry {
    /// What.
    pub topic: Topic,
    /// Whether a copy is taken that isn't true of the history.
    pub allow_untrue: bool,
}

// Refuses a copy with untrue paths, unless they are allowed.
fn refuse_untrue<F>(allow_untrue: bool, untrue: Vec<Untrue>) -> Result<(), TellFault<F>>
    ensures none { OnOk result (allow_untrue ≡ false → untrue.items ≡ []) }
    ensures fault { IfErr result (λ e. (u : Untrue) × (rest : List Untrue) × (e ≡ faults.Untrue u) × (allow_untrue ≡ false) × (untrue.items ≡ u ∷ rest)) }
{
    match untrue.into_iter().next() {
        Some(untrue) if !allow_untrue => Err(TellFault::Untrue(untrue)),
        _ => Ok(()),
    }
}

impl<C: Copies> Asked<'_, C> {
    // Writes the answer.
    fn tell<W: Write, N: Notices<C::Fault>>(
        &self,
        inquiry: Inquiry,
        name: &str,
        output: &mut W,
        notices: &mut N,
    ) -> Result<(), TellFault<C::Fault>>
        ensures told { OnOk result ((text : List ℕ) × (found : Answer C.Fault) × IsAnswer takes.Whole (C.opens self.now.copies.now) (C.stayed self.now.copies.now) (compared self.now.history) name.now found × IsToldOf (compared self.now.history) inquiry found text × Appends (W.contents output.old) (W.contents output.new) text × HearsAll N.hears (passed_over name.now found) notices.old notices.new) }
        ensures fault { IfErr result (λ e. e ≢ faults.Topic NotWritten → (found : Answer C.Fault) × IsAnswer takes.Whole (C.opens self.now.copies.now) (C.stayed self.now.copies.now) (compared self.now.history) name.now found × IsTellFault (compared self.now.history) inquiry found e × Appends (W.contents output.old) (W.contents output.new) [] × HearsAll N.hears (passed_over name.now found) notices.old notices.new) }
    {
        let OnDisk {
            audited,
            notes,
            entry,
            ..
        } = match self.audit_copy(Takes::Whole, name) {
            Ok(found) => found,
            Err(fault) => return Err(TellFault::Copy(fault)),
        };
        hear_notes(name, notes, notices);
        let Audited {
            mut copy,
            untrue,
            ..
        } = audited;
        refuse_untrue(inquiry.allow_untrue, untrue)?;
        match write_topic(
            self.alloc,
            self.history.repo,
            &mut copy,
            &Told {
                topic: inquiry.topic,
                entry: entry.as_ref(),
            },
            output,
        ) {
            Ok(()) => Ok(()),
            Err(fault) => Err(TellFault::Topic(fault)),
        }
    }

    /// Answers what is asked of the copy that a word names: writes it, and returns True; or nothing, where the copy or its update is refused, and returns
    /// Refused. Why, and what was passed over of the copy, is heard. Write where the writer fails.
    pub fn answer<W: Write, N: Notices<C::Fault>>(
        &self,
        inquiry: Inquiry,
        name: &str,
        output: &mut W,
        notices: &mut N,
    ) -> Result<Verdict, AnswerFault>
        ensures { IfOk result (λ v. (text : List ℕ) × (heard : Heard C.Fault) × Tells C.Fault (C.opens self.now.copies.now) (C.stayed self.now.copies.now) (compared self.now.history) inquiry name.now v text heard × Appends (W.contents output.old) (W.contents output.new) text × HearsAll N.hears heard notices.old notices.new) }
    {
        match self.tell(inquiry, name, output, notices) {
            Ok(()) => Ok(Verdict::True),
            Err(TellFault::Topic(TopicFault::Write)) => Err(AnswerFault::Write),
            Err(fault) => {
                hear_fault(name, fault, notices);
                Ok(Verdict::Refused)
            }
        }
    }
}

//! What comes of each item of a connection.
ghost use Rattle.std.specs.Prelude.{◌≡◌, ◌++◌, option_map, IfOk, IfErr, MatchOption, OnOk, Ok};
ghost use Rattle.svn_wire.specs.Streams.{reads_now, HoldsWithin, TakesItem as TakesTokens};
ghost use Rattle.svn_ask.specs.Reading.{Fails};
ghost use Rattle.svn_ask.specs.Asking.{answered, asked_at, is_opened, taken};
ghost use Rattle.svn_ask.specs.Openings.{opened};
ghost use Rattle.svn_ask.specs.Courses.{item_fault, FailsItem};

use crate::answer::said_of;
use crate::fault::{AskFault, Reason};
use crate::hearer::Hearer;
use crate::opening::{Speaker, Step, no_mechanism, step_on};
use crate::questions::Questions;
use std::alloc::{AllocError, Global};
use svn_wire::{ItemStream, Stop, Token, WireFault};

/// What a client waits for.
#[derive(Drop)]
pub(crate) struct Talk {
    pub(crate) alloc: Global,
    pub(crate) speaker: Speaker,
    pub(crate) step: Step,
    // Whether what is before the next answer came.
    pub(crate) is_next: bool,
}

/// Whether the connection is open.
pub(crate) fn is_opened(step: Step) -> bool
    ensures { result ≡ is_opened step }
{
    match step {
        Step::Opened => true,
        Step::Greeting
        | Step::Mechanisms
        | Step::Admission
        | Step::Repository
        | Step::ReparentMechanisms
        | Step::Reparented => false,
    }
}

/// Asks as many questions as there is room for, if the connection is open.
pub(crate) fn ask_at(
    step: Step,
    questions: &mut Questions<'_>,
    out: &mut Vec<u8>,
) -> Result<(), AllocError>
    ensures asked { OnOk result (questions.new ≡ (asked_at step questions.old).0) }
    ensures written { OnOk result (out.new.items ≡ out.old.items ++ (asked_at step questions.old).1) }
{
    if is_opened(step) {
        questions.send(out)
    } else {
        Ok(())
    }
}

// What a fault of reading comes to: where more bytes are needed it is none.
fn waits(fault: WireFault) -> Result<(), AskFault>
    ensures { result ≡ item_fault fault }
{
    match fault {
        WireFault::Stopped(Stop::More) => Ok(()),
        WireFault::Stopped(Stop::Bad(malformed)) => {
            Err(AskFault::Refused(Reason::BadItem(malformed)))
        }
        WireFault::Memory => Err(AskFault::Memory),
    }
}

// The next item, if all its bytes came.
fn next_item(stream: &mut ItemStream) -> Result<Option<Vec<Token>>, AskFault>
    ensures item { IfOk result (λ item. TakesTokens stream.old (option_map (λ v. v.items) item) stream.new) }
    ensures fault { IfErr result (λ e. FailsItem e (reads_now stream.old)) }
    ensures held { IfOk result (λ item. MatchOption item (HoldsWithin stream.new) (λ _. Unit {0})) }
{
    match stream.next_item() {
        Ok(item) => Ok(item),
        Err(fault) => {
            waits(fault)?;
            Ok(None)
        }
    }
}

impl Talk {
    ghost use Rattle.svn_ask.specs.Talks.{state_at, Ends, IsRefused, OnRefused, Opens, TakesItem};

    // An answer, or the item before it.
    fn answer_on<H: Hearer>(
        &mut self,
        item: &[Token],
        questions: &mut Questions<'_>,
        out: &mut Vec<u8>,
        hearer: &mut H,
    ) -> Result<(), AskFault>
        ensures took { OnOk result (TakesItem H.hears (answered self.old.step self.old.is_next questions.old questions.old.sent item.now) hearer.old out.old.items (state_at self.new questions.new) hearer.new out.new.items) }
        ensures same { self.new.speaker ≡ self.old.speaker }
        ensures fault { IfErr result (λ e. Fails e (answered self.old.step self.old.is_next questions.old questions.old.sent item.now)) }
        ensures kept { OnRefused result ((state_at self.new questions.new ≡ state_at self.old questions.old) × (hearer.new ≡ hearer.old)) }
    {
        let Some(question) = questions.first() else {
            return Err(AskFault::Refused(Reason::Unasked));
        };
        if !self.is_next {
            no_mechanism(self.alloc, item)?;
            self.is_next = true;
            return Ok(());
        }
        let said = said_of(self.alloc, question.wanted, question.rev, item)?;
        hearer.hear(&question, said)?;
        self.is_next = false;
        questions.pass_first();
        questions.send(out)?;
        Ok(())
    }

    // An item of the opening.
    fn open_on(
        &mut self,
        item: &[Token],
        questions: &mut Questions<'_>,
        out: &mut Vec<u8>,
    ) -> Result<(), AskFault>
        ensures opened { OnOk result (Opens (opened self.old.speaker self.old.step item.now) questions.old out.old.items (state_at self.new questions.new) out.new.items) }
        ensures same { self.new.speaker ≡ self.old.speaker }
        ensures fault { IfErr result (λ e. Fails e (opened self.old.speaker self.old.step item.now)) }
        ensures kept { OnRefused result (state_at self.new questions.new ≡ state_at self.old questions.old) }
    {
        self.step = step_on(self.alloc, &self.speaker, self.step, item, out)?;
        self.is_next = false;
        ask_at(self.step, questions, out)?;
        Ok(())
    }

    /// Takes an item: puts what is written for it at the end of `out`, and passes an answer on.
    pub(crate) fn take<H: Hearer>(
        &mut self,
        item: &[Token],
        questions: &mut Questions<'_>,
        out: &mut Vec<u8>,
        hearer: &mut H,
    ) -> Result<(), AskFault>
        ensures took { OnOk result (TakesItem H.hears (taken self.old.speaker (state_at self.old questions.old) item.now) hearer.old out.old.items (state_at self.new questions.new) hearer.new out.new.items) }
        ensures same { self.new.speaker ≡ self.old.speaker }
        ensures fault { IfErr result (λ e. Fails e (taken self.old.speaker (state_at self.old questions.old) item.now)) }
        ensures kept { OnRefused result ((state_at self.new questions.new ≡ state_at self.old questions.old) × (hearer.new ≡ hearer.old)) }
    {
        if is_opened(self.step) {
            self.answer_on(item, questions, out, hearer)
        } else {
            self.open_on(item, questions, out)
        }
    }

    /// Takes all items that are whole.
    pub(crate) fn take_all<H: Hearer>(
        &mut self,
        stream: &mut ItemStream,
        questions: &mut Questions<'_>,
        out: &mut Vec<u8>,
        hearer: &mut H,
    ) -> Result<(), AskFault>
        ensures ends { OnOk result (Ends H.hears self.old.speaker stream.old (state_at self.old questions.old) hearer.old out.old.items stream.new (state_at self.new questions.new) hearer.new out.new.items) }
        ensures held { OnOk result (HoldsWithin stream.new) }
        ensures same { self.new.speaker ≡ self.old.speaker }
        ensures refused { IfErr result (λ e. IsRefused H.hears self.old.speaker stream.old (state_at self.old questions.old) hearer.old hearer.new e) }
    {
        'items: while let Some(item) = next_item(stream)? {
            self.take(&item, questions, out, hearer)?;
        }
        Ok(())
    }
}

//! A connection that asks, as bytes of the server come.
ghost use Rattle.std.specs.Prelude.{◌≡◌, ◌++◌, OnOk};
ghost use Rattle.svn_ask.specs.Asking.{asked_at, is_opened};
ghost use Rattle.svn_ask.specs.Courses.{comes_of, end_fault, refused, started, HearsAll, IsFault, UnlessMemory};
ghost use Rattle.svn_ask.specs.Laws.{IsAfter};
ghost use Rattle.svn_wire.specs.Streams.{HoldsWithin};

use crate::fault::{AskFault, Reason};
use crate::hearer::Hearer;
use crate::opening::{Speaker, Step};
use crate::questions::Questions;
use crate::talk::{Talk, ask_at, is_opened};
use std::alloc::{AllocError, Global};
use std::marker::Model;
use svn_wire::{ItemStream, Limits};

/// The client's side of a connection that asks questions. It is fed with the server's bytes, and says what to write. Of these bytes it holds an item
/// that isn't whole, within the limits.
#[derive(Drop)]
pub struct Asking {
    stream: ItemStream,
    talk: Talk,
}

impl Model for Asking {
    ghost use Rattle.svn_ask.specs.Courses.{Connection};

    ghost Value = { Connection };

    ghost view = { λ a. record { stream = a.stream; speaker = a.talk.speaker; step = a.talk.step; is_next = a.talk.is_next } };
}

impl Asking {
    /// A connection on which nothing came. It takes no memory.
    pub fn new(alloc: Global, limits: Limits, speaker: Speaker) -> Asking
        ensures { result ≡ started limits speaker }
    {
        Asking {
            stream: ItemStream::new(alloc, limits),
            talk: Talk {
                alloc,
                speaker,
                step: Step::Greeting,
                is_next: false,
            },
        }
    }

    /// Whether the opening is over: the server took the client in, and serves the repository that was meant.
    pub fn is_open(&self) -> bool
        ensures { result ≡ is_opened self.now.step }
    {
        is_opened(self.talk.step)
    }

    /// Begins a list of questions on a connection that is open, where no question of another list is: puts what must be written now at the end of
    /// `out`. Before the connection is open nothing is written, and `hear` does it once the opening is over.
    pub fn ask(&self, questions: &mut Questions<'_>, out: &mut Vec<u8>) -> Result<(), AllocError>
        ensures asked { OnOk result (questions.new ≡ (asked_at self.now.step questions.old).0) }
        ensures written { OnOk result (out.new.items ≡ out.old.items ++ (asked_at self.now.step questions.old).1) }
    {
        ask_at(self.talk.step, questions, out)
    }

    /// Takes bytes of the server, in any pieces: passes each answer that is whole on with its question, and puts what must be written now at the end
    /// of `out`. All questions that are open must be of this list.
    ///
    /// What is written and heard is what comes of the items that these bytes complete. A refusal is the first from left to right; the answers before
    /// it are heard, and the connection is of no more use, nor is it once an allocation failed.
    pub fn hear<H: Hearer>(
        &mut self,
        bytes: &[u8],
        questions: &mut Questions<'_>,
        out: &mut Vec<u8>,
        hearer: &mut H,
    ) -> Result<(), AskFault>
        // it holds no more than the limits
        ensures held { OnOk result (HoldsWithin self.new.stream) }
        ensures after { OnOk result (IsAfter self.old questions.old bytes.now self.new questions.new) }
        ensures written { OnOk result (out.new.items ≡ out.old.items ++ (comes_of self.old questions.old bytes.now).written) }
        ensures heard { UnlessMemory result (HearsAll H.hears hearer.old (comes_of self.old questions.old bytes.now).heard hearer.new) }
        ensures fault { IsFault result (comes_of self.old questions.old bytes.now).fault }
    {
        self.stream.feed(bytes)?;
        self.talk.take_all(&mut self.stream, questions, out, hearer)
    }

    /// Whether the server's bytes may end here, or a further list of questions may begin: no byte of a further item came, the connection is open, and
    /// all questions are answered. If not, they end within an item (`HalfItem`), or early (`Ended`).
    pub fn end(&self, questions: &Questions<'_>) -> Result<(), AskFault>
        ensures { result ≡ refused (end_fault self.now questions.now) }
    {
        if !self.stream.is_between() {
            return Err(AskFault::Refused(Reason::HalfItem));
        }
        if is_opened(self.talk.step) && !self.talk.is_next && questions.is_done() {
            Ok(())
        } else {
            Err(AskFault::Refused(Reason::Ended))
        }
    }
}

//! A connection to a server, over a reader and a writer.
ghost use Rattle.std.specs.Prelude.{◌≡◌, ◌≤◌, ◌++◌, length, take, true, Some, IfOk, OnOk};
ghost use Rattle.std.specs.Io.KnownBytes.{Consumes};
ghost use Rattle.svn_model.specs.Nodes.{get_in};
ghost use Rattle.svn_live_audit.specs.Conversations.{IsReady, is_ready_if, Hears, Converses, Spoke, IsFirstRound, IsSecondRound, Audits, unheard};

use crate::fault::LiveFault;
use crate::finding::Finding;
use crate::kinds::{KindHearer, questions_again};
use crate::nodes::NodeHearer;
use crate::places::{places_of, questions_of};
use crate::settled::untrue_paths;
use std::alloc::{AllocError, Global};
use std::io::{ErrorKind, Read, Write};
use svn_ask::{AskFault, Asking, Hearer, Question, Questions, Reason as Refusal, Speaker};
use svn_audit::{Reason, Untrue};
use svn_wc::WorkingCopy;
use svn_wire::Limits;

/// How many bytes are read at a time.
const PIECE: usize = 1 << 16;

/// The limits of what a server sends: strings of 16 MiB, and items of 4,194,304 tokens, as a directory of some 340,000 entries has.
pub const SERVER_LIMITS: Limits = Limits {
    text: 16777216,
    depth: 64,
    tokens: 4194304,
};

/// Hears how far a copy is asked for.
pub trait LiveListener {
    /// So many questions of a list are answered, and so many bytes came in all.
    fn answered(&mut self, count: usize, bytes: u64);
}

/// Hears nothing.
#[derive(Clone, Copy, Debug)]
pub struct NoLiveListener;

impl LiveListener for NoLiveListener {
    fn answered(&mut self, _count: usize, _bytes: u64) {}
}

/// The bytes of a server, and what takes those that are sent to it.
#[derive(Drop)]
struct Ends<R, W> {
    input: R,
    output: W,
    // into which is read
    piece: Vec<u8>,
    unwritten: Vec<u8>,
    // how many bytes came
    count: u64,
}

// The answers end before the questions.
fn ended() -> LiveFault {
    LiveFault::Asked(AskFault::Refused(Refusal::Ended))
}

impl<R: Read, W: Write> Ends<R, W> {
    // Writes what must be sent now.
    fn send(&mut self) -> Result<(), LiveFault>
        ensures { self.new.input ≡ self.old.input }
    {
        match self.output.write_all(&self.unwritten) {
            Ok(()) => {}
            Err(error) => return Err(LiveFault::Write(error)),
        }
        self.unwritten.clear();
        match self.output.flush() {
            Ok(()) => Ok(()),
            Err(error) => Err(LiveFault::Write(error)),
        }
    }

    // Reads more bytes of the server; none at their end.
    fn read(&mut self) -> Result<usize, LiveFault>
        ensures count { IfOk result (λ n. n ≤ length self.new.piece.items) }
        ensures read { IfOk result (λ n. Consumes (R.remaining self.old.input) (R.remaining self.new.input) (take n self.new.piece.items)) }
    {
        'reads: for _ in 0..u64::MAX {
            match self.input.read(&mut self.piece) {
                Ok(count) => return Ok(count),
                Err(error) if error.kind() == ErrorKind::Interrupted => {}
                Err(error) => return Err(LiveFault::Read(error)),
            }
        }
        // no server is interrupted so often
        Err(ended())
    }

    // Takes more bytes of the server, and writes what must be sent then.
    fn hear_more<H: Hearer>(
        &mut self,
        asking: &mut Asking,
        questions: &mut Questions<'_>,
        hearer: &mut H,
    ) -> Result<(), LiveFault>
        ensures { OnOk result (Hears R.remaining H.hears self.old.input asking.old questions.old hearer.old self.new.input asking.new questions.new hearer.new) }
    {
        let count = self.read()?;
        if count == 0 {
            asking.end(questions)?;
            return Err(ended());
        }
        self.count = self.count.saturating_add(count as u64);
        asking.hear(&self.piece[..count], questions, &mut self.unwritten, hearer)?;
        self.send()
    }

    // Asks these questions, and has the answers heard.
    fn converse<H: Hearer, L: LiveListener>(
        &mut self,
        asking: &mut Asking,
        mut left: Questions<'_>,
        hearer: &mut H,
        listener: &mut L,
    ) -> Result<(), LiveFault>
        requires { IsReady asking.old }
        ensures { OnOk result (Converses R.remaining H.hears self.old.input asking.old (left.entry.sent ++ left.entry.left) hearer.old self.new.input asking.new hearer.new) }
    {
        asking.ask(&mut left, &mut self.unwritten)?;
        self.send()?;
        'answers: for _ in 0..u64::MAX {
            if left.is_done() {
                asking.end(&left)?;
                return Ok(());
            }
            self.hear_more(asking, &mut left, hearer)?;
            listener.answered(left.answered(), self.count);
        }
        // no list has so many
        Err(ended())
    }
}

/// A connection that asks about working copies, one after the other.
#[derive(Drop)]
pub struct Link<R, W> {
    alloc: Global,
    one_by_one: bool,
    ends: Ends<R, W>,
    // none once the connection has failed
    asking: Option<Asking>,
    ghost ready: { is_ready_if asking ≡ true },
}

impl<R: Read + Drop, W: Write + Drop> Link<R, W> {
    /// A connection on which nothing came.
    pub fn new(
        alloc: Global,
        speaker: Speaker,
        one_by_one: bool,
        input: R,
        output: W,
    ) -> Result<Link<R, W>, AllocError>
        ensures connection { IfOk result (λ link. link.asking ≡ Some (unheard speaker)) }
        ensures input { IfOk result (λ link. link.ends.input ≡ input) }
    {
        Ok(Link {
            alloc,
            one_by_one,
            ends: Ends {
                input,
                output,
                piece: vec![in alloc; 0u8; PIECE]?,
                unwritten: Vec::new(alloc),
                count: 0,
            },
            asking: Some(Asking::new(alloc, SERVER_LIMITS, speaker)),
        })
    }

    // Asks these questions, and has the answers heard.
    fn converse<'q, H: Hearer, L: LiveListener>(
        &mut self,
        questions: &'q [Question<'q>],
        hearer: &mut H,
        listener: &mut L,
    ) -> Result<(), LiveFault>
        ensures { OnOk result (Spoke R.remaining H.hears self.old.ends.input self.old.asking questions.now hearer.old self.new.ends.input self.new.asking hearer.new) }
    {
        let Some(mut asking) = self.asking.take() else {
            return Err(LiveFault::Failed);
        };
        let left = Questions::new(questions, self.one_by_one);
        self.ends.converse(&mut asking, left, hearer, listener)?;
        self.asking = Some(asking);
        Ok(())
    }

    // What is found of the nodes of a copy.
    fn findings<L: LiveListener>(
        &mut self,
        copy: &WorkingCopy,
        listener: &mut L,
    ) -> Result<Vec<Finding>, LiveFault>
        ensures { IfOk result (λ findings. IsFirstRound R.remaining self.old.ends.input self.old.asking (get_in copy.now) copy.now self.new.ends.input self.new.asking findings.items) }
    {
        let places = places_of(self.alloc, copy)?;
        let questions = questions_of(self.alloc, &places)?;
        let mut nodes = NodeHearer::new(self.alloc, copy, &places);
        self.converse(&questions, &mut nodes, listener)?;
        nodes.findings()
    }

    // Why no directory is in the places where none is.
    fn reasons<L: LiveListener>(
        &mut self,
        findings: &[Finding],
        listener: &mut L,
    ) -> Result<Vec<Reason>, LiveFault>
        ensures { IfOk result (λ reasons. IsSecondRound R.remaining self.old.ends.input self.old.asking findings.now self.new.ends.input self.new.asking reasons.items) }
    {
        let questions = questions_again(self.alloc, findings)?;
        let mut kinds = KindHearer::new(self.alloc);
        self.converse(&questions, &mut kinds, listener)?;
        kinds.reasons()
    }

    /// Asks about all nodes of a copy, and returns the paths that aren't true of what the server says, in path order.
    ///
    /// Asked and Contradiction where what it says can't be used, Read and Write where the connection fails, Failed where it did so before. After a fault
    /// the connection is of no more use.
    pub fn untrue_paths<L: LiveListener>(
        &mut self,
        copy: &WorkingCopy,
        listener: &mut L,
    ) -> Result<Vec<Untrue>, LiveFault>
        ensures { IfOk result (λ untrue. Audits R.remaining self.old.ends.input self.old.asking (get_in copy.now) copy.now self.new.ends.input self.new.asking untrue.items) }
    {
        let findings = self.findings(copy, listener)?;
        let reasons = self.reasons(&findings, listener)?;
        Ok(untrue_paths(self.alloc, findings, reasons)?)
    }
}

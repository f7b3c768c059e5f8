//! A list of questions, and how many of them are open at once.
ghost use Rattle.std.specs.Prelude.{◌≡◌, ◌++◌, ◌+◌, ◌≤◌, ◌<◌, ◌^◌, ◌∷◌, [], length, take, drop, true, IfOk, OnOk};
ghost use Rattle.svn_ask.specs.Windows.{all_answered, asked, asks, first_of, has_room, is_within, listed, without_first, IsWindow};

use crate::question::{Question, push_question, question_len};
use std::alloc::AllocError;
use std::marker::Model;

/// The most bytes of commands that are open: a pipe or a socket holds as many, so a client that writes them never waits for the server.
const MOST_SENT: usize = 32768;

/// A list of questions, of which the first are answered, and those after them open. At most 32,768 bytes of commands are open, or one longer command
/// alone.
#[derive(Drop)]
pub struct Questions<'a> {
    one_by_one: bool,
    total: usize,
    unanswered: &'a [Question<'a>],
    // How many are open, and how many bytes their commands have.
    count: usize,
    bytes: usize,
}

impl<'a> Model for Questions<'a> {
    ghost use Rattle.std.specs.Prelude.{◌-◌, length, take, drop};
    ghost use Rattle.svn_ask.specs.Windows.{Queue, IsWindow};

    ghost Value = { Queue };

    ghost view = { λ w. record { one_by_one = w.one_by_one; answered = w.total - length w.unanswered.now; sent = take w.count w.unanswered.now; left = drop w.count w.unanswered.now } };

    ghost invariant = { λ w. IsWindow w.total w.unanswered.now w.count w.bytes };
}

// Whether a command of that many bytes may be written.
fn has_room(one_by_one: bool, count: usize, bytes: usize, len: usize) -> bool
    ensures { result ≡ has_room one_by_one count bytes len }
{
    count == 0 || (!one_by_one && len <= MOST_SENT && bytes <= MOST_SENT - len)
}

// Asks as many questions as there is room for: of those that aren't answered so many are open, of so many bytes.
fn ask_more(
    one_by_one: bool,
    unanswered: &[Question<'_>],
    sent: (usize, usize),
    out: &mut Vec<u8>,
) -> Result<(usize, usize), AllocError>
    requires { IsWindow (length unanswered.now) unanswered.now sent.0 sent.1 }
    ensures window { IfOk result (λ r. IsWindow (length unanswered.now) unanswered.now r.0 r.1) }
    ensures asked { IfOk result (λ r. (asks one_by_one (take sent.0 unanswered.now) (drop sent.0 unanswered.now)).0 ≡ (take r.0 unanswered.now, drop r.0 unanswered.now)) }
    ensures written { OnOk result (out.new.items ≡ out.old.items ++ (asks one_by_one (take sent.0 unanswered.now) (drop sent.0 unanswered.now)).1) }
{
    let (mut count, mut bytes) = sent;
    'questions: while let Some(question) = unanswered.get(count) {
        let len = question_len(question.wanted, question.rev, question.path);
        if !has_room(one_by_one, count, bytes, len) {
            return Ok((count, bytes));
        }
        push_question(out, question.wanted, question.rev, question.path)?;
        bytes += len;
        count += 1;
    }
    Ok((count, bytes))
}

// All but the first.
fn after_first<'a>(questions: &'a [Question<'a>]) -> &'a [Question<'a>]
    requires { 0 < length questions.now }
    ensures { result.now ≡ drop 1 questions.now }
{
    &questions[1..]
}

impl<'a> Questions<'a> {
    /// None of these questions is asked yet. With `one_by_one` each is asked once the one before it is answered, for servers that bear no more.
    pub fn new(questions: &'a [Question<'a>], one_by_one: bool) -> Questions<'a>
        ensures { result ≡ listed one_by_one questions.now }
    {
        Questions {
            one_by_one,
            total: questions.len(),
            unanswered: questions,
            count: 0,
            bytes: 0,
        }
    }

    /// Whether all are answered.
    pub fn is_done(&self) -> bool
        ensures done { result ≡ all_answered self.now }
        ensures bounded { is_within self.now.sent ≡ true }
    {
        self.unanswered.is_empty()
    }

    /// How many are answered.
    pub fn answered(&self) -> usize
        ensures { result ≡ self.now.answered }
    {
        self.total - self.unanswered.len()
    }

    /// Asks as many questions as there is room for.
    pub(crate) fn send(&mut self, out: &mut Vec<u8>) -> Result<(), AllocError>
        ensures asked { OnOk result (self.new ≡ (asked self.old).0) }
        ensures written { OnOk result (out.new.items ≡ out.old.items ++ (asked self.old).1) }
    {
        let (count, bytes) = ask_more(
            self.one_by_one,
            self.unanswered,
            (self.count, self.bytes),
            out,
        )?;
        self.count = count;
        self.bytes = bytes;
        Ok(())
    }

    /// The question whose answer comes next, if one is open.
    pub(crate) fn first(&self) -> Option<Question<'a>>
        ensures { result ≡ first_of self.now.sent }
    {
        if self.count == 0 {
            return None;
        }
        self.unanswered.first().copied()
    }

    /// The question whose answer comes next, if one is open, is answered.
    pub(crate) fn pass_first(&mut self)
        ensures { self.new ≡ without_first self.old self.old.sent }
    {
        let Some(question) = self.first() else {
            return;
        };
        self.bytes -= question_len(question.wanted, question.rev, question.path);
        self.unanswered = after_first(self.unanswered);
        self.count -= 1;
    }
}

//! A connection: what is written for each item that comes.
ghost use Rattle.std.specs.Prelude.{◌≡◌, ◌↔◌, ◌++◌, List, [], ℕ, IfOk, OnOk, IsTrue};
ghost use Rattle.std.specs.Io.KnownBytes.{Appends};
ghost use Rattle.svn_served.specs.declared.connection.Phase.TheVariants.{Over};
ghost use Rattle.svn_wire.specs.Fields.{command_of};
ghost use Rattle.svn_served.specs.Asking.{Follows};
ghost use Rattle.svn_replies.specs.Refusals.{IsTold};
ghost use Rattle.svn_replies.specs.Texts.{IsText};
ghost use Rattle.svn_served.specs.Connection.{sent_back, after_reply, text_sent, IsSentAfter, Answers, TookBy, TakesOther, Takes};

use crate::commands::{Answered, answer_command};
use crate::fault::ServeFault;
use crate::opening::{greet, let_in};
use crate::reporting::Reporting;
use crate::reports::take_report;
use crate::wanted::Wanted;
use std::alloc::{AllocError, Global};
use std::io::{Read, Seek, Write};
use svn_commands::Replied;
use svn_replies::{Refused, Served, Session, View, push_done, push_failure};
use svn_types::{RelPath, Text};
use svn_wire::{Token, command, push_number, push_text, read_failure};
use svn_wire_calls::{Form, send_text};

/// What a client does next.
#[derive(Drop)]
pub(crate) enum Phase {
    /// It answers the greeting.
    Greeted,
    /// It names a mechanism.
    Named(Session),
    /// It sends a command.
    Ready(Session),
    /// It reports what it has. The first refusal is kept.
    Reporting(Session, Result<Reporting, Refused>),
    /// It says how it took a drive.
    Driven(Session),
    /// Nothing.
    Over,
}

impl Phase {
    /// Whether nothing that the client sends is taken any more.
    pub(crate) fn is_over(&self) -> bool
        ensures { IsTrue result ↔ (self.now ≡ Over) }
    {
        matches!(self, Phase::Over)
    }
}

/// Writes to a client at once.
pub(crate) fn write_out<W: Write>(writer: &mut W, bytes: &[u8]) -> Result<(), ServeFault>
    ensures { OnOk result (Appends (W.contents writer.old) (W.contents writer.new) bytes.now) }
{
    match writer.write_all(bytes) {
        Ok(()) => Ok(()),
        Err(error) => Err(ServeFault::Write(error)),
    }
}

/// Writes a refusal.
pub(crate) fn push_refused(out: &mut Vec<u8>, refused: Refused) -> Result<(), ServeFault>
    ensures { OnOk result (IsTold refused out.old.items out.new.items) }
{
    match refused {
        Refused::Failed(failure) => Ok(push_failure(out, &failure)?),
        Refused::BadFields => Err(ServeFault::BadCommand),
        Refused::Memory => Err(ServeFault::Memory),
    }
}

// A report that begins, where one was asked for that is served.
fn reporting(alloc: Global, wanted: Result<Wanted, Refused>) -> Result<Reporting, Refused>
    ensures { Follows wanted result }
{
    match wanted {
        Ok(wanted) => Reporting::begin(alloc, wanted),
        Err(refused) => Err(refused),
    }
}

// The session of a client that is in another directory.
fn moved(session: Session, at: RelPath) -> Session
    ensures { result ≡ record { url = session.url; at = at } }
{
    let Session { url, .. } = session;
    Session { url, at }
}

// What a client does after a command of which no report follows.
fn after_reply(session: Session, replied: Replied) -> Phase
    ensures { result ≡ after_reply session replied }
{
    match replied {
        Replied::Stays | Replied::Sends(_) => Phase::Ready(session),
        Replied::Goes(path) => Phase::Ready(moved(session, path)),
    }
}

// The text that a client is sent after an answer, if it is sent one.
fn send_after<W: Write, F: Read + Seek>(
    alloc: Global,
    served: &Served,
    replied: &Replied,
    texts: &mut F,
    writer: &mut W,
) -> Result<(), ServeFault>
    ensures { OnOk result ((sent : List ℕ) × IsSentAfter served.now replied.now sent × Appends (W.contents writer.old) (W.contents writer.new) sent) }
{
    match replied {
        Replied::Sends(held) => send_file(alloc, served, held, texts, writer),
        Replied::Stays | Replied::Goes(_) => Ok(()),
    }
}

// The text of a file, the string that ends it, and that it was sent.
fn send_file<W: Write, F: Read + Seek>(
    alloc: Global,
    served: &Served,
    held: &Text,
    texts: &mut F,
    writer: &mut W,
) -> Result<(), ServeFault>
    ensures { OnOk result ((text : List ℕ) × IsText served.now held.now text × Appends (W.contents writer.old) (W.contents writer.new) (text_sent text)) }
{
    send_text(alloc, Form::Strings, served, held, texts, writer)?;
    let mut out = Vec::new(alloc);
    push_text(&mut out, b"")?;
    push_done(&mut out)?;
    write_out(writer, &out)
}

// An answer, and what is sent after it.
fn conclude<W: Write, F: Read + Seek>(
    view: View<'_>,
    replied: &Replied,
    bytes: &[u8],
    texts: &mut F,
    writer: &mut W,
) -> Result<(), ServeFault>
    ensures { OnOk result ((sent : List ℕ) × IsSentAfter view.entry.served.now replied.now sent × Appends (W.contents writer.old) (W.contents writer.new) (bytes.now ++ sent)) }
{
    write_out(writer, bytes)?;
    send_after(view.alloc, view.served, replied, texts, writer)
}

// The answer to a command.
fn answer<W: Write, F: Read + Seek>(
    alloc: Global,
    served: &Served,
    session: Session,
    item: &[Token],
    texts: &mut F,
    writer: &mut W,
) -> Result<Phase, ServeFault>
    ensures { IfOk result (λ phase. (bytes : List ℕ) × Answers served.now session (command_of item.now) phase bytes × Appends (W.contents writer.old) (W.contents writer.new) bytes) }
{
    let Some((name, fields)) = command(item) else {
        return Err(ServeFault::BadCommand);
    };
    let view = View {
        alloc,
        served,
        session: &session,
    };
    let mut out = Vec::new(alloc);
    match answer_command(view, name, fields, &mut out) {
        Ok(Answered::Replied(replied)) => {
            conclude(view, &replied, &out, texts, writer)?;
            Ok(after_reply(session, replied))
        }
        Ok(Answered::Wants(wanted)) => {
            write_out(writer, &out)?;
            Ok(Phase::Reporting(session, reporting(alloc, wanted)))
        }
        Err(refused) => {
            push_refused(&mut out, refused)?;
            write_out(writer, &out)?;
            Ok(Phase::Ready(session))
        }
    }
}

// A client's failure as it is sent back.
fn push_back(out: &mut Vec<u8>, code: u64, message: &[u8]) -> Result<(), AllocError>
    ensures { OnOk result (out.new.items ≡ out.old.items ++ sent_back code message.now) }
{
    out.extend_from_slice(b"( abort-edit ( ) ) ")?;
    out.extend_from_slice(b"( failure ( ( ")?;
    push_number(out, code)?;
    push_text(out, message)?;
    out.extend_from_slice(b"0: 0 ) ) ) ")?;
    Ok(())
}

// How a client took a drive: its failure is sent back.
fn took(session: Session, item: &[Token], out: &mut Vec<u8>) -> Result<Phase, ServeFault>
    ensures { IfOk result (λ phase. (bytes : List ℕ) × TookBy session item.now (command_of item.now) phase bytes × (out.new.items ≡ out.old.items ++ bytes)) }
{
    let Some((name, _fields)) = command(item) else {
        return Err(ServeFault::BadCommand);
    };
    if name == b"success".as_slice() {
        push_done(out)?;
        return Ok(Phase::Ready(session));
    }
    let Some((code, message)) = read_failure(item) else {
        return Err(ServeFault::BadCommand);
    };
    push_back(out, code, message)?;
    Ok(Phase::Ready(session))
}

// Takes an item that isn't a command.
fn take_other(
    alloc: Global,
    served: &Served,
    phase: Phase,
    item: &[Token],
    out: &mut Vec<u8>,
) -> Result<Phase, ServeFault>
    ensures { IfOk result (λ after. (bytes : List ℕ) × TakesOther served.now phase item.now after bytes × (out.new.items ≡ out.old.items ++ bytes)) }
{
    match phase {
        Phase::Greeted => greet(alloc, served, item, out),
        Phase::Named(session) => let_in(served, session, item, out),
        Phase::Driven(session) => took(session, item, out),
        phase => Ok(phase),
    }
}

// The same, with what is written.
fn take_plain<W: Write>(
    alloc: Global,
    served: &Served,
    phase: Phase,
    item: &[Token],
    writer: &mut W,
) -> Result<Phase, ServeFault>
    ensures { IfOk result (λ after. (bytes : List ℕ) × TakesOther served.now phase item.now after bytes × Appends (W.contents writer.old) (W.contents writer.new) bytes) }
{
    let mut out = Vec::new(alloc);
    let after = take_other(alloc, served, phase, item, &mut out)?;
    write_out(writer, &out)?;
    Ok(after)
}

/// Takes an item: writes what is written for it, and says what the client does next.
pub(crate) fn take<W: Write, F: Read + Seek>(
    alloc: Global,
    served: &Served,
    phase: Phase,
    item: &[Token],
    texts: &mut F,
    writer: &mut W,
) -> Result<Phase, ServeFault>
    ensures { IfOk result (λ after. (bytes : List ℕ) × Takes served.now phase item.now after bytes × Appends (W.contents writer.old) (W.contents writer.new) bytes) }
{
    match phase {
        Phase::Ready(session) => answer(alloc, served, session, item, texts, writer),
        Phase::Reporting(session, reporting) => {
            take_report(alloc, served, session, reporting, item, texts, writer)
        }
        phase => take_plain(alloc, served, phase, item, writer),
    }
}

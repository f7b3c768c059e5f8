//! The opening of a connection.
ghost use Rattle.std.specs.Prelude.{◌≡◌, ◌++◌, [], IfOk, IfErr, OnOk, Ok};
ghost use Rattle.std.specs.Option.{option_copied};
ghost use Rattle.svn_ask.specs.Reading.{Gives, Fails};
ghost use Rattle.svn_wire.specs.Fields.{command_of};
ghost use Rattle.svn_ask.specs.Openings.{failed, success_fields, is_listed, chosen, no_mechanism, response, mechanism_bytes, reparent, greeted, authenticated, not_admitted, admitted, found, opened, onto};

use crate::answer::{malformed, shortened};
use crate::fault::{AskFault, Reason};
use std::alloc::{AllocError, Global};
use svn_types::Text;
use svn_wire::{Token, command, push_text, push_word};

/// What a client waits for.
#[derive(Clone, Copy, Debug, PartialEq, Eq)]
pub(crate) enum Step {
    /// The server's greeting.
    Greeting,
    /// How it wants the client to authenticate itself.
    Mechanisms,
    /// Whether it admits the client.
    Admission,
    /// The repository, and its root.
    Repository,
    /// The same as `Mechanisms`, before the answer to `reparent`.
    ReparentMechanisms,
    /// The answer to `reparent`.
    Reparented,
    /// No more: questions may be asked.
    Opened,
}

/// Whom a client speaks with, and how it names itself.
#[derive(Debug, Drop)]
pub struct Speaker {
    /// The URL, percent-encoded, which must be that of the repository or below it.
    pub url: Text,
    /// The UUID that the repository must have.
    pub uuid: Text,
    /// The name and version of the client, which a server may log.
    pub client: Text,
}

// The fields of a success.
fn success_fields(alloc: Global, item: &[Token]) -> Result<&[Token], AskFault>
    ensures { Gives (λ fields. fields.now) result (success_fields item.now) }
{
    let Some((word, fields)) = command(item) else {
        return Err(malformed());
    };
    if word == b"success".as_slice() {
        Ok(fields)
    } else if word == b"failure".as_slice() {
        Err(failed(alloc, fields))
    } else {
        Err(malformed())
    }
}

// Why a server failed.
fn failed(alloc: Global, errors: &[Token]) -> AskFault
    ensures { Fails result (failed errors.now) }
{
    let [Token::Open, Token::Number(code), Token::Text(message), ..] = errors else {
        return malformed();
    };
    match shortened(alloc, message.as_slice()) {
        Ok(message) => AskFault::Refused(Reason::Failed {
            code: *code,
            message,
        }),
        Err(_) => AskFault::Memory,
    }
}

// Whether a word is in the list that is open.
fn is_listed(word: &[u8], list: &[Token]) -> bool
    ensures { result ≡ is_listed word.now list.now }
{
    let mut rest = list;
    'words: while let [Token::Word(listed), after @ ..] = rest {
        if listed.as_slice() == word {
            return true;
        }
        rest = after;
    }
    false
}

// How the client authenticates itself, where the server wants it to.
fn chosen(fields: &[Token]) -> Result<Option<&'static [u8]>, AskFault>
    ensures { Gives (λ mechanism. option_copied mechanism) result (chosen fields.now) }
{
    match fields {
        [Token::Open, Token::Close, ..] => Ok(None),
        [Token::Open, list @ ..] => {
            if is_listed(b"EXTERNAL", list) {
                Ok(Some(b"EXTERNAL"))
            } else if is_listed(b"ANONYMOUS", list) {
                Ok(Some(b"ANONYMOUS"))
            } else {
                Err(AskFault::Refused(Reason::NoMechanism))
            }
        }
        _ => Err(malformed()),
    }
}

/// Reads what is before an answer: that no authentication is wanted.
pub(crate) fn no_mechanism(alloc: Global, item: &[Token]) -> Result<(), AskFault>
    ensures { Gives (λ _. 0) result (no_mechanism item.now) }
{
    match chosen(success_fields(alloc, item)?)? {
        None => Ok(()),
        Some(_) => Err(AskFault::Refused(Reason::NoMechanism)),
    }
}

#[tactic(auto, using(crate::proofs::OpeningLemmas::response_parts))]
fn push_response(out: &mut Vec<u8>, url: &[u8], client: &[u8]) -> Result<(), AllocError>
    ensures { OnOk result (out.new.items ≡ out.old.items ++ response url.now client.now) }
{
    out.extend_from_slice(b"( 2 ( edit-pipeline ) ")?;
    push_text(out, url)?;
    push_text(out, client)?;
    out.extend_from_slice(b"( ) ) ")?;
    Ok(())
}

fn push_mechanism(out: &mut Vec<u8>, mechanism: &[u8]) -> Result<(), AllocError>
    ensures { OnOk result (out.new.items ≡ out.old.items ++ mechanism_bytes mechanism.now) }
{
    out.extend_from_slice(b"( ")?;
    push_word(out, mechanism)?;
    out.extend_from_slice(b"( 0: ) ) ")
}

fn push_reparent(out: &mut Vec<u8>, root: &[u8]) -> Result<(), AllocError>
    ensures { OnOk result (out.new.items ≡ out.old.items ++ reparent root.now) }
{
    out.extend_from_slice(b"( reparent ( ")?;
    push_text(out, root)?;
    out.extend_from_slice(b") ) ")
}

fn greeted(speaker: &Speaker, fields: &[Token], out: &mut Vec<u8>) -> Result<Step, AskFault>
    ensures next { IfOk result (λ step. onto out.old.items (greeted speaker.now fields.now) ≡ Ok (step, out.new.items)) }
    ensures fault { IfErr result (λ e. Fails e (greeted speaker.now fields.now)) }
{
    let [Token::Number(low), Token::Number(high), ..] = fields else {
        return Err(malformed());
    };
    if *low <= 2 && 2 <= *high {
        push_response(out, speaker.url.as_slice(), speaker.client.as_slice())?;
        Ok(Step::Mechanisms)
    } else {
        Err(AskFault::Refused(Reason::Version))
    }
}

fn authenticated(mechanism: Option<&'static [u8]>, out: &mut Vec<u8>) -> Result<Step, AskFault>
    ensures next { IfOk result (λ step. onto out.old.items (authenticated (option_copied mechanism.entry)) ≡ Ok (step, out.new.items)) }
    ensures fault { IfErr result (λ e. Fails e (authenticated (option_copied mechanism.entry))) }
{
    match mechanism {
        None => Ok(Step::Repository),
        Some(mechanism) => {
            push_mechanism(out, mechanism)?;
            Ok(Step::Admission)
        }
    }
}

// Why the client isn't admitted.
fn not_admitted(alloc: Global, fields: &[Token]) -> AskFault
    ensures { Fails result (not_admitted fields.now) }
{
    let [Token::Text(message), ..] = fields else {
        return malformed();
    };
    match shortened(alloc, message.as_slice()) {
        Ok(message) => AskFault::Refused(Reason::NotAdmitted(message)),
        Err(_) => AskFault::Memory,
    }
}

fn admitted(alloc: Global, item: &[Token]) -> Result<Step, AskFault>
    ensures { Gives (λ step. (step, [])) result (admitted (command_of item.now)) }
{
    let Some((word, fields)) = command(item) else {
        return Err(malformed());
    };
    if word == b"success".as_slice() {
        Ok(Step::Repository)
    } else if word == b"failure".as_slice() {
        Err(not_admitted(alloc, fields))
    } else {
        Err(malformed())
    }
}

fn found(speaker: &Speaker, fields: &[Token], out: &mut Vec<u8>) -> Result<Step, AskFault>
    ensures next { IfOk result (λ step. onto out.old.items (found speaker.now fields.now) ≡ Ok (step, out.new.items)) }
    ensures fault { IfErr result (λ e. Fails e (found speaker.now fields.now)) }
{
    let [Token::Text(uuid), Token::Text(root), ..] = fields else {
        return Err(malformed());
    };
    if uuid.as_slice() != speaker.uuid.as_slice() {
        return Err(AskFault::Refused(Reason::OtherRepository));
    }
    if root.as_slice() == speaker.url.as_slice() {
        return Ok(Step::Opened);
    }
    push_reparent(out, root.as_slice())?;
    Ok(Step::ReparentMechanisms)
}

/// What the client waits for after an item of the opening; what it writes for it is put at the end.
pub(crate) fn step_on(
    alloc: Global,
    speaker: &Speaker,
    step: Step,
    item: &[Token],
    out: &mut Vec<u8>,
) -> Result<Step, AskFault>
    ensures next { IfOk result (λ next. onto out.old.items (opened speaker.now step item.now) ≡ Ok (next, out.new.items)) }
    ensures fault { IfErr result (λ e. Fails e (opened speaker.now step item.now)) }
{
    match step {
        Step::Greeting => greeted(speaker, success_fields(alloc, item)?, out),
        Step::Mechanisms => authenticated(chosen(success_fields(alloc, item)?)?, out),
        Step::Admission => admitted(alloc, item),
        Step::Repository => found(speaker, success_fields(alloc, item)?, out),
        Step::ReparentMechanisms => {
            no_mechanism(alloc, item)?;
            Ok(Step::Reparented)
        }
        Step::Reparented => {
            success_fields(alloc, item)?;
            Ok(Step::Opened)
        }
        Step::Opened => Err(AskFault::Refused(Reason::Unasked)),
    }
}

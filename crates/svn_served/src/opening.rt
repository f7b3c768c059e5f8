//! The opening of a connection: what a client is greeted with, and how it is let in.
ghost use Rattle.std.specs.Prelude.{◌≡◌, ◌++◌, List, ℕ, option_map, IfOk, OnOk};
ghost use Rattle.svn_served.specs.Connection.{url_of, mechanism_of, is_admitted, mechanisms, admission, GreetsBy, LetsInBy};

use crate::connection::{Phase, push_refused};
use crate::fault::ServeFault;
use std::alloc::{AllocError, Global};
use svn_replies::{Served, Session, push_close, push_done, push_end, push_open, push_success};
use svn_wire::{Token, list_field, number_field, push_text, text_field, word_field, word_list};

/// What is served, and what it can do.
pub(crate) const GREETING: &[u8] =
    b"( success ( 2 2 ( ) ( edit-pipeline absent-entries inherited-props log-revprops ) ) ) ";

// The URL that a client names in its answer to the greeting: ( version ( capability* ) url .. ).
#[tactic(auto, unfolding(crate::specs::Connection::url_of))]
fn url_of(item: &[Token]) -> Option<(u64, &[u8])>
    ensures { option_map (λ r. (r.0, r.1.now)) result ≡ url_of item.now }
{
    let fields = list_field(item)?;
    let (version, fields) = number_field(fields)?;
    let (_capabilities, fields) = word_list(fields)?;
    let (url, _more) = text_field(fields)?;
    Some((version, url))
}

// The mechanism that a client names: ( word ( text? ) ).
#[tactic(auto, unfolding(crate::specs::Connection::mechanism_of))]
fn mechanism_of(item: &[Token]) -> Option<&[u8]>
    ensures { option_map (λ r. r.now) result ≡ mechanism_of item.now }
{
    let fields = list_field(item)?;
    let (word, _more) = word_field(fields)?;
    Some(word)
}

// The mechanisms that a client is let in with.
fn push_mechanisms(served: &Served, out: &mut Vec<u8>) -> Result<(), AllocError>
    ensures { OnOk result (out.new.items ≡ out.old.items ++ mechanisms served.now.uuid) }
{
    out.extend_from_slice(b"( success ( ( ANONYMOUS EXTERNAL ) ")?;
    push_text(out, served.uuid.as_slice())?;
    push_end(out)
}

/// Takes a client's answer to the greeting: the mechanisms that it is let in with, or why it isn't.
pub(crate) fn greet(
    alloc: Global,
    served: &Served,
    item: &[Token],
    out: &mut Vec<u8>,
) -> Result<Phase, ServeFault>
    ensures { IfOk result (λ phase. (bytes : List ℕ) × GreetsBy served.now (url_of item.now) phase bytes × (out.new.items ≡ out.old.items ++ bytes)) }
{
    let Some((version, url)) = url_of(item) else {
        return Err(ServeFault::BadCommand);
    };
    if version != 2 {
        return Ok(Phase::Over);
    }
    match Session::open(alloc, served, url) {
        Ok(session) => {
            push_mechanisms(served, out)?;
            Ok(Phase::Named(session))
        }
        Err(refused) => {
            push_refused(out, refused)?;
            Ok(Phase::Over)
        }
    }
}

fn is_admitted(mechanism: &[u8]) -> bool
    ensures { result ≡ is_admitted mechanism.now }
{
    mechanism == b"ANONYMOUS".as_slice() || mechanism == b"EXTERNAL".as_slice()
}

// That a client is let in, and which repository it is.
fn push_admission(served: &Served, session: &Session, out: &mut Vec<u8>) -> Result<(), AllocError>
    ensures { OnOk result (out.new.items ≡ out.old.items ++ admission served.now session.now) }
{
    push_done(out)?;
    push_success(out)?;
    push_text(out, served.uuid.as_slice())?;
    push_text(out, session.url.as_slice())?;
    push_open(out)?;
    push_close(out)?;
    push_end(out)
}

/// Takes the mechanism that a client names: that it is let in, or that it isn't.
pub(crate) fn let_in(
    served: &Served,
    session: Session,
    item: &[Token],
    out: &mut Vec<u8>,
) -> Result<Phase, ServeFault>
    ensures { IfOk result (λ phase. (bytes : List ℕ) × LetsInBy served.now session (mechanism_of item.now) phase bytes × (out.new.items ≡ out.old.items ++ bytes)) }
{
    let Some(mechanism) = mechanism_of(item) else {
        return Err(ServeFault::BadCommand);
    };
    if !is_admitted(mechanism) {
        out.extend_from_slice(b"( failure ( 39:Must authenticate with listed mechanism ) ) ")?;
        return Ok(Phase::Over);
    }
    push_admission(served, &session, out)?;
    Ok(Phase::Ready(session))
}

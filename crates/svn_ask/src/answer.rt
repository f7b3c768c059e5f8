//! Answers to questions.
ghost use Rattle.std.specs.Prelude.{◌≡◌, IfOk, take, option_map};
ghost use Rattle.svn_ask.specs.Reading.{Gives};
ghost use Rattle.svn_ask.specs.Answers.{said_value, same_revision, sum_or_fault, file_of, with_names, directory_of, kind_of_word, kind_of, success_of, message_limit, absence, failure_says, failure_of, answer_of};
ghost use Rattle.hex.specs.Hex.{decode_sized};

use crate::fault::{AskFault, Reason};
use crate::names::Names;
use crate::question::Wanted;
use crate::said::Said;
use crate::tuples::gather;
use hex::FromHex;
use std::alloc::{AllocError, Global};
use svn_types::{Digest, Kind, Props, Rev, Text};
use svn_wire::{Token, command};

/// The most bytes of a server's message that are kept.
const MAX_MESSAGE: usize = 1024;

pub(crate) fn malformed() -> AskFault
    ensures { result ≡ AskFault.Refused Reason.Malformed }
{
    AskFault::Refused(Reason::Malformed)
}

fn read_sum(digits: &[u8]) -> Result<Digest, AskFault>
    ensures { Gives (λ sum. sum) result (sum_or_fault (decode_sized digits.now 16)) }
{
    match <[u8; 16]>::from_hex(digits) {
        Ok(sum) => Ok(Digest(sum)),
        Err(_) => Err(AskFault::Refused(Reason::NotAChecksum)),
    }
}

fn check_revision(asked: Rev, rev: u64) -> Result<(), AskFault>
    ensures { Gives (λ _. rev) result (same_revision asked rev) }
{
    if rev == asked.0 {
        Ok(())
    } else {
        Err(AskFault::Refused(Reason::OtherRevision(rev)))
    }
}

// What is said of a file whose fields these are.
fn file_of(alloc: Global, asked: Rev, fields: &[Token]) -> Result<Said, AskFault>
    ensures { Gives said_value result (file_of asked fields.now) }
{
    let (digits, rev, list) = match fields {
        [Token::Open, Token::Close, ..] => return Err(AskFault::Refused(Reason::NoChecksum)),
        [
            Token::Open,
            Token::Text(digits),
            Token::Close,
            Token::Number(rev),
            Token::Open,
            list @ ..,
        ] => (digits, *rev, list),
        _ => return Err(malformed()),
    };
    let sum = read_sum(digits.as_slice())?;
    check_revision(asked, rev)?;
    let mut props = Props::new(alloc);
    gather(alloc, &mut props, list)?;
    Ok(Said::File { sum, props })
}

// What is said of a directory with these properties, and the list of its entries.
fn with_names(alloc: Global, props: Props, list: &[Token]) -> Result<Said, AskFault>
    ensures { Gives said_value result (with_names (props, list.now)) }
{
    let [Token::Open, list @ ..] = list else {
        return Err(malformed());
    };
    let mut names = Names::new(alloc);
    gather(alloc, &mut names, list)?;
    let names = names.into_vec(alloc)?;
    Ok(Said::Directory { props, names })
}

// What is said of a directory whose fields these are.
fn directory_of(alloc: Global, asked: Rev, fields: &[Token]) -> Result<Said, AskFault>
    ensures { Gives said_value result (directory_of asked fields.now) }
{
    let [Token::Number(rev), Token::Open, list @ ..] = fields else {
        return Err(malformed());
    };
    check_revision(asked, *rev)?;
    let mut props = Props::new(alloc);
    let entries = gather(alloc, &mut props, list)?;
    with_names(alloc, props, entries)
}

fn kind_of_word(word: &[u8]) -> Result<Said, AskFault>
    ensures { Gives said_value result (kind_of_word word.now) }
{
    if word == b"none".as_slice() {
        Ok(Said::Nothing)
    } else if word == b"file".as_slice() {
        Ok(Said::OfKind(Kind::File))
    } else if word == b"dir".as_slice() {
        Ok(Said::OfKind(Kind::Directory))
    } else {
        Err(malformed())
    }
}

fn kind_of(fields: &[Token]) -> Result<Said, AskFault>
    ensures { Gives said_value result (kind_of fields.now) }
{
    match fields {
        [Token::Word(word), ..] => kind_of_word(word.as_slice()),
        _ => Err(malformed()),
    }
}

// What a failure of this code says, if it says something of the path.
fn said_by(wanted: Wanted, code: u64) -> Option<Said>
    ensures { option_map said_value result ≡ failure_says wanted code (absence code) }
{
    match (wanted, code) {
        (_, 160013) => Some(Said::Nothing),
        (_, 160006) => Some(Said::NoRevision),
        (Wanted::File, 160017) => Some(Said::OfKind(Kind::Directory)),
        (Wanted::File, 160016) => Some(Said::Nothing),
        (Wanted::Directory, 160016) => Some(Said::NoDirectory),
        _ => None,
    }
}

/// The beginning of a server's message.
#[tactic(auto, using(std::proofs::lemmas::List::take_min))]
pub(crate) fn shortened(alloc: Global, message: &[u8]) -> Result<Text, AllocError>
    ensures { IfOk result (λ text. text ≡ take message_limit message.now) }
{
    Text::from_slice(alloc, &message[..MAX_MESSAGE.min(message.len())])
}

// What is said by a failure whose errors these are.
fn failure_of(alloc: Global, wanted: Wanted, errors: &[Token]) -> Result<Said, AskFault>
    ensures { Gives said_value result (failure_of wanted errors.now) }
{
    let [Token::Open, Token::Number(code), Token::Text(message), ..] = errors else {
        return Err(malformed());
    };
    match said_by(wanted, *code) {
        Some(said) => Ok(said),
        None => {
            let message = shortened(alloc, message.as_slice())?;
            let code = *code;
            Err(AskFault::Refused(Reason::Failed { code, message }))
        }
    }
}

fn success_of(alloc: Global, wanted: Wanted, asked: Rev, fields: &[Token]) -> Result<Said, AskFault>
    ensures { Gives said_value result (success_of wanted asked fields.now) }
{
    match wanted {
        Wanted::File => file_of(alloc, asked, fields),
        Wanted::Directory => directory_of(alloc, asked, fields),
        Wanted::Kind => kind_of(fields),
    }
}

/// What the answer to a question about a path in a revision says: its item, without the one before it about authentication.
///
/// Of a directory's names and a node's properties the first fault from left to right is returned; Memory comes anywhere.
pub fn said_of(alloc: Global, wanted: Wanted, rev: Rev, item: &[Token]) -> Result<Said, AskFault>
    ensures { Gives said_value result (answer_of wanted rev item.now) }
{
    let Some((word, fields)) = command(item) else {
        return Err(malformed());
    };
    if word == b"success".as_slice() {
        success_of(alloc, wanted, rev, fields)
    } else if word == b"failure".as_slice() {
        failure_of(alloc, wanted, fields)
    } else {
        Err(malformed())
    }
}

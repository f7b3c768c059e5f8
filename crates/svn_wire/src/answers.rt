//! What a server says that is an answer, not data.
ghost use Rattle.std.specs.Prelude.{◌≡◌, codes, option_map};
ghost use Rattle.svn_wire.specs.Fields.{fields_of};
ghost use Rattle.svn_wire.specs.Answers.{greeting_of, mechanisms_of, refusal_of, repository_of, error_of, failure_of};

use crate::fields::{fields_of, list_field, number_field, text_field, word_list};
use crate::token::Token;

/// What a server says first, of itself.
#[derive(Debug, Drop)]
pub struct Greeting<'a> {
    /// The least version of the protocol that it speaks.
    pub least: u64,
    /// The most.
    pub most: u64,
    /// The mechanisms of authentication, each a word. `svnserve` names none here.
    pub mechanisms: &'a [Token],
    /// What it can do beyond that, each a word.
    pub capabilities: &'a [Token],
}

/// Reads a greeting; None if the item is none.
#[tactic(auto, unfolding(crate::specs::Answers::greeting_of))]
pub fn read_greeting(item: &[Token]) -> Option<Greeting<'_>>
    ensures { option_map (λ g. (g.least, g.most, g.mechanisms.now, g.capabilities.now)) result ≡ greeting_of item.now }
{
    let fields = fields_of(item, b"success")?;
    let (least, fields) = number_field(fields)?;
    let (most, fields) = number_field(fields)?;
    let (mechanisms, fields) = word_list(fields)?;
    let (capabilities, _more) = word_list(fields)?;
    Some(Greeting {
        least,
        most,
        mechanisms,
        capabilities,
    })
}

/// Reads who may go on: the mechanisms of which the client must use one, each a word, and the realm. If there is no mechanism the client is let in,
/// and doesn't answer. None if the item is no such request.
#[tactic(auto, unfolding(crate::specs::Answers::mechanisms_of))]
pub fn read_mechanisms(item: &[Token]) -> Option<(&[Token], &[u8])>
    ensures { option_map (λ r. (r.0.now, r.1.now)) result ≡ mechanisms_of item.now }
{
    let fields = fields_of(item, b"success")?;
    let (mechanisms, fields) = word_list(fields)?;
    let (realm, _more) = text_field(fields)?;
    Some((mechanisms, realm))
}

/// Reads why a client isn't let in, after it used a mechanism: a message. None if the item is no such refusal.
#[tactic(auto, unfolding(crate::specs::Answers::refusal_of))]
pub fn read_refusal(item: &[Token]) -> Option<&[u8]>
    ensures { option_map (λ r. r.now) result ≡ refusal_of item.now }
{
    let fields = fields_of(item, b"failure")?;
    let (message, _more) = text_field(fields)?;
    Some(message)
}

/// Reads which repository is served: its UUID and its URL. None if the item doesn't say so.
#[tactic(auto, unfolding(crate::specs::Answers::repository_of))]
pub fn read_repository(item: &[Token]) -> Option<(&[u8], &[u8])>
    ensures { option_map (λ r. (r.0.now, r.1.now)) result ≡ repository_of item.now }
{
    let fields = fields_of(item, b"success")?;
    let (uuid, fields) = text_field(fields)?;
    let (url, _more) = text_field(fields)?;
    Some((uuid, url))
}

// The error of which these are the fields: its code and its message. The server's file and line must be there, and are passed over.
#[tactic(auto, unfolding(crate::specs::Answers::error_of))]
fn read_error(fields: &[Token]) -> Option<(u64, &[u8])>
    ensures { option_map (λ r. (r.0, r.1.now)) result ≡ error_of fields.now }
{
    let (code, fields) = number_field(fields)?;
    let (message, fields) = text_field(fields)?;
    let (_file, fields) = text_field(fields)?;
    let (_line, _more) = number_field(fields)?;
    Some((code, message))
}

/// Reads why a command failed: the code of the first error, as in `svn_error_codes.h`, and its message. None if the item is no failure.
#[tactic(auto, unfolding(crate::specs::Answers::failure_of))]
pub fn read_failure(item: &[Token]) -> Option<(u64, &[u8])>
    ensures { option_map (λ r. (r.0, r.1.now)) result ≡ failure_of item.now }
{
    let errors = fields_of(item, b"failure")?;
    read_error(list_field(errors)?)
}

//! The commands, by their names.
ghost use Rattle.std.specs.Prelude.{◌≡◌};
ghost use Rattle.svn_served.specs.AskedFields.{asked_by};
ghost use Rattle.svn_served.specs.Asking.{is_malformed, Asks, AnswersBy, IsReply};
ghost use Rattle.svn_served.specs.Wanting.{driving_of};

use crate::wanted::{Driving, Wanted, driving_of, read_wanted};
use svn_commands::{Replied, reply};
use svn_replies::{Refused, View, push_no_mechanism};
use svn_wire::Token;

/// What comes of a command that doesn't fail.
#[derive(Drop)]
pub(crate) enum Answered {
    /// It is answered.
    Replied(Replied),
    /// A report follows. Why it can't be served is sent at its end.
    Wants(Result<Wanted, Refused>),
}

// Whether the fields aren't those of the command.
fn is_malformed(wanted: &Result<Wanted, Refused>) -> bool
    ensures { result ≡ is_malformed wanted.now }
{
    matches!(wanted, Err(Refused::BadFields))
}

// A drive that is asked for.
fn drive(
    view: View<'_>,
    driving: Driving,
    fields: &[Token],
    out: &mut Vec<u8>,
) -> Result<Answered, Refused>
    ensures { Asks view.entry.served.now view.entry.session.now (asked_by driving fields.now) result out.old.items out.new.items }
{
    push_no_mechanism(out)?;
    let wanted = read_wanted(view, driving, fields);
    if is_malformed(&wanted) {
        return Err(Refused::BadFields);
    }
    Ok(Answered::Wants(wanted))
}

// The answer of a command of which no report follows.
fn answer_other(
    view: View<'_>,
    name: &[u8],
    fields: &[Token],
    out: &mut Vec<u8>,
) -> Result<Answered, Refused>
    ensures { IsReply view.entry.served.now view.entry.session.now name.now fields.now result out.old.items out.new.items }
{
    match reply(view, name, fields, out) {
        Ok(replied) => Ok(Answered::Replied(replied)),
        Err(refused) => Err(refused),
    }
}

/// Answers a command.
pub(crate) fn answer_command(
    view: View<'_>,
    name: &[u8],
    fields: &[Token],
    out: &mut Vec<u8>,
) -> Result<Answered, Refused>
    ensures { AnswersBy view.entry.served.now view.entry.session.now (driving_of name.now) name.now fields.now result out.old.items out.new.items }
{
    match driving_of(name) {
        Some(driving) => drive(view, driving, fields, out),
        None => answer_other(view, name, fields, out),
    }
}

//! The commands of which no report follows, by their names.
ghost use Rattle.std.specs.Prelude.{◌≡◌, Some, IfOk};
ghost use Rattle.std.specs.Option.{option_or};
ghost use Rattle.svn_replies.specs.Refusals.{Gives, refusal_code};
ghost use Rattle.svn_commands.specs.Replies.{node_command, revision_command, history_command, command_of, new_place, IsAnswer, Moves, SendsFile, Stays, Replies};

use crate::locations::{answer_locations, answer_segments};
use crate::log::answer_log;
use std::alloc::AllocError;
use std::str;
use svn_replies::{
    Refused, View, answer_dated, answer_directory, answer_file, answer_inherited, answer_kind,
    answer_latest, answer_rev_prop, answer_rev_props, answer_stat, code, failed, push_done,
    push_no_mechanism,
};
use svn_types::{RelPath, Text};
use svn_wire::{Token, text_field};

/// What comes of a command that is answered by success.
#[derive(Debug, Drop)]
pub enum Replied {
    /// The client stays where it is.
    Stays,
    /// It is in this directory of the repository then.
    Goes(RelPath),
    /// It stays where it is, and is sent the text that this one stands for.
    Sends(Text),
}

/// A command of which no report and no text follows, and after which a client stays where it is.
#[derive(Clone, Copy, Debug, PartialEq, Eq)]
pub enum Command {
    /// `check-path`.
    CheckPath,
    /// `get-dated-rev`.
    GetDatedRev,
    /// `get-dir`.
    GetDir,
    /// `get-iprops`.
    GetInherited,
    /// `get-latest-rev`.
    GetLatestRev,
    /// `get-locations`.
    GetLocations,
    /// `get-location-segments`.
    GetSegments,
    /// `log`.
    Log,
    /// `rev-prop`.
    RevProp,
    /// `rev-proplist`.
    RevProps,
    /// `stat`.
    Stat,
}

// A command about one node.
fn node_command(name: &[u8]) -> Option<Command>
    ensures { result ≡ node_command name.now }
{
    if name == b"check-path".as_slice() {
        Some(Command::CheckPath)
    } else if name == b"get-dir".as_slice() {
        Some(Command::GetDir)
    } else if name == b"get-iprops".as_slice() {
        Some(Command::GetInherited)
    } else if name == b"stat".as_slice() {
        Some(Command::Stat)
    } else {
        None
    }
}

// A command about one revision.
fn revision_command(name: &[u8]) -> Option<Command>
    ensures { result ≡ revision_command name.now }
{
    if name == b"get-dated-rev".as_slice() {
        Some(Command::GetDatedRev)
    } else if name == b"get-latest-rev".as_slice() {
        Some(Command::GetLatestRev)
    } else if name == b"rev-prop".as_slice() {
        Some(Command::RevProp)
    } else if name == b"rev-proplist".as_slice() {
        Some(Command::RevProps)
    } else {
        None
    }
}

// A command about many revisions.
fn history_command(name: &[u8]) -> Option<Command>
    ensures { result ≡ history_command name.now }
{
    if name == b"get-locations".as_slice() {
        Some(Command::GetLocations)
    } else if name == b"get-location-segments".as_slice() {
        Some(Command::GetSegments)
    } else if name == b"log".as_slice() {
        Some(Command::Log)
    } else {
        None
    }
}

// The command of that name.
fn command_of(name: &[u8]) -> Option<Command>
    ensures { result ≡ command_of name.now }
{
    if let Some(command) = node_command(name) {
        return Some(command);
    }
    if let Some(command) = revision_command(name) {
        return Some(command);
    }
    history_command(name)
}

// A command that isn't served.
fn unknown(view: View<'_>, name: &[u8]) -> Result<Refused, AllocError>
    ensures { IfOk result (λ refused. refusal_code refused ≡ Some 210001) }
{
    let name = str::from_utf8(name).unwrap_or("");
    Ok(failed(
        code::UNKNOWN_COMMAND,
        format!(in view.alloc; "Unknown command '{name}'")?,
    ))
}

// The directory of the repository that a client goes to.
#[tactic(auto, unfolding(crate::specs::Replies::new_place))]
fn new_place(view: View<'_>, fields: &[Token]) -> Result<RelPath, Refused>
    ensures { Gives (λ p. p) result (new_place view.entry.session.now fields.now) }
{
    let Some((url, _more)) = text_field(fields) else {
        return Err(Refused::BadFields);
    };
    view.session.path_of_url(view.alloc, url)
}

// `reparent`: the client goes to another directory of the repository.
fn reparent(view: View<'_>, fields: &[Token], out: &mut Vec<u8>) -> Result<Replied, Refused>
    ensures { Moves view.entry.session.now fields.now result out.old.items out.new.items }
{
    push_no_mechanism(out)?;
    let path = new_place(view, fields)?;
    push_done(out)?;
    Ok(Replied::Goes(path))
}

// `get-file`: its text is sent after the answer.
fn send_file(view: View<'_>, fields: &[Token], out: &mut Vec<u8>) -> Result<Replied, Refused>
    ensures { SendsFile view.entry.served.now view.entry.session.now fields.now result out.old.items out.new.items }
{
    push_no_mechanism(out)?;
    match answer_file(view, fields, out)? {
        Some(text) => Ok(Replied::Sends(text)),
        None => Ok(Replied::Stays),
    }
}

fn answer(
    view: View<'_>,
    command: Command,
    fields: &[Token],
    out: &mut Vec<u8>,
) -> Result<(), Refused>
    ensures { IsAnswer view.entry.served.now view.entry.session.now command fields.now out.old.items result out.new.items }
{
    match command {
        Command::CheckPath => answer_kind(view, fields, out),
        Command::GetDatedRev => answer_dated(view, fields, out),
        Command::GetDir => answer_directory(view, fields, out),
        Command::GetInherited => answer_inherited(view, fields, out),
        Command::GetLatestRev => answer_latest(view, out),
        Command::GetLocations => answer_locations(view, fields, out),
        Command::GetSegments => answer_segments(view, fields, out),
        Command::Log => answer_log(view, fields, out),
        Command::RevProp => answer_rev_prop(view, fields, out),
        Command::RevProps => answer_rev_props(view, fields, out),
        Command::Stat => answer_stat(view, fields, out),
    }
}

fn stay(
    view: View<'_>,
    command: Command,
    fields: &[Token],
    out: &mut Vec<u8>,
) -> Result<Replied, Refused>
    ensures { Stays view.entry.served.now view.entry.session.now command fields.now result out.old.items out.new.items }
{
    push_no_mechanism(out)?;
    answer(view, command, fields, out)?;
    Ok(Replied::Stays)
}

/// Answers a command of which no report follows. Where it isn't answered by success, the refusal says why, and is the caller's to write; what is written
/// before it is written already.
pub fn reply(
    view: View<'_>,
    name: &[u8],
    fields: &[Token],
    out: &mut Vec<u8>,
) -> Result<Replied, Refused>
    ensures { Replies view.entry.served.now view.entry.session.now name.now fields.now result out.old.items out.new.items }
{
    if name == b"reparent".as_slice() {
        return reparent(view, fields, out);
    }
    if name == b"get-file".as_slice() {
        return send_file(view, fields, out);
    }
    match command_of(name) {
        Some(command) => stay(view, command, fields, out),
        None => Err(unknown(view, name)?),
    }
}

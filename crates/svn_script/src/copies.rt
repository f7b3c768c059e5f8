//! The commands on the working copy, each read from what is after its name.
ghost use Rattle.std.specs.Prelude.{◌≡◌, option_and_then, option_map};
ghost use Rattle.svn_script.specs.Reading.{words_of};
ghost use Rattle.svn_script.specs.Gives.{Gives};
ghost use Rattle.svn_script.specs.Operands.{only_path, two_words, three_words};
ghost use Rattle.svn_script.specs.Commands.{checkout_of, place_of, switch_of, drive_of, update_of, switch_to_of};

use crate::command::Command;
use crate::lines::next_word;
use crate::operands::{
    last_path, last_three_words, last_two_words, read_ending, read_late, read_path_or_root,
    read_rev,
};
use crate::words::{LineFault, read_path};
use std::alloc::Global;

/// The checkout that is made: a revision and, where the copy's root isn't the repository's, its path there.
pub(crate) fn read_checkout(alloc: Global, line: &[u8]) -> Result<Command, LineFault>
    ensures { Gives (λ c. c) result (checkout_of (words_of line.now)) }
{
    let Some((rev, rest)) = next_word(line) else {
        return Err(LineFault::Bad);
    };
    let rev = read_rev(rev)?;
    let path = read_path_or_root(alloc, rest)?;
    Ok(Command::Checkout { rev, path })
}

/// What is placed: a path and a revision.
pub(crate) fn read_place(alloc: Global, line: &[u8]) -> Result<Command, LineFault>
    ensures { Gives (λ c. c) result (option_and_then place_of (two_words (words_of line.now))) }
{
    let Some((path, rev)) = last_two_words(line) else {
        return Err(LineFault::Bad);
    };
    let path = read_path(alloc, path)?;
    let rev = read_rev(rev)?;
    Ok(Command::Place { path, rev })
}

/// What is switched: a path, a repository path and a revision.
pub(crate) fn read_switch(alloc: Global, line: &[u8]) -> Result<Command, LineFault>
    ensures { Gives (λ c. c) result (option_and_then switch_of (three_words (words_of line.now))) }
{
    let Some((path, repos_path, rev)) = last_three_words(line) else {
        return Err(LineFault::Bad);
    };
    let path = read_path(alloc, path)?;
    let repos_path = read_path(alloc, repos_path)?;
    let rev = read_rev(rev)?;
    Ok(Command::Switch {
        path,
        repos_path,
        rev,
    })
}

/// What is forgotten: a path.
pub(crate) fn read_forget(alloc: Global, line: &[u8]) -> Result<Command, LineFault>
    ensures { Gives (λ c. c) result (option_map (λ path. Command.Forget path) (only_path (words_of line.now))) }
{
    let path = last_path(alloc, line)?;
    Ok(Command::Forget { path })
}

/// The drive that is made: a revision, and whether texts come late.
pub(crate) fn read_drive(line: &[u8]) -> Result<Command, LineFault>
    ensures { Gives (λ c. c) result (drive_of (words_of line.now)) }
{
    let Some((rev, rest)) = next_word(line) else {
        return Err(LineFault::Bad);
    };
    let rev = read_rev(rev)?;
    let late = read_late(rest)?;
    Ok(Command::Drive { rev, late })
}

/// The update that is made: a revision, a cancel number, and whether texts come late.
pub(crate) fn read_update(line: &[u8]) -> Result<Command, LineFault>
    ensures { Gives (λ c. c) result (update_of (words_of line.now)) }
{
    let Some((rev, rest)) = next_word(line) else {
        return Err(LineFault::Bad);
    };
    let rev = read_rev(rev)?;
    let (cancel_after, late) = read_ending(rest)?;
    Ok(Command::Update {
        rev,
        cancel_after,
        late,
    })
}

/// The switch of the whole copy that is made: a repository path, and then as for an update.
pub(crate) fn read_switch_to(alloc: Global, line: &[u8]) -> Result<Command, LineFault>
    ensures { Gives (λ c. c) result (switch_to_of (words_of line.now)) }
{
    let Some((to, behind)) = next_word(line) else {
        return Err(LineFault::Bad);
    };
    let Some((rev, rest)) = next_word(behind) else {
        return Err(LineFault::Bad);
    };
    let repos_path = read_path(alloc, to)?;
    let rev = read_rev(rev)?;
    let (cancel_after, late) = read_ending(rest)?;
    Ok(Command::SwitchTo {
        repos_path,
        rev,
        cancel_after,
        late,
    })
}

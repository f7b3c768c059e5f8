//! The commands that add a change to the next commit, each read from what is after its name.
ghost use Rattle.std.specs.Prelude.{◌≡◌, option_and_then, option_map};
ghost use Rattle.svn_repo.specs.declared.change.Change.TheVariants.{MakeDir, Remove};
ghost use Rattle.svn_script.specs.Reading.{words_of};
ghost use Rattle.svn_script.specs.Gives.{Gives};
ghost use Rattle.svn_script.specs.Operands.{only_path, two_words, three_words};
ghost use Rattle.svn_script.specs.Commands.{put_of, prop_of, unprop_of, copy_of};

use crate::command::Command;
use crate::operands::{last_path, last_three_words, last_two_words, read_rev};
use crate::words::{LineFault, read_bytes, read_path, read_prop_name, read_text};
use std::alloc::Global;
use svn_repo::Change;

/// The directory that is made: a path.
pub(crate) fn read_make_dir(alloc: Global, line: &[u8]) -> Result<Command, LineFault>
    ensures { Gives (λ c. c) result (option_map (λ path. Command.Change (MakeDir path)) (only_path (words_of line.now))) }
{
    let path = last_path(alloc, line)?;
    Ok(Command::Change(Change::MakeDir { path }))
}

/// The file that is put: a path and a text.
pub(crate) fn read_put(alloc: Global, line: &[u8]) -> Result<Command, LineFault>
    ensures { Gives (λ c. c) result (option_and_then put_of (two_words (words_of line.now))) }
{
    let Some((path, text)) = last_two_words(line) else {
        return Err(LineFault::Bad);
    };
    let path = read_path(alloc, path)?;
    let text = read_text(alloc, text)?;
    Ok(Command::Change(Change::PutFile { path, text }))
}

/// The property that is set: a path, a name and a value.
pub(crate) fn read_prop(alloc: Global, line: &[u8]) -> Result<Command, LineFault>
    ensures { Gives (λ c. c) result (option_and_then prop_of (three_words (words_of line.now))) }
{
    let Some((path, name, value)) = last_three_words(line) else {
        return Err(LineFault::Bad);
    };
    let path = read_path(alloc, path)?;
    let name = read_prop_name(alloc, name)?;
    let value = Some(read_bytes(alloc, value)?);
    Ok(Command::Change(Change::SetProp { path, name, value }))
}

/// The property that is removed: a path and a name.
pub(crate) fn read_unprop(alloc: Global, line: &[u8]) -> Result<Command, LineFault>
    ensures { Gives (λ c. c) result (option_and_then unprop_of (two_words (words_of line.now))) }
{
    let Some((path, name)) = last_two_words(line) else {
        return Err(LineFault::Bad);
    };
    let path = read_path(alloc, path)?;
    let name = read_prop_name(alloc, name)?;
    Ok(Command::Change(Change::SetProp {
        path,
        name,
        value: None,
    }))
}

/// What is removed: a path.
pub(crate) fn read_remove(alloc: Global, line: &[u8]) -> Result<Command, LineFault>
    ensures { Gives (λ c. c) result (option_map (λ path. Command.Change (Remove path)) (only_path (words_of line.now))) }
{
    let path = last_path(alloc, line)?;
    Ok(Command::Change(Change::Remove { path }))
}

/// The copy that is made: a revision, the path of the source in it, and a path.
pub(crate) fn read_copy(alloc: Global, line: &[u8]) -> Result<Command, LineFault>
    ensures { Gives (λ c. c) result (option_and_then copy_of (three_words (words_of line.now))) }
{
    let Some((rev, source, path)) = last_three_words(line) else {
        return Err(LineFault::Bad);
    };
    let rev = read_rev(rev)?;
    let source = read_path(alloc, source)?;
    let path = read_path(alloc, path)?;
    Ok(Command::Change(Change::CopyFrom { rev, source, path }))
}

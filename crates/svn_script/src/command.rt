//! The commands of a script, read from its lines.
ghost use Rattle.std.specs.Prelude.{◌≡◌};
ghost use Rattle.svn_script.specs.Reading.{words_of};
ghost use Rattle.svn_script.specs.Gives.{Gives};
ghost use Rattle.svn_script.specs.Commands.{when_no_word, with_words, is_comment, command_of};

use crate::changes::{read_copy, read_make_dir, read_prop, read_put, read_remove, read_unprop};
use crate::copies::{
    read_checkout, read_drive, read_forget, read_place, read_switch, read_switch_to, read_update,
};
use crate::lines::next_word;
use crate::operands::is_blank;
use crate::verb::{Verb, read_verb};
use crate::words::LineFault;
use std::alloc::Global;
use svn_repo::Change;
use svn_types::{RelPath, Rev};

/// One line of a script, read. What each command does and prints, `svn_update` defines (`specs/Commands.antt`).
#[derive(Debug, Drop)]
pub enum Command {
    /// A line without words, or a comment.
    Nothing,
    /// `mkdir PATH`, `put PATH TEXT`, `prop PATH NAME VALUE`, `unprop PATH NAME`, `remove PATH` or `copy REV SOURCE PATH`: one more change
    /// for the next commit.
    Change(Change),
    /// `commit`: a commit of the changes before it.
    Commit,
    /// `checkout REV` or `checkout REV PATH`: a working copy of the revision's tree, or of what is below the path in it.
    Checkout {
        /// The revision.
        rev: Rev,
        /// The repository path of the copy's root, which is the repository's root where no path is given
        path: RelPath,
    },
    /// `place PATH REV`: what the directory above has there in the revision is put at the path.
    Place {
        /// The path in the working copy
        path: RelPath,
        /// The revision that it is put at.
        rev: Rev,
    },
    /// `switch PATH REPOSPATH REV`: another repository path is put at the path.
    Switch {
        /// The path in the working copy.
        path: RelPath,
        /// The repository path that is put there.
        repos_path: RelPath,
        /// The revision in which it is looked up.
        rev: Rev,
    },
    /// `forget PATH`: the path isn't present from then on.
    Forget {
        /// The path in the working copy.
        path: RelPath,
    },
    /// `report`: prints what the working copy reports.
    Report,
    /// `drive REV` or `drive REV late`: prints the calls that an update would make.
    Drive {
        /// The target.
        rev: Rev,
        /// Whether texts come after all directories are closed
        late: bool,
    },
    /// `update REV` or `update REV N`, either with a last word `late`: updates the working copy.
    Update {
        /// The target.
        rev: Rev,
        /// After how many calls the run must stop, if there is a limit.
        cancel_after: Option<u64>,
        /// Whether texts come after all directories are closed
        late: bool,
    },
    /// `switch-to REPOSPATH REV` or `switch-to REPOSPATH REV N`, either with a last word `late`: switches the whole working copy.
    SwitchTo {
        /// The repository path that the copy's root must have.
        repos_path: RelPath,
        /// The target.
        rev: Rev,
        /// After how many calls the run must stop, if there is a limit.
        cancel_after: Option<u64>,
        /// Whether texts come after all directories are closed
        late: bool,
    },
    /// `show`: prints the nodes of the working copy.
    Show,
}

// A command that has no words after its name. Inlined, so that it isn't copied.
#[inline(always)]
fn alone(command: Command, line: &[u8]) -> Result<Command, LineFault>
    ensures { Gives (λ c. c) result (when_no_word command (words_of line.now)) }
{
    if is_blank(line) {
        Ok(command)
    } else {
        Err(LineFault::Bad)
    }
}

// Reads what is after the name of a command.
fn read_rest(alloc: Global, verb: Verb, line: &[u8]) -> Result<Command, LineFault>
    ensures { Gives (λ c. c) result (with_words verb (words_of line.now)) }
{
    match verb {
        Verb::Mkdir => read_make_dir(alloc, line),
        Verb::Put => read_put(alloc, line),
        Verb::Prop => read_prop(alloc, line),
        Verb::Unprop => read_unprop(alloc, line),
        Verb::Remove => read_remove(alloc, line),
        Verb::Copy => read_copy(alloc, line),
        Verb::Commit => alone(Command::Commit, line),
        Verb::Checkout => read_checkout(alloc, line),
        Verb::Place => read_place(alloc, line),
        Verb::Switch => read_switch(alloc, line),
        Verb::Forget => read_forget(alloc, line),
        Verb::Report => alone(Command::Report, line),
        Verb::Drive => read_drive(line),
        Verb::Update => read_update(line),
        Verb::SwitchTo => read_switch_to(alloc, line),
        Verb::Show => alone(Command::Show, line),
    }
}

// Whether a line is a comment.
fn is_comment(line: &[u8]) -> bool
    ensures { result ≡ is_comment line.now }
{
    match line {
        [first, ..] => *first == b'#',
        [] => false,
    }
}

/// Reads one line of a script, which has no line feed. Bad where the line is no command with just its words, each of its form; Memory where
/// an allocation failed.
pub fn read_command(alloc: Global, line: &[u8]) -> Result<Command, LineFault>
    ensures { Gives (λ c. c) result (command_of line.now) }
{
    if is_comment(line) {
        return Ok(Command::Nothing);
    }
    match next_word(line) {
        Some((name, rest)) => match read_verb(name) {
            Some(verb) => read_rest(alloc, verb, rest),
            None => Err(LineFault::Bad),
        },
        None => Ok(Command::Nothing),
    }
}

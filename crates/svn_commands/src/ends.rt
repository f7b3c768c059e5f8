//! Where a list of items ends that is an answer.
ghost use Rattle.std.specs.Prelude.{◌≡◌, ◌++◌, [], OnOk};
ghost use Rattle.svn_replies.specs.Answers.{success};
ghost use Rattle.svn_commands.specs.Lists.{ended, IsNoneSent};

use std::alloc::AllocError;
use svn_replies::{Refused, push_done};
use svn_wire::push_word;

// The end of a list of items.
fn push_ended(out: &mut Vec<u8>) -> Result<(), AllocError>
    ensures { OnOk result (out.new.items ≡ out.old.items ++ ended) }
{
    push_word(out, b"done")
}

/// The end of all items, and that the command succeeded.
pub(crate) fn push_all_sent(out: &mut Vec<u8>) -> Result<(), AllocError>
    ensures { OnOk result (out.new.items ≡ out.old.items ++ (ended ++ success [])) }
{
    push_ended(out)?;
    push_done(out)
}

/// The end of no items, where a command fails.
pub(crate) fn push_none_sent(out: &mut Vec<u8>, refused: Refused) -> Refused
    ensures { IsNoneSent refused result out.old.items out.new.items }
{
    if matches!(refused, Refused::Failed(_)) && push_ended(out).is_err() {
        return Refused::Memory;
    }
    refused
}

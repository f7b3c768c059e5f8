//! Calls, one by one, and their count. They are made inline: a call that is passed on by value is copied in pieces, once more at each step.
ghost use Rattle.std.specs.Prelude.{◌≡◌, ◌≢◌, ◌+◌, ◌∷◌, [], OnOk, IfErr};
ghost use Rattle.svn_model.specs.Ends.{Runs};
ghost use Rattle.svn_drive.specs.Counts.{with_last};

use std::marker::Model;
use svn_editor::{Call, Editor, Token};
use svn_model::Stop;

/// The most calls before the last.
const MAX_CALLS: u64 = u64::MAX - 1;

/// How many calls were made that aren't the last, and the next token.
#[derive(Debug, Drop)]
pub(crate) struct Progress {
    made: u64,
    next: u64,
}

impl Model for Progress {
    ghost use Rattle.std.specs.Prelude.{◌≤◌};
    ghost use Rattle.svn_drive.specs.Counts.{Counts};
    ghost use Rattle.svn_model.specs.Ends.{call_limit};

    ghost Value = { Counts };

    ghost view = { λ p. record { made = p.made; next = p.next } };

    ghost invariant = { λ p. (p.next ≤ p.made) × (p.made ≤ call_limit) };
}

impl Progress {
    /// Before the first call.
    pub(crate) fn new() -> Progress
        ensures { result ≡ record { made = 0; next = 0 } }
    {
        Progress { made: 0, next: 0 }
    }

    /// How many calls were made.
    pub(crate) fn made(&self) -> u64
        ensures { result ≡ self.now.made }
    {
        self.made
    }

    /// How many they are with the last.
    pub(crate) fn made_with_last(&self) -> u64
        ensures { result ≡ self.now.made + 1 }
    {
        self.made + 1
    }

    /// The token that the next open or add gives.
    pub(crate) fn next_token(&self) -> Token
        ensures { result ≡ self.now.next }
    {
        Token(self.next)
    }
}

/// Makes a call that isn't the last, if one more may be made.
#[inline(always)]
pub(crate) fn make<E: Editor>(
    limit: Option<u64>,
    editor: &mut E,
    progress: &mut Progress,
    call: Call,
) -> Result<(), Stop>
    ensures runs { Runs E.answers limit (call ∷ []) result editor.old editor.new progress.old.made progress.new.made }
    ensures tokens { progress.new.next ≡ progress.old.next }
{
    if limit == Some(progress.made) {
        return Err(Stop::Cancelled);
    }
    if progress.made == MAX_CALLS {
        return Err(Stop::Full);
    }
    match editor.call(call) {
        Ok(()) => {
            progress.made += 1;
            Ok(())
        }
        Err(fault) => Err(Stop::Editor(fault)),
    }
}

/// Makes a call that gives the next token.
#[inline(always)]
pub(crate) fn make_opening<E: Editor>(
    limit: Option<u64>,
    editor: &mut E,
    progress: &mut Progress,
    call: Call,
) -> Result<(), Stop>
    ensures runs { Runs E.answers limit (call ∷ []) result editor.old editor.new progress.old.made progress.new.made }
    ensures tokens { OnOk result (progress.new.next ≡ progress.old.next + 1) }
{
    let token = progress.next;
    make(limit, editor, progress, call)?;
    progress.next = token + 1;
    Ok(())
}

/// Makes the last call of a drive, if it may be made. For that one there is always a number.
pub(crate) fn make_last<E: Editor>(
    limit: Option<u64>,
    editor: &mut E,
    progress: &Progress,
) -> Result<(), Stop>
    ensures runs { Runs E.answers limit (Call.CloseEdit ∷ []) result editor.old editor.new progress.now.made (with_last result progress.now.made) }
    ensures has_number { IfErr result (λ stop. stop ≢ Stop.Full) }
{
    if limit == Some(progress.made) {
        return Err(Stop::Cancelled);
    }
    match editor.call(Call::CloseEdit) {
        Ok(()) => Ok(()),
        Err(fault) => Err(Stop::Editor(fault)),
    }
}

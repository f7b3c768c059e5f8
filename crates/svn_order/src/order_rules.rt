//! The rules of `svn_delta.h`, each a test of the next call.
ghost use Rattle.std.specs.Prelude.{◌≡◌, ◌&&◌, Some};
ghost use Rattle.svn_editor.specs.Calls.{named_by, entry_of, number_eq};
ghost use Rattle.svn_order.specs.Directories.{innermost_of};
ghost use Rattle.svn_order.specs.OrderState.{target_late, unknown_in, closed_in, given_token, misnumbered_in, outside_in, current_text, elsewhere, too_early, not_innermost, open_below, prop_late, delete_late, entry_again, text_again, root_unclosed, naming_fault, nesting_fault, repeating_fault, fault_in};

use crate::order::{OrderCheck, Stage};
use crate::{directories, tokens};
use svn_editor::{Call, OrderFault, Token};
use svn_types::Kind;

// The token that a call is about, and the kind of node that it must have: its own or, for an open, an add or a delete, the parent's.
#[inline(always)]
fn named_by(call: &Call) -> Option<(Token, Kind)>
    ensures { result ≡ named_by call.now }
{
    match call {
        Call::DeleteEntry { parent, .. }
        | Call::AddDirectory { parent, .. }
        | Call::OpenDirectory { parent, .. }
        | Call::AddFile { parent, .. }
        | Call::OpenFile { parent, .. } => Some((*parent, Kind::Directory)),
        Call::ChangeDirProp { token, .. } | Call::CloseDirectory { token } => {
            Some((*token, Kind::Directory))
        }
        Call::ChangeFileProp { token, .. }
        | Call::ApplyText { token, .. }
        | Call::CloseFile { token, .. } => Some((*token, Kind::File)),
        _ => None,
    }
}

// The token that an open or an add gives.
#[inline(always)]
fn given_by(call: &Call) -> Option<Token>
    ensures { result ≡ given_token call.now }
{
    match call {
        Call::OpenRoot { token, .. }
        | Call::AddDirectory { token, .. }
        | Call::OpenDirectory { token, .. }
        | Call::AddFile { token, .. }
        | Call::OpenFile { token, .. } => Some(*token),
        _ => None,
    }
}

impl OrderCheck {
    // The first fault that the call has, apart from Memory. Each arm is compiled for its kind of call: the rules, which are inlined, then
    // don't test again which it is.
    pub(crate) fn fault_of(&self, call: &Call) -> Option<OrderFault>
        ensures { result ≡ fault_in self.now call.now }
    {
        match call {
            Call::OpenFile { .. } => self.first_fault(call),
            Call::AddFile { .. } => self.first_fault(call),
            Call::ApplyText { .. } => self.first_fault(call),
            Call::CloseFile { .. } => self.first_fault(call),
            Call::ChangeFileProp { .. } => self.first_fault(call),
            Call::OpenDirectory { .. } => self.first_fault(call),
            Call::AddDirectory { .. } => self.first_fault(call),
            Call::ChangeDirProp { .. } => self.first_fault(call),
            Call::CloseDirectory { .. } => self.first_fault(call),
            Call::DeleteEntry { .. } => self.first_fault(call),
            _ => self.first_fault(call),
        }
    }

    // The rules one after the other.
    #[inline(always)]
    fn first_fault(&self, call: &Call) -> Option<OrderFault>
        ensures { result ≡ fault_in self.now call.now }
    {
        if let Some(fault) = self.naming_fault(call) {
            return Some(fault);
        }
        if let Some(fault) = self.nesting_fault(call) {
            return Some(fault);
        }
        self.repeating_fault(call)
    }

    // Of what the call names.
    #[inline(always)]
    fn naming_fault(&self, call: &Call) -> Option<OrderFault>
        ensures { result ≡ naming_fault self.now call.now }
    {
        if self.is_target_late(call) {
            Some(OrderFault::TargetFirst)
        } else if self.is_token_unknown(call) {
            Some(OrderFault::UnknownToken)
        } else if self.is_token_closed(call) {
            Some(OrderFault::ClosedToken)
        } else if self.is_token_misnumbered(call) {
            Some(OrderFault::TokenOrder)
        } else if self.is_path_wrong(call) {
            Some(OrderFault::WrongPath)
        } else {
            None
        }
    }

    // Of what is open.
    #[inline(always)]
    fn nesting_fault(&self, call: &Call) -> Option<OrderFault>
        ensures { result ≡ nesting_fault self.now call.now }
    {
        if self.is_file_unfinished(call) {
            Some(OrderFault::FileOpen)
        } else if self.is_too_early(call) {
            Some(OrderFault::TooEarly)
        } else if self.is_not_innermost(call) {
            Some(OrderFault::NotInnermost)
        } else if self.is_open_below(call) {
            Some(OrderFault::OpenBelow)
        } else if self.is_prop_late(call) {
            Some(OrderFault::PropLate)
        } else {
            None
        }
    }

    // Of what was done before.
    #[inline(always)]
    fn repeating_fault(&self, call: &Call) -> Option<OrderFault>
        ensures { result ≡ repeating_fault self.now call.now }
    {
        if self.is_delete_late(call) {
            Some(OrderFault::DeleteLate)
        } else if self.is_entry_again(call) {
            Some(OrderFault::EntryAgain)
        } else if self.is_text_again(call) {
            Some(OrderFault::TextAgain)
        } else if self.is_root_unclosed(call) {
            Some(OrderFault::RootNotClosed)
        } else {
            None
        }
    }

    // The target revision is set once, by the first call.
    #[inline(always)]
    fn is_target_late(&self, call: &Call) -> bool
        ensures { result ≡ target_late self.now.stage call.now }
    {
        let is_target = matches!(call, Call::SetTargetRevision { .. });
        match self.stage {
            Stage::Before => !is_target,
            _ => is_target,
        }
    }

    // The token was never given, or was given to a node of the other kind.
    #[inline(always)]
    fn is_token_unknown(&self, call: &Call) -> bool
        ensures { result ≡ unknown_in self.now.tokens.items (named_by call.now) }
    {
        match named_by(call) {
            Some((token, kind)) => !tokens::is_of_kind(&self.tokens, token, kind),
            None => false,
        }
    }

    // The file or the directory was closed.
    #[inline(always)]
    fn is_token_closed(&self, call: &Call) -> bool
        ensures { result ≡ closed_in self.now.tokens.items (named_by call.now) }
    {
        match named_by(call) {
            Some((token, _)) => tokens::is_closed(&self.tokens, token),
            None => false,
        }
    }

    // A new token isn't the number of tokens given so far.
    #[inline(always)]
    fn is_token_misnumbered(&self, call: &Call) -> bool
        ensures { result ≡ misnumbered_in self.now.tokens.items (given_token call.now) }
    {
        match given_by(call) {
            Some(token) => token.0 != self.tokens.len() as u64,
            None => false,
        }
    }

    // The path isn't that of an entry of the parent.
    #[inline(always)]
    fn is_path_wrong(&self, call: &Call) -> bool
        ensures { result ≡ outside_in self.now.directories.items (named_by call.now) (entry_of call.now) }
    {
        match (named_by(call), call.path()) {
            (Some((parent, _)), Some(path)) => {
                !directories::holds_entry(&self.directories, parent, path)
            }
            _ => false,
        }
    }

    #[inline(always)]
    pub(crate) fn is_current(&self, token: Token) -> bool
        ensures { result ≡ number_eq self.now.current (Some token) }
    {
        match self.current {
            Some(current) => current == token,
            None => false,
        }
    }

    // A call on another file or on a directory.
    #[inline(always)]
    fn is_elsewhere(&self, call: &Call) -> bool
        ensures { result ≡ elsewhere self.now.current call.now }
    {
        match call {
            Call::ChangeFileProp { token, .. }
            | Call::ApplyText { token, .. }
            | Call::CloseFile { token, .. } => !self.is_current(*token),
            Call::CloseEdit | Call::AbortEdit => false,
            _ => true,
        }
    }

    // The current file has its text and isn't closed, and the call is about something else.
    #[inline(always)]
    fn is_file_unfinished(&self, call: &Call) -> bool
        ensures { result ≡ (current_text self.now.tokens.items self.now.current && elsewhere self.now.current call.now) }
    {
        match self.current {
            Some(current) => tokens::has_text(&self.tokens, current) && self.is_elsewhere(call),
            None => false,
        }
    }

    // The text or the close of a postponed file comes while a directory is open.
    #[inline(always)]
    fn is_too_early(&self, call: &Call) -> bool
        ensures { result ≡ too_early self.now call.now }
    {
        match call {
            Call::ApplyText { token, .. } | Call::CloseFile { token, .. } => {
                !self.is_current(*token) && !self.directories.is_empty()
            }
            _ => false,
        }
    }

    #[inline(always)]
    fn is_innermost(&self, token: Token) -> bool
        ensures { result ≡ number_eq (innermost_of self.now.directories.items) (Some token) }
    {
        match directories::innermost(&self.directories) {
            Some(innermost) => innermost == token,
            None => false,
        }
    }

    // The parent of an opened or added directory isn't the innermost one. Files and deletes may name any open directory.
    #[inline(always)]
    fn is_not_innermost(&self, call: &Call) -> bool
        ensures { result ≡ not_innermost self.now.directories.items call.now }
    {
        match call {
            Call::AddDirectory { parent, .. } | Call::OpenDirectory { parent, .. } => {
                !self.is_innermost(*parent)
            }
            _ => false,
        }
    }

    // A directory is closed before one in it: the open directories are nested, so each but the innermost has one.
    #[inline(always)]
    fn is_open_below(&self, call: &Call) -> bool
        ensures { result ≡ open_below self.now.directories.items call.now }
    {
        match call {
            Call::CloseDirectory { token } => !self.is_innermost(*token),
            _ => false,
        }
    }

    // A property change comes while a subdirectory is open or on a postponed file, or a subdirectory after a change that came after one.
    #[inline(always)]
    fn is_prop_late(&self, call: &Call) -> bool
        ensures { result ≡ prop_late self.now call.now }
    {
        match call {
            Call::ChangeDirProp { token, .. } => !self.is_innermost(*token),
            Call::ChangeFileProp { token, .. } => !self.is_current(*token),
            Call::AddDirectory { .. } | Call::OpenDirectory { .. } => {
                directories::is_changed_late(&self.directories)
            }
            _ => false,
        }
    }

    // A delete comes after an open or an add of the entry.
    #[inline(always)]
    fn is_delete_late(&self, call: &Call) -> bool
        ensures { result ≡ delete_late self.now.directories.items call.now }
    {
        match call {
            Call::DeleteEntry { path, .. } => directories::is_opened(&self.directories, path),
            _ => false,
        }
    }

    // An entry is opened or added twice, deleted twice, or opened after its delete. A deleted entry may be added.
    #[inline(always)]
    fn is_entry_again(&self, call: &Call) -> bool
        ensures { result ≡ entry_again self.now call.now }
    {
        match call {
            Call::OpenRoot { .. } => !self.tokens.is_empty(),
            Call::DeleteEntry { path, .. } => directories::is_deleted(&self.directories, path),
            Call::AddDirectory { path, .. } | Call::AddFile { path, .. } => {
                directories::is_opened(&self.directories, path)
            }
            Call::OpenDirectory { path, .. } | Call::OpenFile { path, .. } => {
                directories::is_opened(&self.directories, path)
                    || directories::is_deleted(&self.directories, path)
            }
            _ => false,
        }
    }

    // A file has its text.
    #[inline(always)]
    fn is_text_again(&self, call: &Call) -> bool
        ensures { result ≡ text_again self.now.tokens.items call.now }
    {
        match call {
            Call::ApplyText { token, .. } => tokens::has_text(&self.tokens, *token),
            _ => false,
        }
    }

    // The edit ends before the root was opened, or while a directory or a file is open.
    #[inline(always)]
    fn is_root_unclosed(&self, call: &Call) -> bool
        ensures { result ≡ root_unclosed self.now call.now }
    {
        match call {
            Call::CloseEdit => {
                self.tokens.is_empty()
                    || !self.directories.is_empty()
                    || tokens::has_unclosed_file(&self.tokens)
            }
            _ => false,
        }
    }
}

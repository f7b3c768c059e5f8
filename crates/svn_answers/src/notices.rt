//! What is reported of a working copy beside its answer.
ghost use Rattle.std.specs.Prelude.{◌≡◌};
ghost use Rattle.svn_answers.specs.Answers.{unanswered};
ghost use Rattle.svn_answers.specs.Notices.{HearsAll, is_nothing, of_notes};

use crate::fault::TellFault;
use svn_wcdb::Notes;

/// What a copy's answer doesn't say.
#[derive(Debug, Drop)]
pub enum Notice<F> {
    /// So much was passed over of the copy.
    PassedOver(Notes),
    /// It has no answer, for this reason.
    Unanswered(TellFault<F>),
}

/// Hears of copies what their answers don't say.
pub trait Notices<F> {
    ghost use Rattle.std.specs.Prelude.{ℕ, List};
    ghost use Rattle.svn_answers.specs.declared.notices.Notice.{Notice};

    // of the hearer before, the word, the notice, and the hearer after; where it isn't said, nothing is known of what it does
    ghost hears: { Self → List ℕ → Notice F → Self → Type 0 } = { λ _ _ _ _. Unit {0} };

    /// A notice of the copy that a word names.
    fn hear(&mut self, word: &str, notice: &Notice<F>)
        ensures { hears self.old word.now notice.now self.new };
}

// Whether nothing was passed over.
fn is_nothing(notes: Notes) -> bool
    ensures { result ≡ is_nothing notes }
{
    let of_copy = notes.changes == 0 && notes.externals == 0 && notes.actual == 0;
    of_copy && notes.locks == 0 && notes.work == 0 && notes.locked == 0
}

/// Reports what was passed over of a copy, if anything was.
pub(crate) fn hear_notes<F: Drop, N: Notices<F>>(word: &str, notes: Option<Notes>, notices: &mut N)
    ensures { HearsAll N.hears (of_notes word.now notes) notices.old notices.new }
{
    let Some(notes) = notes else {
        return;
    };
    if !is_nothing(notes) {
        let notice = Notice::PassedOver(notes);
        notices.hear(word, &notice);
    }
}

/// Reports why a copy has no answer.
pub(crate) fn hear_fault<F: Drop, N: Notices<F>>(word: &str, fault: TellFault<F>, notices: &mut N)
    ensures { HearsAll N.hears (unanswered word.now fault) notices.old notices.new }
{
    let notice = Notice::Unanswered(fault);
    notices.hear(word, &notice);
}

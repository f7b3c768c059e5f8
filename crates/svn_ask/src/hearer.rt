//! What hears the answers.
use crate::question::Question;
use crate::said::Said;
use std::alloc::AllocError;

/// Hears the answers one by one, in the order of the questions.
pub trait Hearer {
    ghost use Rattle.std.specs.Prelude.{OnOk};
    ghost use Rattle.svn_ask.specs.declared.question.Question.{Question};
    ghost use Rattle.svn_ask.specs.Answers.{SaidValue, said_value};

    // of the hearer before, the question, what is said, and the hearer after; where it isn't said, nothing is known of what it does
    ghost hears: { Self → Question → SaidValue → Self → Type 0 } = { λ _ _ _ _. Unit {0} };

    /// What is said to the next question. AllocError ends the connection.
    fn hear(&mut self, question: &Question<'_>, said: Said) -> Result<(), AllocError>
        ensures { OnOk result (hears self.old question.now (said_value said) self.new) };
}

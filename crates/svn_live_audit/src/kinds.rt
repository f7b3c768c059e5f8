//! The places of which it was said that no directory is there, asked again.
ghost use Rattle.std.specs.Prelude.{◌≡◌, map, true, IfOk, IfErr};
ghost use Rattle.svn_ask.specs.Answers.{said_value};
ghost use Rattle.svn_live_audit.specs.declared.fault.LiveFault.TheVariants.{Contradiction};
ghost use Rattle.svn_live_audit.specs.Rounds.{no_directory_by, no_kinds, question_value, questions_again};
ghost use Rattle.svn_live_audit.specs.Places.{kinds_of, kind_hears};

use crate::fault::LiveFault;
use crate::finding::Finding;
use std::alloc::{AllocError, Global};
use svn_ask::{Hearer, Question, Said, Wanted};
use svn_audit::Reason;
use svn_types::Kind;

/// The question about each of these places that is asked again: whether a file is there.
pub fn questions_again(alloc: Global, findings: &[Finding]) -> Result<Vec<Question<'_>>, AllocError>
    ensures { IfOk result (λ questions. map question_value questions.items ≡ questions_again findings.now) }
{
    let mut questions = Vec::new(alloc);
    for finding in findings {
        if finding.asks_again {
            let question = Question {
                wanted: Wanted::Kind,
                rev: finding.untrue.rev,
                path: &finding.untrue.repos_path,
            };
            questions.extend_from_slice(&[question])?;
        }
    }
    Ok(questions)
}

/// Hears of places where no directory is whether a file is there.
#[derive(Drop)]
pub struct KindHearer {
    reasons: Vec<Reason>,
    // whether all that was said is said of a place without a directory
    suits: bool,
}

// Why the place of a directory has none.
fn reason_of(said: &Said) -> Option<Reason>
    ensures { result ≡ no_directory_by (said_value said.now) }
{
    match said {
        Said::Nothing => Some(Reason::Nothing),
        Said::OfKind(Kind::File) => Some(Reason::AnotherKind(Kind::File)),
        Said::NoRevision => Some(Reason::NoRevision),
        Said::File { .. }
        | Said::Directory { .. }
        | Said::OfKind(Kind::Directory)
        | Said::NoDirectory => None,
    }
}

impl KindHearer {
    /// Nothing was said.
    pub fn new(alloc: Global) -> KindHearer
        ensures { kinds_of result ≡ no_kinds }
    {
        KindHearer {
            reasons: Vec::new(alloc),
            suits: true,
        }
    }

    /// Why no directory is in each of the places. Contradiction where one is.
    pub fn reasons(self) -> Result<Vec<Reason>, LiveFault>
        ensures reasons { IfOk result (λ reasons. kinds_of self ≡ record { reasons = reasons.items; suits = true }) }
        ensures fault { IfErr result (λ e. e ≡ Contradiction) }
    {
        if self.suits {
            Ok(self.reasons)
        } else {
            Err(LiveFault::Contradiction)
        }
    }
}

impl Hearer for KindHearer {
    ghost hears = { kind_hears };

    fn hear(&mut self, _question: &Question<'_>, said: Said) -> Result<(), AllocError> {
        match reason_of(&said) {
            Some(reason) => self.reasons.push(reason)?,
            None => self.suits = false,
        }
        Ok(())
    }
}

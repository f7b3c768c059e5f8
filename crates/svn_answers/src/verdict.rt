//! Verdicts on working copies.
ghost use Rattle.std.specs.Prelude.{◌≡◌};
ghost use Rattle.svn_answers.specs.Answers.{verdict_on};
ghost use Rattle.svn_answers.specs.Verdicts.{worse, status};

use svn_audit::Untrue;

/// How a question about working copies was answered.
#[derive(Clone, Copy, Debug, PartialEq, Eq)]
pub enum Verdict {
    /// All was done, and no copy that was checked is untrue.
    True,
    /// A copy is untrue.
    Untrue,
    /// A copy was refused.
    Refused,
}

impl Verdict {
    /// The verdict on a copy with these untrue paths.
    pub fn on(untrue: &[Untrue]) -> Verdict
        ensures { result ≡ verdict_on untrue.now }
    {
        match untrue {
            [] => Verdict::True,
            _ => Verdict::Untrue,
        }
    }

    /// The worse of two.
    pub fn worse(self, other: Verdict) -> Verdict
        ensures { result ≡ worse self other }
    {
        match (self, other) {
            (Verdict::Refused, _) | (_, Verdict::Refused) => Verdict::Refused,
            (Verdict::Untrue, _) | (_, Verdict::Untrue) => Verdict::Untrue,
            (Verdict::True, Verdict::True) => Verdict::True,
        }
    }

    /// The exit status of a program: 0 where all is true, 1 where a copy is untrue, 2 where one was refused.
    pub fn status(self) -> u8
        ensures { result ≡ status self }
    {
        match self {
            Verdict::True => 0,
            Verdict::Untrue => 1,
            Verdict::Refused => 2,
        }
    }
}

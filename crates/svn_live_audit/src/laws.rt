//! The laws of verdicts.
ghost use Rattle.svn_live_audit.specs.Verdicts.{VerdictsHold};
ghost use Rattle.svn_live_audit.specs.Rounds.{RoundsHold};
ghost use Rattle.svn_live_audit.specs.Honest.{HonestAnswersAreGiven};

/// The reasons that are told of what a server said of a copy's nodes are those of each history which gives these answers.
pub fn verdicts_hold()
    ensures { VerdictsHold }
{}

/// What is settled by the answers of two rounds are all untrue nodes of the copy, by each history that gives these answers.
pub fn rounds_hold()
    ensures { RoundsHold }
{}

/// What an honest server says of a node's place is what its history gives, whatever the node: so a verdict is one of a history that there may be.
pub fn honest_answers_are_given()
    ensures { HonestAnswersAreGiven }
{}

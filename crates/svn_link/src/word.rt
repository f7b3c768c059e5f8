//! The rule of the notice, and what a thread knows after each step that it makes. The word is 0 or the number reported.
ghost use Rattle.std.specs.Prelude.{◌≡◌};
ghost use Rattle.svn_link.specs.Notice.{number_of};

use atomic_table::{Join, Split};
use crossbeam_utils::atomic::seq_cell::RuledSeqCell;
use crossbeam_utils::rule::{Outcome, Protocol};

/// What a pass may do, what it reported and what it saw. It exists in proofs alone: no value of it is made.
pub struct News {
    /// Whether it may report.
    pub tells: bool,
    /// The number that it reported, if it did.
    pub told: Option<u64>,
    /// The number that it saw last, if it saw one.
    pub seen: Option<u64>,
}

/// The number in the word is the one reported, and a number that was seen is that one.
pub struct ToldOnce;

impl Protocol<[u64; 1], News> for ToldOnce {
    ghost use Rattle.std.specs.Prelude.{true, None};
    ghost use Rattle.svn_link.specs.Notice.{news, IsNoticed};

    ghost holds = { IsNoticed };

    ghost first = { news true None None };
}

/// The pass that may do both is split into one that reports and one that sees, and they are joined to one again.
pub struct Roles;

impl Split<News> for Roles {
    ghost use Rattle.std.specs.Prelude.{true, false, None};
    ghost use Rattle.svn_link.specs.Notice.{news};

    ghost left = { λ v. news true v.told None };

    ghost right = { λ v. news false None v.seen };
}

impl Join<News> for Roles {
    ghost use Rattle.std.specs.Prelude.{true, false, None};
    ghost use Rattle.svn_link.specs.Notice.{news};

    ghost both = { λ v w. news true v.told w.seen };

    ghost spent = { news false None None };
}

/// All that a pass saw goes to a new one, since a pass that made steps can't be joined.
pub struct Moved;

impl Split<News> for Moved {
    ghost use Rattle.std.specs.Prelude.{false, None};
    ghost use Rattle.svn_link.specs.Notice.{news};

    ghost left = { λ _. news false None None };

    ghost right = { λ v. v };
}

/// The store: the number is reported.
pub struct Tells;

impl Outcome<[u64; 1], News> for Tells {
    ghost use Rattle.svn_link.specs.Notice.{IsTold};

    ghost then = { IsTold };
}

/// A load by the pass that sees: the number in the word is seen, and is the one seen before, if one was.
pub struct Sees;

impl Outcome<[u64; 1], News> for Sees {
    ghost use Rattle.svn_link.specs.Notice.{IsSeen};

    ghost then = { IsSeen };
}

/// A load by the joined pass: the number in the word is the one reported, and what was seen is that one.
pub struct Agrees;

impl Outcome<[u64; 1], News> for Agrees {
    ghost use Rattle.svn_link.specs.Notice.{IsAgreed};

    ghost then = { IsAgreed };
}

/// The word that both threads share, under the rule.
pub type Cell = RuledSeqCell<[u64; 1], News, ToldOnce, 1>;

/// A value without bytes by which a thread may make steps, and in which proofs keep what it reported and saw.
pub type Pass = crossbeam_utils::atomic::seq_cell::Pass<[u64; 1], News>;

// The number that a word means.
pub(crate) fn number_in(word: u64) -> Option<u64>
    ensures { result ≡ number_of word }
{
    if word == 0 { None } else { Some(word) }
}

//! Revision numbers.
ghost use Rattle.std.specs.Prelude.{Some};
ghost use Rattle.std.specs.Fmt.{decimal};

use std::fmt;
use std::marker::Model;

/// The number of a revision (`svn_revnum_t` of `svn_types.h`, without its invalid number): 0 is the empty one that every repository begins with.
/// A repository knows which revisions there are. A contract sees it as the number.
#[derive(Clone, Copy, Debug, PartialEq, Eq, PartialOrd, Ord, Hash)]
pub struct Rev(pub u64);

impl Model for Rev {
    ghost use Rattle.std.specs.Prelude.{ℕ};

    ghost Value = { ℕ };

    ghost view = { λ r. r.0 };

    ghost inverse = { λ n. record { 0 = n } };
}

impl fmt::Display for Rev {
    ghost output = { λ r. Some (decimal r) };

    fn fmt<W: fmt::Write>(&self, f: &mut fmt::Formatter<W>) -> fmt::Result {
        let Rev(number) = *self;
        write!(f, "{number}")
    }
}

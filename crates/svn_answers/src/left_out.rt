//! What a sparse copy leaves out, as it is printed.
ghost use Rattle.std.specs.Prelude.{◌≡◌, Some};
ghost use Rattle.svn_wcdb.specs.Sparse.{seen_left_out};
ghost use Rattle.svn_answers.specs.Lines.{left_out_part, left_out_text};

use std::fmt;
use svn_wcdb::LeftOut;

/// What a copy leaves out.
#[derive(Clone, Copy)]
pub(crate) struct LeftOutText<'a>(pub(crate) &'a LeftOut);

// How many there are of a sort, and the words for one and for several.
#[derive(Clone, Copy)]
struct Part {
    number: u64,
    one: &'static str,
    several: &'static str,
}

/// Where there are none, nothing.
impl fmt::Display for Part {
    ghost output = { λ p. Some (left_out_part p.number p.one.now p.several.now) };

    fn fmt<W: fmt::Write>(&self, f: &mut fmt::Formatter<W>) -> fmt::Result {
        let (number, one, several) = (self.number, self.one, self.several);
        match number {
            0 => Ok(()),
            1 => write!(f, ", 1 {one}"),
            _ => write!(f, ", {number} {several}"),
        }
    }
}

/// `, 4 directories sparse, 1 entry excluded, 2 entries withheld`, each where there are any.
impl fmt::Display for LeftOutText<'_> {
    ghost output = { λ l. Some (left_out_text (seen_left_out l.0.now)) };

    fn fmt<W: fmt::Write>(&self, f: &mut fmt::Formatter<W>) -> fmt::Result {
        let sparse = Part {
            number: self.0.depths.len() as u64,
            one: "directory sparse",
            several: "directories sparse",
        };
        let excluded = Part {
            number: self.0.excluded,
            one: "entry excluded",
            several: "entries excluded",
        };
        let withheld = Part {
            number: self.0.withheld,
            one: "entry withheld",
            several: "entries withheld",
        };
        write!(f, "{sparse}{excluded}{withheld}")
    }
}

//! What `check` prints of a working copy.
ghost use Rattle.std.specs.Prelude.{◌≡◌, Some};
ghost use Rattle.std.specs.Fmt.{DisplaysOnOk};
ghost use Rattle.std.specs.List.{flat_map};
ghost use Rattle.svn_wcdb.specs.Sparse.{seen_left_out};
ghost use Rattle.svn_answers.specs.Lines.{or_zero, span_text, true_line, untrue_line, uuid_text, root_text, checked_text};

use crate::left_out::LeftOutText;
use crate::revisions::{Span, or_zero, span_of};
use crate::source::Source;
use std::fmt;
use svn_audit::Untrue;
use svn_wc::WorkingCopy;
use svn_wcdb::LeftOut;

/// What `check` prints of a working copy.
#[derive(Clone, Copy)]
pub struct Checked<'a> {
    /// The word that names it.
    pub name: Source<'a>,
    /// The copy.
    pub copy: &'a WorkingCopy,
    /// Its untrue paths.
    pub untrue: &'a [Untrue],
    /// What it leaves out.
    pub left_out: &'a LeftOut,
    /// Whether its repository may be another by its UUID.
    pub any_uuid: bool,
    /// Whether a dump may not tell the properties of the repository's root, which it has.
    pub untold_root: bool,
}

impl fmt::Display for Span {
    ghost output = { λ s. Some (span_text (or_zero s.first) (or_zero s.last)) };

    fn fmt<W: fmt::Write>(&self, f: &mut fmt::Formatter<W>) -> fmt::Result {
        let (first, last) = (or_zero(self.first), or_zero(self.last));
        if first == last {
            write!(f, "r{last}")
        } else {
            write!(f, "r{first} to r{last}")
        }
    }
}

fn uuid_text(any_uuid: bool) -> &'static str
    ensures { result.now ≡ uuid_text any_uuid }
{
    if any_uuid { ", whatever its UUID" } else { "" }
}

fn root_text(untold: bool) -> &'static str
    ensures { result.now ≡ root_text untold }
{
    if untold {
        ", properties of the root as far as the dump tells them"
    } else {
        ""
    }
}

// The line of a true copy.
fn write_true<W: fmt::Write>(checked: &Checked<'_>, f: &mut fmt::Formatter<W>) -> fmt::Result
    ensures { DisplaysOnOk W.write_str_gives f.old result (Some (true_line checked.now.name.0.now checked.now.copy.now (seen_left_out checked.now.left_out.now) (checked.now.any_uuid, checked.now.untold_root))) f.new }
{
    let (name, count, span) = (
        checked.name,
        checked.copy.nodes().len(),
        span_of(checked.copy),
    );
    let left_out = LeftOutText(checked.left_out);
    let (uuid, root) = (uuid_text(checked.any_uuid), root_text(checked.untold_root));
    writeln!(
        f,
        "{name}: true: {count} nodes, {span}{left_out}{uuid}{root}"
    )
}

// The lines of untrue paths.
fn write_untrue<W: fmt::Write>(
    name: Source<'_>,
    paths: &[Untrue],
    f: &mut fmt::Formatter<W>,
) -> fmt::Result
    ensures { DisplaysOnOk W.write_str_gives f.old result (Some (flat_map (untrue_line name.entry.0.now) paths.now)) f.new }
{
    for untrue in paths {
        writeln!(f, "{name}: untrue: {untrue}")?;
    }
    Ok(())
}

/// A true copy is printed as the line `wc: true: 7 nodes, r2 to r3`, or `r3` alone where all nodes have that revision, with what it leaves out at the end
/// (`, 4 directories sparse, 1 entry withheld`), `, whatever its UUID` where that was passed over, and `, properties of the root as far as the dump tells
/// them` where that begins late; an untrue one as a line for each untrue path,
/// `wc: untrue: a: r3 has nothing at a`.
impl fmt::Display for Checked<'_> {
    ghost output = { λ c. Some (checked_text c.name.0.now c.copy.now c.untrue.now (seen_left_out c.left_out.now) (c.any_uuid, c.untold_root)) };

    fn fmt<W: fmt::Write>(&self, f: &mut fmt::Formatter<W>) -> fmt::Result {
        match self.untrue {
            [] => write_true(self, f),
            untrue => write_untrue(self.name, untrue, f),
        }
    }
}

//! The printed lines of a working copy.
ghost use Rattle.std.specs.Prelude.{Some};
ghost use Rattle.std.specs.Fmt.{DisplaysOnOk};
ghost use Rattle.svn_wc.specs.Lines.{copy_text};

use crate::working_copy::WorkingCopy;
use std::fmt;
use svn_nodes::lines::{LineTexts, write_node};

// The nodes of a copy, in path order.
fn write_nodes<W: fmt::Write>(copy: &WorkingCopy, f: &mut fmt::Formatter<W>) -> fmt::Result
    ensures { DisplaysOnOk W.write_str_gives f.old result (Some (copy_text copy.now)) f.new }
{
    let mut texts = LineTexts::new();
    for (path, node) in copy.nodes() {
        write_node(path, node, &mut texts, f)?;
    }
    Ok(())
}

/// A copy is printed as its nodes, in path order, each as a line with its line feed: `PATH file REV REPOSPATH TEXT`,
/// `PATH dir REV REPOSPATH`, followed by ` incomplete` where it is that, or `PATH not-present`; after a node's line come those of its
/// properties in order of their names, `PATH prop NAME VALUE`. Paths, texts and values are words, as in a printed call.
impl fmt::Display for WorkingCopy {
    ghost output = { λ w. Some (copy_text w) };

    fn fmt<W: fmt::Write>(&self, f: &mut fmt::Formatter<W>) -> fmt::Result {
        write_nodes(self, f)
    }
}

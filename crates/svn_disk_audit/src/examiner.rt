//! What an audit asks of a working copy, beside its database.
ghost use Rattle.std.specs.Prelude.{◌≡◌, ℕ, List, Option, None, IfOk, OnOk};
ghost use Rattle.svn_wcdb.specs.Bases.{Base, seen_base};

use std::io::Read;
use svn_types::{RelPath, Text};
use svn_wcdb::BaseTree;

/// A working copy, as an audit asks for it: whether it is of the right repository, and what its pristine texts are.
pub trait Examiner {
    /// Why it refuses.
    type Fault: Drop;

    /// Reads a pristine text.
    type Text: Read + Drop;

    // The text under each stand-in, where that is known.
    ghost text_at: { Self → List ℕ → Option (List ℕ) } = { λ _ _. None };

    // What holds of the base tree of a database that it doesn't refuse.
    ghost accepts: { Self → Base → Type 0 } = { λ _ _. Unit {0} };

    /// Looks at what the database has.
    fn examine(&mut self, tree: &BaseTree) -> Result<(), Self::Fault>
        ensures accepted { OnOk result (accepts self.old (seen_base tree.now)) }
        ensures same { text_at self.new ≡ text_at self.old };

    /// Opens the pristine text of a file, which its stand-in names. That it is the text of this name is for the audit to see.
    fn pristine(&mut self, path: &RelPath, name: &Text) -> Result<Self::Text, Self::Fault>
        ensures text { IfOk result (λ reader. Self.Text.remaining reader ≡ text_at self.old name.now) }
        ensures same { text_at self.new ≡ text_at self.old };
}

//! The working copies that words name, as a program opens them.
ghost use Rattle.std.specs.Prelude.{◌≡◌, ℕ, Bool, List, IfOk, OnOk};
ghost use Rattle.svn_types.specs.Names.{Path};
ghost use Rattle.svn_disk_audit.specs.Pristine.{Store};

use std::fmt;
use svn_disk_audit::Examiner;
use svn_types::RelPath;

/// A working copy that was opened.
#[derive(Drop)]
pub struct Opened<E> {
    /// The bytes of its database.
    pub database: Vec<u8>,
    /// The path in the copy of the folder that was named.
    pub below: RelPath,
    /// What opens its pristine texts.
    pub examiner: E,
}

/// Working copies that words name.
pub trait Copies {
    /// Why a copy is refused.
    type Fault: fmt::Display + Drop;

    /// What opens the pristine texts of a copy.
    type Examiner: Examiner<Fault = Self::Fault> + Drop;

    // A word opens a copy with these bytes as its database, at this path in it and below, of which these pristine texts are known.
    ghost opens: { Self → List ℕ → List ℕ → Path → Store → Type 0 } = { λ _ _ _ _ _. Unit {0} };

    // The database of the copy that a word names had these bytes as long as the copy was read.
    ghost stayed: { Self → List ℕ → List ℕ → Type 0 } = { λ _ _ _. Unit {0} };

    // A fault is a failed allocation.
    ghost lacks_memory: { Self → Self.Fault → Bool };

    /// Whether a fault is a failed allocation: then it isn't one of the copy.
    fn is_memory(&self, fault: &Self::Fault) -> bool
        ensures { result ≡ lacks_memory self.now fault.now };

    /// Opens the copy that a word names, and reads its database.
    fn open(&self, name: &str) -> Result<Opened<Self::Examiner>, Self::Fault>
        ensures { IfOk result (λ o. opens self.now name.now o.database.items o.below (Self.Examiner.text_at o.examiner)) };

    /// Looks, once more, whether the copy was changed since it was opened. It is asked after each audit, and its refusal comes before what the audit says.
    fn look_again(
        &self,
        name: &str,
        database: &[u8],
        examiner: &Self::Examiner,
    ) -> Result<(), Self::Fault>
        ensures { OnOk result (stayed self.now name.now database.now) };
}

//! What a dump says before its first revision.
ghost use Rattle.std.specs.Prelude.{◌≡◌, None, Some, IsSome};

use svn_types::{Rev, Text};

/// The UUID that was read last, and the number of the first revision. What isn't known yet is None.
#[derive(Drop)]
pub(crate) struct Front {
    pub(crate) uuid: Option<Text>,
    pub(crate) first: Option<Rev>,
}

impl Front {
    /// A revision begins.
    pub(crate) fn begin(&mut self, rev: Rev)
        ensures first { self.old.first ≡ None → self.new.first ≡ Some rev }
        ensures kept { IsSome self.old.first → self.new ≡ self.old }
        ensures known { IsSome self.new.first }
        ensures uuid { self.new.uuid ≡ self.old.uuid }
    {
        if self.first.is_none() {
            self.first = Some(rev);
        }
    }
}

//! What is known of a header after some lines.
ghost use Rattle.std.specs.Prelude.{◌≡◌};
ghost use Rattle.svn_dump.specs.GivenHeaders.{given, once_more};

/// How often a header is given, and its value if that is once.
#[derive(Clone, Copy)]
pub(crate) enum Given<'a> {
    Absent,
    Once(&'a [u8]),
    Twice,
}

impl<'a> Given<'a> {
    /// The same, given once more.
    pub(crate) fn once_more(self, value: &'a [u8]) -> Given<'a>
        ensures { given result ≡ once_more (given self.entry) value.now }
    {
        match self {
            Given::Absent => Given::Once(value),
            Given::Once(_) | Given::Twice => Given::Twice,
        }
    }
}

//! What a path is made of.
ghost use Rattle.std.specs.Prelude.{◌≡◌, ℕ, ◌+◌, ◌<◌, ◌≤◌, ◌++◌, length, true};
ghost use Rattle.svn_types.specs.PathKeys.{path_key, is_plain_path};

use crate::name::Name;

/// Two lists of names, one after the other, and three texts that are their key.
#[derive(Clone, Copy)]
pub(crate) struct Pieces<'a> {
    pub(crate) names: &'a [Name],
    pub(crate) more: &'a [Name],
    pub(crate) above: &'a str,
    pub(crate) below: &'a str,
    pub(crate) end: &'a str,
    pub(crate) ghost key: { above.now ++ below.now ++ end.now ≡ path_key (names.now ++ more.now) },
    pub(crate) ghost plain: { is_plain_path (names.now ++ more.now) ≡ true },
}

impl Pieces<'_> {
    /// How many names there are.
    pub(crate) fn count(&self) -> usize
        ensures { result ≡ length self.now.names.now + length self.now.more.now }
    {
        self.names.len() + self.more.len()
    }

    /// How many bytes the key has, if that is a number.
    pub(crate) fn key_len(&self) -> usize
        ensures { (most : ℕ) → most < 256 → result ≤ most → length self.now.above.now + length self.now.below.now + length self.now.end.now ≤ most }
    {
        self.above
            .len()
            .saturating_add(self.below.len())
            .saturating_add(self.end.len())
    }
}

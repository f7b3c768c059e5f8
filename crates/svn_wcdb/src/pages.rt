//! The pages of a database file.
ghost use Rattle.std.specs.Prelude.{◌≤◌};
ghost use Rattle.sqlite_pages.specs.PageMap.{IsUsableSize};

/// A database file's bytes. Their header was read, and no page yet.
#[derive(Clone, Copy, Debug)]
pub struct Image<'a> {
    /// The whole file.
    pub bytes: &'a [u8],
    /// How many bytes a page has.
    pub size: usize,
    /// How many of them are used.
    pub usable: usize,
    ghost sized: { IsUsableSize size },
    ghost enough: { IsUsableSize usable },
    ghost within: { usable ≤ size },
}

impl<'a> Image<'a> {
    ghost use Rattle.std.specs.Prelude.{◌≡◌, ◌/◌, length, IfSome};
    ghost use Rattle.std.specs.Option.{option_copied};
    ghost use Rattle.svn_wcdb.specs.Images.{page_in, seen_file};

    /// How many pages the file has.
    pub(crate) fn pages(&self) -> usize
        ensures { result ≡ length self.now.bytes.now / self.now.size }
    {
        self.bytes.len() / self.size
    }

    /// What is used of a page, counted from 1.
    pub(crate) fn page(&self, number: u32) -> Option<&'a [u8]>
        ensures value { option_copied result ≡ page_in (seen_file self.now) number }
        ensures whole { IfSome result (λ page. length page.now ≡ self.now.usable) }
    {
        let number = number as usize;
        if number == 0 || number * self.size > self.bytes.len() {
            return None;
        }
        let start = (number - 1) * self.size;
        Some(&self.bytes[start..start + self.usable])
    }
}

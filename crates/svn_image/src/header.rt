//! The file's header (fileformat2.html, section 1.3), with which page 1 begins.
ghost use Rattle.std.specs.Prelude.{◌≡◌, ◌≤◌, length};
ghost use Rattle.std.specs.Bool.{OnTrue};
ghost use Rattle.svn_image.specs.Written.{HasNumbers};

use crate::item::Database;
use crate::pages::PAGE;
use sqlite_format::bytes::{get_u32, put_u16, put_u32};

/// The bytes of a file's header.
pub(crate) const HEADER: usize = 100;

/// The format of Subversion's working copies since 1.8 (`wc.h`, `SVN_WC__VERSION`).
const FORMAT: u32 = 31;

/// The version of SQLite whose files these are like, 3.40.1. Nothing depends on it.
const WRITTEN_BY: u32 = 3_040_001;

/// Writes the header over the first bytes of page 1.
pub(crate) fn write_header(page: &mut [u8], database: &Database, pages: u32)
    requires { length page.old ≡ 4096 }
{
    page[..16].copy_from_slice(b"SQLite format 3\0");
    put_u16(page, 16, PAGE);
    // a rollback journal, no byte reserved, and three numbers that are always these
    page[18..24].copy_from_slice(&[1, 1, 0, 64, 32, 32]);
    for (at, number) in [
        (24, database.change_counter),
        (28, pages),
        (40, database.schema_cookie),
        // the newest format of schemas, UTF-8
        (44, 4),
        (56, 1),
        (60, FORMAT),
        (68, database.application_id),
        (92, database.change_counter),
        (96, WRITTEN_BY),
    ] {
        put_u32(page, at, number);
    }
}

/// Whether the header has the database's numbers.
pub(crate) fn has_numbers(bytes: &[u8], database: &Database) -> bool
    requires { 100 ≤ length bytes.now }
    ensures { OnTrue result (HasNumbers database.now bytes.now) }
{
    get_u32(bytes, 24) == database.change_counter
        && get_u32(bytes, 40) == database.schema_cookie
        && get_u32(bytes, 68) == database.application_id
}

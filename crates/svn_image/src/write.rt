//! A whole database file.
ghost use Rattle.std.specs.Prelude.{IfOk};
ghost use Rattle.svn_image.specs.Written.{IsWritten};

use crate::check::check_image;
use crate::fault::ImageFault;
use crate::header::write_header;
use crate::item::Database;
use crate::order::check_items;
use crate::pages::Pages;
use crate::schema::push_items;
use crate::table_tree::push_schema;
use std::alloc::Global;

/// The bytes of the file, once they were read back.
///
/// Of the first item that can't be written: Unordered, NotARecord. Then, as the file grows: TooLarge, and Unstorable for SQL of over a billion bytes.
/// NoRoom, HeaderDiffers, SchemaDiffers and TableDiffers where this crate is at fault. Memory may come anywhere.
pub fn write_image(alloc: Global, database: &Database) -> Result<Vec<u8>, ImageFault>
    ensures { IfOk result (λ bytes. IsWritten database.now bytes.items) }
{
    check_items(database.items)?;
    let mut pages = Pages::new(alloc)?;
    let schema = push_items(alloc, &mut pages, database.items)?;
    let mut first = push_schema(alloc, &mut pages, &schema.rows)?;
    write_header(first.as_mut_slice(), database, pages.count());
    let bytes = pages.finish(&first);
    check_image(alloc, &bytes, database, &schema)?;
    Ok(bytes)
}

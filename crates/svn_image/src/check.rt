//! What was written is read back.
ghost use Rattle.std.specs.Prelude.{◌≡◌, Ok, IfOk};
ghost use Rattle.svn_wcdb.specs.Images.{seen_file};
ghost use Rattle.svn_wcdb.specs.Tables.{table_rows};
ghost use Rattle.svn_image.specs.Written.{HasRows, HaveRows, IsFile, IsRead};

use crate::fault::ImageFault;
use crate::header::{HEADER, has_numbers};
use crate::item::{Database, Item};
use crate::pages::PAGE;
use crate::schema::Schema;
use std::alloc::Global;
use svn_wcdb::{Image, TableRow, WcdbFault, read_image, read_table};

// Whether a table's rows are these.
fn check_table(
    alloc: Global,
    image: &Image,
    root: u32,
    rows: &[TableRow],
    differs: ImageFault,
) -> Result<(), ImageFault>
    ensures { IfOk result (λ _. table_rows (seen_file image.now) root ≡ Ok rows.now) }
{
    match read_table(alloc, image, root) {
        Ok(read) => {
            if read.as_slice() == rows {
                Ok(())
            } else {
                Err(differs)
            }
        }
        Err(WcdbFault::Refused(_)) => Err(differs),
        Err(WcdbFault::Memory) => Err(ImageFault::Memory),
    }
}

// Only tables are read.
fn check_item(
    alloc: Global,
    image: &Image,
    place: usize,
    item: &Item,
    root: u32,
) -> Result<(), ImageFault>
    ensures { IfOk result (λ _. HasRows (seen_file image.now) item.now root) }
{
    match item {
        Item::Table { rows, .. } => {
            check_table(alloc, image, root, rows, ImageFault::TableDiffers(place))
        }
        Item::Index { .. } | Item::View { .. } | Item::Trigger { .. } => Ok(()),
    }
}

fn check_items(
    alloc: Global,
    image: &Image,
    items: &[Item],
    roots: &[u32],
) -> Result<(), ImageFault>
    ensures { IfOk result (λ _. HaveRows (seen_file image.now) items.now roots.now) }
{
    if items.len() != roots.len() {
        return Err(ImageFault::SchemaDiffers);
    }
    for i in 0..items.len() {
        check_item(alloc, image, i, &items[i], roots[i])?;
    }
    Ok(())
}

// The file, if its header is the database's.
fn image_in<'a>(bytes: &'a [u8], database: &Database) -> Result<Image<'a>, ImageFault>
    ensures { IfOk result (λ image. IsFile database.now bytes.now (seen_file image)) }
{
    let Ok(image) = read_image(bytes) else {
        return Err(ImageFault::HeaderDiffers);
    };
    if image.size == PAGE
        && image.usable == PAGE
        && bytes.len() >= HEADER
        && has_numbers(bytes, database)
    {
        Ok(image)
    } else {
        Err(ImageFault::HeaderDiffers)
    }
}

/// Reads the header, the schema and each table back. The first difference is the refusal: HeaderDiffers, SchemaDiffers, TableDiffers; and Memory.
pub(crate) fn check_image(
    alloc: Global,
    bytes: &[u8],
    database: &Database,
    schema: &Schema,
) -> Result<(), ImageFault>
    ensures { IfOk result (λ _. IsRead database.now schema.now.roots.items schema.now.rows.items bytes.now) }
{
    let image = image_in(bytes, database)?;
    check_table(alloc, &image, 1, &schema.rows, ImageFault::SchemaDiffers)?;
    check_items(alloc, &image, database.items, &schema.roots)
}

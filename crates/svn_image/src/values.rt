//! Values as a record (fileformat2.html, section 2.1).
ghost use Rattle.std.specs.Prelude.{◌≡◌, IfOk, IfErr, map};
ghost use Rattle.sqlite_record.specs.Record.{decode};
ghost use Rattle.sqlite_value.specs.Value.{owned};
ghost use Rattle.svn_image.specs.Refusals.{IsNoRecord};

use crate::fault::ImageFault;
use sqlite_record::encode::encode;
use sqlite_trees::error::StoreError;
use sqlite_value::row::Row;
use sqlite_value::value::ValueRef;
use std::alloc::{AllocError, Global};
use svn_types::Text;

// The values as a row, in their order.
fn row_of(alloc: Global, values: &[ValueRef<'_>]) -> Result<Row, AllocError>
    ensures { IfOk result (λ row. row ≡ map owned values.now) }
{
    let mut row = Row::new(alloc);
    for value in values {
        row.push(*value)?;
    }
    Ok(row)
}

/// The record of these values: each integer in as few bytes as it takes. Unstorable only where there is none or there are too many, one is a
/// NaN, or all are over a billion bytes; Memory.
pub fn record(alloc: Global, values: &[ValueRef<'_>]) -> Result<Text, ImageFault>
    ensures value { IfOk result (λ bytes. decode bytes ≡ map owned values.now) }
    ensures refused { IfErr result (IsNoRecord (map owned values.now)) }
{
    let row = row_of(alloc, values)?;
    let mut bytes = Vec::new(alloc);
    match encode(&row, 0, &mut Vec::new(alloc), &mut bytes) {
        Ok(()) => Ok(Text::new(bytes)),
        Err(StoreError::Unstorable) => Err(ImageFault::Unstorable),
        Err(_) => Err(ImageFault::Memory),
    }
}

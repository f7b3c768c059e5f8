//! How many nodes have each text, which PRISTINE has of each.

use crate::fault::RowsFault;
use crate::tables::Tables;
use crate::values::{text_at, value_at};
use sqlite_value::value::ValueRef;
use std::alloc::Global;
use std::collections::BTreeMap;
use svn_digits::STAND_IN_LEN;
use svn_image::record;
use svn_types::Text;
use svn_wcdb::TableRow;

/// The column `checksum` of NODES, and those of PRISTINE.
const NODE_CHECKSUM: usize = 13;

const COUNT: usize = 3;

const PRISTINE_COLUMNS: usize = 5;

type Counts = BTreeMap<[u8; STAND_IN_LEN], i64>;

fn word_at(row: &TableRow, column: usize) -> Option<[u8; STAND_IN_LEN]> {
    <[u8; STAND_IN_LEN]>::try_from(text_at(row, column)?).ok()
}

// How many rows of NODES have each text, local changes with them.
fn count(alloc: Global, nodes: &[TableRow]) -> Result<Counts, RowsFault> {
    let mut counts = BTreeMap::new(alloc);
    for row in nodes {
        if let Some(word) = word_at(row, NODE_CHECKSUM) {
            let before = counts.get(&word).copied().unwrap_or(0i64);
            counts.insert(word, before.saturating_add(1))?;
        }
    }
    Ok(counts)
}

// The record of a text with another count.
fn counted(alloc: Global, row: &TableRow, counts: &Counts) -> Result<Text, RowsFault> {
    let found = word_at(row, 0).and_then(|word| counts.get(&word).copied());
    let mut values = [ValueRef::Null; PRISTINE_COLUMNS];
    for column in 0..PRISTINE_COLUMNS {
        values[column] = value_at(row, column);
    }
    values[COUNT] = ValueRef::Int(found.unwrap_or(0));
    Ok(record(alloc, &values)?)
}

/// Counts anew how many nodes have each text. A text that none has stays, as with a client. Image, Memory.
pub(crate) fn count_texts(alloc: Global, tables: &mut Tables) -> Result<(), RowsFault> {
    let counts = count(alloc, &tables.nodes)?;
    for row in tables.pristine.iter_mut() {
        let bytes = counted(alloc, row, &counts)?;
        row.bytes = bytes;
    }
    Ok(())
}

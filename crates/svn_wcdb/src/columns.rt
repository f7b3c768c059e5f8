//! The columns of a row, by their places in the table.
ghost use Rattle.std.specs.Prelude.{◌≡◌, ◌<◌, ℕ, suc};
ghost use Rattle.std.specs.Option.{option_copied};
ghost use Rattle.sqlite_record.specs.Fields.{fields_left};
ghost use Rattle.sqlite_value.specs.Value.{owned};
ghost use Rattle.svn_wcdb.specs.Reading.{Answers};
ghost use Rattle.svn_wcdb.specs.Columns.{column, column_in, text_in, bytes_in, number_in, number_at, path_at, is_number, is_null, is_set};

use crate::fault::{Reason, TableName};
use sqlite_record::fields::Fields;
use sqlite_value::value::ValueRef;
use std::marker::Model;

/// How many columns are read of a row. The last that is needed is `file_external` of NODES.
const WIDTH: usize = 22;

/// The first columns of a row, counted from 0, from one pass over its record. A contract sees the record's bytes.
#[derive(Debug, Drop)]
pub(crate) struct Columns<'a> {
    bytes: &'a [u8],
    values: [ValueRef<'a>; WIDTH],
}

impl<'a> Model for Columns<'a> {
    ghost use Rattle.std.specs.Prelude.{ℕ, List};
    ghost use Rattle.svn_wcdb.specs.Columns.{AreColumns};

    ghost Value = { List ℕ };

    ghost view = { λ c. c.bytes.now };

    ghost invariant = { λ c. AreColumns 22 c.values c.bytes.now };
}

// The next value of a record, NULL after the last.
fn next_value<'a>(fields: &mut Fields<'a>) -> ValueRef<'a>
    ensures value { owned result ≡ column_in (fields_left fields.old) 0 }
    ensures left { (place : ℕ) → column_in (fields_left fields.new) place ≡ column_in (fields_left fields.old) (suc place) }
{
    match fields.next() {
        Some(value) => value,
        None => ValueRef::Null,
    }
}

impl<'a> Columns<'a> {
    /// Reads a record. A row that was written before the table had a column has NULL there.
    pub(crate) fn read(bytes: &'a [u8]) -> Columns<'a>
        ensures { result ≡ bytes.now }
    {
        let mut values = [ValueRef::Null; WIDTH];
        let mut fields = Fields::new(bytes);
        for place in 0..WIDTH {
            values[place] = next_value(&mut fields);
        }
        Columns { bytes, values }
    }

    /// The value in a column.
    pub(crate) fn value(&self, place: u32) -> ValueRef<'a>
        requires { place < 22 }
        ensures { owned result ≡ column self.now place }
    {
        self.values[place as usize]
    }

    /// A text, or NULL. BadColumn of that table for a value of another type.
    pub(crate) fn text(&self, table: TableName, place: u32) -> Result<Option<&'a [u8]>, Reason>
        requires { place < 22 }
        ensures { Answers option_copied result (text_in table place (column self.now place)) }
    {
        match self.value(place) {
            ValueRef::Null => Ok(None),
            ValueRef::Text(text) => Ok(Some(text)),
            ValueRef::Int(_) | ValueRef::Real(_) | ValueRef::Blob(_) => Err(Reason::BadColumn(
                table, place,
            )),
        }
    }

    /// The bytes of a blob or a text, or NULL. BadColumn of that table for a number.
    pub(crate) fn bytes(&self, table: TableName, place: u32) -> Result<Option<&'a [u8]>, Reason>
        requires { place < 22 }
        ensures { Answers option_copied result (bytes_in table place (column self.now place)) }
    {
        match self.value(place) {
            ValueRef::Null => Ok(None),
            ValueRef::Blob(bytes) | ValueRef::Text(bytes) => Ok(Some(bytes)),
            ValueRef::Int(_) | ValueRef::Real(_) => Err(Reason::BadColumn(table, place)),
        }
    }

    /// A number from 0 on, or NULL. BadColumn of that table for a value of another type, or a number below 0.
    pub(crate) fn number(&self, table: TableName, place: u32) -> Result<Option<u64>, Reason>
        requires { place < 22 }
        ensures { Answers (λ n. n) result (number_in table place (column self.now place)) }
    {
        match self.value(place) {
            ValueRef::Null => Ok(None),
            ValueRef::Int(number) => {
                if number < 0 {
                    Err(Reason::BadColumn(table, place))
                } else {
                    Ok(Some(number as u64))
                }
            }
            ValueRef::Real(_) | ValueRef::Text(_) | ValueRef::Blob(_) => Err(Reason::BadColumn(
                table, place,
            )),
        }
    }

    /// Whether a column is NULL.
    pub(crate) fn is_null(&self, place: u32) -> bool
        requires { place < 22 }
        ensures { result ≡ is_null (column self.now place) }
    {
        match self.value(place) {
            ValueRef::Null => true,
            ValueRef::Int(_) | ValueRef::Real(_) | ValueRef::Text(_) | ValueRef::Blob(_) => false,
        }
    }

    /// Whether a column has a value other than NULL and 0.
    pub(crate) fn is_set(&self, place: u32) -> bool
        requires { place < 22 }
        ensures { result ≡ is_set (column self.now place) }
    {
        match self.value(place) {
            ValueRef::Null => false,
            ValueRef::Int(number) => number != 0,
            ValueRef::Real(_) | ValueRef::Text(_) | ValueRef::Blob(_) => true,
        }
    }
}

/// The number in a column, if it has one there.
pub(crate) fn number_at(row: &[u8], place: u32) -> Option<u64>
    requires { place < 22 }
    ensures { result ≡ number_at place row.now }
{
    Columns::read(row)
        .number(TableName::Nodes, place)
        .unwrap_or_default()
}

/// The path in a row, if it has a text there.
pub(crate) fn path_at(row: &[u8]) -> Option<&[u8]>
    ensures { option_copied result ≡ path_at row.now }
{
    Columns::read(row)
        .text(TableName::Nodes, 1)
        .unwrap_or_default()
}

/// Whether a column has that number.
pub(crate) fn is_number(column: Option<u64>, number: u64) -> bool
    ensures { result ≡ is_number column number }
{
    match column {
        Some(found) => found == number,
        None => false,
    }
}

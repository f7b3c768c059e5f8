//! The columns of a row.
ghost use Rattle.std.specs.Prelude.{◌≡◌, ℕ, suc};
ghost use Rattle.std.specs.Option.{option_copied};
ghost use Rattle.sqlite_record.specs.Fields.{fields_left};
ghost use Rattle.sqlite_value.specs.Value.{owned};
ghost use Rattle.svn_wcdb.specs.Columns.{column, column_in};
ghost use Rattle.svn_wcdb.specs.Schema.{is_text};
ghost use Rattle.svn_wcrows.specs.Values.{text_given, bytes_given, number_given};

use sqlite_record::fields::Fields;
use sqlite_value::value::ValueRef;
use svn_wcdb::TableRow;

// The next value of a record, NULL after the last.
fn next_value<'a>(fields: &mut Fields<'a>) -> ValueRef<'a>
    ensures value { owned result ≡ column_in (fields_left fields.old) 0 }
    ensures left { (place : ℕ) → column_in (fields_left fields.new) place ≡ column_in (fields_left fields.old) (suc place) }
{
    match fields.next() {
        Some(value) => value,
        None => ValueRef::Null,
    }
}

/// A row's value in a column, counted from 0: NULL after the last.
pub(crate) fn value_at(row: &TableRow, place: usize) -> ValueRef<'_>
    ensures { owned result ≡ column row.now.bytes place }
{
    let mut fields = Fields::new(row.bytes.as_slice());
    'passed: for _passed in 0..place {
        next_value(&mut fields);
    }
    next_value(&mut fields)
}

/// Whether a value is that text.
pub(crate) fn is_text(value: ValueRef<'_>, text: &[u8]) -> bool
    ensures { result ≡ is_text (owned value.entry) text.now }
{
    match value {
        ValueRef::Text(found) => found == text,
        ValueRef::Null | ValueRef::Int(_) | ValueRef::Real(_) | ValueRef::Blob(_) => false,
    }
}

/// The text in a column, none if it has no text.
pub fn text_at(row: &TableRow, place: usize) -> Option<&[u8]>
    ensures { option_copied result ≡ text_given (column row.now.bytes place) }
{
    match value_at(row, place) {
        ValueRef::Text(text) => Some(text),
        ValueRef::Null | ValueRef::Int(_) | ValueRef::Real(_) | ValueRef::Blob(_) => None,
    }
}

/// The number from 0 on in a column, none if it has no such number.
pub fn number_at(row: &TableRow, place: usize) -> Option<u64>
    ensures { result ≡ number_given (column row.now.bytes place) }
{
    match value_at(row, place) {
        ValueRef::Int(number) => u64::try_from(number).ok(),
        ValueRef::Null | ValueRef::Real(_) | ValueRef::Text(_) | ValueRef::Blob(_) => None,
    }
}

/// The bytes in a column, of a blob or a text, none if it has neither.
pub(crate) fn bytes_at(row: &TableRow, place: usize) -> Option<&[u8]>
    ensures { option_copied result ≡ bytes_given (column row.now.bytes place) }
{
    match value_at(row, place) {
        ValueRef::Text(bytes) | ValueRef::Blob(bytes) => Some(bytes),
        ValueRef::Null | ValueRef::Int(_) | ValueRef::Real(_) => None,
    }
}

/// Whether a row has NULL in a column, counted from 0: it has after the last.
pub fn is_null(row: &TableRow, column: usize) -> bool {
    matches!(value_at(row, column), ValueRef::Null)
}

//! The root of a working copy, and the repository that it comes from.
ghost use Rattle.std.specs.Prelude.{◌≡◌, ◌<◌};
ghost use Rattle.std.specs.Option.{option_copied};
ghost use Rattle.svn_wcdb.specs.Bases.{is_text, is_base_at, base_row, one_root, repos_of, repos_in, text_given, origin_of, origin_in};
ghost use Rattle.svn_wcdb.specs.Reading.{Gives, Answers, Finds};

use crate::base_tree::Origin;
use crate::columns::{Columns, is_number, number_at, path_at};
use crate::fault::{Reason, TableName, WcdbFault};
use crate::paths::place_in;
use crate::place::refusal_at;
use crate::refusal::Refusal;
use crate::table::TableRow;
use std::alloc::Global;
use svn_types::Text;

/// The number of the one row of WCROOT.
pub(crate) fn one_root(rows: &[TableRow]) -> Result<u64, Reason>
    ensures { Answers (λ id. id) result (one_root rows.now) }
{
    match rows {
        [row] => Ok(row.rowid),
        _ => Err(Reason::NotOneRoot),
    }
}

fn is_text(column: Option<&[u8]>, text: &[u8]) -> bool
    ensures { result ≡ is_text (option_copied column.entry) text.now }
{
    match column {
        Some(found) => found == text,
        None => false,
    }
}

fn is_base_at(path: &[u8], row: &[u8]) -> bool
    ensures { result ≡ is_base_at path.now row.now }
{
    is_text(path_at(row), path) && is_number(number_at(row, 2), 0)
}

// The first row of the base tree at a path.
fn base_row<'a>(path: &[u8], rows: &'a [TableRow]) -> Option<&'a [u8]>
    ensures { option_copied result ≡ base_row path.now rows.now }
{
    let mut rest = rows;
    'rows: while let Some((first, after)) = rest.split_first() {
        let bytes = first.bytes.as_slice();
        if is_base_at(path, bytes) {
            return Some(bytes);
        }
        rest = after;
    }
    None
}

fn repos_of(row: &[u8]) -> Result<u64, Reason>
    ensures { Answers (λ id. id) result (repos_of row.now) }
{
    match Columns::read(row).number(TableName::Nodes, 4)? {
        Some(id) => Ok(id),
        None => Err(Reason::NoRepository),
    }
}

/// The repository of the copy's root, of which a folder is too. NoRoot; BadColumn and NoRepository, with the path of the root if that is looked at.
#[tactic(auto, unfolding(crate::specs::Bases::repos_in))]
pub(crate) fn repos_in(alloc: Global, folder: &[u8], rows: &[TableRow]) -> Result<u64, Refusal>
    ensures { Finds (λ id. id) result (repos_in folder.now rows.now) }
{
    let Some(root) = base_row(&[], rows) else {
        return Err(Refusal::from(Reason::NoRoot));
    };
    match repos_of(root) {
        Ok(id) => Ok(id),
        Err(reason) => Err(refusal_at(alloc, place_in(folder, Some(&[])), reason)),
    }
}

fn text_given(alloc: Global, row: &Columns, column: u32) -> Result<Text, WcdbFault>
    requires { column < 22 }
    ensures { Gives (λ text. text) result (text_given column row.now) }
{
    match row.text(TableName::Repository, column)? {
        Some(text) => Ok(Text::from_slice(alloc, text)?),
        None => Err(WcdbFault::Refused(Reason::BadColumn(TableName::Repository, column))),
    }
}

#[tactic(auto, unfolding(crate::specs::Bases::origin_of))]
fn origin_of(alloc: Global, row: &[u8]) -> Result<Origin, WcdbFault>
    ensures { Gives (λ origin. origin) result (origin_of row.now) }
{
    let columns = Columns::read(row);
    let uuid = text_given(alloc, &columns, 2)?;
    let url = text_given(alloc, &columns, 1)?;
    Ok(Origin { uuid, url })
}

/// The repository with that number.
pub(crate) fn origin_in(alloc: Global, id: u64, rows: &[TableRow]) -> Result<Origin, WcdbFault>
    ensures { Gives (λ origin. origin) result (origin_in id rows.now) }
{
    let mut rest = rows;
    'rows: while let Some((first, after)) = rest.split_first() {
        if first.rowid == id {
            return origin_of(alloc, first.bytes.as_slice());
        }
        rest = after;
    }
    Err(WcdbFault::Refused(Reason::NoRepository))
}

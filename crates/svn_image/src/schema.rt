//! The schema: the rows of the table at page 1 (fileformat2.html, section 2.6).
ghost use Rattle.std.specs.Prelude.{◌≡◌, IfOk};
ghost use Rattle.sqlite_record.specs.Record.{decode};
ghost use Rattle.std.specs.Option.{option_copied};
ghost use Rattle.sqlite_value.specs.declared.value.Value.TheVariants as value;
ghost use Rattle.sqlite_value.specs.Value.{owned};
ghost use Rattle.svn_image.specs.Items.{schema_values, sql_value, AreSchemaRows};

use crate::fault::ImageFault;
use crate::index_tree::push_index;
use crate::item::Item;
use crate::pages::Pages;
use crate::table_tree::push_table;
use crate::values::record;
use sqlite_value::value::ValueRef;
use std::alloc::Global;
use svn_types::Text;
use svn_wcdb::TableRow;

/// The schema of trees that are written.
#[derive(Debug, Drop)]
pub(crate) struct Schema {
    /// The root page of each item, 0 of one that has no tree.
    pub(crate) roots: Vec<u32>,
    /// The rows.
    pub(crate) rows: Vec<TableRow>,
}

fn text(text: &str) -> ValueRef<'_>
    ensures { owned result ≡ value.Text text.now }
{
    ValueRef::Text(text.as_bytes())
}

fn sql_or_null(sql: Option<&str>) -> ValueRef<'_>
    ensures { owned result ≡ sql_value (option_copied sql.entry) }
{
    match sql {
        Some(sql) => text(sql),
        None => ValueRef::Null,
    }
}

// The record of an item: its type, its name, its table's, its root page, and its SQL.
fn schema_record(alloc: Global, item: &Item, root: u32) -> Result<Text, ImageFault>
    ensures { IfOk result (λ bytes. decode bytes ≡ schema_values item.now root) }
{
    let page = ValueRef::Int(root as i64);
    let none = ValueRef::Int(0);
    match item {
        Item::Table { name, sql, .. } => record(
            alloc,
            &[text("table"), text(name), text(name), page, text(sql)],
        ),
        Item::Index {
            name,
            table,
            sql,
            ..
        } => record(
            alloc,
            &[
                text("index"),
                text(name),
                text(table),
                page,
                sql_or_null(*sql),
            ],
        ),
        Item::View { name, sql } => record(
            alloc,
            &[text("view"), text(name), text(name), none, text(sql)],
        ),
        Item::Trigger { name, table, sql } => record(
            alloc,
            &[text("trigger"), text(name), text(table), none, text(sql)],
        ),
    }
}

// Appends an item's tree, and returns the number of its root, 0 where it has none.
fn push_tree(alloc: Global, pages: &mut Pages, item: &Item) -> Result<u32, ImageFault> {
    match item {
        Item::Table { rows, .. } => push_table(alloc, pages, rows),
        Item::Index { records, .. } => push_index(alloc, pages, records),
        Item::View { .. } | Item::Trigger { .. } => Ok(0),
    }
}

/// Appends the items' trees. TooLarge, Unstorable, Memory.
pub(crate) fn push_items(
    alloc: Global,
    pages: &mut Pages,
    items: &[Item],
) -> Result<Schema, ImageFault>
    ensures { IfOk result (λ schema. AreSchemaRows 1 items.now schema.roots.items schema.rows.items) }
{
    let mut roots = Vec::new(alloc);
    let mut rows = Vec::new(alloc);
    for i in 0..items.len() {
        let root = push_tree(alloc, pages, &items[i])?;
        let bytes = schema_record(alloc, &items[i], root)?;
        let rowid = i as u64 + 1;
        roots.push(root)?;
        rows.push(TableRow { rowid, bytes })?;
    }
    Ok(Schema { roots, rows })
}

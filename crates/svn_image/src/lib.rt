//! A whole database file of SQLite 3, written afresh from rows in order, and read back before it is returned. No file is opened here: a program writes the
//! bytes under another name, and renames that.
//!
//! ```
//! let rows = [TableRow { rowid: 1, bytes: record(alloc, &[ValueRef::Int(7), ValueRef::Text(b"a")])? }];
//! let items = [Item::Table { name: "t", sql: "CREATE TABLE t(a, b)", rows: &rows }];
//! let bytes = write_image(alloc, &Database { items: &items, change_counter: 1, schema_cookie: 1, application_id: 0 })?;
//! ```
//!
//! The file is as Subversion's clients make theirs: pages of 4096 bytes of which none is reserved, texts in UTF-8, a rollback journal, format 31 (the number
//! that a pragma calls user_version), no free page. Each tree is built from its rows upwards, so no page is split: leaves are filled in order, then the pages
//! above them.
//!
//! | Files, lowest first | What they do | Definitions in `specs/` |
//! |---|---|---|
//! | `fault` | why a database isn't written | |
//! | `values` | values as a record | `Refusals` |
//! | `item` | what a database has: tables, indexes, views, triggers | `Items` |
//! | `order` | which rows and records can be written | `Items` |
//! | `pages` | the pages so far | |
//! | `overflow` | a row's bytes that its page has no room for | |
//! | `node` | a page of cells | |
//! | `table_tree`, `index_tree` | the trees | |
//! | `schema` | the rows of the schema, the table at page 1 | `Items` |
//! | `header` | the file's header | `Written` |
//! | `check` | what was written is read back | `Written` |
//! | `write` | the whole | `Written` |
//!
//! Promise: bytes are returned only if `svn_wcdb` reads from them the schema's rows and each table's rows, exactly and in their order ([`write_image`], by
//! `IsWritten`). This holds whatever the files up to `header` do, since `check` compares; that its comparison never fails is tested and not proved. The pages
//! of indexes aren't read back: SQLite's own check took those of files with random tables.
//!
//! Time and memory grow with the bytes of the rows: those of the file, once more the records of one index, and once more the rows of one table.
#![tactic(auto)]

mod check;
mod fault;
mod header;
mod index_tree;
mod item;
mod node;
mod order;
mod overflow;
mod pages;
mod schema;
mod table_tree;
mod values;
mod write;

pub use fault::ImageFault;
pub use item::{Database, Item};
pub use values::record;
pub use write::write_image;

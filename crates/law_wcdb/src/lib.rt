//! The laws of tables: what `svn_wcdb` reads of a database is what the kit's crates for SQLite's files say that it has. `sqlite_btree` defines trees,
//! chains of overflow pages and tables for a program that writes them too, and knows nothing of this reader. The laws are in `specs/Laws.antt`; each is
//! the contract of a function that does nothing: who calls the function has the law.
//!
//! - [`tables_are_trees`]: where a table is read, its pages are a tree of well-formed pages, and the rows are those of its leaves, in their order and
//!   with their overflow pages. The tree is `IsTreeWithin` of `specs/Trees.antt`: the kit's, but for what the reader doesn't test.
//! - [`trees_are_read`]: the rows of such a tree are read exactly if it takes no more pages than the file has (`HasPages`).
//! - [`stored_tables_are_read`]: a table of records by the kit's `IsTable` is read, row by row. It is such a tree ([`stored_tables_are_trees`]), whose
//!   pages are no two the same; and of no table by it other rows are read ([`stored_rows_are_read`]).
//!
//! What the reader doesn't test: that all leaves are equally deep, that a page below the root has a cell and isn't page 1, that rows ascend, that no page
//! is there twice, that a payload's length is below 2^31.
#![tactic(auto)]

ghost use Rattle.law_wcdb.specs.Laws.{stored_rows_are_read, stored_tables_are_read, stored_tables_are_trees, tables_are_trees, trees_are_read};

/// The rows that are read are those of a tree of well-formed pages.
pub fn tables_are_trees()
    ensures { tables_are_trees }
{}

/// The rows of such a tree are read exactly if it takes no more pages than the file has.
pub fn trees_are_read()
    ensures { trees_are_read }
{}

/// Of pages that hold a table by `sqlite_btree` no other rows are read.
pub fn stored_rows_are_read()
    ensures { stored_rows_are_read }
{}

/// A table by `sqlite_btree`, of records, is such a tree.
pub fn stored_tables_are_trees()
    ensures { stored_tables_are_trees }
{}

/// All of its rows are read.
pub fn stored_tables_are_read()
    ensures { stored_tables_are_read }
{}

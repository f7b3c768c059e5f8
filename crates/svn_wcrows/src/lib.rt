//! The database of a working copy of Subversion 1.8 to 1.14 (format 31), written afresh from its rows, as `svn_wcdb` reads it. Nothing is opened here.
//!
//! ```
//! let mut tables = Tables::new(alloc, b"svn://h/repo", uuid)?;
//! let bytes = node_record(alloc, owner, &path, &node, &Recorded::NOTHING)?;
//! tables.nodes.push(TableRow { rowid: 1, bytes })?;
//! let bytes = write_copy(alloc, &tables, Numbers::at_end(1), &nodes)?;
//! ```
//!
//! | Files, lowest first | What they do | Definitions in `specs/` |
//! |---|---|---|
//! | `fault` | why rows aren't written or read | `Faults`, `Reading` |
//! | `lawful` | what the types of paths and properties keep | |
//! | `skel`, `properties`, `inherited` | lists of atoms (skels), properties, properties from above | `Skels` |
//! | `paths`, `values` | paths as columns have them; the columns of a row | `Values` |
//! | `node_row`, `not_present`, `small_rows` | a row of NODES, of a base node; of one that isn't present; rows of the smaller tables | `Rows` |
//! | `work` | what is left to do on disk, as items of the work queue | `Work`, `WorkAtoms` |
//! | `tables`, `read`, `counts` | all tables; read from a database; how many nodes have each text | `Databases`, `Tables` |
//! | `schema`, `indexes`, `database` | the schema's texts; the records of indexes; the file | `Databases` |
//! | `copy` | the file, once its nodes were read back | `Copies` |
//! | `laws` | what is written is read back | `Laws` |
//!
//! Promises: a node's record has the columns that its base node is made of ([`node_record`], by `node_row`), which are read back as that node, at its path
//! ([`nodes_are_read_back`], [`rows_are_read_back`]). A database that is returned has each table with its rows, which were read from the bytes
//! ([`write_tables`], by `AreWritten`), and stands for a working copy with the nodes that were named ([`write_copy`], by `IsCopyOf`). Of a database exactly
//! its rows are read, or the first fault is returned ([`read_tables`], by `tables_of`); of rows of work the items that they are, and none where one is a
//! client's ([`read_work`], by `AreRead`; [`work_is_read_back`]). Not proved: that a whole base tree is read back, so that the comparison never fails; what
//! indexes, the smaller tables and the rows of nodes that aren't present have. What tests compare with SQLite and with Subversion is in `examples/subversion/checkouts.sh` and
//! `stored_databases.sh` beside it.
#![tactic(auto)]

mod copy;
mod counts;
mod database;
mod fault;
mod indexes;
mod inherited;
mod lawful;
mod laws;
mod node_row;
mod not_present;
mod paths;
mod properties;
mod read;
mod schema;
mod skel;
mod small_rows;
mod tables;
mod values;
mod work;

pub use copy::write_copy;
pub use database::{Numbers, numbers_of, write_tables};
pub use fault::RowsFault;
pub use inherited::Inherited;
pub use laws::{
    nodes_are_read_back, properties_are_read_back, rows_are_read_back, work_is_read_back,
};
pub use node_row::{LastChange, Owner, Recorded, node_record};
pub use not_present::{Absence, not_present_record};
pub use properties::push_props;
pub use read::read_tables;
pub use small_rows::{lock_row, pristine_record};
pub use tables::{Table, Tables};
pub use values::{is_null, number_at, text_at};
pub use work::{Work, read_work, work_is_lawful, work_rows};

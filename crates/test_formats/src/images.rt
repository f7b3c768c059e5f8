//! Tests of database files that are written: how many pages they have, that each index has its records, and what is refused. That the rows of tables are
//! read back is proved of what is returned, so a file that is returned is the test. Pages are counted by fileformat2.html, sections 1.6 and 2.1.

mod index_reader;
mod indexes;
mod refusals;
mod schemas;
mod tables;
mod written;

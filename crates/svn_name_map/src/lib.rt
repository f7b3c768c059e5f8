//! Maps from names whose clones share the names: the entries of a directory.
//!
//! A directory of a repository is cloned whenever something below it changes, and mostly only one of its nodes is another then. So a
//! [`NameMap`] keeps names and values apart, in runs of at most 256 pairs: a clone copies the values, and the names of a run only if one
//! is put in or taken out. Putting in and taking out may need memory; setting doesn't.
//!
//! Files: `run` is one run: looking up, putting in, taking out, setting. `runs` finds the run for a name, and splits a full one: it stays full if
//! names come in their order, else it is halved. `name_map` is the public type, `iter` goes through the pairs. `proofs/Ordered` has what becomes of
//! a list of pairs, `Joined` the same around one of many runs, `Zipped` names and values side by side, `Changed` what each name has after a
//! change. The most pairs of a run is `MAX_RUN` in `run.rt`, which no contract mentions. The tests are in `test_repo` (`maps.rt`).
//!
//! Promises: a contract sees a map as its pairs in byte order of the names, and a change of it by the words of the library's tree map:
//! `insert_entry`, `remove_entry`, `lookup`.
#![tactic(auto)]

mod iter;
mod name_map;
mod run;
mod runs;

pub use iter::Iter;
pub use name_map::NameMap;

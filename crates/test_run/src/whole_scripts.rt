//! Tests of whole scripts: what they print on one thread and on two, which lines are no command, and streams that fail.
//!
//! Each expected value was worked out by hand from the rules, and none was taken from a run.
mod bad_lines;
mod cut_scripts;
mod failing_streams;
mod given_repository;
mod limits;
mod long_scripts;
mod rows;
mod scripts;
mod stopping;
mod tables;

//! Tests of working copies and of drives: how copies are made and changed, what they report, what an edit does to them, the calls of each kind
//! of edit, how a drive stops, and which reports can be served. Each case is a script of short steps, and what it writes.
//!
//! Each expected call was worked out by hand from the rules, and none was taken from a run.
#![tactic(auto)]

#[cfg(test)]
mod builders;
#[cfg(test)]
mod calls;
#[cfg(test)]
mod carried;
#[cfg(test)]
mod changes;
#[cfg(test)]
mod drive_links;
#[cfg(test)]
mod drive_stops;
#[cfg(test)]
mod drive_switches;
#[cfg(test)]
mod drive_updates;
#[cfg(test)]
mod drives;
#[cfg(test)]
mod edits;
#[cfg(test)]
mod histories;
#[cfg(test)]
mod known;
#[cfg(test)]
mod listed;
#[cfg(test)]
mod nodes;
#[cfg(test)]
mod printed;
#[cfg(test)]
mod refusals;
#[cfg(test)]
mod report_checks;
#[cfg(test)]
mod reports;
#[cfg(test)]
mod sizes;
#[cfg(test)]
mod steps;
#[cfg(test)]
mod words;

//! A plain and slow model of repositories, working copies and updates, written from their definitions: flat maps from path to
//! node, each path looked at alone, and a drive's calls put in order by sorting. It has none of the library's code, only the names of its kinds and faults.
//! Paths have at most 14 names of a table, texts and values come from a table too, and what would go beyond is an error.
//!
//! Files: `plain_path` and `words` have paths, names and texts; `history` and `draft` commits; `base` and `truth` copies; `report` and `request` what a
//! report says and where each path leads; `acts` and `lines` the calls of a drive; `effects` what calls do; `fault` why the model gives no result. A
//! rule of the library that changes must be changed here by hand.

mod acts;
mod base;
mod draft;
mod effects;
mod fault;
mod history;
mod lines;
mod plain_path;
mod report;
mod request;
mod truth;
mod words;

pub(crate) use acts::{Act, drive};
pub(crate) use base::{
    Base, BaseTree, checked_out, checkout_fault, forget, forgetting_fault, placing_fault, put_at,
};
pub(crate) use draft::{Draft, Edit};
pub(crate) use effects::Edition;
pub(crate) use fault::Fault;
pub(crate) use history::{History, Node, Tree, Values};
pub(crate) use lines::{Tokens, line};
pub(crate) use plain_path::{PlainPath, ROOT, Raw};
pub(crate) use report::{Report, Said, crawl};
pub(crate) use request::{Facts, Request, TargetFault, result};
pub(crate) use truth::first_untrue;
pub(crate) use words::{NAMES, PROP_NAMES, TEXT_COUNT, Word};

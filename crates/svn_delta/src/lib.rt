//! What driver and receiver of an edit share (`svn_delta.h`, and of `svn_ra.h` the reporter): the calls of a delta editor, the check of
//! their order, and reports of what a client has. Each part is a crate with its own page: `svn_editor`, `svn_order` and `svn_report`. This
//! one re-exports them under one name.
//!
//! ```
//! use svn_delta::{Call, Editor, OrderCheck, Recorder, Reporter};
//! ```
#![tactic(auto)]

pub use svn_editor::{
    Call, ChecksumWord, Digest, EditFault, Editor, Mode, OrderFault, PathWord, Recorder, Token,
    Word,
};
pub use svn_order::OrderCheck;
pub use svn_report::{EntryLine, Report, ReportEntry, ReportIter, Reporter, ReporterFault};

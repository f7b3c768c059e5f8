//! Subversion's update as a library: every name that a client, a server or a test bench needs, in one crate.
//!
//! ```text
//!    working copy ── crawl ──▶ report                        repository
//!         ▲                       │                              │
//!         │                       ▼                              ▼
//!         │                 ┌───────────┐   editor calls   ┌───────────┐
//!      applier ◀── queue ◀──│  sender   │◀─────────────────│  driver   │
//!         │                 └───────────┘                  └───────────┘
//!         └── notice of an early stop ──────▲              (a thread of its own)
//! ```
//!
//! The copy reports its nodes, the driver compares the report with the target revision and makes the calls of an edit, and the applier
//! applies each of them.
//!
//! | To do this | use that |
//! |---|---|
//! | commit revisions | [`Repo`], `commit` with [`Change`]s |
//! | make a revision change by change, with look-ups in between | `Repo::begin`, [`Transaction`] |
//! | read a revision | `Repo::lookup`, `kind`, `text`, `props`, `entries` |
//! | check out a revision, place, switch, forget | [`WorkingCopy`] |
//! | describe a run: the revision, an update or a switch, a limit on calls, texts last | [`Request`] |
//! | update a copy, or bring its root to another path | [`run_in_turn`], or [`run`] with the driver in a thread of its own |
//! | the same with arguments instead of a request | [`update_in_turn`], [`switch_to_in_turn`]; [`update`], [`switch_to`] with [`Options`] |
//! | follow the calls that take effect, with their paths | [`Listener`] |
//! | follow the calls that pass between the threads | [`Gate`] |
//! | test whether a copy agrees with the repository | `WorkingCopy::check_true` |
//! | report what a client of your own has | [`Reporter`], which makes a [`Report`]; [`check_report`] |
//! | get the calls of an update or of a switch | [`drive_request`], with an [`Editor`] of yours or a [`Recorder`]; [`drive`], [`drive_switch`] |
//! | receive the calls of an update | implement [`Editor`]; [`Applier`] is the one that changes a copy |
//! | check the order of calls | [`OrderCheck`] |
//! | pass calls to another thread | [`link`] and [`notice`] |
//!
//! Copies, reports, entries and properties have `iter`. Calls that allocate take the allocator as an argument. Each error is an enum with a
//! `number`, a `name` and a text.
//!
//! ```
//! let mut repo = Repo::new(alloc)?;
//! let path = RelPath::parse(alloc, "f")?;
//! repo.commit(&[Change::PutFile { path, text: Text::from_slice(alloc, b"a")? }])?;
//! let mut copy = WorkingCopy::checkout(alloc, &repo, Rev(0))?;
//! let outcome = run_in_turn(alloc, &repo, &mut copy, &Request::update(Rev(1)), &mut NoListener)?;
//! println!(rt; "{outcome}")?;
//! ```
//!
//! prints `closed 7`. This crate only re-exports names: the promises are those of the crates that define them, which `docs/PROVED.md` lists.
#![tactic(auto)]

pub use svn_drive::{DriveOptions, Request, check_report, drive, drive_request, drive_switch};
pub use svn_editor::{
    Call, ChecksumWord, EditFault, Editor, Mode, OrderFault, PathWord, Recorder, Token, Word,
};
pub use svn_link::{
    Inbox, LinkFault, Outbox, Settled, Teller, Watcher, link, notice, settle, settle_notice,
};
pub use svn_model::{BaseNode, DriveEnd, DriveFault, ReportFault, WcFault};
pub use svn_name_map::Iter;
pub use svn_order::OrderCheck;
pub use svn_repo::{Change, CommitFault, Entries, NodeId, Repo, Transaction};
pub use svn_report::{EntryLine, Report, ReportEntry, ReportIter, Reporter, ReporterFault};
pub use svn_run::{
    Cause, Gate, Listener, NoGate, NoListener, Options, Outcome, RunFault, run, run_in_turn,
    switch_to, switch_to_in_turn, update, update_in_turn,
};
pub use svn_types::{
    Digest, Kind, MAX_CAPACITY, MAX_COMPONENTS, MAX_DEPTH, MAX_NAME_LEN, MAX_SIZE, Name,
    PathBytesFault, PathFault, PropChange, PropName, Props, RelPath, Rev, Sha1Sum, Text,
};
pub use svn_wc::{Applier, WorkingCopy};

//! The server's side of a connection of Subversion's protocol (ra_svn), read only: what is written to a client for each item that it sends.
//!
//! [`serve`] answers one client over a reader and a writer, to the end of what it sends, of what is served (`svn_replies`).
//!
//! ```
//! let served = Served { repo, index, revisions, changes, uuid, root, options };
//! serve(alloc, &served, &mut reader, &mut writer)?;
//! ```
//!
//! A connection goes through phases: the client answers the greeting and names a URL, it names a mechanism, and then sends commands. After `update`,
//! `switch`, `status` and `diff` it reports what it has, entry by entry; the drive of that report, by `svn_drive`, is written as it is made, and the client
//! says how it took it. A report's first refusal is sent at its end. The other commands are answered at once, by `svn_commands`. Whatever fails but the
//! connection itself is sent to the client as a failure, with a code of `svn_error_codes.h`.
//!
//! Where one entry of the client's directory is wanted (`update PATH`), the report says that the directory is as the target has it, and of the entry what the
//! client said. So the calls are about the entry alone. In a switch of an entry the directory is that of the new path, and the entry's name there becomes the
//! client's in each path that is written (`ClientView`). Depths are left to the client.
//!
//! Files: `exchange` reads items and writes answers, `connection` has the phases, `opening` how a client is let in, `commands` which commands a report
//! follows, `reports` what comes of one. `wanted` is what a drive is asked for, `reporting` the report, with the `fields` of its commands, `driving` the
//! drive, `client_view` its calls as a client is sent them; `follow` is where a path of the client leads in the target, and `notes` what is said of the node
//! there. `fault` says why a connection ends, `laws` has the law of reports.
//!
//! Promises: a connection writes the greeting, and then what comes of the client's items, one after another, to the end of its input ([`serve`]: `IsServed`
//! of `specs/Serving.antt`, by `Runs` of `specs/Connection.antt`). What is written after a report is the image of the drive of that report, each node with
//! its last change (`Tells` of `specs/Told.antt`); or that of its first calls, and a failure where a stop was asked for; or why there is no drive
//! ([`reports_are_driven`]). Any other command is answered as `Replies` of `svn_commands` says; or, where it fails, the failure is written after what was
//! written before (`IsAnswered` of `specs/Connection.antt`). A client is where its URL says (`IsOpened` of `svn_replies`).
#![tactic(auto)]

mod client_view;
mod commands;
mod connection;
mod driving;
mod exchange;
mod fault;
mod fields;
mod follow;
mod laws;
mod notes;
mod opening;
mod reporting;
mod reports;
mod wanted;

pub use exchange::{CLIENT_LIMITS, serve};
pub use fault::ServeFault;
pub use laws::reports_are_driven;

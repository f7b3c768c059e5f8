//! What an update means, in definitions: what a report says of the repository, where each path leads, the drive of an edit,
//! what a working copy is and when it is true, what each call does to it, the result, and how a drive may end. Driver, copy, laws and the update
//! theorem are stated in the words of its `specs/`, so an audit begins with these; `docs/DEFINITIONS.md` has them in prose.
//!
//! The code here is the values that the definitions speak of: [`BaseNode`], what a copy has at a path; [`WcFault`], [`ReportFault`] and
//! [`DriveFault`], why copy, repository and driver refuse; [`Stop`] and [`DriveEnd`], how a drive ends.
//!
//! ```
//! if let Some(BaseNode::File { rev, text, .. }) = copy.get(&path) {
//!     println!(rt; "{rev}: {} bytes", text.len())?;
//! }
//! ```
//!
//! To change a definition: change it here, see which rows and lemmas of `law_drive`, `law_copy` and `law_update` fail, and read `docs/PROOF.md`.
//!
//! Promises: the numbers of the faults are as defined (`specs/FaultNumbers.antt`). That the definitions fit one another is what `law_drive`,
//! `law_copy` and `law_update` prove.
#![tactic(auto)]

mod base_node;
mod drive_end;
mod drive_fault;
mod report_fault;
mod stop;
mod wc_fault;

pub use base_node::BaseNode;
pub use drive_end::DriveEnd;
pub use drive_fault::DriveFault;
pub use report_fault::ReportFault;
pub use stop::Stop;
pub use wc_fault::WcFault;

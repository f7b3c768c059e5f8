//! How a refusal is printed.

use crate::fault::Fault;
use std::process::ExitCode;

/// The status of what was refused, or failed.
pub(crate) const REFUSED: u8 = 2;

/// Tells why something isn't done, of the word of a call that it is about. Where standard error can't be written either, the status alone tells.
pub(crate) fn refuse<T: Eprint>(rt: &T, name: &str, fault: &Fault) -> ExitCode {
    let _ = eprintln!(rt; "svncopy: {name}: {fault}");
    ExitCode::from(REFUSED)
}

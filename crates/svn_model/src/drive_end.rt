//! How a drive ends.

/// How a drive ended, if it was neither refused nor had a call refused.
#[derive(Clone, Copy, Debug, PartialEq, Eq)]
pub enum DriveEnd {
    /// All calls were made and accepted, `CloseEdit` the last.
    Closed {
        /// How many, `CloseEdit` included.
        calls: u64,
    },
    /// As many calls as were asked for were made and accepted, then `AbortEdit`.
    Cancelled {
        /// How many, `AbortEdit` not included.
        made: u64,
    },
}

//! What is printed of a check that counts.

use anyhow::Result;

/// Says that something holds, or of how many things it doesn't.
pub(crate) fn say<R: Print>(rt: &R, what: &str, others: usize) -> Result<()> {
    if others == 0 {
        println!(rt; "{what}")?;
    } else {
        println!(rt; "NOT SO FOR {others}: {what}")?;
    }
    Ok(())
}

//! Text deltas that give a wrong checksum for the text that they are applied to.

use super::history::{load_all, loader_of};
use anyhow::Result;
use std::alloc::Global;
use svn_dump::{DumpFault, Reason, Texts};
use svn_history::LoadFault;
use svn_types::Rev;

// The headers of such a checksum, and why the dump is refused where its first digit is another.
type Base = (&'static str, Reason);

static BASES: [Base; 2] = [
    ("Text-delta-base-md5: ", Reason::WrongBaseMd5),
    ("Text-delta-base-sha1: ", Reason::WrongBaseSha1),
];

fn bases() -> &'static [Base] {
    &BASES
}

/// The dump with another digit after a header, if it has it.
pub(super) fn with_digit(alloc: Global, dump: &[u8], header: &[u8]) -> Result<Option<Vec<u8>>> {
    let mut changed = Vec::with_capacity(alloc, dump.len())?;
    let mut is_changed = false;
    for (place, byte) in dump.iter().enumerate() {
        let is_first = !is_changed && dump[..place].ends_with(header);
        is_changed = is_changed || is_first;
        changed.push(if is_first { byte ^ 1 } else { *byte })?;
    }
    Ok(is_changed.then_some(changed))
}

// How a dump ends: with what fault, if with any, and with which revision as the newest.
fn ending(alloc: Global, dump: &[u8], texts: Texts) -> Result<(Option<LoadFault>, Rev)> {
    let mut loader = loader_of(alloc, dump, texts)?;
    let fault = load_all(&mut loader).err();
    Ok((fault, loader.into_repo().latest()))
}

// Whether the dump is refused in its second revision for a wrong checksum, and loads where no delta is applied.
fn is_compared(alloc: Global, dump: &[u8], header: &[u8], reason: Reason) -> Result<bool> {
    let Some(changed) = with_digit(alloc, dump, header)? else {
        return Ok(false);
    };
    let whole = ending(alloc, &changed, Texts::Whole)?;
    let passed = ending(alloc, &changed, Texts::Sha1)?;
    let refusal = LoadFault::Dump(DumpFault::Refused(reason));
    Ok(whole == (Some(refusal), Rev(1)) && passed == ending(alloc, dump, Texts::Sha1)?)
}

/// How many checksums of a delta's base aren't compared in a dump whose second revision has the first such delta.
pub fn passed_wrongly(alloc: Global, dump: &[u8]) -> Result<usize> {
    let mut others = 0usize;
    for (header, reason) in bases() {
        if !is_compared(alloc, dump, header.as_bytes(), *reason)? {
            others = others.saturating_add(1);
        }
    }
    Ok(others)
}

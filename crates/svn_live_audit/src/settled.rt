//! The untrue paths, once all is said.
ghost use Rattle.std.specs.Prelude.{◌≡◌, IfOk};
ghost use Rattle.svn_live_audit.specs.Rounds.{settled};

use crate::finding::Finding;
use std::alloc::{AllocError, Global};
use svn_audit::{Reason, Untrue};

/// The untrue paths among these findings, those of places that were asked again with these reasons, in their order.
pub fn untrue_paths(
    alloc: Global,
    findings: Vec<Finding>,
    reasons: Vec<Reason>,
) -> Result<Vec<Untrue>, AllocError>
    ensures { IfOk result (λ paths. paths.items ≡ settled findings.items reasons.items) }
{
    let mut reasons = reasons.into_iter();
    let mut untrue_paths = Vec::new(alloc);
    for finding in findings {
        let mut untrue = finding.untrue;
        if finding.asks_again {
            if let Some(reason) = reasons.next() {
                untrue.reason = reason;
            }
        }
        untrue_paths.push(untrue)?;
    }
    Ok(untrue_paths)
}

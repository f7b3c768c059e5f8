//! What a run on two threads returns once both are done.
ghost use Rattle.std.specs.Prelude.{◌≡◌, length, true};
ghost use Rattle.svn_link.specs.Calls.{is_over};
ghost use Rattle.svn_run.specs.Finishing.{late_of, made_of, threads_outcome, IsFinished};

use crate::driving::Driven;
use crate::outcome::{Outcome, cause_at};
use crate::taking::Taken;
use std::sync::Wait;
use svn_editor::EditFault;
use svn_link::{Settled, settle, settle_notice};
use svn_model::{DriveEnd, DriveFault};

/// Joins the ends again, and says how the run with that limit on calls ended.
pub(crate) fn finish<R: Wait>(
    rt: &R,
    limit: Option<u64>,
    driven: Driven,
    taken: Taken,
) -> (Outcome, Settled)
    requires link { taken.inbox.link ≡ driven.outbox.link }
    requires notice { driven.watcher.notice ≡ taken.teller.notice }
    requires over { is_over taken.inbox.calls ≡ true }
    ensures { IsFinished limit driven taken result.0 result.1 }
{
    let Driven {
        outbox,
        watcher,
        end,
    } = driven;
    let Taken {
        inbox,
        teller,
        accepted,
    } = taken;
    let settled = settle(outbox, inbox);
    let _refused = settle_notice(rt, teller, watcher);
    let outcome = outcome_of(limit, &end, sent_calls(&settled), accepted);
    (outcome, settled)
}

fn sent_calls(settled: &Settled) -> u64
    ensures { result ≡ length settled.now.sent }
{
    settled.sent
}

// The outcome, by the limit on calls, how the driver ended, and how many calls were sent and accepted.
fn outcome_of(
    limit: Option<u64>,
    end: &Result<DriveEnd, DriveFault>,
    sent: u64,
    accepted: u64,
) -> Outcome
    ensures { result ≡ threads_outcome limit end.now sent accepted }
{
    if accepted == sent {
        return Outcome::Closed { calls: accepted };
    }
    let made = made_by(end, sent);
    Outcome::Aborted {
        made,
        accepted,
        late: late_call(end),
        cause: cause_at(limit, made, accepted),
    }
}

// Of the calls that were sent, those that the drive has.
fn made_by(end: &Result<DriveEnd, DriveFault>, sent: u64) -> u64
    ensures { result ≡ made_of end.now sent }
{
    match end {
        Ok(DriveEnd::Closed { .. }) => sent,
        _ => sent.saturating_sub(1),
    }
}

// The number that stopped the driver.
fn late_call(end: &Result<DriveEnd, DriveFault>) -> Option<u64>
    ensures { result ≡ late_of end.now }
{
    match end {
        Err(DriveFault::Editor(EditFault::Late(n))) => Some(*n),
        _ => None,
    }
}

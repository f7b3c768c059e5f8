//! The queue and the notice, both ends in one thread.
use crate::trouble::{Trouble, holds};
use std::alloc::Global;
use std::sync::Wait;
use svn_editor::Call;
use svn_link::{LinkFault, Settled, link, notice, settle, settle_notice};
use svn_types::Rev;

fn is_target(call: Call) -> bool {
    matches!(call, Call::SetTargetRevision { rev: Rev(1) })
}

fn is_abort(call: Call) -> bool {
    matches!(call, Call::AbortEdit)
}

// Whether both calls were sent and taken.
fn both_passed(settled: Settled) -> bool {
    settled.sent == 2 && settled.taken == 2
}

fn queue<R: Wait>(rt: &R, alloc: Global) -> Result<(), Trouble> {
    let (mut outbox, mut inbox) = link(alloc, 2)?;
    outbox.send(rt, Call::SetTargetRevision { rev: Rev(1) });
    outbox.send(rt, Call::AbortEdit);
    let target_first = is_target(inbox.take(rt));
    if inbox.over() {
        return Err(Trouble::Other("the first call is taken for the last"));
    }
    let abort_second = is_abort(inbox.take(rt));
    let passed = both_passed(settle(outbox, inbox));
    let is_well = target_first && abort_second && passed;
    holds(is_well, "calls are taken otherwise")
}

fn early_stop<R: Wait>(rt: &R, alloc: Global) -> Result<(), Trouble> {
    let (mut teller, mut watcher) = notice(alloc)?;
    let before = watcher.seen(rt);
    teller.refused(rt, 5);
    let behind = watcher.seen(rt);
    let told = settle_notice(rt, teller, watcher);
    let is_told = before.is_none() && behind == Some(5) && told == Some(5);
    holds(is_told, "another number is reported")
}

// A capacity that is none is refused before memory is asked for.
fn refuses(alloc: Global, capacity: usize) -> Result<(), Trouble> {
    match link(alloc, capacity) {
        Err(LinkFault::Capacity) => Ok(()),
        Err(LinkFault::Memory) => Err(Trouble::Other("a capacity that is none takes memory")),
        Ok(_) => Err(Trouble::Other("a capacity that is none is taken")),
    }
}

/// The queue and the notice.
pub(crate) fn links<R: Wait>(rt: &R, alloc: Global) -> Result<(), Trouble> {
    queue(rt, alloc)?;
    early_stop(rt, alloc)?;
    refuses(alloc, 0)?;
    refuses(alloc, 4097)
}

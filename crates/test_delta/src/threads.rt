//! Calls and a refusal that pass between two threads.
ghost use Rattle.std.specs.Prelude.{◌≡◌};

use std::alloc::Global;
use std::process::Abort;
use std::sync::Wait;
use std::test::Fail;
use std::thread::{Threads, join_mut};
use svn_editor::Call;
use svn_link::{
    Inbox, LinkFault, MAX_CAPACITY, Outbox, Teller, Watcher, link, notice, settle, settle_notice,
};
use svn_types::Rev;

// What is sent: so many revisions, over a queue of this capacity, and the number of the call that is refused, 0 for none.
#[derive(Clone, Copy)]
struct Job {
    capacity: usize,
    revisions: u64,
    refused: u64,
}

// What came of it.
#[derive(Clone, Copy)]
struct Passed {
    sent: u64,
    taken: u64,
    // whether the revisions came as 0, 1, 2, ..
    in_order: bool,
    told: Option<u64>,
    seen: Option<u64>,
}

fn send_if_open<R: Wait>(rt: &R, outbox: &mut Outbox, call: Call)
    ensures { outbox.new.link ≡ outbox.old.link }
{
    if !outbox.over() && outbox.sent() < u64::MAX {
        outbox.send(rt, call);
    }
}

// Sends the revisions 0, 1, 2, .. and then `CloseEdit`. It looks at the notice before each call, and gives up where it sees a number.
fn send_until_seen<R: Wait>(
    rt: &R,
    outbox: &mut Outbox,
    watcher: &mut Watcher,
    revisions: u64,
) -> Option<u64>
    ensures { (outbox.new.link ≡ outbox.old.link) × (watcher.new.notice ≡ watcher.old.notice) }
{
    for revision in 0..revisions {
        let seen = watcher.seen(rt);
        if seen.is_some() {
            send_if_open(rt, outbox, Call::AbortEdit);
            return seen;
        }
        send_if_open(rt, outbox, Call::SetTargetRevision { rev: Rev(revision) });
    }
    send_if_open(rt, outbox, Call::CloseEdit);
    None
}

fn is_revision(call: &Call, number: u64) -> bool {
    match call {
        Call::SetTargetRevision { rev } => *rev == Rev(number),
        _ => true,
    }
}

// Takes until the Inbox is over, and reports that one of the calls was refused. Whether the revisions came as 0, 1, 2, ..
fn take_all<R: Wait>(rt: &R, inbox: &mut Inbox, teller: &mut Teller, refused: u64) -> bool
    ensures { (inbox.new.link ≡ inbox.old.link) × (teller.new.notice ≡ teller.old.notice) }
{
    let mut in_order = true;
    for _ in rt.forever() {
        if inbox.over() {
            break;
        }
        let number = inbox.taken();
        let call = inbox.take(rt);
        in_order = in_order && is_revision(&call, number);
        if refused > 0 && inbox.taken() == refused && !teller.told() {
            teller.refused(rt, refused);
        }
    }
    in_order
}

// Sends in a thread of its own and takes in this one.
fn pass<R: Threads + Wait + Sync>(rt: &R, alloc: Global, job: Job) -> Result<Passed, LinkFault> {
    let (mut outbox, mut inbox) = link(alloc, job.capacity)?;
    let (mut teller, mut watcher) = notice(alloc)?;
    let (seen, in_order) = join_mut(
        rt,
        &mut || send_until_seen(rt, &mut outbox, &mut watcher, job.revisions),
        &mut || take_all(rt, &mut inbox, &mut teller, job.refused),
    );
    let told = settle_notice(rt, teller, watcher);
    let settled = settle(outbox, inbox);
    Ok(Passed {
        sent: settled.sent,
        taken: settled.taken,
        in_order,
        told,
        seen,
    })
}

// How many calls pass from thread to thread at each capacity, beside the last call.
const CALLS: u64 = 1_000_000;

fn all_pass<R: Threads + Wait + Sync + Abort>(
    rt: &R,
    alloc: Global,
    capacity: usize,
) -> Result<(), Fail> {
    let revisions = CALLS;
    let refused = 0;
    let passed = pass(
        rt,
        alloc,
        Job {
            capacity,
            revisions,
            refused,
        },
    )?;
    assert_eq!(rt;
        (
            passed.sent,
            passed.taken,
            passed.in_order,
            passed.told,
            passed.seen
        ),
        (CALLS + 1, CALLS + 1, true, None, None),
        "at {capacity}"
    );
    Ok(())
}

#[test]
fn calls_pass_between_two_threads(rt: HostRuntime) -> Result<(), Fail> {
    for capacity in [1, 64, MAX_CAPACITY] {
        all_pass(&rt, rt.alloc(), capacity)?;
    }
    Ok(())
}

// The third of at most 1,000 calls is refused.
const REFUSED: Job = Job {
    capacity: 1,
    revisions: 1000,
    refused: 3,
};

#[test]
fn a_refused_call_stops_the_sender(rt: HostRuntime) -> Result<(), Fail> {
    let passed = pass(&rt, rt.alloc(), REFUSED)?;
    let is_seen = passed.seen.is_none() || passed.seen == passed.told;
    assert_eq!(rt;
        (passed.taken, passed.told, passed.in_order, is_seen),
        (passed.sent, Some(3), true, true)
    );
    Ok(())
}

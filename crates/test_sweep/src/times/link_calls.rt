//! Calls that pass through a link from one thread to another, beside a plain channel of the same capacity.

use crate::times::nanos_since;
use crate::trouble::Trouble;
use crossbeam_channel::{Receiver, Sender, bounded};
use std::alloc::Global;
use std::sync::Wait;
use std::thread;
use std::thread::Threads;
use std::time::{Clock, Instant};
use svn_editor::Call;
use svn_link::{Inbox, Outbox, link};
use svn_types::Rev;

// The end that sends.
#[derive(Drop)]
enum Sending {
    Link(Outbox),
    Plain(Sender<Call>),
}

// The end that takes.
#[derive(Drop)]
enum Taking {
    Link(Inbox),
    Plain(Receiver<Call>),
}

fn send_one<R: Wait>(rt: &R, outbox: &mut Outbox, call: Call) {
    if !outbox.over() && outbox.sent() < u64::MAX {
        outbox.send(rt, call);
    }
}

fn send_linked<R: Wait>(rt: &R, mut outbox: Outbox, calls: u64) {
    for revision in 0..calls {
        send_one(
            rt,
            &mut outbox,
            Call::SetTargetRevision { rev: Rev(revision) },
        );
    }
    send_one(rt, &mut outbox, Call::CloseEdit);
}

fn take_linked<R: Wait>(rt: &R, mut inbox: Inbox) -> u64 {
    for _ in rt.forever() {
        if inbox.over() {
            break;
        }
        drop(inbox.take(rt));
    }
    inbox.taken()
}

fn send_plain<R: Wait>(rt: &R, sender: Sender<Call>, calls: u64) {
    for revision in 0..calls {
        let _ = sender.send(rt, Call::SetTargetRevision { rev: Rev(revision) });
    }
    let _ = sender.send(rt, Call::CloseEdit);
}

fn take_plain<R: Wait>(rt: &R, receiver: Receiver<Call>) -> u64 {
    let mut taken = 0u64;
    for _ in rt.forever() {
        let Ok(call) = receiver.recv(rt) else {
            break;
        };
        taken = taken.wrapping_add(1);
        if call.is_last() {
            break;
        }
    }
    taken
}

// Sends that many calls, and a last one.
fn send_all<R: Wait>(rt: &R, sending: Sending, calls: u64) {
    match sending {
        Sending::Link(outbox) => send_linked(rt, outbox, calls),
        Sending::Plain(sender) => send_plain(rt, sender, calls),
    }
}

// Takes up to the last call, and counts them.
fn take_all<R: Wait>(rt: &R, taking: Taking) -> u64 {
    match taking {
        Taking::Link(inbox) => take_linked(rt, inbox),
        Taking::Plain(receiver) => take_plain(rt, receiver),
    }
}

// How many calls came from one thread to the other; none where no thread could be made.
fn pass<R: Threads + Wait + Sync>(rt: &R, sending: Sending, taking: Taking, calls: u64) -> u64 {
    thread::scope(thread::scope_env(), rt, move |scope| -> u64 {
        let thread = scope.spawn(move || send_all(rt, sending, calls));
        let Ok(thread) = thread else {
            return 0;
        };
        let taken = take_all(rt, taking);
        thread.join(rt);
        taken
    })
}

fn linked(alloc: Global, capacity: usize) -> Result<(Sending, Taking), Trouble> {
    let (outbox, inbox) = link(alloc, capacity)?;
    Ok((Sending::Link(outbox), Taking::Link(inbox)))
}

fn plain(alloc: Global, capacity: usize) -> Result<(Sending, Taking), Trouble> {
    let (sender, receiver) = bounded::<Call, Global>(alloc, capacity)?;
    Ok((Sending::Plain(sender), Taking::Plain(receiver)))
}

// How many of that many calls pass in a second.
fn rate<R: Threads + Wait + Sync + Clock>(
    rt: &R,
    sending: Sending,
    taking: Taking,
    calls: u64,
) -> Result<u64, Trouble> {
    let start = Instant::now(rt)?;
    let taken = pass(rt, sending, taking, calls);
    let took = nanos_since(rt, start)?;
    if taken != calls.wrapping_add(1) {
        return Err(Trouble::Other("calls are lost, or no thread could be made"));
    }
    Ok(calls.saturating_mul(1_000) / (took / 1_000_000).max(1))
}

fn time<R: Threads + Wait + Sync + Clock + Eprint>(
    rt: &R,
    alloc: Global,
    capacity: usize,
    calls: u64,
) -> Result<(), Trouble> {
    let (sending, taking) = linked(alloc, capacity)?;
    let link = rate(rt, sending, taking, calls)?;
    let (sending, taking) = plain(alloc, capacity)?;
    let plain = rate(rt, sending, taking, calls)?;
    eprintln!(rt; "capacity {capacity}: link {link}, plain channel {plain} calls a second")?;
    Ok(())
}

const CAPACITIES: [usize; 3] = [1, 64, 4096];

/// Times that many calls at each capacity.
pub(crate) fn run<R: Threads + Wait + Sync + Clock + Eprint>(
    rt: &R,
    alloc: Global,
    calls: u64,
) -> Result<(), Trouble> {
    for capacity in &CAPACITIES {
        time(rt, alloc, *capacity, calls)?;
    }
    Ok(())
}

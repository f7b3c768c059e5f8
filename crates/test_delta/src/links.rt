//! A link whose ends are on one thread.
ghost use Rattle.std.specs.Prelude.{◌≡◌};

use crate::calls::Row::{AbortEdit, ApplyText, CloseEdit, SetTargetRevision};
use crate::calls::{Row, call};
use Act::{Send, Take};
use std::alloc::Global;
use std::process::Abort;
use std::sync::Wait;
use std::test::Fail;
use svn_editor::Call;
use svn_link::{Inbox, LinkFault, MAX_CAPACITY, Outbox, Settled, link, settle};

// What an end does.
#[derive(Clone, Copy)]
enum Act {
    Send(Row),
    Take,
}

// A capacity, what the ends of its link do, and what is written of it: of each call whether it was the last, of each that is taken its line
// too, and in the end the ends and what they come to when they are joined.
struct Talk {
    capacity: usize,
    acts: &'static [Act],
    told: &'static str,
}

// The ends of one link.
#[derive(Drop)]
struct Ends {
    outbox: Outbox,
    inbox: Inbox,
    ghost one_link: { inbox.link ≡ outbox.link },
}

fn push_over(is_over: bool, out: &mut String) -> Result<(), Fail> {
    out.push_str(if is_over { ", the last\n" } else { "\n" })?;
    Ok(())
}

fn send<R: Abort + Wait>(rt: &R, ends: &mut Ends, call: Call) -> bool {
    assert!(rt; !ends.outbox.over() && ends.outbox.sent() < u64::MAX);
    ends.outbox.send(rt, call);
    ends.outbox.over()
}

fn send_row<R: Abort + Wait>(
    rt: &R,
    alloc: Global,
    ends: &mut Ends,
    row: Row,
    out: &mut String,
) -> Result<(), Fail> {
    let is_over = send(rt, ends, call(alloc, row)?);
    out.push_str("sent")?;
    push_over(is_over, out)
}

fn taken<R: Abort + Wait>(rt: &R, ends: &mut Ends) -> Call {
    assert!(rt; !ends.inbox.over());
    ends.inbox.take(rt)
}

fn push_call(call: &Call, out: &mut String) -> Result<(), Fail> {
    write!(out, "{call}")?;
    Ok(())
}

fn take<R: Abort + Wait>(rt: &R, ends: &mut Ends, out: &mut String) -> Result<(), Fail> {
    push_call(&taken(rt, ends), out)?;
    push_over(ends.inbox.over(), out)
}

fn make<R: Abort + Wait>(
    rt: &R,
    alloc: Global,
    ends: &mut Ends,
    act: Act,
    out: &mut String,
) -> Result<(), Fail> {
    match act {
        Send(row) => send_row(rt, alloc, ends, row, out),
        Take => take(rt, ends, out),
    }
}

fn ends_of(alloc: Global, capacity: usize) -> Result<Ends, LinkFault> {
    let (outbox, inbox) = link(alloc, capacity)?;
    Ok(Ends { outbox, inbox })
}

fn push_outbox(outbox: &Outbox, out: &mut String) -> Result<(), Fail> {
    write!(out, "{} {outbox:?}\n", outbox.sent())?;
    Ok(())
}

fn push_inbox(inbox: &Inbox, out: &mut String) -> Result<(), Fail> {
    write!(out, "{} {inbox:?}\n", inbox.taken())?;
    Ok(())
}

fn push_settled(settled: &Settled, out: &mut String) -> Result<(), Fail> {
    write!(out, "{} {} {settled:?}", settled.sent, settled.taken)?;
    Ok(())
}

fn settle_ends(ends: Ends) -> Settled {
    let Ends { outbox, inbox } = ends;
    settle(outbox, inbox)
}

// Makes the steps, and shows the ends.
fn make_all<R: Abort + Wait>(
    rt: &R,
    alloc: Global,
    ends: &mut Ends,
    acts: &[Act],
    out: &mut String,
) -> Result<(), Fail> {
    for act in acts {
        make(rt, alloc, ends, *act, out)?;
    }
    push_outbox(&ends.outbox, out)?;
    push_inbox(&ends.inbox, out)
}

fn told<R: Abort + Wait>(rt: &R, alloc: Global, talk: &Talk) -> Result<String, Fail> {
    let mut out = String::new(alloc);
    let mut ends = ends_of(alloc, talk.capacity)?;
    make_all(rt, alloc, &mut ends, talk.acts, &mut out)?;
    push_settled(&settle_ends(ends), &mut out)?;
    Ok(out)
}

static TAKEN_AS_SENT: Talk = Talk {
    capacity: 2,
    acts: &[Send(SetTargetRevision(1)), Send(AbortEdit), Take, Take],
    told: "sent
sent, the last
set_target_revision 1
abort_edit, the last
2 Outbox { sent: 2, over: true, .. }
2 Inbox { taken: 2, over: true, .. }
2 2 Settled { sent: 2, taken: 2, .. }",
};

static LEFT_IN_THE_QUEUE: Talk = Talk {
    capacity: 3,
    acts: &[
        Send(SetTargetRevision(7)),
        Send(ApplyText(1, None, "abc")),
        Take,
    ],
    told: "sent
sent
set_target_revision 7
2 Outbox { sent: 2, over: false, .. }
1 Inbox { taken: 1, over: false, .. }
2 1 Settled { sent: 2, taken: 1, .. }",
};

static NOTHING_TAKEN: Talk = Talk {
    capacity: 1,
    acts: &[Send(CloseEdit)],
    told: "sent, the last
1 Outbox { sent: 1, over: true, .. }
0 Inbox { taken: 0, over: false, .. }
1 0 Settled { sent: 1, taken: 0, .. }",
};

fn is_told<R: Abort + Wait>(rt: &R, alloc: Global, talk: &Talk) -> Result<(), Fail> {
    let found = told(rt, alloc, talk)?;
    assert_eq!(rt; found.as_str(), talk.told);
    Ok(())
}

#[test]
fn calls_are_taken_as_they_were_sent(rt: HostRuntime) -> Result<(), Fail> {
    for talk in [&TAKEN_AS_SENT, &LEFT_IN_THE_QUEUE, &NOTHING_TAKEN] {
        is_told(&rt, rt.alloc(), talk)?;
    }
    Ok(())
}

fn fault_of(alloc: Global, capacity: usize) -> Option<LinkFault> {
    match link(alloc, capacity) {
        Ok(_) => None,
        Err(fault) => Some(fault),
    }
}

static CAPACITIES: [(usize, Option<LinkFault>); 5] = [
    (0, Some(LinkFault::Capacity)),
    (1, None),
    (MAX_CAPACITY, None),
    (4097, Some(LinkFault::Capacity)),
    (usize::MAX, Some(LinkFault::Capacity)),
];

fn capacities() -> &'static [(usize, Option<LinkFault>)] {
    &CAPACITIES
}

fn is_bounded(rt: &impl Abort, alloc: Global, capacity: usize, fault: Option<LinkFault>) {
    assert_eq!(rt; fault_of(alloc, capacity), fault, "at {capacity}");
}

#[test]
fn capacities_are_bounded(rt: HostRuntime) {
    for (capacity, fault) in capacities() {
        is_bounded(&rt, rt.alloc(), *capacity, *fault);
    }
}

static FAULTS: [(LinkFault, &str); 2] = [
    (LinkFault::Capacity, "1 the capacity isn't 1 to 4096"),
    (LinkFault::Memory, "2 out of memory"),
];

// The number of a fault and its text.
fn shown(alloc: Global, fault: LinkFault) -> Result<String, Fail> {
    Ok(format!(in alloc; "{} {fault}", fault.number())?)
}

#[test]
fn faults_are_shown(rt: HostRuntime) -> Result<(), Fail> {
    for (fault, text) in &FAULTS {
        let shown = shown(rt.alloc(), *fault)?;
        assert_eq!(rt; shown.as_str(), *text);
    }
    Ok(())
}

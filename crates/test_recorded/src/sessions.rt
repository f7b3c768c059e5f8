//! Sessions of Subversion's client 1.14.2, which were recorded at `svnserve`, as the client's side of connections that are served here: what is written to the
//! client is printed, byte by byte. It is the same where texts are held by stand-ins, and read off the dump. Cut off after each byte, a session is served as
//! far as it came: what is written is a front of that. So it is for a client that stops reading.
//!
//! `history.dump` in `data/sessions` is what is served, `NAME.client` what the client sent.

mod hostile;
mod served;
mod shown;
mod texts;

use anyhow::{Result, bail};
use hostile::{deep, not_text, rows};
use served::{Holds, Served, Written, answers_to, answers_within, load};
use shown::shown;
use std::alloc::Global;
use std::fs;
use std::rt::Files;
use svn_served::ServeFault;

/// The recorded sessions.
const NAMES: &[&str] = &[
    "00-checkout",
    "01-update",
    "02-update-file",
    "03-update-mixed",
    "04-switch",
    "05-switch-entry",
    "06-update-switched",
    "07-status",
    "09-diff",
    "10-diff",
    "11-log",
    "12-list",
    "13-cat",
    "14-info",
    "16-export",
    "21-merge",
    "22-merge",
    "23-missing",
];

/// Those that are also served to a client that stops reading after each byte.
const STOPPED: &[&str] = &["01-update", "13-cat"];

/// A dump, and what is served of it.
#[derive(Clone, Copy)]
struct History<'a> {
    dump: &'a [u8],
    served: &'a Served,
}

fn answers(alloc: Global, history: History<'_>, client: &[u8]) -> Result<Written> {
    answers_to(alloc, history.served, history.dump, client)
}

// Cut off after so many bytes, it is answered by a front of what the whole session is.
fn check_cut(
    alloc: Global,
    history: History<'_>,
    client: &[u8],
    len: usize,
    whole: &[u8],
) -> Result<bool> {
    let cut = answers(alloc, history, client.get(..len).unwrap_or(&[]))?;
    Ok(whole.starts_with(&cut.bytes) && cut.fault.is_none())
}

fn check_cuts(alloc: Global, history: History<'_>, name: &str, client: &[u8]) -> Result<()> {
    let whole = answers(alloc, history, client)?.bytes;
    for len in 0..client.len() {
        if !check_cut(alloc, history, client, len, &whole)? {
            bail!("{name}: cut off after {len} bytes it is answered otherwise, or refused")
        }
    }
    Ok(())
}

/// A dump that is served with its texts in memory, and with stand-ins.
#[derive(Clone, Copy)]
struct Histories<'a> {
    whole: History<'a>,
    stand_ins: History<'a>,
}

// The same bytes are written where the texts stay in the dump.
fn check_stand_ins(
    alloc: Global,
    histories: Histories<'_>,
    name: &str,
    client: &[u8],
) -> Result<()> {
    let whole = answers(alloc, histories.whole, client)?;
    let read = answers(alloc, histories.stand_ins, client)?;
    if whole.bytes != read.bytes {
        bail!("{name}: with stand-ins it is answered otherwise")
    }
    Ok(())
}

// Prints what is written to a client.
fn print_answer<R: AllocGlobal + Print>(
    rt: &R,
    history: History<'_>,
    name: &str,
    client: &[u8],
) -> Result<()> {
    let answered = answers(rt.alloc(), history, client)?;
    let line = shown(rt.alloc(), &answered.bytes)?;
    println!(rt; "== {name}\n{line}")?;
    if let Some(fault) = &answered.fault {
        println!(rt; "!! {fault}")?;
    }
    Ok(())
}

// A client that stops reading after so many bytes has those, and the connection ends.
fn check_stop(
    alloc: Global,
    history: History<'_>,
    client: &[u8],
    room: usize,
    whole: &[u8],
) -> Result<bool> {
    let stopped = answers_within(alloc, history.served, history.dump, client, room)?;
    let is_front = stopped.bytes.len() == room && whole.starts_with(&stopped.bytes);
    Ok(is_front && matches!(&stopped.fault, Some(ServeFault::Write(_))))
}

fn check_stops(alloc: Global, history: History<'_>, name: &str, client: &[u8]) -> Result<()> {
    let whole = answers(alloc, history, client)?.bytes;
    for room in 0..whole.len() {
        if !check_stop(alloc, history, client, room, &whole)? {
            bail!("{name}: of a client that takes {room} bytes it isn't known")
        }
    }
    Ok(())
}

fn check_stopped<R: AllocGlobal + Files>(rt: &R, history: History<'_>) -> Result<()> {
    for name in STOPPED {
        let file = format!(in rt.alloc(); "sessions/{name}.client")?;
        let client = fs::read(rt, file.as_str())?;
        check_stops(rt.alloc(), history, name, &client)?;
    }
    Ok(())
}

fn print_session<R: AllocGlobal + Files + Print>(
    rt: &R,
    histories: Histories<'_>,
    name: &str,
) -> Result<()> {
    let file = format!(in rt.alloc(); "sessions/{name}.client")?;
    let client = fs::read(rt, file.as_str())?;
    print_answer(rt, histories.whole, name, &client)?;
    check_cuts(rt.alloc(), histories.whole, name, &client)?;
    check_stand_ins(rt.alloc(), histories, name, &client)
}

fn print_sessions<R: AllocGlobal + Files + Print>(rt: &R, histories: Histories<'_>) -> Result<()> {
    for name in NAMES {
        print_session(rt, histories, name)?;
    }
    Ok(())
}

fn print_hostile<R: AllocGlobal + Print>(rt: &R, history: History<'_>) -> Result<()> {
    for row in rows() {
        print_answer(rt, history, row.name, &row.session(rt.alloc())?)?;
    }
    print_answer(
        rt,
        history,
        "a path that is no text",
        &not_text(rt.alloc())?,
    )?;
    print_answer(
        rt,
        history,
        "a million lists, each in the one before",
        &deep(rt.alloc())?,
    )
}

// Serves a dump whose text is longer than a piece, out of a file in which it may be another.
fn print_texts<R: AllocGlobal + Print>(rt: &R) -> Result<()> {
    let alloc = rt.alloc();
    let served = load(alloc, &texts::dump(alloc)?, Holds::StandIns)?;
    for row in texts::rows() {
        let file = row.file(alloc)?;
        let history = History {
            dump: &file,
            served: &served,
        };
        print_answer(rt, history, row.name, &row.session(alloc)?)?;
    }
    Ok(())
}

/// Prints what is written in the recorded sessions, in those that no client should send, and of long texts.
pub(crate) fn print<R: AllocGlobal + Files + Print>(rt: &R) -> Result<()> {
    let dump = fs::read(rt, "sessions/history.dump")?;
    let whole = load(rt.alloc(), &dump, Holds::Texts)?;
    let stand_ins = load(rt.alloc(), &dump, Holds::StandIns)?;
    let histories = Histories {
        whole: History {
            dump: &dump,
            served: &whole,
        },
        stand_ins: History {
            dump: &dump,
            served: &stand_ins,
        },
    };
    print_sessions(rt, histories)?;
    print_hostile(rt, histories.whole)?;
    check_stopped(rt, histories.stand_ins)?;
    print_texts(rt)
}

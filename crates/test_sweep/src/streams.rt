//! Readers and writers that fail at one of their calls, or give and take little at a time, and scripts that are cut off at each byte.
use crate::rows::Row;
use crate::scripts::{IN_TURN, printed_by, run_text, script_of};
use crate::trouble::{Trouble, holds};
use std::alloc::{AllocError, Global};
use std::io::{self, Read, Write};
use std::sync::Wait;
use std::thread::Threads;
use svn_script::{LineFault, ScriptFault, read_command};
use svn_update::run_script;

fn broken() -> io::Error {
    io::Error::from(io::ErrorKind::BrokenPipe)
}

// Gives a script byte by byte, and fails at one of its calls, counted from 1.
#[derive(Drop)]
struct ShortReader<'a> {
    rest: &'a [u8],
    calls: usize,
    fails_at: usize,
}

impl Read for ShortReader<'_> {
    fn read(&mut self, buf: &mut [u8]) -> io::Result<usize> {
        self.calls = self.calls.saturating_add(1);
        if self.calls == self.fails_at {
            return Err(broken());
        }
        match (self.rest.split_first(), buf.first_mut()) {
            (Some((byte, rest)), Some(place)) => {
                *place = *byte;
                self.rest = rest;
                Ok(1)
            }
            _ => Ok(0),
        }
    }
}

// Takes a few bytes at a time, and fails at one of its calls, writes and flushes counted together from 1.
#[derive(Drop)]
struct ShortWriter {
    output: Vec<u8>,
    most: usize,
    calls: usize,
    fails_at: usize,
}

impl ShortWriter {
    fn count_call(&mut self) -> io::Result<()> {
        self.calls = self.calls.saturating_add(1);
        if self.calls == self.fails_at {
            return Err(broken());
        }
        Ok(())
    }
}

impl Write for ShortWriter {
    fn write(&mut self, buf: &[u8]) -> io::Result<usize> {
        self.count_call()?;
        let count = buf.len().min(self.most);
        match self.output.extend_from_slice(&buf[..count]) {
            Ok(()) => Ok(count),
            Err(_) => Err(io::Error::from(io::ErrorKind::OutOfMemory)),
        }
    }

    fn flush(&mut self) -> io::Result<()> {
        self.count_call()
    }
}

// What a row prints.
fn output_of(alloc: Global, row: &Row) -> Result<String, Trouble> {
    let mut output = String::new(alloc);
    for (_, printed) in row.lines {
        output.push_str(printed)?;
    }
    Ok(output)
}

// A reader that fails at none of its calls gives the whole row, and one that fails at any nothing of it.
fn is_read(
    fails_at: usize,
    ended: Result<(), ScriptFault>,
    output: &[u8],
    wanted: &str,
) -> Result<(), Trouble> {
    let is_well = if fails_at == 0 {
        ended.is_ok() && output == wanted.as_bytes()
    } else {
        ended == Err(ScriptFault::Read) && output.is_empty()
    };
    holds(is_well, "a reader that fails is answered otherwise")
}

fn read_until<R: Threads + Wait + Sync>(
    rt: &R,
    alloc: Global,
    script: &str,
    wanted: &str,
    fails_at: usize,
) -> Result<(), Trouble> {
    let mut reader = ShortReader {
        rest: script.as_bytes(),
        calls: 0,
        fails_at,
    };
    let mut output = Vec::new(alloc);
    let ended = run_script(rt, alloc, &mut reader, &mut output, &IN_TURN);
    is_read(fails_at, ended, &output, wanted)
}

/// A reader that fails at its first call, at its second, and so on: nothing is done of the script. One that fails at none gives the row.
pub(crate) fn readers<R: Threads + Wait + Sync>(
    rt: &R,
    alloc: Global,
    row: &Row,
) -> Result<(), Trouble> {
    let script = script_of(alloc, row)?;
    let wanted = output_of(alloc, row)?;
    for fails_at in 0..=script.len().saturating_add(1) {
        read_until(rt, alloc, &script, &wanted, fails_at)?;
    }
    Ok(())
}

// More calls than a row's output has bytes.
const LAST_CALL: usize = 10_000;

// Whether a script ended before the call at which its writer should fail.
fn is_written(
    writer: &ShortWriter,
    ended: Result<(), ScriptFault>,
    wanted: &str,
) -> Result<bool, Trouble> {
    let output = writer.output.as_slice();
    let ends_before = writer.calls < writer.fails_at;
    if ends_before {
        let is_whole = ended.is_ok() && output == wanted.as_bytes();
        holds(is_whole, "a short writer is given something else")?;
    } else {
        let is_begun = ended == Err(ScriptFault::Write) && wanted.as_bytes().starts_with(output);
        holds(is_begun, "a writer that fails is answered otherwise")?;
    }
    Ok(ends_before)
}

fn write_until<R: Threads + Wait + Sync>(
    rt: &R,
    alloc: Global,
    script: &str,
    wanted: &str,
    fails_at: usize,
) -> Result<bool, Trouble> {
    let mut writer = ShortWriter {
        output: Vec::new(alloc),
        most: 7,
        calls: 0,
        fails_at,
    };
    let mut reader = script.as_bytes();
    let ended = run_script(rt, alloc, &mut reader, &mut writer, &IN_TURN);
    is_written(&writer, ended, wanted)
}

/// A writer that fails at its first call, at its second, and so on, until the script ends before.
pub(crate) fn writers<R: Threads + Wait + Sync>(
    rt: &R,
    alloc: Global,
    row: &Row,
) -> Result<(), Trouble> {
    let script = script_of(alloc, row)?;
    let wanted = output_of(alloc, row)?;
    for fails_at in 1..LAST_CALL {
        if write_until(rt, alloc, &script, &wanted, fails_at)? {
            return Ok(());
        }
    }
    Err(Trouble::Other("a script ends at no call of its writer"))
}

// The lines before one that is cut off, what they print, and the number of the one after them.
#[derive(Drop)]
struct Before {
    script: String,
    printed: String,
    next: u64,
}

impl Before {
    fn push(&mut self, line: &str, output: &str) -> Result<(), AllocError> {
        writeln!(self.script, "{line}")?;
        self.printed.push_str(output)?;
        self.next = self.next.saturating_add(1);
        Ok(())
    }
}

// A line that is cut off is a command, or else the script ends at it, and it prints nothing.
fn is_cut_end(
    alloc: Global,
    cut: &str,
    number: u64,
    ended: Result<(), ScriptFault>,
    printed: &str,
) -> Result<(), Trouble> {
    let is_well = match read_command(alloc, cut.as_bytes()) {
        Ok(_) => ended.is_ok(),
        Err(LineFault::Bad) => ended == Err(ScriptFault::BadLine(number)) && printed.is_empty(),
        Err(LineFault::Memory) => return Err(Trouble::Memory),
    };
    holds(is_well, "a line that is cut off is answered otherwise")
}

fn is_cut(
    alloc: Global,
    before: &Before,
    cut: &str,
    ended: Result<(), ScriptFault>,
    output: &str,
) -> Result<(), Trouble> {
    match output.strip_prefix(before.printed.as_str()) {
        Some(rest) => is_cut_end(alloc, cut, before.next, ended, rest),
        None => Err(Trouble::Other("lines before a cut print something else")),
    }
}

fn run_cut<R: Threads + Wait + Sync>(
    rt: &R,
    alloc: Global,
    before: &Before,
    cut: &str,
) -> Result<(), Trouble> {
    let script = format!(in alloc; "{}{cut}", before.script)?;
    let mut output = Vec::new(alloc);
    let ended = run_text(rt, alloc, &script, &mut output, &IN_TURN);
    is_cut(alloc, before, cut, ended, printed_by(&output))
}

fn cut_line<R: Threads + Wait + Sync>(
    rt: &R,
    alloc: Global,
    before: &Before,
    line: &str,
) -> Result<(), Trouble> {
    for at in 0..=line.len() {
        if let Some(cut) = line.get(..at) {
            run_cut(rt, alloc, before, cut)?;
        }
    }
    Ok(())
}

/// The script of a row, cut off at each byte: the lines before print what they do in the row, and what is left of the last is a line of its
/// own.
pub(crate) fn cuts<R: Threads + Wait + Sync>(
    rt: &R,
    alloc: Global,
    row: &Row,
) -> Result<(), Trouble> {
    let mut before = Before {
        script: String::new(alloc),
        printed: String::new(alloc),
        next: 1,
    };
    for (line, output) in row.lines {
        cut_line(rt, alloc, &before, line)?;
        before.push(line, output)?;
    }
    Ok(())
}

// Readers and writers that fail at one of their calls, or give and take little at a time.
use crate::whole_scripts::rows::drives::{stored_output, stored_script};
use crate::whole_scripts::scripts::{MANY_CALLS, ScriptRun};
use std::alloc::Global;
use std::io;
use std::io::{Read, Write};
use std::process::Abort;
use std::sync::Wait;
use std::thread::Threads;
use svn_update::{ScriptFault, run_script};

// Gives a script byte by byte, and fails at one of its calls, counted from 1.
#[derive(Drop)]
struct FailingReader<'a> {
    rest: &'a [u8],
    calls: usize,
    fails_at: usize,
}

impl Read for FailingReader<'_> {
    fn read(&mut self, buf: &mut [u8]) -> io::Result<usize> {
        self.calls = self.calls.saturating_add(1);
        if self.calls == self.fails_at {
            return Err(io::Error::from(io::ErrorKind::BrokenPipe));
        }
        match (self.rest.split_first(), buf.first_mut()) {
            (Some((byte, rest)), Some(place)) => {
                *place = *byte;
                self.rest = rest;
                Ok(1)
            }
            _ => Ok(0),
        }
    }
}

fn run_reading(
    rt: &(impl AllocGlobal + Threads + Wait + Sync),
    script: &str,
    fails_at: usize,
) -> ScriptRun {
    let mut reader = FailingReader {
        rest: script.as_bytes(),
        calls: 0,
        fails_at,
    };
    let mut output = Vec::new(rt.alloc());
    let ended = run_script(rt, rt.alloc(), &mut reader, &mut output, &MANY_CALLS);
    ScriptRun { ended, output }
}

// One call for each byte of the script, and one that finds its end.
#[test]
fn nothing_runs_of_a_script_that_cannot_be_read(rt: HostRuntime) {
    let script = stored_script();
    for fails_at in 1..=script.len() {
        run_reading(&rt, script, fails_at).is(&rt, Err(ScriptFault::Read), "");
    }
    let at_the_end = script.len().saturating_add(1);
    run_reading(&rt, script, at_the_end).is(&rt, Err(ScriptFault::Read), "");
}

#[test]
fn a_script_may_come_byte_by_byte(rt: HostRuntime) {
    let script = stored_script();
    let after_it = script.len().saturating_add(2);
    run_reading(&rt, script, after_it).is(&rt, Ok(()), stored_output());
}

// Takes a few bytes at a time, and fails at one of its calls, writes and flushes counted together from 1.
#[derive(Drop)]
struct FailingWriter {
    output: Vec<u8>,
    most: usize,
    calls: usize,
    fails_at: usize,
}

impl FailingWriter {
    fn new(alloc: Global, most: usize, fails_at: usize) -> FailingWriter {
        FailingWriter {
            output: Vec::new(alloc),
            most,
            calls: 0,
            fails_at,
        }
    }

    // Whether the call that fails never came.
    fn ends_before(&self) -> bool {
        self.calls < self.fails_at
    }

    fn count_call(&mut self) -> io::Result<()> {
        self.calls = self.calls.saturating_add(1);
        if self.calls == self.fails_at {
            return Err(io::Error::from(io::ErrorKind::BrokenPipe));
        }
        Ok(())
    }
}

impl Write for FailingWriter {
    fn write(&mut self, buf: &[u8]) -> io::Result<usize> {
        self.count_call()?;
        let count = buf.len().min(self.most);
        match self.output.extend_from_slice(&buf[..count]) {
            Ok(()) => Ok(count),
            Err(_) => Err(io::Error::from(io::ErrorKind::OutOfMemory)),
        }
    }

    fn flush(&mut self) -> io::Result<()> {
        self.count_call()
    }
}

fn run_writing(
    rt: &(impl AllocGlobal + Threads + Wait + Sync),
    script: &str,
    writer: &mut FailingWriter,
) -> Result<(), ScriptFault> {
    let mut reader = script.as_bytes();
    run_script(rt, rt.alloc(), &mut reader, writer, &MANY_CALLS)
}

// What a writer got, of a script that fails at a call or ends before it.
fn is_written(writer: &FailingWriter, ended: Result<(), ScriptFault>, output: &str) -> bool {
    let written = writer.output.as_slice();
    if writer.ends_before() {
        return written == output.as_bytes();
    }
    ended == Err(ScriptFault::Write) && output.as_bytes().starts_with(written)
}

// Runs a script whose writer fails at this call, and says whether the script ended before it.
fn ends_before(
    rt: &(impl Abort + AllocGlobal + Threads + Wait + Sync),
    script: &str,
    output: &str,
    most: usize,
    fails_at: usize,
) -> bool {
    let mut writer = FailingWriter::new(rt.alloc(), most, fails_at);
    let ended = run_writing(rt, script, &mut writer);
    assert!(rt;
        is_written(&writer, ended, output),
        "call {fails_at}: {ended:?}"
    );
    writer.ends_before()
}

// More calls than either output has bytes, its flush counted.
const LAST_CALL: usize = 1000;

// Fails the writer at its first call, at its second, and so on, until a script ends before the call that fails.
fn ends_at_last(
    rt: &(impl Abort + AllocGlobal + Threads + Wait + Sync),
    script: &str,
    output: &str,
    most: usize,
) -> bool {
    for fails_at in 1..LAST_CALL {
        if ends_before(rt, script, output, most, fails_at) {
            return true;
        }
    }
    false
}

#[test]
fn a_failed_write_ends_the_script(rt: HostRuntime) {
    for most in [1, 3, 4096] {
        assert!(rt; ends_at_last(&rt, stored_script(), stored_output(), most));
    }
}

// At a bad line the output of the lines before is written first.
const BAD_SCRIPT: &str = "put f a\ncommit\nput\nshow\n";

const BAD_OUTPUT: &str = "committed 1\n";

#[test]
fn a_failed_write_comes_before_a_bad_line(rt: HostRuntime) {
    assert!(rt; ends_at_last(&rt, BAD_SCRIPT, BAD_OUTPUT, 1));
    let mut writer = FailingWriter::new(rt.alloc(), 1, LAST_CALL);
    let run = run_writing(&rt, BAD_SCRIPT, &mut writer);
    assert_eq!(rt; run, Err(ScriptFault::BadLine(3)));
}

// A writer that takes nothing more.
#[test]
fn a_full_writer_is_a_write_fault(rt: HostRuntime) {
    let mut writer = FailingWriter::new(rt.alloc(), 0, LAST_CALL);
    let run = run_writing(&rt, stored_script(), &mut writer);
    assert_eq!(rt; run, Err(ScriptFault::Write));
    assert!(rt; writer.output.is_empty());
}

// Scripts of the greatest length, and readers without an end.
use crate::whole_scripts::scripts::{MANY_CALLS, ScriptRun};
use std::io;
use std::io::Read;
use std::sync::Wait;
use std::thread::Threads;
use svn_update::{MAX_SCRIPT, ScriptFault, run_script};

// Gives a script, and after it a comment of that many bytes, or one without end.
#[derive(Drop)]
struct LongReader<'a> {
    head: &'a [u8],
    comment: Option<usize>,
    given: usize,
}

impl LongReader<'_> {
    // How many bytes of the comment may be given, of so many that are asked for.
    fn take_comment(&mut self, asked: usize) -> usize {
        match self.comment {
            Some(left) => {
                let count = left.min(asked);
                self.comment = Some(left - count);
                count
            }
            None => asked,
        }
    }
}

impl Read for LongReader<'_> {
    fn read(&mut self, buf: &mut [u8]) -> io::Result<usize> {
        let mut head = self.head;
        if !head.is_empty() {
            let count = head.read(buf)?;
            self.head = head;
            self.given = self.given.saturating_add(count);
            return Ok(count);
        }
        let count = self.take_comment(buf.len()).min(buf.len());
        for place in &mut buf[..count] {
            *place = b'#';
        }
        self.given = self.given.saturating_add(count);
        Ok(count)
    }
}

const HEAD: &str = "put f a\ncommit\n";

fn long_reader(comment: Option<usize>) -> LongReader<'static> {
    LongReader {
        head: HEAD.as_bytes(),
        comment,
        given: 0,
    }
}

fn run_long(
    rt: &(impl AllocGlobal + Threads + Wait + Sync),
    reader: &mut LongReader<'_>,
) -> ScriptRun {
    let mut output = Vec::new(rt.alloc());
    let ended = run_script(rt, rt.alloc(), reader, &mut output, &MANY_CALLS);
    ScriptRun { ended, output }
}

#[test]
fn the_longest_script_runs(rt: HostRuntime) {
    let mut reader = long_reader(Some(MAX_SCRIPT - HEAD.len()));
    run_long(&rt, &mut reader).is(&rt, Ok(()), "committed 1\n");
    assert_eq!(rt; reader.given, 16777216);
}

#[test]
fn one_byte_more_is_refused_whole(rt: HostRuntime) {
    let mut reader = long_reader(Some(MAX_SCRIPT - HEAD.len() + 1));
    run_long(&rt, &mut reader).is(&rt, Err(ScriptFault::TooLong), "");
}

#[test]
fn a_reader_without_end_is_read_so_far(rt: HostRuntime) {
    let mut reader = long_reader(None);
    run_long(&rt, &mut reader).is(&rt, Err(ScriptFault::TooLong), "");
    assert_eq!(rt; reader.given, 16777217);
}

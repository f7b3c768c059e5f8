//! `write`: the history that the commits of a script make, as a dump.

use crate::command_line::Write;
use crate::fault::Fault;
use crate::lines::Lines;
use crate::progress::Progress;
use std::fs::File;
use std::io;
use std::io::Read;
use std::rt::{Clock, Files};
use svn_answers::{WriteFault, Writing};
use svn_types::Rev;

// What the fault of the line of this number is to the program.
fn fault_of(number: u64, fault: WriteFault) -> Fault {
    match fault {
        WriteFault::BadLine => Fault::BadLine(number),
        WriteFault::Refused(fault) => Fault::Refused(number, fault),
        WriteFault::Write => Fault::Write,
        WriteFault::Memory => Fault::Memory,
    }
}

// Does the lines of a script one after the other.
fn do_lines<T: Print + Eprint + Clock + AllocGlobal, R: Read + Drop>(
    rt: &T,
    lines: &mut Lines<R>,
    writing: &mut Writing,
    progress: &mut Progress<'_, T>,
) -> Result<(), Fault> {
    for _ in 0..u64::MAX {
        if !lines.read_next()? {
            return Ok(());
        }
        if let Err(fault) = writing.do_line(lines.line(), &mut io::writer(rt)) {
            return Err(fault_of(lines.number(), fault));
        }
        progress.report(writing.latest(), writing.written());
    }
    Ok(())
}

fn write_history<T: Print + Eprint + Clock + AllocGlobal, R: Read + Drop>(
    rt: &T,
    input: R,
    asked: bool,
) -> Result<(), Fault> {
    let mut lines = Lines::new(rt.alloc(), input)?;
    let mut progress = Progress::begin(rt, asked);
    let mut writing = match Writing::begin(rt.alloc(), &mut io::writer(rt)) {
        Ok(writing) => writing,
        Err(fault) => return Err(fault_of(0, fault)),
    };
    progress.report(Rev(0), writing.written());
    do_lines(rt, &mut lines, &mut writing, &mut progress)?;
    progress.end();
    Ok(())
}

/// Writes what the commits of a script make, revision by revision. At a line that is refused it ends: what was written are the revisions
/// before.
pub(crate) fn write_script<T: Files + Input + Print + Eprint + Clock + AllocGlobal>(
    rt: &T,
    write: &Write<'_>,
) -> Result<(), Fault> {
    if write.script.is_standard() {
        return write_history(rt, rt.reader(), write.progress);
    }
    match File::open(rt, write.script.0) {
        Ok(file) => write_history(rt, file, write.progress),
        Err(error) => Err(Fault::Unread(error)),
    }
}

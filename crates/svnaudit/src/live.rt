//! `live`: verdicts by what a server says.

use crate::command_line::Live as Request;
use crate::fault::Fault;
use crate::on_disk::Folders;
use crate::output::{error_writer, output_writer};
use crate::progress::AskProgress;
use std::fs::File;
use std::io;
use std::io::{Printer, Read, Write};
use std::rt::{Clock, Files};
use svn_answers::{Live, LiveAnswerFault, Server, Source, Verdict, WrittenNotices};

/// What a server writes. No contract knows its bytes, whatever a file of the system may promise.
#[derive(Drop)]
struct FromServer<F>(F);

impl<F: Read> Read for FromServer<F> {
    fn read(&mut self, buf: &mut [u8]) -> io::Result<usize> {
        self.0.read(buf)
    }
}

/// What a server reads.
#[derive(Drop)]
struct ToServer<F>(F);

impl<F: Write> Write for ToServer<F> {
    fn write(&mut self, buf: &[u8]) -> io::Result<usize> {
        self.0.write(buf)
    }

    fn flush(&mut self) -> io::Result<()> {
        self.0.flush()
    }
}

// A server at the other ends of two named pipes.
#[derive(Clone, Copy)]
struct Pipes<'a, T> {
    rt: &'a T,
    to: Source<'a>,
    from: Source<'a>,
    tells: bool,
}

impl<T: Eprint> Pipes<'_, T> {
    // Where standard error can't be written, nothing is printed.
    fn tell(&self, end: Source<'_>, what: &str) {
        if self.tells {
            let _ = eprintln!(self.rt; "svnaudit: waiting for the server to open {end} for {what}");
        }
    }
}

// The system lets each end be opened once the other is: in the order of a shell that opens its standard input first.
impl<T: Files + Eprint> Server for Pipes<'_, T> {
    type Fault = Fault;

    type Input = FromServer<T::File>;

    type Output = ToServer<T::File>;

    fn connect(&mut self) -> Result<(FromServer<T::File>, ToServer<T::File>), Fault> {
        self.tell(self.to, "reading");
        let to = match File::options().write(true).open(self.rt, self.to.0) {
            Ok(to) => to,
            Err(error) => return Err(Fault::Unopened(error)),
        };
        self.tell(self.from, "writing");
        match File::open(self.rt, self.from.0) {
            Ok(from) => Ok((FromServer(from), ToServer(to))),
            Err(error) => Err(Fault::Unread(error)),
        }
    }
}

// A server at the other ends of standard input and output.
#[derive(Clone, Copy)]
struct Standard<'a, T> {
    rt: &'a T,
}

impl<'a, T: Input + Print> Server for Standard<'a, T> {
    type Fault = Fault;

    type Input = FromServer<T::Reader>;

    type Output = ToServer<Printer<'a, T>>;

    fn connect(&mut self) -> Result<(FromServer<T::Reader>, ToServer<Printer<'a, T>>), Fault> {
        Ok((FromServer(self.rt.reader()), ToServer(io::writer(self.rt))))
    }
}

fn fault_of(fault: LiveAnswerFault<Fault>) -> Fault {
    match fault {
        LiveAnswerFault::Connect(fault) => fault,
        LiveAnswerFault::Server(fault) => Fault::Server(fault),
        LiveAnswerFault::Write => Fault::Write,
    }
}

// Asks a server, and writes the answers.
fn ask_with<
    T: Files + Eprint + Clock + AllocGlobal + Clone + Drop,
    S: Server<Fault = Fault> + Drop,
    O: Write,
>(rt: &T, request: &Request<'_>, server: S, output: &mut O) -> Result<Verdict, Fault> {
    let copies = Folders { rt };
    let url = match request.url {
        Some(url) => Some(url.as_bytes()),
        None => None,
    };
    let mut live = Live::new(rt.alloc(), &copies, server, url, request.one_by_one);
    let mut errors = WrittenNotices::new(&copies, error_writer(rt)?);
    let mut progress = AskProgress::begin(rt, request.progress);
    match live.check_written(&request.copies, output, &mut errors, &mut progress) {
        Ok(verdict) => Ok(verdict),
        Err(fault) => Err(fault_of(fault)),
    }
}

/// Asks a server whether working copies are true of it. Where it is at standard output, the answers are written to standard error.
pub(crate) fn ask_server<T: Files + Input + Print + Eprint + Clock + AllocGlobal + Clone + Drop>(
    rt: &T,
    request: &Request<'_>,
) -> Result<Verdict, Fault> {
    if request.copies.is_empty() {
        return Err(Fault::NoWords);
    }
    if request.to.is_standard() {
        return ask_with(rt, request, Standard { rt }, &mut error_writer(rt)?);
    }
    let pipes = Pipes {
        rt,
        to: request.to,
        from: request.from,
        tells: request.progress,
    };
    ask_with(rt, request, pipes, &mut output_writer(rt)?)
}

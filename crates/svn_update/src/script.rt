//! Scripts.
ghost use Rattle.std.specs.Prelude.{◌≡◌, ℕ, ◌≤◌, ◌<◌, List, length, IfErr, IfSome, OnOk, None, true, false};
ghost use Rattle.std.specs.Io.KnownBytes.{Appends};
ghost use Rattle.svn_script.specs.Commands.{command_of};
ghost use Rattle.svn_update.specs.declared.answer.Answer.{Answer};
ghost use Rattle.svn_update.specs.Answers.{answer_text};
ghost use Rattle.svn_update.specs.Commands.{Does};
ghost use Rattle.svn_update.specs.ScriptStates.{state_on};
ghost use Rattle.svn_update.specs.Scripts.{DoesLine, IsReadWhole, Prints, PrintsFrom, StopsAt, StopsFrom, is_of_a_line, is_refused_whole};

use crate::answer::{Answer, Refusal};
use crate::state::State;
use std::alloc::Global;
use std::io::{Read, Write};
use std::sync::Wait;
use std::thread::Threads;
use svn_repo::Repo;
use svn_script::{
    Command, LineFault, MAX_SCRIPT, ScriptFault, Settings, read_command, read_script, split_once,
    without_return,
};

// What the commands of a script are done with.
#[derive(Drop)]
struct Host<'a, T> {
    rt: &'a T,
    alloc: Global,
    settings: Settings,
}

// Prints the result of a command.
fn say<W: Write>(state: &State, answer: &Answer, writer: &mut W) -> Result<(), ScriptFault>
    ensures said { OnOk result (Appends (W.contents writer.old) (W.contents writer.new) (answer_text state.now.copy answer.now)) }
    ensures refused { IfErr result (λ e. e ≡ ScriptFault.Write) }
{
    match state.print(answer, writer) {
        Ok(()) => Ok(()),
        Err(_) => Err(ScriptFault::Write),
    }
}

// Does a command, and prints its result.
fn run_command<T: Threads + Wait + Sync, W: Write>(
    host: &Host<'_, T>,
    state: &mut State,
    command: Command,
    writer: &mut W,
) -> Result<(), ScriptFault>
    ensures ok { OnOk result ((a : Answer) × Does host.now.settings command state.old state.new a × Appends (W.contents writer.old) (W.contents writer.new) (answer_text state.new.copy a)) }
    ensures refused { IfErr result (λ e. e ≡ ScriptFault.Write) }
{
    let answer = state.run(host.rt, host.settings, command);
    say(state, &answer, writer)
}

// Does one line, and prints its result. Most lines of a long script are changes, which print nothing.
fn run_line<T: Threads + Wait + Sync, W: Write>(
    host: &Host<'_, T>,
    state: &mut State,
    line: &[u8],
    number: u64,
    writer: &mut W,
) -> Result<(), ScriptFault>
    ensures ok { OnOk result ((text : List ℕ) × DoesLine host.now.settings line.now state.old state.new text × Appends (W.contents writer.old) (W.contents writer.new) text) }
    ensures bad { IfErr result (λ e. (n : ℕ) → e ≡ ScriptFault.BadLine n → (n ≡ number) × (command_of line.now ≡ None) × (writer.new ≡ writer.old)) }
    ensures begun { IfErr result (λ e. is_refused_whole e ≡ false) }
{
    match read_command(host.alloc, line) {
        Ok(Command::Change(change)) => match state.push_change(change) {
            Ok(()) => Ok(()),
            Err(_) => say(state, &Answer::Refused(Refusal::Memory), writer),
        },
        Ok(command) => run_command(host, state, command, writer),
        Err(LineFault::Bad) => Err(ScriptFault::BadLine(number)),
        Err(LineFault::Memory) => Err(ScriptFault::Memory),
    }
}

// Does the lines of a script one after the other.
fn run_lines<T: Threads + Wait + Sync, W: Write>(
    host: &Host<'_, T>,
    state: &mut State,
    script: &[u8],
    writer: &mut W,
) -> Result<(), ScriptFault>
    requires { length script.now ≤ MAX_SCRIPT }
    ensures ok { OnOk result ((text : List ℕ) × PrintsFrom host.now.settings state.old script.now text × Appends (W.contents writer.old) (W.contents writer.new) text) }
    ensures bad { IfErr result (λ e. (n : ℕ) → e ≡ ScriptFault.BadLine n → (text : List ℕ) × StopsFrom host.now.settings state.old script.now n text × Appends (W.contents writer.old) (W.contents writer.new) text) }
    ensures begun { IfErr result (λ e. is_refused_whole e ≡ false) }
{
    let mut rest = script;
    let mut number = 1u64;
    'lines: while let Some((line, after)) = split_once(rest, b'\n') {
        if let Err(fault) = run_line(host, state, without_return(line), number, writer) {
            return Err(fault);
        }
        rest = after;
        number += 1;
    }
    run_line(host, state, rest, number, writer)
}

// Does the lines of a script that was read, on a repository, and flushes the writer at the end.
fn run_on<T: Threads + Wait + Sync, W: Write>(
    host: &Host<'_, T>,
    repo: Repo,
    script: &[u8],
    writer: &mut W,
) -> Result<(), ScriptFault>
    requires { length script.now ≤ MAX_SCRIPT }
    ensures ok { OnOk result ((text : List ℕ) × PrintsFrom host.now.settings (state_on repo) script.now text × Appends (W.contents writer.old) (W.contents writer.new) text) }
    ensures bad { IfErr result (λ e. (n : ℕ) → e ≡ ScriptFault.BadLine n → (text : List ℕ) × StopsFrom host.now.settings (state_on repo) script.now n text × Appends (W.contents writer.old) (W.contents writer.new) text) }
    ensures begun { IfErr result (λ e. is_refused_whole e ≡ false) }
{
    let mut state = State::on(host.alloc, repo);
    let ended = run_lines(host, &mut state, script, writer);
    match writer.flush() {
        Ok(()) => ended,
        Err(_) => Err(ScriptFault::Write),
    }
}

/// Runs a script: reads it to its end, then does its lines one after the other and writes what they print, and flushes the writer at the end.
/// BadLine where a line is no command: what the lines before it printed is written. TooLong over 16,777,216 bytes, and Read where the reader
/// fails: no line was done. Write where the writer fails, once the script was read. Memory where an allocation fails while the script or a
/// line of it is read; where one fails in a command, that command prints its refusal.
///
/// The settings say how `update` and `switch-to` run: with `in_turn` on this thread, else with the driver in a thread of its own and at most
/// `capacity` calls waiting, which refuses them by Capacity unless it is 1 to 4,096. The output is the same unless memory runs out or no
/// thread can be made. It waits where the reader, the writer and the other thread do.
pub fn run_script<T: Threads + Wait + Sync, R: Read, W: Write>(
    rt: &T,
    alloc: Global,
    reader: &mut R,
    writer: &mut W,
    settings: &Settings,
) -> Result<(), ScriptFault>
    // what is written is an output of the script that was read
    ensures ok { OnOk result (IfSome (R.remaining reader.old) (λ script. (text : List ℕ) × Prints settings.now script text × Appends (W.contents writer.old) (W.contents writer.new) text)) }
    // at a bad line it is that of the lines before
    ensures bad_line { IfErr result (λ e. (n : ℕ) → e ≡ ScriptFault.BadLine n → IfSome (R.remaining reader.old) (λ script. (text : List ℕ) × StopsAt settings.now script n text × Appends (W.contents writer.old) (W.contents writer.new) text)) }
    // lines are done only of a script that was read to its end and isn't too long
    ensures ok_read { OnOk result (IsReadWhole (R.remaining reader.old) (R.remaining reader.new)) }
    ensures err_read { IfErr result (λ e. is_of_a_line e ≡ true → IsReadWhole (R.remaining reader.old) (R.remaining reader.new)) }
    ensures refused_whole { IfErr result (λ e. is_refused_whole e ≡ true → writer.new ≡ writer.old) }
    ensures too_long { IfErr result (λ e. e ≡ ScriptFault.TooLong → IfSome (R.remaining reader.old) (λ script. MAX_SCRIPT < length script)) }
{
    let script = match read_script(alloc, reader) {
        Ok(script) => script,
        Err(fault) => return Err(fault),
    };
    let Ok(repo) = Repo::new(alloc) else {
        return Err(ScriptFault::Memory);
    };
    let host = Host {
        rt,
        alloc,
        settings: *settings,
    };
    run_on(&host, repo, &script, writer)
}

/// Runs a script on a given repository instead of a new one. All else is as with `run_script`.
pub fn run_script_on<T: Threads + Wait + Sync, R: Read, W: Write>(
    rt: &T,
    alloc: Global,
    repo: Repo,
    reader: &mut R,
    writer: &mut W,
    settings: &Settings,
) -> Result<(), ScriptFault>
    // what is written is an output of the script that was read, begun with this repository
    ensures ok { OnOk result (IfSome (R.remaining reader.old) (λ script. (text : List ℕ) × PrintsFrom settings.now (state_on repo) script text × Appends (W.contents writer.old) (W.contents writer.new) text)) }
    // at a bad line it is that of the lines before
    ensures bad_line { IfErr result (λ e. (n : ℕ) → e ≡ ScriptFault.BadLine n → IfSome (R.remaining reader.old) (λ script. (text : List ℕ) × StopsFrom settings.now (state_on repo) script n text × Appends (W.contents writer.old) (W.contents writer.new) text)) }
    // lines are done only of a script that was read to its end and isn't too long
    ensures ok_read { OnOk result (IsReadWhole (R.remaining reader.old) (R.remaining reader.new)) }
    ensures err_read { IfErr result (λ e. is_of_a_line e ≡ true → IsReadWhole (R.remaining reader.old) (R.remaining reader.new)) }
    ensures refused_whole { IfErr result (λ e. is_refused_whole e ≡ true → writer.new ≡ writer.old) }
    ensures too_long { IfErr result (λ e. e ≡ ScriptFault.TooLong → IfSome (R.remaining reader.old) (λ script. MAX_SCRIPT < length script)) }
{
    let script = match read_script(alloc, reader) {
        Ok(script) => script,
        Err(fault) => return Err(fault),
    };
    let host = Host {
        rt,
        alloc,
        settings: *settings,
    };
    run_on(&host, repo, &script, writer)
}

//! Questions about working copies.

use crate::command_line::{Check, Question, Subject};
use crate::dump_front::DumpFront;
use crate::fault::Fault;
use crate::files::check_files;
use crate::load::{load_whole, open_dump};
use crate::on_disk::Folders;
use crate::output::{error_writer, output_writer};
use crate::progress::Progress;
use std::io::{Read, Write};
use std::rt::{Clock, Files};
use svn_answers::{AnswerFault, Asked, History, Source, Verdict, WrittenNotices};

// Says what mends an untrue copy. Where this can't be written, the verdict alone tells.
fn tell_mending<T: Eprint>(rt: &T, checked: Verdict) {
    if checked == Verdict::Untrue {
        let _ = eprintln!(rt;
            "svnaudit: `svn update --set-depth exclude PATH`, and then `--set-depth infinity PATH`, mend an untrue PATH below the root"
        );
    }
}

// Compares the files of a copy, unless it was refused.
fn compare_files<T: Files + Eprint + AllocGlobal + Clone + Drop, W: Write>(
    rt: &T,
    name: &str,
    checked: Verdict,
    output: &mut W,
) -> Result<Verdict, Fault> {
    if checked == Verdict::Refused {
        return Ok(checked);
    }
    match check_files(rt, name, output) {
        Ok(verdict) => Ok(checked.worse(verdict)),
        Err(Fault::Write) => Err(Fault::Write),
        Err(Fault::Memory) => Err(Fault::Memory),
        Err(fault) => {
            // where this can't be written, the status alone tells
            let name = Source(name);
            let _ = eprintln!(rt; "svnaudit: {name}: {fault}");
            Ok(Verdict::Refused)
        }
    }
}

// Checks copies.
fn check_copies<'a, T: Files + Eprint + AllocGlobal + Clone + Drop, W: Write, E: Write>(
    rt: &'a T,
    asked: &Asked<'_, Folders<'a, T>>,
    copies: &[&str],
    output: &mut W,
    errors: &mut WrittenNotices<'_, Folders<'a, T>, E>,
) -> Result<Verdict, Fault> {
    match asked.check_written(copies, output, errors) {
        Ok(verdict) => {
            tell_mending(rt, verdict);
            Ok(verdict)
        }
        Err(AnswerFault::Write) => Err(Fault::Write),
    }
}

// Checks copies, each with its files if that was asked for.
fn check_with<'a, T: Files + Print + Eprint + AllocGlobal + Clone + Drop, W: Write, E: Write>(
    rt: &'a T,
    asked: &Asked<'_, Folders<'a, T>>,
    check: &Check<'_>,
    output: &mut W,
    errors: &mut WrittenNotices<'_, Folders<'a, T>, E>,
) -> Result<Verdict, Fault> {
    if !check.files {
        return check_copies(rt, asked, &check.copies, output, errors);
    }
    let mut verdict = Verdict::True;
    for name in &check.copies {
        let checked = check_copies(rt, asked, &[*name], output, errors)?;
        verdict = verdict.worse(compare_files(rt, name, checked, output)?);
    }
    Ok(verdict)
}

// Answers what is asked, on both streams.
fn answer_with<'a, T: Files + Print + Eprint + AllocGlobal + Clone + Drop, E: Write>(
    rt: &'a T,
    history: History<'_>,
    subject: &Subject<'_>,
    errors: &mut WrittenNotices<'_, Folders<'a, T>, E>,
) -> Result<Verdict, Fault> {
    let asked = Asked {
        alloc: rt.alloc(),
        history,
        copies: &Folders { rt },
    };
    let mut output = output_writer(rt)?;
    match subject {
        Subject::Check(check) => check_with(rt, &asked, check, &mut output, errors),
        Subject::Copy(inquiry, name) => {
            match asked.answer_written(*inquiry, name, &mut output, errors) {
                Ok(verdict) => Ok(verdict),
                Err(AnswerFault::Write) => Err(Fault::Write),
            }
        }
    }
}

fn answer_copies<T: Files + Print + Eprint + AllocGlobal + Clone + Drop>(
    rt: &T,
    history: History<'_>,
    subject: &Subject<'_>,
) -> Result<Verdict, Fault> {
    let copies = Folders { rt };
    let mut errors = WrittenNotices::new(&copies, error_writer(rt)?);
    answer_with(rt, history, subject, &mut errors)
}

fn ask_of<T: Files + Input + Print + Eprint + Clock + AllocGlobal + Clone + Drop, R: Read + Drop>(
    rt: &T,
    mut input: R,
    question: &Question<'_>,
) -> Result<Verdict, Fault> {
    let mut progress = Progress::begin(rt, question.progress);
    let front = DumpFront::read(rt.alloc(), &mut input)?;
    front.refuse_packed()?;
    let dump = front.bytes().chain(input);
    let loaded = load_whole(rt.alloc(), dump, question, &mut progress)?;
    let any_uuid = match &question.subject {
        Subject::Check(check) => check.any_uuid,
        Subject::Copy(..) => false,
    };
    let history = loaded.history(question.texts, any_uuid);
    answer_copies(rt, history, &question.subject)
}

/// Answers a question about working copies.
pub(crate) fn ask<T: Files + Input + Print + Eprint + Clock + AllocGlobal + Clone + Drop>(
    rt: &T,
    question: &Question<'_>,
) -> Result<Verdict, Fault> {
    if question.dump.is_standard() {
        return ask_of(rt, rt.reader(), question);
    }
    ask_of(rt, open_dump(rt, question.dump.0)?, question)
}

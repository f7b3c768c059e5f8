// Scripts, each with what it prints.
use crate::whole_scripts::rows::{drives, forms, links, refusals, updates};
use crate::whole_scripts::scripts::{IN_TURN, MANY_CALLS, ONE_CALL, ends};
use std::alloc::{AllocError, Global};
use std::process::Abort;
use std::sync::Wait;
use std::thread::Threads;
use svn_update::Settings;

// Lines of a script, and what they print.
pub(crate) type Part = (&'static str, &'static str);

// Rows that are run each after the same lines and before the same others, as a script of its own.
pub(crate) struct Table {
    pub(crate) before: Part,
    pub(crate) rows: &'static [Part],
    pub(crate) after: Part,
}

pub(crate) const NOTHING: Part = ("", "");

// A file whose text is first `a` and then `abc`, checked out as it was first.
pub(crate) const TWO_REVISIONS: Part = (
    "put f a\ncommit\nput f abc\ncommit\ncheckout 1\n",
    "committed 1\ncommitted 2\nok\n",
);

// The three parts of a script, one after the other, and those of its output.
fn joined(alloc: Global, before: &str, row: &str, after: &str) -> Result<String, AllocError> {
    format!(in alloc; "{before}{row}{after}")
}

// A row of the table prints what it says.
fn row_prints(
    rt: &(impl Abort + AllocGlobal + Threads + Wait + Sync),
    settings: &Settings,
    table: &Table,
    row: Part,
) -> Result<(), AllocError> {
    let (first, first_output) = table.before;
    let (last, last_output) = table.after;
    let script = joined(rt.alloc(), first, row.0, last)?;
    let output = joined(rt.alloc(), first_output, row.1, last_output)?;
    ends(rt, settings, script.as_str().as_bytes(), Ok(()), &output);
    Ok(())
}

fn each_row_prints(
    rt: &(impl Abort + AllocGlobal + Threads + Wait + Sync),
    settings: &Settings,
    table: &Table,
) -> Result<(), AllocError> {
    for row in table.rows {
        row_prints(rt, settings, table, *row)?;
    }
    Ok(())
}

// What is read, changed and driven, what is switched, and what is refused. Each table is a static of its own, and named here alone: a function that
// names a table is proved with all its contents, at each step.
fn tables() -> [&'static Table; 14] {
    [
        &forms::WORDS,
        &forms::LAST_LINES,
        &forms::SILENT,
        &updates::TREES,
        &updates::PROPERTIES,
        &updates::COPIES,
        &drives::WHOLE_SCRIPTS,
        &drives::OF_TWO_REVISIONS,
        &links::MIXED,
        &links::WHOLE_SWITCHES,
        &refusals::COMMITS,
        &refusals::OF_A_COPY,
        &refusals::OF_THE_FORGOTTEN,
        &refusals::WITHOUT_A_COPY,
    ]
}

fn each_table_prints(
    rt: &(impl Abort + AllocGlobal + Threads + Wait + Sync),
    settings: &Settings,
) -> Result<(), AllocError> {
    for table in tables() {
        each_row_prints(rt, settings, table)?;
    }
    Ok(())
}

#[test]
fn scripts_print_in_turn(rt: HostRuntime) -> Result<(), AllocError> {
    each_table_prints(&rt, &IN_TURN)
}

#[test]
fn scripts_print_with_a_queue_of_one_call(rt: HostRuntime) -> Result<(), AllocError> {
    each_table_prints(&rt, &ONE_CALL)
}

#[test]
fn scripts_print_with_a_queue_of_many_calls(rt: HostRuntime) -> Result<(), AllocError> {
    each_table_prints(&rt, &MANY_CALLS)
}

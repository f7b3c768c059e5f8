//! Calls in and out of order: rows of calls, each with its result.
use crate::calls::Row::{
    AbortEdit, AddDirectory, AddFile, ApplyText, ChangeDirProp, ChangeFileProp, CloseDirectory,
    CloseEdit, CloseFile, DeleteEntry, OpenRoot, SetTargetRevision,
};
use crate::calls::{Row, call};
use std::alloc::Global;
use std::process::Abort;
use std::test::Fail;
use svn_editor::OrderFault;
use svn_editor::OrderFault::{
    ClosedToken, Dead, DeleteLate, Ended, EntryAgain, FileOpen, NotInnermost, OpenBelow, PropLate,
    RootNotClosed, TargetFirst, TextAgain, TokenOrder, TooEarly, UnknownToken, WrongPath,
};
use svn_order::OrderCheck;

type Answered = (Row, Result<(), OrderFault>);

// How most edits begin.
static BEGUN: [Answered; 2] = [(SetTargetRevision(1), Ok(())), (OpenRoot(0, 0), Ok(()))];

// Then two files are open in the root; the second is current.
static TWO_FILES: [Answered; 4] = [
    (SetTargetRevision(1), Ok(())),
    (OpenRoot(0, 0), Ok(())),
    (AddFile("f", 0, 1), Ok(())),
    (AddFile("g", 0, 2), Ok(())),
];

fn is_answered(
    rt: &impl Abort,
    alloc: Global,
    check: &mut OrderCheck,
    answered: &Answered,
) -> Result<(), Fail> {
    let call = call(alloc, answered.0)?;
    assert_eq!(rt; check.step(&call), answered.1, "{call}");
    Ok(())
}

fn are_answered(
    rt: &impl Abort,
    alloc: Global,
    check: &mut OrderCheck,
    calls: &[Answered],
) -> Result<(), Fail> {
    for answered in calls {
        is_answered(rt, alloc, check, answered)?;
    }
    Ok(())
}

fn row_is_answered(
    rt: &impl Abort,
    alloc: Global,
    begun: &[Answered],
    row: &[Answered],
) -> Result<(), Fail> {
    let mut check = OrderCheck::new(alloc);
    are_answered(rt, alloc, &mut check, begun)?;
    are_answered(rt, alloc, &mut check, row)
}

// Each row is by itself, after the same beginning.
fn rows_are_answered(
    rt: &impl Abort,
    alloc: Global,
    begun: &[Answered],
    rows: &[&[Answered]],
) -> Result<(), Fail> {
    for row in rows {
        row_is_answered(rt, alloc, begun, row)?;
    }
    Ok(())
}

static BEGINNINGS: [&[Answered]; 2] = [
    &[(OpenRoot(0, 0), Err(TargetFirst))],
    &[(AbortEdit, Ok(()))],
];

static ENDS: [&[Answered]; 3] = [
    &[(CloseEdit, Err(RootNotClosed))],
    &[
        (CloseDirectory(0), Ok(())),
        (CloseEdit, Ok(())),
        (CloseEdit, Err(Ended)),
    ],
    &[
        (AddFile("f", 0, 1), Ok(())),
        (CloseDirectory(0), Ok(())),
        (CloseEdit, Err(RootNotClosed)),
    ],
];

#[test]
fn an_edit_begins_with_its_target_and_ends_with_its_root_closed(
    rt: HostRuntime,
) -> Result<(), Fail> {
    rows_are_answered(&rt, rt.alloc(), &[], &BEGINNINGS)?;
    rows_are_answered(&rt, rt.alloc(), &BEGUN, &ENDS)
}

// Tokens are given in their order before they are named, and an edit with a refused call can only be given up.
static TOKENS: [&[Answered]; 3] = [
    &[
        (AddDirectory("a", 0, 1), Ok(())),
        (CloseDirectory(1), Ok(())),
        (AddFile("a/f", 1, 2), Err(ClosedToken)),
        (CloseDirectory(0), Err(Dead)),
        (AbortEdit, Ok(())),
        (AbortEdit, Err(Ended)),
    ],
    &[(DeleteEntry("f", 0, 1), Err(UnknownToken))],
    &[(AddFile("f", 0, 2), Err(TokenOrder))],
];

// A directory is opened in the innermost one, as an entry of it, and is closed after those in it.
static DIRECTORIES: [&[Answered]; 3] = [
    &[
        (AddDirectory("a", 0, 1), Ok(())),
        (AddDirectory("b", 0, 2), Err(NotInnermost)),
    ],
    &[(AddFile("a/b", 0, 1), Err(WrongPath))],
    &[
        (AddDirectory("a", 0, 1), Ok(())),
        (CloseDirectory(0), Err(OpenBelow)),
    ],
];

// Properties come before or after all subdirectories, and no delete comes after an add or a delete.
static ENTRIES: [&[Answered]; 4] = [
    &[
        (AddDirectory("a", 0, 1), Ok(())),
        (ChangeDirProp(0, "p", None), Err(PropLate)),
    ],
    &[
        (AddDirectory("a", 0, 1), Ok(())),
        (CloseDirectory(1), Ok(())),
        (ChangeDirProp(0, "p", None), Ok(())),
        (AddDirectory("b", 0, 2), Err(PropLate)),
    ],
    &[
        (AddFile("f", 0, 1), Ok(())),
        (CloseFile(1, None), Ok(())),
        (DeleteEntry("f", 0, 0), Err(DeleteLate)),
    ],
    &[
        (DeleteEntry("f", 0, 0), Ok(())),
        (DeleteEntry("f", 0, 0), Err(EntryAgain)),
    ],
];

// A file has one text, and is closed at once when it has it.
static TEXTS: [&[Answered]; 2] = [
    &[
        (AddFile("f", 0, 1), Ok(())),
        (ApplyText(1, None, "a"), Ok(())),
        (ApplyText(1, None, "a"), Err(TextAgain)),
    ],
    &[
        (AddFile("f", 0, 1), Ok(())),
        (ApplyText(1, None, "a"), Ok(())),
        (CloseDirectory(0), Err(FileOpen)),
    ],
];

#[test]
fn calls_out_of_order_are_refused(rt: HostRuntime) -> Result<(), Fail> {
    rows_are_answered(&rt, rt.alloc(), &BEGUN, &TOKENS)?;
    rows_are_answered(&rt, rt.alloc(), &BEGUN, &DIRECTORIES)?;
    rows_are_answered(&rt, rt.alloc(), &BEGUN, &ENTRIES)?;
    rows_are_answered(&rt, rt.alloc(), &BEGUN, &TEXTS)
}

// A postponed file waits for the directories, and then texts come in any order.
static POSTPONED: [&[Answered]; 3] = [
    &[(ChangeFileProp(1, "p", None), Err(PropLate))],
    &[(CloseFile(1, None), Err(TooEarly))],
    &[
        (CloseDirectory(0), Ok(())),
        (ApplyText(2, None, "a"), Ok(())),
        (ApplyText(1, None, "a"), Ok(())),
        (CloseFile(2, None), Ok(())),
        (CloseFile(1, None), Ok(())),
        (CloseEdit, Ok(())),
    ],
];

#[test]
fn postponed_files_come_after_the_directories(rt: HostRuntime) -> Result<(), Fail> {
    rows_are_answered(&rt, rt.alloc(), &TWO_FILES, &POSTPONED)
}

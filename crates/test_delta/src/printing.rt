//! The printed lines of calls.
use crate::calls::Row::{
    AbortEdit, AddDirectory, AddFile, ApplyText, ChangeDirProp, ChangeFileProp, CloseDirectory,
    CloseEdit, CloseFile, DeleteEntry, OpenDirectory, OpenFile, OpenRoot, SetTargetRevision,
};
use crate::calls::{Row, call};
use std::alloc::Global;
use std::process::Abort;
use std::test::Fail;

// The checksums of `a` and of `abc` (RFC 1321, appendix A.5).
const OF_A: [u8; 16] = [
    0x0c, 0xc1, 0x75, 0xb9, 0xc0, 0xf1, 0xb6, 0xa8, 0x31, 0xc3, 0x99, 0xe2, 0x69, 0x77, 0x26, 0x61,
];

const OF_ABC: [u8; 16] = [
    0x90, 0x01, 0x50, 0x98, 0x3c, 0xd2, 0x4f, 0xb0, 0xd6, 0x96, 0x3f, 0x7d, 0x28, 0xe1, 0x7f, 0x72,
];

static LINES: [(Row, &str); 15] = [
    (SetTargetRevision(2), "set_target_revision 2"),
    (OpenRoot(1, 0), "open_root 1 #0"),
    (CloseDirectory(0), "close_directory #0"),
    (CloseEdit, "close_edit"),
    (AbortEdit, "abort_edit"),
    (DeleteEntry("d/x", 3, 0), "delete_entry d/x 3 #0"),
    (AddDirectory("d e", 0, 1), "add_directory d%20e #0 #1"),
    (OpenDirectory("d", 0, 2, 1), "open_directory d #0 2 #1"),
    (ChangeDirProp(1, "p", None), "change_dir_prop #1 p"),
    (ChangeFileProp(1, "q", Some("2")), "change_file_prop #1 q 2"),
    (AddFile("f", 0, 1), "add_file f #0 #1"),
    (OpenFile("f", 0, 1, 1), "open_file f #0 1 #1"),
    (
        ApplyText(1, Some(OF_A), "abc"),
        "apply_text #1 0cc175b9c0f1b6a831c399e269772661 abc",
    ),
    (ApplyText(1, None, ""), "apply_text #1 - \"\""),
    (
        CloseFile(1, Some(OF_ABC)),
        "close_file #1 900150983cd24fb0d6963f7d28e17f72",
    ),
];

fn printed(alloc: Global, row: Row) -> Result<String, Fail> {
    let call = call(alloc, row)?;
    Ok(format!(in alloc; "{call}")?)
}

fn prints(rt: &impl Abort, alloc: Global, row: Row, line: &str) -> Result<(), Fail> {
    let printed = printed(alloc, row)?;
    assert_eq!(rt; printed.as_str(), line);
    Ok(())
}

#[test]
fn calls_are_printed(rt: HostRuntime) -> Result<(), Fail> {
    for (row, line) in &LINES {
        prints(&rt, rt.alloc(), *row, line)?;
    }
    Ok(())
}

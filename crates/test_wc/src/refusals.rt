// Edits in which a call is refused, and each call after it but `abort_edit`.
use crate::builders::ONE_FILE;
use crate::steps::writes;
use std::alloc::Global;
use std::process::Abort;
use std::test::Fail;

const UNTOUCHED: &str = ". dir 1 .; f file 1 f a; ";

const OPENED: &str = ". dir 2 . incomplete; f file 1 f a; ";

const CHANGED: &str = ". dir 2 . incomplete; f file 2 f abc; ";

const CLOSED: &str = ". dir 2 .; f file 2 f abc; ";

// The calls of an edit, the results, and what the copy has then.
type Row = (&'static str, &'static str, &'static str);

fn answer(rt: &impl Abort, alloc: Global, begun: &str, row: Row) -> Result<(), Fail> {
    let (calls, answers, nodes) = row;
    let script = format!(in alloc; "edit; {calls}; stop; show")?;
    let wanted = format!(in alloc; "{answers}; {nodes}")?;
    writes(rt, alloc, begun, (&script, &wanted))
}

fn answers(rt: &impl Abort, alloc: Global, begun: &str, rows: &[Row]) -> Result<(), Fail> {
    for row in rows {
        answer(rt, alloc, begun, *row)?;
    }
    Ok(())
}

#[test]
fn refuses_an_edit_without_a_call(rt: HostRuntime) -> Result<(), Fail> {
    const ROWS: &[Row] = &[
        (
            "open_root 1 #0; open_file f #0 1 #1; apply_text #1 A abc; close_file #1 B; close_directory #0; close_edit",
            "accepted 0 refused 1 13 13 13 13 13 pools 1",
            UNTOUCHED,
        ),
        (
            "set_target_revision 2; open_file f #0 1 #1; apply_text #1 A abc; close_file #1 B; close_directory #0; close_edit",
            "accepted 1 refused 2 13 13 13 13 pools 1",
            UNTOUCHED,
        ),
        (
            "set_target_revision 2; open_root 1 #0; apply_text #1 A abc; close_file #1 B; close_directory #0; close_edit",
            "accepted 2 refused 2 13 13 13 pools 2",
            OPENED,
        ),
        (
            "set_target_revision 2; open_root 1 #0; open_file f #0 1 #1; close_file #1 B; close_directory #0; close_edit",
            "accepted 3 refused 45 13 13 pools 3",
            OPENED,
        ),
        (
            "set_target_revision 2; open_root 1 #0; open_file f #0 1 #1; apply_text #1 A abc; close_directory #0; close_edit",
            "accepted 4 refused 9 13 pools 3",
            OPENED,
        ),
        (
            "set_target_revision 2; open_root 1 #0; open_file f #0 1 #1; apply_text #1 A abc; close_file #1 B; close_edit",
            "accepted 5 refused 11 pools 2",
            CHANGED,
        ),
    ];
    answers(&rt, rt.alloc(), ONE_FILE, ROWS)
}

#[test]
fn refuses_a_call_given_twice(rt: HostRuntime) -> Result<(), Fail> {
    const ROWS: &[Row] = &[
        (
            "set_target_revision 2; set_target_revision 2; open_root 1 #0; open_file f #0 1 #1; apply_text #1 A abc; close_file #1 B; close_directory #0; close_edit",
            "accepted 1 refused 1 13 13 13 13 13 13 pools 1",
            UNTOUCHED,
        ),
        (
            "set_target_revision 2; open_root 1 #0; open_root 1 #0; open_file f #0 1 #1; apply_text #1 A abc; close_file #1 B; close_directory #0; close_edit",
            "accepted 2 refused 14 13 13 13 13 13 pools 2",
            OPENED,
        ),
        (
            "set_target_revision 2; open_root 1 #0; open_file f #0 1 #1; open_file f #0 1 #1; apply_text #1 A abc; close_file #1 B; close_directory #0; close_edit",
            "accepted 3 refused 14 13 13 13 13 pools 3",
            OPENED,
        ),
        (
            "set_target_revision 2; open_root 1 #0; open_file f #0 1 #1; apply_text #1 A abc; apply_text #1 A abc; close_file #1 B; close_directory #0; close_edit",
            "accepted 4 refused 10 13 13 13 pools 3",
            OPENED,
        ),
        (
            "set_target_revision 2; open_root 1 #0; open_file f #0 1 #1; apply_text #1 A abc; close_file #1 B; close_file #1 B; close_directory #0; close_edit",
            "accepted 5 refused 3 13 13 pools 2",
            CHANGED,
        ),
        (
            "set_target_revision 2; open_root 1 #0; open_file f #0 1 #1; apply_text #1 A abc; close_file #1 B; close_directory #0; close_directory #0; close_edit",
            "accepted 6 refused 3 13 pools 1",
            CLOSED,
        ),
        (
            "set_target_revision 2; open_root 1 #0; open_file f #0 1 #1; apply_text #1 A abc; close_file #1 B; close_directory #0; close_edit; close_edit",
            "accepted 7 refused 12 pools 1",
            CLOSED,
        ),
    ];
    answers(&rt, rt.alloc(), ONE_FILE, ROWS)
}

#[test]
fn refuses_what_the_copy_has_not(rt: HostRuntime) -> Result<(), Fail> {
    const ROWS: &[Row] = &[
        (
            "set_target_revision 2; open_root 2 #0",
            "accepted 1 refused 43 pools 1",
            UNTOUCHED,
        ),
        (
            "set_target_revision 2; open_root 1 #0; delete_entry g 1 #0",
            "accepted 2 refused 41 pools 2",
            OPENED,
        ),
        (
            "set_target_revision 2; open_root 1 #0; delete_entry f 2 #0",
            "accepted 2 refused 43 pools 2",
            OPENED,
        ),
        (
            "set_target_revision 2; open_root 1 #0; open_directory g #0 1 #1",
            "accepted 2 refused 41 pools 2",
            OPENED,
        ),
        (
            "set_target_revision 2; open_root 1 #0; open_directory f #0 1 #1",
            "accepted 2 refused 42 pools 2",
            OPENED,
        ),
        (
            "set_target_revision 2; open_root 1 #0; open_file f #0 2 #1",
            "accepted 2 refused 43 pools 2",
            OPENED,
        ),
        (
            "set_target_revision 2; open_root 1 #0; add_file f #0 #1",
            "accepted 2 refused 47 pools 2",
            OPENED,
        ),
        (
            "set_target_revision 2; open_root 1 #0; open_file f #0 1 #1; apply_text #1 B abc",
            "accepted 3 refused 44 pools 3",
            OPENED,
        ),
        // the copy has what was taken before the refusal, and giving up changes nothing
        (
            "set_target_revision 2; open_root 1 #0; add_file g #0 #1; close_file #1 A; close_file #1; abort_edit",
            "accepted 4 refused 45 13 pools 1",
            ". dir 2 . incomplete; f file 1 f a; g not-present; ",
        ),
    ];
    answers(&rt, rt.alloc(), ONE_FILE, ROWS)
}

#[test]
fn refuses_what_is_too_long(rt: HostRuntime) -> Result<(), Fail> {
    const ROWS: &[Row] = &[
        (
            "set_target_revision 2; open_root 1 #0; add_file g #0 #1; apply_text #1 - x*1048577",
            "accepted 3 refused 49 pools 3",
            ". dir 2 . incomplete; f file 1 f a; g not-present; ",
        ),
        (
            "set_target_revision 2; open_root 1 #0; change_dir_prop #0 p x*1048577",
            "accepted 2 refused 49 pools 2",
            OPENED,
        ),
        (
            "set_target_revision 2; open_root 1 #0; open_file f #0 1 #1; change_file_prop #1 p x*1048577",
            "accepted 3 refused 49 pools 3",
            OPENED,
        ),
    ];
    answers(&rt, rt.alloc(), ONE_FILE, ROWS)
}

#[test]
fn refuses_texts_out_of_turn(rt: HostRuntime) -> Result<(), Fail> {
    const EMPTY: &str = ". dir 1 . incomplete; f not-present; ";
    const BOTH: &str = ". dir 1 . incomplete; f not-present; g not-present; ";
    const ROWS: &[Row] = &[
        (
            "set_target_revision 1; open_root 0 #0; add_file f #0 #1; apply_text #1 - a; close_directory #0",
            "accepted 4 refused 9 pools 3",
            EMPTY,
        ),
        (
            "set_target_revision 1; open_root 0 #0; add_file f #0 #1; add_file g #0 #2; change_file_prop #1 p 1",
            "accepted 4 refused 8 pools 4",
            BOTH,
        ),
        (
            "set_target_revision 1; open_root 0 #0; add_file f #0 #1; add_file g #0 #2; close_file #1",
            "accepted 4 refused 17 pools 4",
            BOTH,
        ),
        (
            "set_target_revision 1; open_root 0 #0; add_file f #0 #1; close_directory #0; close_edit",
            "accepted 4 refused 11 pools 2",
            ". dir 1 .; f not-present; ",
        ),
        (
            "set_target_revision 1; open_root 0 #0; add_file f #0 #1; add_file g #0 #2; close_directory #0; apply_text #2 - a; apply_text #1 - abc; close_file #2 A; close_file #1 B; close_edit",
            "accepted 10 pools 1",
            ". dir 1 .; f file 1 f abc; g file 1 g a; ",
        ),
    ];
    answers(&rt, rt.alloc(), "", ROWS)
}

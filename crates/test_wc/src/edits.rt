// Edits that are accepted, or cut off: the number of calls, and what the copy has afterwards.
use crate::builders::ONE_FILE;
use crate::steps::{Case, same};
use std::test::Fail;

const CHANGED: &str =
    "edit; set_target_revision 2; open_root 1 #0; open_file f #0 1 #1; apply_text #1 A abc; close_file #1 B; close_directory #0; close_edit; stop; show";

#[test]
fn changes_a_file(rt: HostRuntime) -> Result<(), Fail> {
    const CASES: &[Case<'static>] = &[
        (CHANGED, "accepted 7 pools 1; . dir 2 .; f file 2 f abc; "),
        (
            "edit; abort_edit; abort_edit; stop; show",
            "accepted 1 refused 12 pools 1; . dir 1 .; f file 1 f a; ",
        ),
        // cut off, and driven on
        (
            "edit; set_target_revision 2; open_root 1 #0; open_file f #0 1 #1; abort_edit; stop; show; report; edit; set_target_revision 2; open_root 2 #0; open_file f #0 1 #1; apply_text #1 A abc; close_file #1 B; close_directory #0; close_edit; stop; show; check",
            "accepted 4 pools 1; . dir 2 . incomplete; f file 1 f a; set . 2 start_empty; set f 1; accepted 7 pools 1; . dir 2 .; f file 2 f abc; true; ",
        ),
        // what isn't touched gets the revision
        (
            "switch g f 2; edit; set_target_revision 2; open_root 1 #0; open_file f #0 1 #1; apply_text #1 A abc; close_file #1 B; close_directory #0; close_edit; stop; show",
            "accepted 7 pools 1; . dir 2 .; f file 2 f abc; g file 2 f abc; ",
        ),
    ];
    same(&rt, rt.alloc(), ONE_FILE, CASES)
}

#[test]
fn adds_and_deletes_trees(rt: HostRuntime) -> Result<(), Fail> {
    const TREE: &[Case<'static>] = &[(
        "edit; set_target_revision 1; open_root 0 #0; add_directory d #0 #1; add_directory d/e #1 #2; add_file d/e/x #2 #3; apply_text #3 E a; close_file #3 A; close_directory #2; close_directory #1; close_directory #0; close_edit; stop; show; check; edit; set_target_revision 0; open_root 1 #0; delete_entry d 1 #0; close_directory #0; close_edit; stop; show; check",
        "accepted 11 pools 1; . dir 1 .; d dir 1 d; d/e dir 1 d/e; d/e/x file 1 d/e/x a; true; accepted 5 pools 1; . dir 0 .; true; ",
    )];
    const FORGOTTEN: &[Case<'static>] = &[(
        "report; edit; set_target_revision 1; open_root 1 #0; open_directory d #0 1 #1; add_file d/x #1 #2; apply_text #2 - abc; close_file #2 B; close_directory #1; close_directory #0; close_edit; stop; show",
        "set . 1; delete d/x; accepted 9 pools 1; . dir 1 .; d dir 1 d; d/x file 1 d/x abc; ",
    )];
    same(
        &rt,
        rt.alloc(),
        "mkdir d; mkdir d/e; put d/e/x a; commit; checkout 0 .; ",
        TREE,
    )?;
    same(
        &rt,
        rt.alloc(),
        "mkdir d; put d/x abc; commit; checkout 1 .; forget d/x; ",
        FORGOTTEN,
    )
}

// An added file isn't there before its close, and goes at the end where it isn't added again.
#[test]
fn adds_a_file_at_its_close(rt: HostRuntime) -> Result<(), Fail> {
    const CUT: &str =
        "put f \"\"; commit; checkout 0 .; edit; set_target_revision 1; open_root 0 #0; add_file f #0 #1; abort_edit; stop; show; report; ";
    const CASES: &[Case<'static>] = &[
        (
            "edit; set_target_revision 1; open_root 1 #0; add_file f #0 #1; apply_text #1 - \"\"; close_file #1 E; close_directory #0; close_edit; stop; show; check",
            "accepted 4 pools 1; . dir 1 . incomplete; f not-present; set . 1 start_empty; accepted 7 pools 1; . dir 1 .; f file 1 f \"\"; true; ",
        ),
        (
            "edit; set_target_revision 0; open_root 1 #0; close_directory #0; close_edit; stop; show; check",
            "accepted 4 pools 1; . dir 1 . incomplete; f not-present; set . 1 start_empty; accepted 4 pools 1; . dir 0 .; true; ",
        ),
    ];
    same(&rt, rt.alloc(), CUT, CASES)
}

// Properties change at the close, in the order given; an incomplete directory loses them when it is opened again.
#[test]
fn changes_properties(rt: HostRuntime) -> Result<(), Fail> {
    const BEGUN: &str = "mkdir d; prop d p 1; commit; prop d p; prop d q 2; commit; checkout 1 .; ";
    const CASES: &[Case<'static>] = &[
        (
            "edit; set_target_revision 2; open_root 1 #0; open_directory d #0 1 #1; change_dir_prop #1 p; change_dir_prop #1 q 2; abort_edit; stop; show; report; edit; set_target_revision 2; open_root 2 #0; open_directory d #0 2 #1; change_dir_prop #1 q 2; close_directory #1; close_directory #0; close_edit; stop; show; check",
            "accepted 6 pools 1; . dir 2 . incomplete; d dir 2 d incomplete; d prop p 1; set . 2 start_empty; set d 2 start_empty; accepted 7 pools 1; . dir 2 .; d dir 2 d; d prop q 2; true; ",
        ),
        (
            "edit; set_target_revision 2; open_root 1 #0; open_directory d #0 1 #1; change_dir_prop #1 p; change_dir_prop #1 p 3; change_dir_prop #1 q 2; change_dir_prop #1 q; close_directory #1; add_file g #0 #2; change_file_prop #2 p 1; change_file_prop #2 p 2; change_file_prop #2 q 3; change_file_prop #2 q; close_file #2; close_directory #0; close_edit; stop; show",
            "accepted 16 pools 1; . dir 2 .; d dir 2 d; d prop p 3; g file 2 g \"\"; g prop p 2; ",
        ),
    ];
    same(&rt, rt.alloc(), BEGUN, CASES)
}

#[test]
fn follows_switched_directories(rt: HostRuntime) -> Result<(), Fail> {
    const BEGUN: &str =
        "mkdir a; put a/x a; mkdir b; put b/y a; commit; put a/x abc; put b/y abc; commit; checkout 1 .; switch a b 1; ";
    const CASES: &[Case<'static>] = &[
        (
            "edit; set_target_revision 2; open_root 1 #0; open_directory a #0 1 #1; open_file a/y #1 1 #2; apply_text #2 A abc; close_file #2 B; close_directory #1; open_directory b #0 1 #3; open_file b/y #3 1 #4; apply_text #4 A abc; close_file #4 B; close_directory #3; close_directory #0; close_edit; stop; show; check",
            "accepted 14 pools 1; . dir 2 .; a dir 2 b; a/y file 2 b/y abc; b dir 2 b; b/y file 2 b/y abc; true; ",
        ),
        (
            "edit; set_target_revision 2; open_root 1 #0; open_directory a #0 1 #1; open_file a/y #1 1 #2; abort_edit; stop; show; report",
            "accepted 5 pools 1; . dir 2 . incomplete; a dir 2 b incomplete; a/y file 1 b/y a; b dir 1 b; b/y file 1 b/y a; set . 2 start_empty; link a b 2 start_empty; set a/y 1; set b 1; ",
        ),
        (
            "edit; set_target_revision 2; open_root 1 #0; delete_entry a 1 #0; abort_edit; stop; show; report",
            "accepted 4 pools 1; . dir 2 . incomplete; b dir 1 b; b/y file 1 b/y a; set . 2 start_empty; set b 1; ",
        ),
        (
            "edit; set_target_revision 2; open_root 1 #0; delete_entry a 1 #0; add_directory a #0 #1; add_file a/x #1 #2; apply_text #2 - a; close_file #2 A; close_directory #1; delete_entry b 1 #0; close_directory #0; close_edit; stop; show",
            "accepted 11 pools 1; . dir 2 .; a dir 2 a; a/x file 2 a/x a; ",
        ),
    ];
    same(&rt, rt.alloc(), BEGUN, CASES)
}

// What replaces a directory has none of the switched nodes below it.
#[test]
fn replaces_what_stands_above_a_switch(rt: HostRuntime) -> Result<(), Fail> {
    const BELOW: &str =
        "mkdir d; mkdir d/s; mkdir b; put b/y a; commit; remove d; mkdir d; mkdir d/s; commit; checkout 1 .; switch d/s b 1; ";
    const REPLACED: &[Case<'static>] = &[
        (
            "report; edit; set_target_revision 2; open_root 1 #0; delete_entry d 1 #0; add_directory d #0 #1; add_directory d/s #1 #2; close_directory #2; close_directory #1; close_directory #0; close_edit; stop; show; check",
            "set . 1; link d/s b 1; accepted 9 pools 1; . dir 2 .; b dir 2 b; b/y file 2 b/y a; d dir 2 d; d/s dir 2 d/s; true; ",
        ),
        (
            "edit; set_target_revision 2; open_root 1 #0; delete_entry d 1 #0; add_directory d #0 #1; abort_edit; stop; show; report",
            "accepted 5 pools 1; . dir 2 . incomplete; b dir 1 b; b/y file 1 b/y a; d dir 2 d incomplete; set . 2 start_empty; set b 1; set d 2 start_empty; ",
        ),
    ];
    // a directory that is the whole repository
    const WHOLE: &str = "mkdir a; put f a; commit; put f abc; commit; checkout 1 .; switch a . 1; ";
    const UPDATED: &[Case<'static>] = &[(
        "edit; set_target_revision 2; open_root 1 #0; open_directory a #0 1 #1; open_file a/f #1 1 #2; apply_text #2 A abc; close_file #2 B; close_directory #1; open_file f #0 1 #3; apply_text #3 A abc; close_file #3 B; close_directory #0; close_edit; stop; show; check",
        "accepted 12 pools 1; . dir 2 .; a dir 2 .; a/a dir 2 a; a/f file 2 f abc; f file 2 f abc; true; ",
    )];
    same(&rt, rt.alloc(), BELOW, REPLACED)?;
    same(&rt, rt.alloc(), WHOLE, UPDATED)
}

#[test]
fn takes_texts_after_the_directories(rt: HostRuntime) -> Result<(), Fail> {
    const BOTH_OLD: &str =
        "mkdir d; put d/x a; commit; put d/x abc; commit; put y a; commit; put y abc; commit; checkout 3 .; place d/x 1; ";
    const CHANGED_FILES: &[Case<'static>] = &[
        (
            "edit; set_target_revision 4; open_root 3 #0; open_directory d #0 3 #1; open_file d/x #1 1 #2; close_directory #1; open_file y #0 3 #3; close_directory #0; stop; show; report",
            "accepted 7 pools 3; . dir 4 .; d dir 4 d; d/x file 1 d/x a; y file 3 y a; set . 4; set d/x 1; set y 3; ",
        ),
        (
            "edit; set_target_revision 4; open_root 3 #0; open_directory d #0 3 #1; open_file d/x #1 1 #2; close_directory #1; open_file y #0 3 #3; close_directory #0; apply_text #2 A abc; close_file #2 B; apply_text #3 A abc; close_file #3 B; close_edit; stop; show; check",
            "accepted 12 pools 1; . dir 4 .; d dir 4 d; d/x file 4 d/x abc; y file 4 y abc; true; ",
        ),
    ];
    const ADDED_FILE: &[Case<'static>] = &[
        (
            "edit; set_target_revision 1; open_root 0 #0; add_file f #0 #1; close_directory #0; abort_edit; stop; show; report; check",
            "accepted 5 pools 1; . dir 1 .; f not-present; set . 1; delete f; true; ",
        ),
        (
            "edit; set_target_revision 1; open_root 0 #0; add_file f #0 #1; close_directory #0; apply_text #1 - \"\"; close_file #1 E; close_edit; stop; show; check",
            "accepted 7 pools 1; . dir 1 .; f file 1 f \"\"; true; ",
        ),
    ];
    same(&rt, rt.alloc(), BOTH_OLD, CHANGED_FILES)?;
    same(
        &rt,
        rt.alloc(),
        "put f \"\"; commit; checkout 0 .; ",
        ADDED_FILE,
    )
}

#[test]
fn switches_a_whole_copy(rt: HostRuntime) -> Result<(), Fail> {
    const BEGUN: &str =
        "mkdir t; mkdir t/d; mkdir e; put t/f a; put t/d/x a; commit; copy 1 t b; commit; put b/f abc; commit; checkout 1 t; ";
    const CASES: &[Case<'static>] = &[
        (
            "edit b; set_target_revision 3; open_root 1 #0; open_file f #0 1 #1; apply_text #1 A abc; close_file #1 B; close_directory #0; close_edit; stop; show; check",
            "accepted 7 pools 1; . dir 3 b; d dir 3 b/d; d/x file 3 b/d/x a; f file 3 b/f abc; true; ",
        ),
        (
            "edit b; set_target_revision 3; open_root 1 #0; open_file f #0 1 #1; abort_edit; stop; show; report; edit; set_target_revision 3; open_root 3 #0; close_directory #0; close_edit; stop; show; check",
            "accepted 4 pools 1; . dir 3 b incomplete; d dir 1 t/d; d/x file 1 t/d/x a; f file 1 t/f a; root b; set . 3 start_empty; link d t/d 1; link f t/f 1; accepted 4 pools 1; . dir 3 b; d dir 3 t/d; d/x file 3 t/d/x a; f file 3 t/f a; true; ",
        ),
        (
            "switch d e 1; edit b; set_target_revision 3; open_root 1 #0; delete_entry d 1 #0; add_directory d #0 #1; add_file d/x #1 #2; apply_text #2 - a; close_file #2 A; close_directory #1; open_file f #0 1 #3; apply_text #3 A abc; close_file #3 B; close_directory #0; close_edit; stop; show; check",
            "accepted 13 pools 1; . dir 3 b; d dir 3 b/d; d/x file 3 b/d/x a; f file 3 b/f abc; true; ",
        ),
    ];
    same(&rt, rt.alloc(), BEGUN, CASES)
}

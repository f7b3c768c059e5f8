// Copies that are made and changed without an edit, and what they report.
use crate::steps::{Case, same};
use std::test::Fail;

// `f` with the text `a` in revision 1, and with `abc` in revision 2.
pub(crate) const ONE_FILE: &str = "put f a; commit; put f abc; commit; checkout 1 .; ";

const TWO_DIRECTORIES: &str = "mkdir a; put a/x a; mkdir b; put b/y a; commit; checkout 1 .; ";

const TWO_BRANCHES: &str =
    "mkdir t; mkdir t/d; mkdir e; put t/f a; put t/d/x a; commit; copy 1 t b; commit; put b/f abc; commit; ";

#[test]
fn refuses_and_changes_nothing(rt: HostRuntime) -> Result<(), Fail> {
    const CASES: &[Case<'static>] = &[
        ("checkout 3 .", "refused 1; "),
        ("checkout 1 g", "refused 2; "),
        ("checkout 1 f", "refused 8; "),
        ("place . 1", "refused 4; "),
        ("place f 3", "refused 1; "),
        ("place g/h 1", "refused 3; "),
        ("place f/h 1", "refused 3; "),
        ("place g 1", "refused 2; "),
        ("switch . f 1", "refused 4; "),
        ("switch f f 3", "refused 1; "),
        ("switch g/h f 1", "refused 3; "),
        ("switch f g 1", "refused 2; "),
        ("forget g", "refused 2; "),
        ("forget .", "refused 4; "),
        ("forget f; forget f", "refused 2; "),
    ];
    same(&rt, rt.alloc(), ONE_FILE, CASES)
}

#[test]
fn places_and_switches(rt: HostRuntime) -> Result<(), Fail> {
    const FILE: &[Case<'static>] = &[(
        "switch g f 2; show; report; check",
        ". dir 1 .; f file 1 f a; g file 2 f abc; set . 1; link g f 2; true; ",
    )];
    const NODES: &str = ". dir 1 .; a dir 1 b; a/y file 1 b/y a; b dir 1 b; b/y file 1 b/y a; ";
    const PLACED: &str = ". dir 1 .; a dir 1 a; a/x file 1 a/x a; b dir 1 b; b/y file 1 b/y a; ";
    const DIRECTORIES: &[Case<'static>] = &[
        ("switch a b 1; show", NODES),
        ("switch a b 1; report; check", "set . 1; link a b 1; true; "),
        // a switch below a switch, and a file where nothing was
        (
            "switch a . 1; switch a/a b 1; switch a/b/c a/x 1; report; check",
            "set . 1; link a . 1; link a/a b 1; link a/b/c a/x 1; true; ",
        ),
        // a place below a switched directory follows its repository path
        ("switch a b 1; place a/x 1", "refused 2; "),
        ("switch a b 1; forget a/y; place a/y 1; show", NODES),
        // a place over a switched subtree
        ("switch a . 1; switch a/a b 1; place a 1; show", PLACED),
    ];
    same(&rt, rt.alloc(), ONE_FILE, FILE)?;
    same(&rt, rt.alloc(), TWO_DIRECTORIES, DIRECTORIES)
}

#[test]
fn places_older_nodes(rt: HostRuntime) -> Result<(), Fail> {
    const BEGUN: &str =
        "mkdir d; put d/x a; commit; put d/x abc; commit; put y a; commit; checkout 3 .; ";
    const CASES: &[Case<'static>] = &[(
        "place d/x 1; show; report; check",
        ". dir 3 .; d dir 3 d; d/x file 1 d/x a; y file 3 y a; set . 3; set d/x 1; true; ",
    )];
    same(&rt, rt.alloc(), BEGUN, CASES)
}

#[test]
fn forgets_files_and_directories(rt: HostRuntime) -> Result<(), Fail> {
    const CASES: &[Case<'static>] = &[
        (
            "forget a/x; show; report; check",
            ". dir 1 .; a dir 1 a; a/x not-present; b dir 1 b; b/y file 1 b/y a; set . 1; delete a/x; true; ",
        ),
        (
            "forget a; show; report; check",
            ". dir 1 .; a not-present; b dir 1 b; b/y file 1 b/y a; set . 1; delete a; true; ",
        ),
        (
            "forget b; place b/y 1; report",
            "refused 3; set . 1; delete b; ",
        ),
        ("forget b; place b 1; report", "set . 1; "),
    ];
    same(&rt, rt.alloc(), TWO_DIRECTORIES, CASES)
}

#[test]
fn checks_out_a_branch(rt: HostRuntime) -> Result<(), Fail> {
    const CASES: &[Case<'static>] = &[
        (
            "checkout 1 t; show",
            ". dir 1 t; d dir 1 t/d; d/x file 1 t/d/x a; f file 1 t/f a; ",
        ),
        ("checkout 1 t; report; check", "root t; set . 1; true; "),
        ("checkout 1 t/f", "refused 8; "),
        ("checkout 1 b", "refused 2; "),
        ("checkout 9 b", "refused 1; "),
        (
            "checkout 1 t; switch d e 1; report; check",
            "root t; set . 1; link d e 1; true; ",
        ),
    ];
    same(&rt, rt.alloc(), TWO_BRANCHES, CASES)
}

// A file is changed after the checkout, and the copy updated by its parts: its report, and the drive of that to its applier.
#[test]
fn updates_a_changed_file(rt: HostRuntime) -> Result<(), Fail> {
    const CASES: &[Case<'static>] = &[(
        "put f abc; commit; check; show; update 2; show; check; place f 1; show; forget f; show; check",
        "true; . dir 1 .; f file 1 f a; Ok(Closed { calls: 7 }); . dir 2 .; f file 2 f abc; true; \
         . dir 2 .; f file 1 f a; . dir 2 .; f not-present; true; ",
    )];
    same(&rt, rt.alloc(), "put f a; commit; checkout 1 .; ", CASES)
}

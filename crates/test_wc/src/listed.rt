// Copies made of lists of nodes, which need not be true.
use crate::builders::ONE_FILE;
use crate::steps::{Case, same};
use std::test::Fail;

#[test]
fn refuses_lists(rt: HostRuntime) -> Result<(), Fail> {
    const CASES: &[Case<'static>] = &[
        ("nodes; stop; ", "refused 8; "),
        ("nodes; . dir 1 .; . dir 1 .; stop; ", "refused 7; "),
        ("nodes; . file 1 . a; stop; ", "refused 8; "),
        ("nodes; . dir 1 .; a/b file 1 a/b a; stop; ", "refused 3; "),
        (
            "nodes; . dir 1 .; a file 1 a a; a/b file 1 a/b a; stop; ",
            "refused 3; ",
        ),
        // a repository path of 65 names
        (
            "nodes; . dir 1 .; f file 1 d/d/d/d/d/d/d/d/d/d/d/d/d/d/d/d/d/d/d/d/d/d/d/d/d/d/d/d/d/d/d/d/d/d/d/d/d/d/d/d/d/d/d/d/d/d/d/d/d/d/d/d/d/d/d/d/d/d/d/d/d/d/d/d/f a; stop; show",
            "refused 5; . dir 1 .; f file 1 f a; ",
        ),
    ];
    same(&rt, rt.alloc(), ONE_FILE, CASES)
}

#[test]
fn tells_the_first_untrue_path(rt: HostRuntime) -> Result<(), Fail> {
    const CASES: &[Case<'static>] = &[
        ("nodes; . dir 1 .; stop; check", "untrue at .; "),
        ("nodes; . dir 1 . incomplete; stop; check", "true; "),
        ("nodes; . dir 1 .; f not-present; stop; check", "true; "),
        ("nodes; . dir 1 .; f dir 1 f; stop; check", "untrue at f; "),
        (
            "nodes; f file 3 f a; . dir 1 .; stop; check",
            "untrue at f; ",
        ),
        (
            "nodes; . dir 1 .; f file 1 f abc; stop; check",
            "untrue at f; ",
        ),
        ("nodes; . dir 2 .; f file 2 f abc; stop; check", "true; "),
        (
            "nodes; . dir 1 .; f file 1 f a; g file 1 f a; stop; check",
            "true; ",
        ),
        // the root lacks `f`, and is reported before what is below it
        (
            "nodes; . dir 1 .; g file 1 g a; stop; check",
            "untrue at .; ",
        ),
    ];
    same(&rt, rt.alloc(), ONE_FILE, CASES)
}

// The text of an untrue file is no base for the edit, and stays.
#[test]
fn an_untrue_file_is_no_base(rt: HostRuntime) -> Result<(), Fail> {
    const CASES: &[Case<'static>] = &[(
        "nodes; . dir 1 .; f file 1 f abc; stop; check; edit; set_target_revision 2; open_root 1 #0; open_file f #0 1 #1; apply_text #1 A abc; close_file #1 B; abort_edit; stop; show",
        "untrue at f; accepted 4 refused 44 13 pools 1; . dir 2 . incomplete; f file 1 f abc; ",
    )];
    same(&rt, rt.alloc(), ONE_FILE, CASES)
}

//! What is there after commits.
use crate::questions::Question::{At, Compare, Latest, Props};
use crate::questions::{By, History, is_told};
use crate::steps::Act::{Copy, MakeDir, Put, Remove, Set, Unset};
use crate::steps::Step;
use crate::steps::Step::Commit;
use std::test::Fail;

static BEGINS_WITH_AN_EMPTY_ROOT: History = History {
    steps: &[],
    questions: &[Latest, At((0, "")), Props((0, "")), At((1, ""))],
    told: "latest 0,entries 0,props 0,none,",
};

static KEEPS_OLD_REVISIONS: History = History {
    steps: &[
        Step::At("f", Put("a")),
        Commit,
        Step::At("f", Put("abc")),
        Commit,
    ],
    questions: &[
        At((1, "f")),
        At((2, "f")),
        Compare(By::Node, (1, "f"), (2, "f")),
        Compare(By::Line, (1, "f"), (2, "f")),
        At((2, "")),
        At((0, "f")),
    ],
    told: "1,2,a,abc,other,one line,entries 1,none,",
};

static CHANGES_BOTH_SIDES_OF_A_COPY: History = History {
    steps: &[
        Step::At("d", MakeDir),
        Step::At("d/x", Put("a")),
        Commit,
        Step::At("e", Copy(1, "d")),
        Commit,
        Step::At("e/x", Put("abc")),
        Commit,
        Step::At("d/x", Put("b")),
        Commit,
    ],
    questions: &[
        At((3, "d/x")),
        Compare(By::Node, (2, "d"), (2, "e")),
        Compare(By::Node, (2, "e/x"), (1, "d/x")),
        Compare(By::Node, (3, "d/x"), (1, "d/x")),
        At((4, "d/x")),
        At((4, "e/x")),
        Compare(By::Line, (4, "d/x"), (4, "e/x")),
    ],
    told: "1,2,3,4,a,same,same,same,b,abc,one line,",
};

static RELATES_WHAT_IS_CHANGED_OR_COPIED: History = History {
    steps: &[
        Step::At("f", Put("a")),
        Commit,
        Step::At("f", Put("abc")),
        Step::At("g", Copy(1, "f")),
        Commit,
        Step::At("f", Remove),
        Commit,
        Step::At("f", Put("a")),
        Commit,
    ],
    questions: &[
        Compare(By::Relation, (1, "f"), (2, "f")),
        Compare(By::Relation, (2, "f"), (2, "g")),
        Compare(By::Relation, (1, "f"), (4, "f")),
        Compare(By::Relation, (0, ""), (4, "")),
        Compare(By::Relation, (4, ""), (4, "f")),
    ],
    told: "1,2,3,4,related,related,unrelated,related,unrelated,",
};

static COPIES_A_DIRECTORY_INTO_ITSELF: History = History {
    steps: &[
        Step::At("d", MakeDir),
        Commit,
        Step::At("d/e", Copy(1, "d")),
        Commit,
        Step::At("d/e/f", Copy(2, "d")),
        Commit,
    ],
    questions: &[
        Compare(By::Node, (2, "d/e"), (1, "d")),
        At((2, "d/e/e")),
        At((3, "d/e/f/e")),
    ],
    told: "1,2,3,same,none,entries 0,",
};

static REPLACES_IN_ONE_COMMIT: History = History {
    steps: &[
        Step::At("f", Put("a")),
        Commit,
        Step::At("f", Put("abc")),
        Commit,
        Step::At("f", Remove),
        Step::At("f", MakeDir),
        Step::At("f/x", Put("a")),
        Commit,
        Step::At("f", Remove),
        Step::At("f", Copy(2, "f")),
        Step::At("f", Put("c")),
        Commit,
        Commit,
    ],
    questions: &[
        At((3, "f")),
        Compare(By::Line, (3, "f"), (2, "f")),
        At((4, "f")),
        Compare(By::Line, (4, "f"), (2, "f")),
        Compare(By::Node, (5, ""), (4, "")),
    ],
    told: "1,2,3,4,5,entries 1,two lines,c,one line,same,",
};

static SETS_AND_REMOVES_PROPERTIES: History = History {
    steps: &[
        Step::At("f", Put("a")),
        Commit,
        Step::At("f", Put("abc")),
        Commit,
        Step::At("", Set("1")),
        Step::At("f", Set("2")),
        Commit,
        Step::At("f", Unset),
        Commit,
        Step::At("f", Unset),
        Commit,
    ],
    questions: &[
        Props((3, "f")),
        Props((4, "f")),
        Props((5, "")),
        Compare(By::Node, (4, "f"), (5, "f")),
        At((5, "f")),
    ],
    told: "1,2,3,4,5,props 1,props 0,props 1,other,abc,",
};

static COMMITS_NOTHING: History = History {
    steps: &[Commit, Commit],
    questions: &[Latest, At((2, "")), Compare(By::Node, (2, ""), (0, ""))],
    told: "1,2,latest 2,entries 0,same,",
};

fn rows() -> [&'static History; 8] {
    [
        &BEGINS_WITH_AN_EMPTY_ROOT,
        &KEEPS_OLD_REVISIONS,
        &CHANGES_BOTH_SIDES_OF_A_COPY,
        &RELATES_WHAT_IS_CHANGED_OR_COPIED,
        &COPIES_A_DIRECTORY_INTO_ITSELF,
        &REPLACES_IN_ONE_COMMIT,
        &SETS_AND_REMOVES_PROPERTIES,
        &COMMITS_NOTHING,
    ]
}

#[test]
fn commits_make_revisions(rt: HostRuntime) -> Result<(), Fail> {
    for history in rows() {
        is_told(&rt, rt.alloc(), history)?;
    }
    Ok(())
}

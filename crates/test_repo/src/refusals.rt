//! Which changes are refused, and by which fault.
use crate::questions::Question::{At, Latest};
use crate::questions::{History, is_told};
use crate::steps::Act::{Copy, MakeDir, Put, Remove, Set, Unset};
use crate::steps::Step;
use crate::steps::Step::Commit;
use std::test::Fail;

static IN_ORDER: History = History {
    steps: &[
        Step::At("f", Put("a")),
        Commit,
        Step::At("f", Put("abc")),
        Commit,
        Step::At("f", MakeDir),
        Commit,
        Step::At("g/h", MakeDir),
        Commit,
        Step::At("f/h", MakeDir),
        Commit,
        Step::At("d", MakeDir),
        Step::At("d", Put("a")),
        Commit,
        Step::At("", Remove),
        Commit,
        Step::At("g", Copy(3, "f")),
        Commit,
        Step::At("", Copy(3, "f")),
        Commit,
        Step::At("g", Copy(1, "x")),
        Commit,
        Step::At("f", Copy(1, "f/x")),
        Commit,
        Step::At("g/h", Copy(1, "f")),
        Commit,
        Step::At("f", Copy(1, "f")),
        Commit,
        Step::At("g", Unset),
        Commit,
        Step::At("f/h", Remove),
        Commit,
    ],
    questions: &[Latest, At((2, "d"))],
    told: "1,2,101,102,103,104,105,107,105,102,103,102,101,102,103,latest 2,none,",
};

static OF_THE_ROOT: History = History {
    steps: &[
        Step::At("", MakeDir),
        Commit,
        Step::At("", Put("a")),
        Commit,
        Step::At("", Remove),
        Commit,
        Step::At("", Copy(0, "")),
        Commit,
        Step::At("", Copy(9, "x")),
        Commit,
    ],
    questions: &[],
    told: "105,105,105,105,105,",
};

static ON_THE_WAY_DOWN: History = History {
    steps: &[
        Step::At("f", Put("a")),
        Commit,
        Step::At("f", Put("abc")),
        Commit,
        Step::At("f/x", Put("a")),
        Commit,
        Step::At("g/x", Put("a")),
        Commit,
        Step::At("f/x", Set("1")),
        Commit,
        Step::At("g/x", Unset),
        Commit,
        Step::At("g", Remove),
        Commit,
        Step::At("f/x", Copy(1, "f")),
        Commit,
        Step::At("f/x", Copy(2, "g/x")),
        Commit,
        Step::At("g/f/x", MakeDir),
        Commit,
        Step::At("f/g/x", MakeDir),
        Commit,
    ],
    questions: &[],
    told: "1,2,103,102,103,102,102,103,102,102,103,",
};

fn rows() -> [&'static History; 3] {
    [&IN_ORDER, &OF_THE_ROOT, &ON_THE_WAY_DOWN]
}

#[test]
fn commits_are_refused(rt: HostRuntime) -> Result<(), Fail> {
    for history in rows() {
        is_told(&rt, rt.alloc(), history)?;
    }
    Ok(())
}

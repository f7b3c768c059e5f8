//! How long texts and values, and how deep trees may be.
use crate::questions::{History, is_told};
use crate::steps::Act::{Copy, MakeDir, Put, PutLong, Remove, SetLong};
use crate::steps::Step::{At, Commit, Deep, Nest};
use std::test::Fail;

static LONG_TEXTS: History = History {
    steps: &[
        At("g", PutLong(1048577)),
        Commit,
        At("", PutLong(1048577)),
        Commit,
        At("x/y", PutLong(1048577)),
        Commit,
        At("g", PutLong(1048576)),
        Commit,
    ],
    questions: &[],
    told: "108,105,108,1,",
};

static LONG_VALUES: History = History {
    steps: &[
        At("", SetLong(1048577)),
        Commit,
        At("x/y", SetLong(1048577)),
        Commit,
        At("", SetLong(1048576)),
        Commit,
    ],
    questions: &[],
    told: "108,108,1,",
};

static SIXTY_FOUR_NAMES: History = History {
    steps: &[
        Nest(65),
        Commit,
        Nest(64),
        Commit,
        At("a/b", Copy(1, "a")),
        Commit,
        At("a/b", Copy(1, "a/a")),
        Commit,
        At("b/c", Copy(2, "a")),
        Commit,
        At("c", Copy(2, "a")),
        Commit,
    ],
    questions: &[],
    told: "106,1,106,2,102,3,",
};

static A_SIXTY_FIFTH_NAME: History = History {
    steps: &[
        Nest(64),
        Commit,
        Deep(65, MakeDir),
        Commit,
        Deep(65, Put("a")),
        Commit,
        Deep(65, Remove),
        Commit,
    ],
    questions: &[],
    told: "1,106,106,102,",
};

fn rows() -> [&'static History; 4] {
    [
        &LONG_TEXTS,
        &LONG_VALUES,
        &SIXTY_FOUR_NAMES,
        &A_SIXTY_FIFTH_NAME,
    ]
}

#[test]
fn texts_and_trees_are_bounded(rt: HostRuntime) -> Result<(), Fail> {
    for history in rows() {
        is_told(&rt, rt.alloc(), history)?;
    }
    Ok(())
}

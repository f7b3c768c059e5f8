// Updates and switches, each with the number of its calls and with what the copy has in the end.
use crate::histories::Build::{self, Checkout, Forget, Place, Switch};
use crate::histories::Step::{self, Commit, Copy, MakeDir, Put, Remove, SetProp};

pub(crate) struct Row {
    pub(crate) name: &'static str,
    pub(crate) history: &'static [Step],
    pub(crate) copy: &'static [Build],
    // the path that the copy is switched to, where it isn't updated
    pub(crate) to: Option<&'static str>,
    pub(crate) target: u64,
    pub(crate) calls: u64,
    pub(crate) shown: &'static str,
    pub(crate) stops: &'static [Stop],
}

// A run that is stopped, what it leaves, and the run that follows.
pub(crate) struct Stop {
    pub(crate) late_texts: bool,
    pub(crate) after: u64,
    pub(crate) left: &'static str,
    pub(crate) then: Then,
}

pub(crate) struct Then {
    pub(crate) to: Option<&'static str>,
    pub(crate) target: u64,
    pub(crate) calls: u64,
    pub(crate) shown: &'static str,
}

pub(crate) const CHANGED_FILE: [Step; 4] = [Put("f", "a"), Commit, Put("f", "abc"), Commit];

pub(crate) static ONE_FILE: Row = Row {
    name: "a changed file",
    history: &CHANGED_FILE,
    copy: &[Checkout("", 1)],
    to: None,
    target: 2,
    calls: 7,
    shown: ". dir 2 .\nf file 2 f abc\n",
    stops: &[
        Stop {
            late_texts: false,
            after: 0,
            left: ". dir 1 .\nf file 1 f a\n",
            then: Then {
                to: None,
                target: 2,
                calls: 7,
                shown: ". dir 2 .\nf file 2 f abc\n",
            },
        },
        Stop {
            late_texts: false,
            after: 3,
            left: ". dir 2 . incomplete\nf file 1 f a\n",
            then: Then {
                to: None,
                target: 2,
                calls: 7,
                shown: ". dir 2 .\nf file 2 f abc\n",
            },
        },
    ],
};

static NO_CHANGE: Row = Row {
    name: "no change",
    history: &CHANGED_FILE,
    copy: &[Checkout("", 2)],
    to: None,
    target: 2,
    calls: 4,
    shown: ". dir 2 .\nf file 2 f abc\n",
    stops: &[],
};

const NESTED: [Step; 4] = [MakeDir("d"), MakeDir("d/e"), Put("d/e/x", "a"), Commit];

static NEW_TREE: Row = Row {
    name: "a new tree",
    history: &NESTED,
    copy: &[Checkout("", 0)],
    to: None,
    target: 1,
    calls: 11,
    shown: ". dir 1 .\nd dir 1 d\nd/e dir 1 d/e\nd/e/x file 1 d/e/x a\n",
    stops: &[],
};

static TREE_GONE: Row = Row {
    name: "a tree that goes",
    history: &NESTED,
    copy: &[Checkout("", 1)],
    to: None,
    target: 0,
    calls: 5,
    shown: ". dir 0 .\n",
    stops: &[],
};

pub(crate) static MIXED: Row = Row {
    name: "a file at an older revision",
    history: &[
        MakeDir("d"),
        Put("d/x", "a"),
        Commit,
        Put("d/x", "abc"),
        Commit,
        Put("y", "a"),
        Commit,
        Put("y", "abc"),
        Commit,
    ],
    copy: &[Checkout("", 3), Place("d/x", 1)],
    to: None,
    target: 4,
    calls: 12,
    shown: ". dir 4 .\nd dir 4 d\nd/x file 4 d/x abc\ny file 4 y abc\n",
    stops: &[Stop {
        late_texts: true,
        after: 7,
        left: ". dir 4 .\nd dir 4 d\nd/x file 1 d/x a\ny file 3 y a\n",
        then: Then {
            to: None,
            target: 4,
            calls: 12,
            shown: ". dir 4 .\nd dir 4 d\nd/x file 4 d/x abc\ny file 4 y abc\n",
        },
    }],
};

static PROPERTIES: Row = Row {
    name: "properties",
    history: &[
        MakeDir("d"),
        SetProp("d", "a", Some("1")),
        SetProp("d", "b", Some("2")),
        SetProp("d", "c", Some("3")),
        Commit,
        SetProp("d", "a", None),
        SetProp("d", "b", Some("9")),
        SetProp("d", "d", Some("4")),
        Commit,
    ],
    copy: &[Checkout("", 1)],
    to: None,
    target: 2,
    calls: 9,
    shown: ". dir 2 .\nd dir 2 d\nd prop b 9\nd prop c 3\nd prop d 4\n",
    stops: &[],
};

pub(crate) static OTHER_PROPERTY: Row = Row {
    name: "another property",
    history: &[
        MakeDir("d"),
        SetProp("d", "p", Some("1")),
        Commit,
        SetProp("d", "p", None),
        SetProp("d", "q", Some("2")),
        Commit,
    ],
    copy: &[Checkout("", 1)],
    to: None,
    target: 2,
    calls: 8,
    shown: ". dir 2 .\nd dir 2 d\nd prop q 2\n",
    stops: &[Stop {
        late_texts: false,
        after: 5,
        left: ". dir 2 . incomplete\nd dir 2 d incomplete\nd prop p 1\n",
        then: Then {
            to: None,
            target: 2,
            calls: 7,
            shown: ". dir 2 .\nd dir 2 d\nd prop q 2\n",
        },
    }],
};

static FORGOTTEN: Row = Row {
    name: "a forgotten file",
    history: &[MakeDir("d"), Put("d/x", "abc"), Commit],
    copy: &[Checkout("", 1), Forget("d/x")],
    to: None,
    target: 1,
    calls: 9,
    shown: ". dir 1 .\nd dir 1 d\nd/x file 1 d/x abc\n",
    stops: &[],
};

static OTHER_KIND: Row = Row {
    name: "a directory in the place of a file",
    history: &[Put("f", "a"), Commit, Remove("f"), MakeDir("f"), Commit],
    copy: &[Checkout("", 1)],
    to: None,
    target: 2,
    calls: 7,
    shown: ". dir 2 .\nf dir 2 f\n",
    stops: &[],
};

pub(crate) static SWITCHED: Row = Row {
    name: "a switched directory",
    history: &[
        MakeDir("a"),
        Put("a/x", "a"),
        MakeDir("b"),
        Put("b/y", "a"),
        Commit,
        Put("a/x", "abc"),
        Put("b/y", "abc"),
        Commit,
    ],
    copy: &[Checkout("", 1), Switch("a", "b", 1)],
    to: None,
    target: 2,
    calls: 14,
    shown: ". dir 2 .\na dir 2 b\na/y file 2 b/y abc\nb dir 2 b\nb/y file 2 b/y abc\n",
    stops: &[Stop {
        late_texts: false,
        after: 4,
        left: ". dir 2 . incomplete\na dir 2 b incomplete\na/y file 1 b/y a\nb dir 1 b\nb/y file 1 b/y a\n",
        then: Then {
            to: None,
            target: 2,
            calls: 14,
            shown: ". dir 2 .\na dir 2 b\na/y file 2 b/y abc\nb dir 2 b\nb/y file 2 b/y abc\n",
        },
    }],
};

pub(crate) static SWITCH_GONE: Row = Row {
    name: "a switched directory whose path is gone",
    history: &[
        MakeDir("a"),
        Put("a/x", "a"),
        MakeDir("b"),
        Put("b/y", "a"),
        Commit,
        Remove("b"),
        Commit,
    ],
    copy: &[Checkout("", 1), Switch("a", "b", 1)],
    to: None,
    target: 2,
    calls: 11,
    shown: ". dir 2 .\na dir 2 a\na/x file 2 a/x a\n",
    stops: &[Stop {
        late_texts: false,
        after: 3,
        left: ". dir 2 . incomplete\nb dir 1 b\nb/y file 1 b/y a\n",
        then: Then {
            to: None,
            target: 2,
            calls: 10,
            shown: ". dir 2 .\na dir 2 a\na/x file 2 a/x a\n",
        },
    }],
};

pub(crate) static REPLACED: Row = Row {
    name: "a switched directory below a replaced one",
    history: &[
        MakeDir("d"),
        MakeDir("d/s"),
        MakeDir("b"),
        Put("b/y", "a"),
        Commit,
        Remove("d"),
        MakeDir("d"),
        MakeDir("d/s"),
        Commit,
    ],
    copy: &[Checkout("", 1), Switch("d/s", "b", 1)],
    to: None,
    target: 2,
    calls: 9,
    shown: ". dir 2 .\nb dir 2 b\nb/y file 2 b/y a\nd dir 2 d\nd/s dir 2 d/s\n",
    stops: &[
        Stop {
            late_texts: false,
            after: 4,
            left: ". dir 2 . incomplete\nb dir 1 b\nb/y file 1 b/y a\nd dir 2 d incomplete\n",
            then: Then {
                to: None,
                target: 2,
                calls: 8,
                shown: ". dir 2 .\nb dir 2 b\nb/y file 2 b/y a\nd dir 2 d\nd/s dir 2 d/s\n",
            },
        },
        // back to where it came from
        Stop {
            late_texts: false,
            after: 4,
            left: ". dir 2 . incomplete\nb dir 1 b\nb/y file 1 b/y a\nd dir 2 d incomplete\n",
            then: Then {
                to: None,
                target: 1,
                calls: 9,
                shown: ". dir 1 .\nb dir 1 b\nb/y file 1 b/y a\nd dir 1 d\nd/s dir 1 d/s\n",
            },
        },
    ],
};

static SWITCHED_TO_ROOT: Row = Row {
    name: "a directory switched to the root",
    history: &[MakeDir("a"), Put("f", "a"), Commit, Put("f", "abc"), Commit],
    copy: &[Checkout("", 1), Switch("a", "", 1)],
    to: None,
    target: 2,
    calls: 12,
    shown: ". dir 2 .\na dir 2 .\na/a dir 2 a\na/f file 2 f abc\nf file 2 f abc\n",
    stops: &[],
};

static COPIED_OVER: Row = Row {
    name: "a directory copied over itself",
    history: &[
        MakeDir("d"),
        Put("d/x", "a"),
        Commit,
        Remove("d"),
        Copy(1, "d", "d"),
        Put("d/x", "abc"),
        Commit,
    ],
    copy: &[Checkout("", 1)],
    to: None,
    target: 2,
    calls: 9,
    shown: ". dir 2 .\nd dir 2 d\nd/x file 2 d/x abc\n",
    stops: &[],
};

pub(crate) static EMPTY_FILE: Row = Row {
    name: "an empty file",
    history: &[Put("f", ""), Commit],
    copy: &[Checkout("", 0)],
    to: None,
    target: 1,
    calls: 7,
    shown: ". dir 1 .\nf file 1 f \"\"\n",
    stops: &[
        Stop {
            late_texts: false,
            after: 3,
            left: ". dir 1 . incomplete\nf not-present\n",
            then: Then {
                to: None,
                target: 1,
                calls: 7,
                shown: ". dir 1 .\nf file 1 f \"\"\n",
            },
        },
        Stop {
            late_texts: true,
            after: 4,
            left: ". dir 1 .\nf not-present\n",
            then: Then {
                to: None,
                target: 1,
                calls: 7,
                shown: ". dir 1 .\nf file 1 f \"\"\n",
            },
        },
    ],
};

// a branch, with a change in it; in revision 4 what it was made from is gone
pub(crate) const BRANCH: [Step; 12] = [
    MakeDir("t"),
    MakeDir("t/d"),
    MakeDir("e"),
    Put("t/f", "a"),
    Put("t/d/x", "a"),
    Commit,
    Copy(1, "t", "b"),
    Commit,
    Put("b/f", "abc"),
    Commit,
    Remove("t"),
    Commit,
];

pub(crate) static WHOLE_COPY: Row = Row {
    name: "a whole copy",
    history: &BRANCH,
    copy: &[Checkout("t", 1)],
    to: Some("b"),
    target: 3,
    calls: 7,
    shown: ". dir 3 b\nd dir 3 b/d\nd/x file 3 b/d/x a\nf file 3 b/f abc\n",
    stops: &[
        Stop {
            late_texts: false,
            after: 3,
            left: ". dir 3 b incomplete\nd dir 1 t/d\nd/x file 1 t/d/x a\nf file 1 t/f a\n",
            then: Then {
                to: Some("b"),
                target: 3,
                calls: 7,
                shown: ". dir 3 b\nd dir 3 b/d\nd/x file 3 b/d/x a\nf file 3 b/f abc\n",
            },
        },
        // an update follows each path where it is
        Stop {
            late_texts: false,
            after: 3,
            left: ". dir 3 b incomplete\nd dir 1 t/d\nd/x file 1 t/d/x a\nf file 1 t/f a\n",
            then: Then {
                to: None,
                target: 3,
                calls: 4,
                shown: ". dir 3 b\nd dir 3 t/d\nd/x file 3 t/d/x a\nf file 3 t/f a\n",
            },
        },
    ],
};

static WHOLE_COPY_SWITCHED_BELOW: Row = Row {
    name: "a whole copy with a switched directory",
    history: &BRANCH,
    copy: &[Checkout("t", 1), Switch("d", "e", 1)],
    to: Some("b"),
    target: 3,
    calls: 13,
    shown: ". dir 3 b\nd dir 3 b/d\nd/x file 3 b/d/x a\nf file 3 b/f abc\n",
    stops: &[],
};

// Each row is a static of its own, and named here alone: a function that names a table is proved with all its contents, at each step.
pub(crate) fn rows() -> [&'static Row; 17] {
    [
        &ONE_FILE,
        &NO_CHANGE,
        &NEW_TREE,
        &TREE_GONE,
        &MIXED,
        &PROPERTIES,
        &OTHER_PROPERTY,
        &FORGOTTEN,
        &OTHER_KIND,
        &SWITCHED,
        &SWITCH_GONE,
        &REPLACED,
        &SWITCHED_TO_ROOT,
        &COPIED_OVER,
        &EMPTY_FILE,
        &WHOLE_COPY,
        &WHOLE_COPY_SWITCHED_BELOW,
    ]
}

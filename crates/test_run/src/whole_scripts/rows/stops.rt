// Updates and switches that are stopped after each number of calls, and then made again to their end.
use crate::whole_scripts::rows::links::BRANCHED;
use crate::whole_scripts::tables::{Part, TWO_REVISIONS};

// A run after some lines, how many calls it has, and what `show` prints at its end.
pub(crate) struct Stop {
    pub(crate) before: Part,
    pub(crate) run: &'static str,
    pub(crate) calls: u64,
    pub(crate) shown: &'static str,
}

static STOPS: [Stop; 15] = [
    // a file changes
    Stop {
        before: TWO_REVISIONS,
        run: "update 2",
        calls: 7,
        shown: ". dir 2 .\nf file 2 f abc\n",
    },
    // nothing does
    Stop {
        before: (
            "put f a\ncommit\nput f abc\ncommit\ncheckout 2\n",
            "committed 1\ncommitted 2\nok\n",
        ),
        run: "update 2",
        calls: 4,
        shown: ". dir 2 .\nf file 2 f abc\n",
    },
    // a tree comes, and one goes
    Stop {
        before: (
            "mkdir d\nmkdir d/e\nput d/e/x a\ncommit\ncheckout 0\n",
            "committed 1\nok\n",
        ),
        run: "update 1",
        calls: 11,
        shown: ". dir 1 .\nd dir 1 d\nd/e dir 1 d/e\nd/e/x file 1 d/e/x a\n",
    },
    Stop {
        before: (
            "mkdir d\nmkdir d/e\nput d/e/x a\ncommit\ncheckout 1\n",
            "committed 1\nok\n",
        ),
        run: "update 0",
        calls: 5,
        shown: ". dir 0 .\n",
    },
    // nodes of two revisions
    Stop {
        before: (
            "mkdir d\nput d/x a\ncommit\nput d/x abc\ncommit\nput y a\ncommit\nput y abc\ncommit\ncheckout 3\nplace d/x 1\n",
            "committed 1\ncommitted 2\ncommitted 3\ncommitted 4\nok\nok\n",
        ),
        run: "update 4",
        calls: 12,
        shown: ". dir 4 .\nd dir 4 d\nd/x file 4 d/x abc\ny file 4 y abc\n",
    },
    // properties
    Stop {
        before: (
            "mkdir d\nprop d a 1\nprop d b 2\nprop d c 3\ncommit\nunprop d a\nprop d b 9\nprop d d 4\ncommit\ncheckout 1\n",
            "committed 1\ncommitted 2\nok\n",
        ),
        run: "update 2",
        calls: 9,
        shown: ". dir 2 .\nd dir 2 d\nd prop b 9\nd prop c 3\nd prop d 4\n",
    },
    // what was forgotten
    Stop {
        before: (
            "mkdir d\nput d/x abc\ncommit\ncheckout 1\nforget d/x\n",
            "committed 1\nok\nok\n",
        ),
        run: "update 1",
        calls: 9,
        shown: ". dir 1 .\nd dir 1 d\nd/x file 1 d/x abc\n",
    },
    // another kind
    Stop {
        before: (
            "put f a\ncommit\nremove f\nmkdir f\ncommit\ncheckout 1\n",
            "committed 1\ncommitted 2\nok\n",
        ),
        run: "update 2",
        calls: 7,
        shown: ". dir 2 .\nf dir 2 f\n",
    },
    // a switched directory, one whose target is gone, one below what is replaced, and one that shows the root
    Stop {
        before: (
            "mkdir a\nput a/x a\nmkdir b\nput b/y a\ncommit\nput a/x abc\nput b/y abc\ncommit\ncheckout 1\nswitch a b 1\n",
            "committed 1\ncommitted 2\nok\nok\n",
        ),
        run: "update 2",
        calls: 14,
        shown: ". dir 2 .\na dir 2 b\na/y file 2 b/y abc\nb dir 2 b\nb/y file 2 b/y abc\n",
    },
    Stop {
        before: (
            "mkdir a\nput a/x a\nmkdir b\nput b/y a\ncommit\nremove b\ncommit\ncheckout 1\nswitch a b 1\n",
            "committed 1\ncommitted 2\nok\nok\n",
        ),
        run: "update 2",
        calls: 11,
        shown: ". dir 2 .\na dir 2 a\na/x file 2 a/x a\n",
    },
    Stop {
        before: (
            "mkdir d\nmkdir d/s\nmkdir b\nput b/y a\ncommit\nremove d\nmkdir d\nmkdir d/s\ncommit\ncheckout 1\nswitch d/s b 1\n",
            "committed 1\ncommitted 2\nok\nok\n",
        ),
        run: "update 2",
        calls: 9,
        shown: ". dir 2 .\nb dir 2 b\nb/y file 2 b/y a\nd dir 2 d\nd/s dir 2 d/s\n",
    },
    Stop {
        before: (
            "mkdir a\nput f a\ncommit\nput f abc\ncommit\ncheckout 1\nswitch a . 1\n",
            "committed 1\ncommitted 2\nok\nok\n",
        ),
        run: "update 2",
        calls: 12,
        shown: ". dir 2 .\na dir 2 .\na/a dir 2 a\na/f file 2 f abc\nf file 2 f abc\n",
    },
    // a directory that was put back
    Stop {
        before: (
            "mkdir d\nput d/x a\ncommit\nremove d\ncopy 1 d d\nput d/x abc\ncommit\ncheckout 1\n",
            "committed 1\ncommitted 2\nok\n",
        ),
        run: "update 2",
        calls: 9,
        shown: ". dir 2 .\nd dir 2 d\nd/x file 2 d/x abc\n",
    },
    // an empty file
    Stop {
        before: ("put f \"\"\ncommit\ncheckout 0\n", "committed 1\nok\n"),
        run: "update 1",
        calls: 7,
        shown: ". dir 1 .\nf file 1 f \"\"\n",
    },
    // the whole copy is switched
    Stop {
        before: BRANCHED,
        run: "switch-to b 3",
        calls: 7,
        shown: ". dir 3 b\nd dir 3 b/d\nd/x file 3 b/d/x a\nf file 3 b/f abc\n",
    },
];

// By a call: a function that names the table itself is proved with all its contents, at each step.
pub(crate) fn stops() -> &'static [Stop] {
    &STOPS
}

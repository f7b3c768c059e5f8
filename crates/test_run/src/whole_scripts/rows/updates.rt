// How many calls the edit of an update has: one for the target's number, one to open and one to close each directory that is touched, one to
// add and one to close each that is new, for each touched or new file one to open or add it, one for its text where that is new or another,
// and one to close it, one for each property that changes, one for each entry that goes, and one for the end.
use crate::whole_scripts::tables::{NOTHING, Table};

// Files and directories that come, go and change.
pub(crate) static TREES: Table = Table {
    before: NOTHING,
    after: NOTHING,
    rows: &[
        // a removed file goes, and comes back
        // forth: target, open, delete, close, end; back: target, open, add, text, close, close, end
        (
            "\
put f a
commit
remove f
commit
checkout 1
update 2
show
update 1
show
",
            "\
committed 1
committed 2
ok
closed 5
. dir 2 .
closed 7
. dir 1 .
f file 1 f a
",
        ),
        // a text that is put again doesn't travel
        // target, open, open, close, close, end
        (
            "\
put f a
commit
put f a
commit
checkout 1
update 2
show
",
            "\
committed 1
committed 2
ok
closed 6
. dir 2 .
f file 2 f a
",
        ),
        // what is beside a change stays untouched
        // target, open, open d, add d/s, close, close, close, end: nothing below e is touched
        (
            "\
mkdir d
put d/x a
mkdir e
put e/y a
commit
mkdir d/s
commit
checkout 1
update 2
show
",
            "\
committed 1
committed 2
ok
closed 8
. dir 2 .
d dir 2 d
d/s dir 2 d/s
d/x file 2 d/x a
e dir 2 e
e/y file 2 e/y a
",
        ),
        // a directory becomes a file, and a directory again
        // forth: target, open, delete, add, text, close, close, end; back: target, open, delete, add d, add d/s, add d/s/x, text, close four times, end
        (
            "\
mkdir d
mkdir d/s
put d/s/x a
commit
remove d
put d abc
commit
checkout 1
update 2
show
update 1
show
",
            "\
committed 1
committed 2
ok
closed 8
. dir 2 .
d file 2 d abc
closed 12
. dir 1 .
d dir 1 d
d/s dir 1 d/s
d/s/x file 1 d/s/x a
",
        ),
        // a directory that is made again is another one
        // target, open, delete, add, close, close, end
        (
            "\
mkdir d
put d/x a
commit
remove d
mkdir d
commit
checkout 1
update 2
show
",
            "\
committed 1
committed 2
ok
closed 7
. dir 2 .
d dir 2 d
",
        ),
        // several revisions are one step
        // target, open, open a, open a/b, text, close, close, delete a-b, add c, text, close, close, end
        (
            "\
put a-b 1
mkdir a
put a/b 2
commit
put a/b 3
put c 4
commit
remove a-b
commit
commit
checkout 1
update 4
show
",
            "\
committed 1
committed 2
committed 3
committed 4
ok
closed 13
. dir 4 .
a dir 4 a
a/b file 4 a/b 3
c file 4 c 4
",
        ),
    ],
};

// Properties that are set, changed and removed.
pub(crate) static PROPERTIES: Table = Table {
    before: NOTHING,
    after: NOTHING,
    rows: &[
        // properties are set, changed and removed
        // target, open, open d, one for each of three properties, close, close, end
        (
            "\
mkdir d
prop d a 1
prop d b 2
prop d c 3
commit
unprop d a
prop d b 9
prop d d 4
commit
checkout 1
show
update 2
show
",
            "\
committed 1
committed 2
ok
. dir 1 .
d dir 1 d
d prop a 1
d prop b 2
d prop c 3
closed 9
. dir 2 .
d dir 2 d
d prop b 9
d prop c 3
d prop d 4
",
        ),
        // they come and go with their nodes
        // forth: target, open, property, add d, property, add d/f, property, text, close, close, close, end; back: target, open, property, delete, close, end
        (
            "\
prop . p 1
mkdir d
prop d q 2
put d/f a
prop d/f r 3
commit
checkout 0
update 1
show
update 0
show
",
            "\
committed 1
ok
closed 12
. dir 1 .
. prop p 1
d dir 1 d
d prop q 2
d/f file 1 d/f a
d/f prop r 3
closed 6
. dir 0 .
",
        ),
        // what doesn't differ doesn't travel
        // a new text, with the old properties; then twice a file made anew that differs in nothing
        (
            "\
put f a
prop f p 1
commit
put f abc
commit
prop f p 1
commit
unprop f q
commit
checkout 1
update 2
update 3
update 4
show
",
            "\
committed 1
committed 2
committed 3
committed 4
ok
closed 7
closed 6
closed 6
. dir 4 .
f file 4 f abc
f prop p 1
",
        ),
    ],
};

// A copy is the source's own node, so it keeps its line: what it replaces is the same file or directory where the lines agree.
pub(crate) static COPIES: Table = Table {
    before: NOTHING,
    after: NOTHING,
    rows: &[
        // both sides of a copy change
        // first target, open, add e, add e/x, text, close, close, close, end; then target, open, twice the directory, its file, text, close, close, at last close, end
        (
            "\
mkdir d
put d/x a
commit
copy 1 d e
commit
put e/x abc
commit
put d/x b
commit
checkout 1
update 2
update 4
show
",
            "\
committed 1
committed 2
committed 3
committed 4
ok
closed 9
closed 14
. dir 4 .
d dir 4 d
d/x file 4 d/x b
e dir 4 e
e/x file 4 e/x abc
",
        ),
        // a directory is copied into itself, twice
        // target, open, open d; add d/e, d/e/f and d/e/f/e, each with a file x of three calls and its close; close d, close, end
        (
            "\
mkdir d
put d/x a
commit
copy 1 d d/e
commit
copy 2 d d/e/f
commit
checkout 1
update 3
show
",
            "\
committed 1
committed 2
committed 3
ok
closed 21
. dir 3 .
d dir 3 d
d/e dir 3 d/e
d/e/f dir 3 d/e/f
d/e/f/e dir 3 d/e/f/e
d/e/f/e/x file 3 d/e/f/e/x a
d/e/f/x file 3 d/e/f/x a
d/e/x file 3 d/e/x a
d/x file 3 d/x a
",
        ),
        // a file that came back as it was is not reported, unless the copy has none
        // the file of revision 1 is that of revision 3, so nothing is reported for it; it comes anew where the copy has none
        (
            "\
put f a
commit
remove f
commit
copy 1 f f
commit
checkout 1
update 3
show
update 2
update 3
show
",
            "\
committed 1
committed 2
committed 3
ok
closed 4
. dir 3 .
f file 3 f a
closed 5
closed 7
. dir 3 .
f file 3 f a
",
        ),
        // a copy of another line replaces what was there
        // target, open, then for d and f each delete, add, text, close; close, end
        (
            "\
put f a
put g a
mkdir d
commit
remove f
copy 1 g f
remove d
copy 1 g d
commit
checkout 1
update 2
show
",
            "\
committed 1
committed 2
ok
closed 12
. dir 2 .
d file 2 d a
f file 2 f a
g file 2 g a
",
        ),
        // the root is copied, properties included
        (
            "\
put f a
prop f p 1
prop . q 2
commit
copy 1 . d
unprop d/f p
commit
checkout 2
show
",
            "\
committed 1
committed 2
ok
. dir 2 .
. prop q 2
d dir 2 d
d prop q 2
d/f file 2 d/f a
f file 2 f a
f prop p 1
",
        ),
    ],
};

// Copies whose nodes are of several revisions, or of other paths of the repository.
use crate::whole_scripts::tables::{NOTHING, Part, Table};

pub(crate) static MIXED: Table = Table {
    before: NOTHING,
    after: NOTHING,
    rows: &[
        // two revisions in one copy
        (
            "\
mkdir d
put d/x a
commit
put d/x abc
commit
put y a
commit
put y abc
commit
checkout 3
place d/x 1
show
report
drive 4
drive 4 late
update 4 7 late
show
report
update 4
show
report
",
            "\
committed 1
committed 2
committed 3
committed 4
ok
ok
. dir 3 .
d dir 3 d
d/x file 1 d/x a
y file 3 y a
set . 3
set d/x 1
set_target_revision 4
open_root 3 #0
open_directory d #0 3 #1
open_file d/x #1 1 #2
apply_text #2 0cc175b9c0f1b6a831c399e269772661 abc
close_file #2 900150983cd24fb0d6963f7d28e17f72
close_directory #1
open_file y #0 3 #3
apply_text #3 0cc175b9c0f1b6a831c399e269772661 abc
close_file #3 900150983cd24fb0d6963f7d28e17f72
close_directory #0
close_edit
set_target_revision 4
open_root 3 #0
open_directory d #0 3 #1
open_file d/x #1 1 #2
close_directory #1
open_file y #0 3 #3
close_directory #0
apply_text #2 0cc175b9c0f1b6a831c399e269772661 abc
close_file #2 900150983cd24fb0d6963f7d28e17f72
apply_text #3 0cc175b9c0f1b6a831c399e269772661 abc
close_file #3 900150983cd24fb0d6963f7d28e17f72
close_edit
aborted 7 7 Cancelled
. dir 4 .
d dir 4 d
d/x file 1 d/x a
y file 3 y a
set . 4
set d/x 1
set y 3
closed 12
. dir 4 .
d dir 4 d
d/x file 4 d/x abc
y file 4 y abc
set . 4
",
        ),
        // a directory is updated along the path that it was switched to
        (
            "\
mkdir a
put a/x a
mkdir b
put b/y a
commit
put a/x abc
put b/y abc
commit
checkout 1
switch a b 1
report
drive 2
update 2 4
show
report
update 2
show
",
            "\
committed 1
committed 2
ok
ok
set . 1
link a b 1
set_target_revision 2
open_root 1 #0
open_directory a #0 1 #1
open_file a/y #1 1 #2
apply_text #2 0cc175b9c0f1b6a831c399e269772661 abc
close_file #2 900150983cd24fb0d6963f7d28e17f72
close_directory #1
open_directory b #0 1 #3
open_file b/y #3 1 #4
apply_text #4 0cc175b9c0f1b6a831c399e269772661 abc
close_file #4 900150983cd24fb0d6963f7d28e17f72
close_directory #3
close_directory #0
close_edit
aborted 4 4 Cancelled
. dir 2 . incomplete
a dir 2 b incomplete
a/y file 1 b/y a
b dir 1 b
b/y file 1 b/y a
set . 2 start_empty
link a b 2 start_empty
set a/y 1
set b 1
closed 14
. dir 2 .
a dir 2 b
a/y file 2 b/y abc
b dir 2 b
b/y file 2 b/y abc
",
        ),
        // where what it was switched to is gone, its own path comes back
        (
            "\
mkdir a
put a/x a
mkdir b
put b/y a
commit
remove b
commit
checkout 1
switch a b 1
drive 2
update 2 3
show
report
update 2
show
",
            "\
committed 1
committed 2
ok
ok
set_target_revision 2
open_root 1 #0
delete_entry a 1 #0
add_directory a #0 #1
add_file a/x #1 #2
apply_text #2 - a
close_file #2 0cc175b9c0f1b6a831c399e269772661
close_directory #1
delete_entry b 1 #0
close_directory #0
close_edit
aborted 3 3 Cancelled
. dir 2 . incomplete
b dir 1 b
b/y file 1 b/y a
set . 2 start_empty
set b 1
closed 10
. dir 2 .
a dir 2 a
a/x file 2 a/x a
",
        ),
        // nor is a link followed below what is replaced
        (
            "\
mkdir d
mkdir d/s
mkdir b
put b/y a
commit
remove d
mkdir d
mkdir d/s
commit
checkout 1
switch d/s b 1
drive 2
update 2 4
show
report
drive 2
drive 1
",
            "\
committed 1
committed 2
ok
ok
set_target_revision 2
open_root 1 #0
delete_entry d 1 #0
add_directory d #0 #1
add_directory d/s #1 #2
close_directory #2
close_directory #1
close_directory #0
close_edit
aborted 4 4 Cancelled
. dir 2 . incomplete
b dir 1 b
b/y file 1 b/y a
d dir 2 d incomplete
set . 2 start_empty
set b 1
set d 2 start_empty
set_target_revision 2
open_root 2 #0
open_directory d #0 2 #1
add_directory d/s #1 #2
close_directory #2
close_directory #1
close_directory #0
close_edit
set_target_revision 1
open_root 2 #0
delete_entry d 2 #0
add_directory d #0 #1
add_directory d/s #1 #2
close_directory #2
close_directory #1
close_directory #0
close_edit
",
        ),
        // a directory that shows the root of the repository
        (
            "\
mkdir a
put f a
commit
put f abc
commit
checkout 1
switch a . 1
drive 2
update 2
show
",
            "\
committed 1
committed 2
ok
ok
set_target_revision 2
open_root 1 #0
open_directory a #0 1 #1
open_file a/f #1 1 #2
apply_text #2 0cc175b9c0f1b6a831c399e269772661 abc
close_file #2 900150983cd24fb0d6963f7d28e17f72
close_directory #1
open_file f #0 1 #3
apply_text #3 0cc175b9c0f1b6a831c399e269772661 abc
close_file #3 900150983cd24fb0d6963f7d28e17f72
close_directory #0
close_edit
closed 12
. dir 2 .
a dir 2 .
a/a dir 2 a
a/f file 2 f abc
f file 2 f abc
",
        ),
    ],
};

// A directory `t`, in revision 2 its copy `b`, in which revision 3 changes a file, and a directory `e` of another line.
pub(crate) const BRANCHED: Part = (
    "\
mkdir t
mkdir t/d
mkdir e
put t/f a
put t/d/x a
commit
copy 1 t b
commit
put b/f abc
commit
checkout 1 t
",
    "\
committed 1
committed 2
committed 3
ok
",
);

pub(crate) static WHOLE_SWITCHES: Table = Table {
    before: BRANCHED,
    after: NOTHING,
    rows: &[
        (
            "show\nreport\nswitch-to b 3\nshow\nreport\n",
            "\
. dir 1 t
d dir 1 t/d
d/x file 1 t/d/x a
f file 1 t/f a
root t
set . 1
closed 7
. dir 3 b
d dir 3 b/d
d/x file 3 b/d/x a
f file 3 b/f abc
root b
set . 3
",
        ),
        (
            "switch-to b 3 late\nshow\n",
            "\
closed 7
. dir 3 b
d dir 3 b/d
d/x file 3 b/d/x a
f file 3 b/f abc
",
        ),
        // stopped, and gone on with
        (
            "switch-to b 3 3\nshow\nreport\nswitch-to b 3\nshow\n",
            "\
aborted 3 3 Cancelled
. dir 3 b incomplete
d dir 1 t/d
d/x file 1 t/d/x a
f file 1 t/f a
root b
set . 3 start_empty
link d t/d 1
link f t/f 1
closed 7
. dir 3 b
d dir 3 b/d
d/x file 3 b/d/x a
f file 3 b/f abc
",
        ),
        // an update then keeps the paths that weren't switched yet
        (
            "switch-to b 3 3\nupdate 3\nshow\n",
            "\
aborted 3 3 Cancelled
closed 4
. dir 3 b
d dir 3 t/d
d/x file 3 t/d/x a
f file 3 t/f a
",
        ),
        // no link is followed
        (
            "switch d e 1\nswitch-to b 3\nshow\n",
            "\
ok
closed 13
. dir 3 b
d dir 3 b/d
d/x file 3 b/d/x a
f file 3 b/f abc
",
        ),
        // what leads nowhere
        (
            "switch-to b 1\nswitch-to . 3\nswitch-to t/f 3\nswitch-to e 3\nswitch-to b 9\nswitch-to b 9 0 late\n",
            "\
refused NoRoot
refused OtherRoot
refused OtherRoot
refused OtherRoot
refused NoSuchRevision
refused NoSuchRevision
",
        ),
        (
            "remove t\ncommit\nupdate 4\ndrive 4\ndrive 5\nupdate 5\nshow\n",
            "\
committed 4
refused NoRoot
refused NoRoot
refused NoSuchTarget
refused NoSuchRevision
. dir 1 t
d dir 1 t/d
d/x file 1 t/d/x a
f file 1 t/f a
",
        ),
        (
            "remove t\nmkdir t\ncommit\nupdate 4\ndrive 4\n",
            "committed 4\nrefused OtherRoot\nrefused OtherRoot\n",
        ),
    ],
};
